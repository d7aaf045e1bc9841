ghost use Rattle.std.specs.Prelude.{◌≡◌, ℕ, ◌≤◌, ◌⊎◌, [], true, false, None, Some, IfOk, map, string_bytes};
ghost use Rattle.mid_io.specs.Causes.{Rose};
ghost use Rattle.std.specs.Io.KnownBytes.{Appends};
ghost use Rattle.mid_io.specs.Whole.{IsCutShort, TakesAtMost};
ghost use Rattle.made_script.specs.Made.{made as made_of};
ghost use Rattle.play_sched.specs.Played.{Ran};
ghost use Rattle.play_words.specs.Words.{mode_of};
ghost use Rattle.play_words.specs.declared.mode.Mode.TheVariants.{Make};
ghost use Rattle.play_top.specs.Reading.{most_bytes};
ghost use Rattle.play_top.specs.Play.{IsPlayedRun, IsBadRun, IsCutOff, IsMadeRun, IsMadeCut, IsDone, IsCutBy, asks_for_script};
ghost use Rattle.play_top.specs.Texts.{usage_text};

use crate::reading::{Unread, read_script};
use crate::status::Status;
use crate::writing::{write_bad, write_made, write_played};
use made_script::{made, made_scripts_are_playable};
use mid_base::NoMemory;
use mid_io::{Sink, Source, write_all};
use play_sched::{Played, play_script};
use play_words::{Mode, listed};
use report_text::WriteEnd;
use std::alloc::Global;

/// Plays the script of a source and writes the journals of its hosts, or plays a script of so many commands that it makes itself and
/// writes its summary.
///
/// `words` are those of the command line without the program's name, as `play_words::listed` knows them: none for the script, or
/// `--make N` or `--make=N` for N commands, 1 to 20,000, each with or without a last word `--`.
///
/// Each host's lower layer is a simulated adapter with the planned faults of that host. First each target that has a device with
/// the flag `scan` is scanned once, which says in which state such a device starts. Then the script is played by its step lines,
/// in their order, each on the host that it names. One that ends with `end drain` is then run on in rounds, until each host is
/// drained or the rounds that it may take are made. What is written is, for each host in ascending numbers, a line
/// `host H`, a line `TICK TEXT` for each entry of its journal and a line `result ..` for each of its commands; then a line
/// `skipped LINE WHY` for each step line that wasn't enabled, and the line `end`.
///
/// A script that is made (`made_script::made`) is drained; nothing is read for it, and what is written is the line
/// `commands N good G retries R ticks K` and the line `end`: how many commands were reported GOOD, how many retries were counted,
/// and how many ticks went by.
///
/// The status says what came of it; where memory runs out it is 7, whatever else holds.
pub fn play<S: Source, K: Sink>(alloc: Global, words: &[String], src: &mut S, out: &mut K) -> Status
    ensures ok { result.0 ≡ 0 → IsDone (mode_of (map string_bytes words.now)) src.old src.new (S.left src.old) (S.left src.new) (K.written out.old) (K.written out.new) }
    ensures short { result.0 ≡ 6 → (asks_for_script (map string_bytes words.now) ≡ true) × IsPlayedRun true (S.left src.old) (S.left src.new) (K.written out.old) (K.written out.new) }
    ensures usage { result.0 ≡ 2 → (mode_of (map string_bytes words.now) ≡ None) × (src.new ≡ src.old) × Appends (K.written out.old) (K.written out.new) usage_text }
    ensures bad { result.0 ≡ 3 → (asks_for_script (map string_bytes words.now) ≡ true) × IsBadRun (S.left src.old) (K.written out.old) (K.written out.new) }
    ensures read { result.0 ≡ 4 → (asks_for_script (map string_bytes words.now) ≡ true) × Rose (S.faults src.old) (S.faults src.new) × (out.new ≡ out.old) }
    ensures write { result.0 ≡ 5 → Rose (K.faults out.old) (K.faults out.new) }
    ensures cut_usage { result.0 ≡ 5 → mode_of (map string_bytes words.now) ≡ None → (src.new ≡ src.old) × IsCutShort (K.written out.old) (K.written out.new) usage_text }
    ensures cut { result.0 ≡ 5 → asks_for_script (map string_bytes words.now) ≡ true → IsCutOff (S.left src.old) (K.written out.old) (K.written out.new) }
    ensures cut_made { result.0 ≡ 5 → (count : ℕ) → mode_of (map string_bytes words.now) ≡ Some (Make count) → (src.new ≡ src.old) × IsMadeCut count (K.written out.old) (K.written out.new) }
    ensures memory { result.0 ≡ 7 → IsCutBy (mode_of (map string_bytes words.now)) src.old src.new (S.left src.old) (K.written out.old) (K.written out.new) }
    ensures statuses { (result.0 ≡ 0) ⊎ (result.0 ≡ 2) ⊎ (result.0 ≡ 3) ⊎ (result.0 ≡ 4) ⊎ (result.0 ≡ 5) ⊎ (result.0 ≡ 6) ⊎ (result.0 ≡ 7) }
    ensures bound { TakesAtMost (S.left src.old) (S.left src.new) most_bytes }
{
    match listed(words) {
        Some(Mode::Script) => play_source(alloc, src, out),
        Some(Mode::Make(count)) => play_made(alloc, count, out),
        None => refuse(out),
    }
}

// Writes how the program is called.
fn refuse<K: Sink>(out: &mut K) -> Status
    ensures usage { result.0 ≡ 2 → Appends (K.written out.old) (K.written out.new) usage_text }
    ensures write { result.0 ≡ 5 → Rose (K.faults out.old) (K.faults out.new) }
    ensures cut { result.0 ≡ 5 → IsCutShort (K.written out.old) (K.written out.new) usage_text }
    ensures statuses { (result.0 ≡ 2) ⊎ (result.0 ≡ 5) }
{
    match write_all(out, b"usage\n") {
        Ok(()) => Status(2),
        Err(_) => Status(5),
    }
}

// Plays the script of a source.
fn play_source<S: Source, K: Sink>(alloc: Global, src: &mut S, out: &mut K) -> Status
    ensures ok { result.0 ≡ 0 → IsPlayedRun false (S.left src.old) (S.left src.new) (K.written out.old) (K.written out.new) }
    ensures short { result.0 ≡ 6 → IsPlayedRun true (S.left src.old) (S.left src.new) (K.written out.old) (K.written out.new) }
    ensures bad { result.0 ≡ 3 → IsBadRun (S.left src.old) (K.written out.old) (K.written out.new) }
    ensures read { result.0 ≡ 4 → Rose (S.faults src.old) (S.faults src.new) × (out.new ≡ out.old) }
    ensures write { result.0 ≡ 5 → Rose (K.faults out.old) (K.faults out.new) }
    ensures cut { result.0 ≡ 5 → IsCutOff (S.left src.old) (K.written out.old) (K.written out.new) }
    ensures memory { result.0 ≡ 7 → IsCutOff (S.left src.old) (K.written out.old) (K.written out.new) }
    ensures statuses { (result.0 ≡ 0) ⊎ (result.0 ≡ 3) ⊎ (result.0 ≡ 4) ⊎ (result.0 ≡ 5) ⊎ (result.0 ≡ 6) ⊎ (result.0 ≡ 7) }
    ensures bound { TakesAtMost (S.left src.old) (S.left src.new) most_bytes }
{
    match read_script(alloc, src) {
        Ok(script) => match play_script(alloc, script) {
            Ok(played) => match write_played(alloc, &played, out) {
                Ok(()) if played.short => Status(6),
                Ok(()) => Status(0),
                Err(WriteEnd::Fault) => Status(5),
                Err(WriteEnd::NoMemory) => Status(7),
            },
            Err(_) => Status(7),
        },
        Err(Unread::Bad(bad)) => match write_bad(alloc, bad, out) {
            Ok(()) => Status(3),
            Err(WriteEnd::Fault) => Status(5),
            Err(WriteEnd::NoMemory) => Status(7),
        },
        Err(Unread::Fault) => Status(4),
        Err(Unread::NoMemory) => Status(7),
    }
}

// Plays the script that so many commands ask for, and writes its summary.
fn play_made<K: Sink>(alloc: Global, count: u32, out: &mut K) -> Status
    requires { count ≤ 65536 }
    ensures ok { result.0 ≡ 0 → IsMadeRun count (K.written out.old) (K.written out.new) }
    ensures write { result.0 ≡ 5 → Rose (K.faults out.old) (K.faults out.new) }
    ensures cut { result.0 ≡ 5 → IsMadeCut count (K.written out.old) (K.written out.new) }
    ensures memory { result.0 ≡ 7 → IsMadeCut count (K.written out.old) (K.written out.new) }
    ensures statuses { (result.0 ≡ 0) ⊎ (result.0 ≡ 5) ⊎ (result.0 ≡ 7) }
{
    match play_count(alloc, count) {
        Ok(played) => match write_made(alloc, count, &played, out) {
            Ok(()) => Status(0),
            Err(WriteEnd::Fault) => Status(5),
            Err(WriteEnd::NoMemory) => Status(7),
        },
        Err(_) => Status(7),
    }
}

fn play_count(alloc: Global, count: u32) -> Result<Played, NoMemory>
    requires { count ≤ 65536 }
    ensures { IfOk result (λ played. Ran (made_of count) played.hosts.items played.skips.items played.short) }
{
    made_scripts_are_playable();
    match made(alloc, count) {
        Ok(script) => match play_script(alloc, script) {
            Ok(played) => Ok(played),
            Err(_) => Err(NoMemory),
        },
        Err(_) => Err(NoMemory),
    }
}
