ghost use Rattle.std.specs.Prelude.{◌≡◌, ◌≤◌, IfOk, count_by, string_bytes};
ghost use Rattle.mid_base.specs.Answers.{is_good as is_good_answer};
ghost use Rattle.report_text.specs.Ends.{WritesText};
ghost use Rattle.made_script.specs.Sums.{is_good_report, is_retry, is_tick, sums_of, summary_text};

use mid_base::{Answer, DID_OK, Entry, GOOD};
use mid_io::{Sink, write_all};
use report_text::WriteEnd;
use std::alloc::{AllocError, Global};

/// What a journal came to: how many commands were reported with DID_OK and GOOD, how many retries were counted, and how many
/// ticks went by.
#[derive(Clone, Copy, PartialEq, Eq, Debug)]
pub struct Sums {
    pub goods: u64,
    pub retries: u64,
    pub ticks: u64,
}

/// The sums of a journal.
pub fn sums_of(entries: &[Entry]) -> Sums
    ensures { result ≡ sums_of entries.now }
{
    Sums {
        goods: goods(entries),
        retries: retries(entries),
        ticks: ticks(entries),
    }
}

fn goods(entries: &[Entry]) -> u64
    ensures { result ≡ count_by is_good_report entries.now }
{
    entries.iter().filter(|entry| is_good_report(entry)).count() as u64
}

fn retries(entries: &[Entry]) -> u64
    ensures { result ≡ count_by is_retry entries.now }
{
    entries.iter().filter(|entry| is_retry(entry)).count() as u64
}

fn ticks(entries: &[Entry]) -> u64
    ensures { result ≡ count_by is_tick entries.now }
{
    entries.iter().filter(|entry| is_tick(entry)).count() as u64
}

fn is_good_report(entry: &Entry) -> bool
    ensures { result ≡ is_good_report entry.now }
{
    match entry {
        Entry::Told(_, answer) => is_good(answer),
        _ => false,
    }
}

fn is_good(answer: &Answer) -> bool
    ensures { result ≡ is_good_answer answer.now }
{
    answer.host == DID_OK && answer.status == GOOD
}

fn is_retry(entry: &Entry) -> bool
    ensures { result ≡ is_retry entry.now }
{
    matches!(entry, Entry::Again(_, true))
}

fn is_tick(entry: &Entry) -> bool
    ensures { result ≡ is_tick entry.now }
{
    matches!(entry, Entry::Tick)
}

/// Writes the line `commands N good G retries R ticks K` of so many commands, and the line `end`.
pub fn write_summary<K: Sink>(
    alloc: Global,
    count: u32,
    sums: Sums,
    out: &mut K,
) -> Result<(), WriteEnd>
    ensures answer { WritesText (K.written out.old) (K.written out.new) (summary_text count sums) (K.faults out.old) (K.faults out.new) result }
    ensures later { K.faults out.old ≤ K.faults out.new }
{
    let Ok(lines) = summary(alloc, count, sums) else {
        return Err(WriteEnd::NoMemory);
    };
    match write_all(out, lines.as_bytes()) {
        Ok(()) => Ok(()),
        Err(_) => Err(WriteEnd::Fault),
    }
}

fn summary(alloc: Global, count: u32, sums: Sums) -> Result<String, AllocError>
    ensures { IfOk result (λ lines. string_bytes lines ≡ summary_text count sums) }
{
    let Sums {
        goods,
        retries,
        ticks,
    } = sums;
    format!(in alloc; "commands {count} good {goods} retries {retries} ticks {ticks}\nend\n")
}
