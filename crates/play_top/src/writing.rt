ghost use Rattle.std.specs.Prelude.{◌≤◌, ◌≡◌, All, IfOk, string_bytes};
ghost use Rattle.std.specs.List.{flat_map};
ghost use Rattle.report_text.specs.Ends.{WritesText};
ghost use Rattle.play_sched.specs.Runs.{IsNumbered};
ghost use Rattle.play_top.specs.Texts.{bad_text, first_journal, hosts_text, made_text, named_text, played_text};
ghost use Rattle.made_script.specs.Sums.{sums_of};

use made_script::{Sums, sums_of, write_summary};
use mid_io::{Sink, write_all};
use play_sched::{Host, Played};
use report_text::{WriteEnd, write_host, write_skips};
use script_text::Bad;
use std::alloc::{AllocError, Global};

/// Writes the journals of the hosts, in ascending numbers, with the results of their commands, and the step lines that were
/// skipped.
pub fn write_played<K: Sink>(alloc: Global, played: &Played, out: &mut K) -> Result<(), WriteEnd>
    requires { All IsNumbered played.now.hosts.items }
    ensures answer { WritesText (K.written out.old) (K.written out.new) (played_text played.now.hosts.items played.now.skips.items) (K.faults out.old) (K.faults out.new) result }
    ensures later { K.faults out.old ≤ K.faults out.new }
{
    if let Err(end) = write_hosts(alloc, &played.hosts, out) {
        return Err(end);
    }
    write_skips(alloc, &played.skips, out)
}

// Writes the hosts with each number in turn.
fn write_hosts<K: Sink>(alloc: Global, hosts: &[Host], out: &mut K) -> Result<(), WriteEnd>
    requires { All IsNumbered hosts.now }
    ensures answer { WritesText (K.written out.old) (K.written out.new) (hosts_text hosts.now) (K.faults out.old) (K.faults out.new) result }
    ensures later { K.faults out.old ≤ K.faults out.new }
{
    for number in 0..64 {
        if let Err(end) = write_named(alloc, hosts, number, out) {
            return Err(end);
        }
    }
    Ok(())
}

// Writes the hosts that have this number.
fn write_named<K: Sink>(
    alloc: Global,
    hosts: &[Host],
    number: u8,
    out: &mut K,
) -> Result<(), WriteEnd>
    ensures answer { WritesText (K.written out.old) (K.written out.new) (flat_map (named_text number) hosts.now) (K.faults out.old) (K.faults out.new) result }
    ensures later { K.faults out.old ≤ K.faults out.new }
{
    for host in hosts {
        if let Err(end) = write_if_named(alloc, host, number, out) {
            return Err(end);
        }
    }
    Ok(())
}

// Writes a host if it has this number.
fn write_if_named<K: Sink>(
    alloc: Global,
    host: &Host,
    number: u8,
    out: &mut K,
) -> Result<(), WriteEnd>
    ensures answer { WritesText (K.written out.old) (K.written out.new) (named_text number host.now) (K.faults out.old) (K.faults out.new) result }
    ensures later { K.faults out.old ≤ K.faults out.new }
{
    let spec = host.spec();
    if spec.no.0 != number {
        return Ok(());
    }
    write_host(alloc, spec.no, spec.cmds.as_slice(), host.journal(), out)
}

/// Writes the summary of so many commands of the first host.
pub fn write_made<K: Sink>(
    alloc: Global,
    count: u32,
    played: &Played,
    out: &mut K,
) -> Result<(), WriteEnd>
    ensures answer { WritesText (K.written out.old) (K.written out.new) (made_text count played.now.hosts.items) (K.faults out.old) (K.faults out.new) result }
    ensures later { K.faults out.old ≤ K.faults out.new }
{
    write_summary(alloc, count, first_sums(&played.hosts), out)
}

fn first_sums(hosts: &[Host]) -> Sums
    ensures { result ≡ sums_of (first_journal hosts.now) }
{
    match hosts.first() {
        Some(host) => sums_of(host.journal()),
        None => sums_of(&[]),
    }
}

/// Writes the line of a bad script.
pub fn write_bad<K: Sink>(alloc: Global, bad: Bad, out: &mut K) -> Result<(), WriteEnd>
    ensures answer { WritesText (K.written out.old) (K.written out.new) (bad_text bad) (K.faults out.old) (K.faults out.new) result }
    ensures later { K.faults out.old ≤ K.faults out.new }
{
    let Ok(line) = bad_line(alloc, bad) else {
        return Err(WriteEnd::NoMemory);
    };
    match write_all(out, line.as_bytes()) {
        Ok(()) => Ok(()),
        Err(_) => Err(WriteEnd::Fault),
    }
}

fn bad_line(alloc: Global, bad: Bad) -> Result<String, AllocError>
    ensures { IfOk result (λ line. string_bytes line ≡ bad_text bad) }
{
    let Bad { line, kind } = bad;
    format!(in alloc; "bad line {line} kind {kind}\n")
}
