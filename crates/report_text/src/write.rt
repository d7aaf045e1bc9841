ghost use Rattle.std.specs.Prelude.{◌≡◌, ◌≤◌, ◌+◌, ◌<◌, ◌^◌, map, reverse, IfOk};
ghost use Rattle.std.specs.List.{flat_map};
ghost use Rattle.report_text.specs.Ends.{WritesText};
ghost use Rattle.report_text.specs.Tables.{gathered_line, tick_after};
ghost use Rattle.report_text.specs.Text.{entry_lines, host_text, ids_of, skips_text};

use crate::gather::{Results, report_in};
use crate::lines::{WriteEnd, put, put_entry, put_host, put_result, put_skip};
use mid_base::{CmdSpec, Entry, HostNo, Why};
use mid_io::Sink;
use std::alloc::{AllocError, Global};

// The ids of commands, in their order.
fn ids(alloc: Global, cmds: &[CmdSpec]) -> Result<Vec<u32>, AllocError>
    ensures { IfOk result (λ ids. ids.items ≡ map (λ k. k.id.0) cmds.now) }
{
    cmds.iter().map(|k| k.id.0).collect(alloc)
}

// The ids of commands, ascending.
fn ids_in_order(alloc: Global, cmds: &[CmdSpec]) -> Result<Vec<u32>, AllocError>
    ensures { IfOk result (λ ids. ids.items ≡ ids_of cmds.now) }
{
    let mut ids = ids(alloc, cmds)?;
    ids.sort()?;
    Ok(ids)
}

// The tick of what follows the entry.
fn tick_after(tick: u64, e: &Entry) -> u64
    requires { tick + 1 < 2 ^ 64 }
    ensures { result ≡ tick_after tick e.now }
{
    match e {
        Entry::Tick => tick + 1,
        _ => tick,
    }
}

// Writes the lines of a journal.
fn write_entries<K: Sink>(out: &mut K, line: &mut String, entries: &[Entry]) -> Result<(), WriteEnd>
    ensures answer { WritesText (K.written out.old) (K.written out.new) (entry_lines (reverse entries.now))
        (K.faults out.old) (K.faults out.new) result }
    ensures later { K.faults out.old ≤ K.faults out.new }
{
    let mut tick = 0;
    for e in entries {
        if let Err(end) = put_entry(out, line, tick, *e) {
            return Err(end);
        }
        tick = tick_after(tick, e);
    }
    Ok(())
}

// Writes the result lines of these commands, by the rows of the journal and its reports.
fn write_results<K: Sink>(
    out: &mut K,
    line: &mut String,
    ids: &[u32],
    entries: &[Entry],
    results: &Results,
) -> Result<(), WriteEnd>
    ensures answer { WritesText (K.written out.old) (K.written out.new) (flat_map (gathered_line entries.now results.now) ids.now)
        (K.faults out.old) (K.faults out.new) result }
    ensures later { K.faults out.old ≤ K.faults out.new }
{
    for c in ids {
        let row = results.row(*c);
        let report = report_in(entries, row.told);
        if let Err(end) = put_result(out, line, *c, report, row.retries) {
            return Err(end);
        }
    }
    Ok(())
}

/// Writes the lines of a host, from `host H` to its last result line. Each line is one piece; what is left of a piece that
/// is taken in part is offered on.
///
/// After `Fault` and after `NoMemory` a front of the text is out. The journal is gone over once for the results, and takes
/// room for its commands and attempts, not for its lines.
pub fn write_host<K: Sink>(
    alloc: Global,
    host: HostNo,
    cmds: &[CmdSpec],
    entries: &[Entry],
    out: &mut K,
) -> Result<(), WriteEnd>
    ensures answer { WritesText (K.written out.old) (K.written out.new) (host_text host.0 cmds.now entries.now)
        (K.faults out.old) (K.faults out.new) result }
    ensures later { K.faults out.old ≤ K.faults out.new }
{
    let Ok(results) = Results::gather(alloc, cmds, entries) else {
        return Err(WriteEnd::NoMemory);
    };
    let Ok(ids) = ids_in_order(alloc, cmds) else {
        return Err(WriteEnd::NoMemory);
    };
    let mut line = String::new(alloc);
    if let Err(end) = put_host(out, &mut line, host) {
        return Err(end);
    }
    if let Err(end) = write_entries(out, &mut line, entries) {
        return Err(end);
    }
    write_results(out, &mut line, &ids, entries, &results)
}

/// Writes the lines that follow the hosts: a `skipped` line for each step that was skipped, with the number of its line in
/// the script and the cause, and the line `end`. It writes and ends as `write_host` does.
pub fn write_skips<K: Sink>(
    alloc: Global,
    skips: &[(u64, Why)],
    out: &mut K,
) -> Result<(), WriteEnd>
    ensures answer { WritesText (K.written out.old) (K.written out.new) (skips_text skips.now)
        (K.faults out.old) (K.faults out.new) result }
    ensures later { K.faults out.old ≤ K.faults out.new }
{
    let mut line = String::new(alloc);
    for skip in skips {
        if let Err(end) = put_skip(out, &mut line, *skip) {
            return Err(end);
        }
    }
    put(out, "end\n")
}

#[cfg(test)]
mod tests;
