ghost use Rattle.std.specs.Prelude.{◌≡◌, ◌+◌, ◌<◌, ◌^◌, ℕ, List, ◌∷◌, length, reverse, IfOk, OnOk};
ghost use Rattle.mid_base.specs.declared.entries.Entry.{Entry as EntrySeen};
ghost use Rattle.trace_model.specs.Commands.{is_own};
ghost use Rattle.report_text.specs.Tables.{OwnersAre, RowsAre, first_of, is_named, next_row, report_in, row_at};

use crate::numbered::Numbered;
use crate::results::{FirstTold, LastOwn, Report, ended_by};
use mid_base::{By, CmdSpec, Entry, NoMemory};
use std::alloc::Global;

// What the entries so far say of a command.
#[derive(Clone, Copy)]
pub struct Row {
    pub last: LastOwn,
    pub attempt: u64,
    pub retries: u64,
    pub told: Option<FirstTold>,
}

/// What a journal says of its commands: a row for each that an entry names.
#[derive(Drop)]
pub struct Results {
    rows: Numbered<Row>,
}

impl Results {
    ghost use Rattle.report_text.specs.Tables.{SaysOf};

    /// Goes over a journal once. The rows of commands whose ids aren't far beyond their number lie side by side.
    pub fn gather(alloc: Global, cmds: &[CmdSpec], entries: &[Entry]) -> Result<Results, NoMemory>
        ensures { IfOk result (λ r. SaysOf r (reverse entries.now)) }
    {
        let mut rows = Numbered::new(alloc, ids_below(cmds).min(entries.len()))?;
        let mut owners = Numbered::new(alloc, entries.len())?;
        for (place, e) in entries.iter().enumerate() {
            note_row(&mut rows, &owners, place, e)?;
            note_owner(&mut owners, e)?;
        }
        Ok(Results { rows })
    }

    /// The row of a command.
    pub fn row(&self, c: u32) -> Row
        ensures { result ≡ row_at self.now.rows c }
    {
        row_in(&self.rows, c)
    }
}

/// The report that stands in a journal.
pub fn report_in(entries: &[Entry], told: Option<FirstTold>) -> Option<Report>
    ensures { result ≡ report_in entries.now told }
{
    let Some(told) = told else {
        return None;
    };
    match entries.get(told.place) {
        Some(Entry::Told(_, answer)) => Some(Report {
            ended: told.ended,
            answer: *answer,
        }),
        _ => None,
    }
}

// One more than the greatest id.
fn ids_below(cmds: &[CmdSpec]) -> usize {
    let mut below = 0;
    for k in cmds {
        below = below.max(k.id.0 as usize + 1);
    }
    below
}

// The command that an entry names.
fn own_of(e: &Entry) -> Option<u32>
    ensures { (c : ℕ) → is_own c e.now ≡ is_named result c }
{
    match e {
        Entry::Took(c)
        | Entry::Sent(c, ..)
        | Entry::Bounced(c, ..)
        | Entry::Judged(c, ..)
        | Entry::AbortSet(c, ..)
        | Entry::Aborted(c, ..)
        | Entry::Failed(c, ..)
        | Entry::Cleared(c, ..)
        | Entry::Sensed(c, ..)
        | Entry::Again(c, ..)
        | Entry::Told(c, ..) => Some(c.0),
        _ => None,
    }
}

// The first report, where there is one more.
fn first_of(told: Option<FirstTold>, other: FirstTold) -> FirstTold
    ensures { result ≡ first_of told other }
{
    told.unwrap_or(other)
}

// The row after an entry at a place that names its command, by the owner of its last attempt.
fn row_after(row: Row, by: Option<By>, place: usize, e: &Entry) -> Row
    requires { row.retries + 1 < 2 ^ 64 }
    ensures { result ≡ next_row row by place e.now }
{
    let (last, attempt, retries) = match e {
        Entry::Sent(_, n, _) => (LastOwn::Other, n.0, row.retries),
        Entry::Again(_, true) => (LastOwn::Other, row.attempt, row.retries + 1),
        Entry::Judged(..) => (LastOwn::Judged, row.attempt, row.retries),
        Entry::Aborted(..) => (LastOwn::Aborted, row.attempt, row.retries),
        Entry::Cleared(..) => (LastOwn::Cleared, row.attempt, row.retries),
        _ => (LastOwn::Other, row.attempt, row.retries),
    };
    let told = match e {
        Entry::Told(..) => {
            let ended = ended_by(row.last, by);
            Some(first_of(row.told, FirstTold { ended, place }))
        }
        _ => row.told,
    };
    Row {
        last,
        attempt,
        retries,
        told,
    }
}

fn row_in(rows: &Numbered<Row>, c: u32) -> Row
    ensures { result ≡ row_at rows.now c }
{
    let none = Row {
        last: LastOwn::Other,
        attempt: 0,
        retries: 0,
        told: None,
    };
    rows.get(c as u64).unwrap_or(none)
}

// Adds an entry at its place to the rows, by what the owners say of the entries before it.
fn note_row(
    rows: &mut Numbered<Row>,
    owners: &Numbered<By>,
    place: usize,
    e: &Entry,
) -> Result<(), NoMemory>
    requires { (c : ℕ) → (row_at rows.old c).retries + 1 < 2 ^ 64 }
    ensures { OnOk result ((P : List EntrySeen) → RowsAre rows.old P → OwnersAre owners.now P → place ≡ length P
        → RowsAre rows.new (e.now ∷ P)) }
{
    let Some(c) = own_of(e) else {
        return Ok(());
    };
    let row = row_in(rows, c);
    let row = row_after(row, owners.get(row.attempt), place, e);
    rows.put(c as u64, row)?;
    Ok(())
}

// Adds an entry to the owners.
fn note_owner(owners: &mut Numbered<By>, e: &Entry) -> Result<(), NoMemory>
    ensures { OnOk result ((P : List EntrySeen) → OwnersAre owners.old P → OwnersAre owners.new (e.now ∷ P)) }
{
    let Entry::Owned(n, by) = e else {
        return Ok(());
    };
    owners.put(n.0, *by)?;
    Ok(())
}
