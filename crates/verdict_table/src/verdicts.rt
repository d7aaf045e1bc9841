ghost use Rattle.std.specs.Prelude.{◌≡◌, ◌≤◌, ◌<◌, ◌++◌, ℕ, [], List, ◌∷◌, Bool, false, Some, IfOk, length, map, slice_get, vec_capacity};
ghost use Rattle.mid_base.specs.declared.answers.Answer.{Answer as AnswerSeen};
ghost use Rattle.mid_base.specs.declared.entries.Entry.{Entry as EntrySeen};
ghost use Rattle.mid_base.specs.declared.entries.Entry.TheVariants as entries;
ghost use Rattle.mid_base.specs.declared.host_spec.HostSpec.{HostSpec as SpecSeen};
ghost use Rattle.mid_base.specs.declared.names.CmdId.{CmdId as IdSeen};
ghost use Rattle.verdict_table.specs.VerdictsAgree.{sensed as sensed_row, judged as judged_row};
ghost use Rattle.trace_model.specs.Recovery.{failed};

use mid_base::{Answer, Attempt, CmdId, Disp, NoMemory, SenseBytes};
use std::alloc::Global;

/// A failed command with its attempt: whether that was cancelled, its last answer, None where it was cancelled or has
/// none, and whether its last judgement was a success, which it never is where it was cancelled.
#[derive(Clone, Copy, PartialEq, Eq, Debug)]
pub struct FailedRow {
    pub command: CmdId,
    pub attempt: Attempt,
    pub cancelled: bool,
    pub answer: Option<Answer>,
    pub success: bool,
}

/// The verdicts on the failed commands of a host, in the order in which they failed.
#[derive(Drop)]
pub struct Verdicts {
    rows: Vec<FailedRow>,
}

impl Verdicts {
    ghost use Rattle.verdict_table.specs.VerdictsAgree.{VerdictsAgree, FailsWith, HasRoom, row_of, without};

    /// The table of an empty journal, for a host of `can_queue` tags. NoMemory where room for so many can't be had.
    pub fn new(alloc: Global, can_queue: u16) -> Result<Verdicts, NoMemory>
        ensures tells { IfOk result (λ t. (s : SpecSeen) → s.can_queue ≡ can_queue → VerdictsAgree s [] t) }
        ensures none { IfOk result (λ t. t.rows.items ≡ []) }
        ensures most { IfOk result (λ t. can_queue ≤ vec_capacity t.rows) }
    {
        let rows = Vec::with_capacity(alloc, usize::from(can_queue)).map_err(|_| NoMemory)?;
        Ok(Verdicts { rows })
    }

    /// A command has failed with its attempt `n`, which was cancelled or else has this answer: its row is the last.
    pub fn fail(&mut self, c: CmdId, n: Attempt, cancelled: bool, answer: Option<Answer>)
        requires { HasRoom self.old }
        ensures tells { (s : SpecSeen) (P : List EntrySeen) → VerdictsAgree s P self.old → FailsWith P n.0 cancelled answer → VerdictsAgree s (entries.Failed c n cancelled ∷ P) self.new }
        ensures rows { self.new.rows.items ≡ self.old.rows.items ++ record { command = c; attempt = n; cancelled = cancelled; answer = answer; success = false } ∷ [] }
        ensures most { vec_capacity self.new.rows ≡ vec_capacity self.old.rows }
    {
        let row = FailedRow {
            command: c,
            attempt: n,
            cancelled,
            answer,
            success: false,
        };
        self.rows.push_reserved(row);
    }

    /// A command goes again or is reported. Where it has failed, its row is taken out.
    pub fn leave(&mut self, c: CmdId)
        ensures again { (s : SpecSeen) (P : List EntrySeen) (counted : Bool) → VerdictsAgree s P self.old → VerdictsAgree s (entries.Again c counted ∷ P) self.new }
        ensures told { (s : SpecSeen) (P : List EntrySeen) (a : AnswerSeen) → VerdictsAgree s P self.old → VerdictsAgree s (entries.Told c a ∷ P) self.new }
        ensures rows { self.new.rows.items ≡ without c self.old.rows.items }
        ensures most { vec_capacity self.new.rows ≡ vec_capacity self.old.rows }
    {
        self.rows.retain(|row| row.command != c);
    }

    /// Sense data was fetched for the answer of attempt `n`.
    pub fn sense(&mut self, n: Attempt, sense: SenseBytes)
        ensures tells { (s : SpecSeen) (P : List EntrySeen) (c : IdSeen) → VerdictsAgree s P self.old → VerdictsAgree s (entries.Sensed c n sense ∷ P) self.new }
        ensures rows { self.new.rows.items ≡ map (sensed_row n sense) self.old.rows.items }
        ensures most { vec_capacity self.new.rows ≡ vec_capacity self.old.rows }
    {
        sense_each(&mut self.rows, n, sense);
    }

    /// The answer of attempt `n` was judged so.
    pub fn judge(&mut self, n: Attempt, d: Disp)
        ensures tells { (s : SpecSeen) (P : List EntrySeen) (c : IdSeen) → VerdictsAgree s P self.old → VerdictsAgree s (entries.Judged c n d ∷ P) self.new }
        ensures rows { self.new.rows.items ≡ map (judged_row n d) self.old.rows.items }
        ensures most { vec_capacity self.new.rows ≡ vec_capacity self.old.rows }
    {
        judge_each(&mut self.rows, n, d);
    }

    /// How many commands have failed.
    pub fn count(&self) -> usize
        ensures count { result ≡ length self.now.rows.items }
        ensures tells { (s : SpecSeen) (P : List EntrySeen) → VerdictsAgree s P self.now → length (failed P) ≡ result }
    {
        self.rows.len()
    }

    /// The rows of the failed commands, in the order in which they failed.
    pub fn rows(&self) -> &[FailedRow]
        ensures rows { result.now ≡ self.now.rows.items }
        ensures tells { (s : SpecSeen) (P : List EntrySeen) → VerdictsAgree s P self.now → result.now ≡ map (row_of P) (failed P) }
    {
        &self.rows
    }

    /// The row at place `i`, counted from 0, in the order in which they failed.
    pub fn row(&self, i: usize) -> FailedRow
        requires { i < length self.now.rows.items }
        ensures row { slice_get self.now.rows.items i ≡ Some result }
        ensures tells { (s : SpecSeen) (P : List EntrySeen) → VerdictsAgree s P self.now → slice_get (map (row_of P) (failed P)) i ≡ Some result }
    {
        self.rows[i]
    }
}

// The row where the sense data of attempt `n` was fetched.
fn sensed(row: FailedRow, n: Attempt, sense: SenseBytes) -> FailedRow
    ensures { result ≡ sensed_row n sense row }
{
    if n != row.attempt {
        return row;
    }
    let answer = row.answer.map(|answer| Answer { sense, ..answer });
    FailedRow { answer, ..row }
}

// The row where attempt `n` was judged so.
fn judged(row: FailedRow, n: Attempt, d: Disp) -> FailedRow
    ensures { result ≡ judged_row n d row }
{
    if n != row.attempt {
        return row;
    }
    let success = !row.cancelled && matches!(d, Disp::Success);
    FailedRow { success, ..row }
}

#[tactic(auto, using(std::proofs::lemmas::List::Edits::map_over_more))]
fn sense_each(rows: &mut Vec<FailedRow>, n: Attempt, sense: SenseBytes)
    ensures rows { rows.new.items ≡ map (sensed_row n sense) rows.old.items }
    ensures most { vec_capacity rows.new ≡ vec_capacity rows.old }
{
    for row in rows.iter_mut() {
        *row = sensed(*row, n, sense);
    }
}

#[tactic(auto, using(std::proofs::lemmas::List::Edits::map_over_more))]
fn judge_each(rows: &mut Vec<FailedRow>, n: Attempt, d: Disp)
    ensures rows { rows.new.items ≡ map (judged_row n d) rows.old.items }
    ensures most { vec_capacity rows.new ≡ vec_capacity rows.old }
{
    for row in rows.iter_mut() {
        *row = judged(*row, n, d);
    }
}
