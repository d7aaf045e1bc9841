ghost use Rattle.std.specs.Prelude.{◌≡◌, ◌||◌, ℕ, true, false, List, ◌∷◌, Some, MatchOption, is_none, slice_get, slice_set};
ghost use Rattle.mid_base.specs.declared.answers.Answer.{Answer as AnswerSeen};
ghost use Rattle.mid_base.specs.declared.answers.By.TheVariants.{Answer as ByAnswer};
ghost use Rattle.mid_base.specs.declared.answers.Disp.{Disp as DispSeen};
ghost use Rattle.mid_base.specs.declared.answers.Disp.TheVariants as disps;
ghost use Rattle.mid_base.specs.declared.answers.TagState.TheVariants as tag;
ghost use Rattle.mid_base.specs.declared.entries.Entry.{Entry as EntrySeen};
ghost use Rattle.mid_base.specs.declared.entries.Entry.TheVariants as entries;
ghost use Rattle.mid_base.specs.declared.host_spec.HostSpec.{HostSpec as SpecSeen};
ghost use Rattle.trace_model.specs.Attempts.{owner, is_settled};
ghost use Rattle.attempt_table.specs.AttemptsAgree.{HasRoom};
ghost use Rattle.host_state.specs.Owners.{IsOwnedAs};

use crate::Running;
use attempt_table::Row;
use mid_base::{Answer, Attempt, By};

/// An attempt that has an owner and isn't settled: its row, and its answer where that is the owner.
#[derive(Clone, Copy, PartialEq, Eq, Debug)]
pub enum Owned {
    Answered(Row, Answer),
    Expired(Row),
}

impl Running {
    ghost use Rattle.host_state.specs.HostAgrees.{HostAgrees, IsClaimed, IsOwnedRow, HasRetries, IsFreed};

    /// An answer came: the first one of an open attempt, or one that is to be ignored.
    pub fn answer(&mut self, n: Attempt, a: Answer)
        requires { HasRoom self.old.attempts }
        ensures runs { (s : SpecSeen) (P : List EntrySeen) → HostAgrees s P self.old → HostAgrees s (entries.Ready n a ∷ P) self.new }
        ensures shown { self.new.attempts.tags.items ≡ self.old.attempts.tags.items }
    {
        self.attempts.answer(n, a);
    }

    /// The attempt with its owner, where it has one and isn't settled.
    pub fn owned(&self, n: Attempt) -> Option<Owned>
        ensures { (s : SpecSeen) (P : List EntrySeen) → HostAgrees s P self.now → MatchOption result (is_none (owner n.0 P) || is_settled n.0 P ≡ true) (IsOwnedAs self.now n) }
    {
        let Some(row) = self.attempts.row(n) else {
            return None;
        };
        if !row.is_owned() {
            return None;
        }
        if let Some(By::Expiry) = row.owner {
            return Some(Owned::Expired(row));
        }
        let Some(answer) = self.attempts.answer_of(n) else {
            return None;
        };
        Some(Owned::Answered(row, answer))
    }

    /// The attempt comes to belong to its answer, or to its expired timer; then an answer of it is to be ignored.
    pub fn own(&mut self, n: Attempt, by: By)
        requires { IsClaimed self.old n by }
        ensures runs { (s : SpecSeen) (P : List EntrySeen) → HostAgrees s P self.old → HostAgrees s (entries.Owned n by ∷ P) self.new }
        ensures shown { (s : SpecSeen) (P : List EntrySeen) → HostAgrees s P self.old → (t : ℕ) × (slice_get self.old.attempts.tags.items t ≡ Some (tag.Armed n)) × (self.new.attempts.tags.items ≡ slice_set self.old.attempts.tags.items t (tag.Owned n by)) }
    {
        self.attempts.own(n, by);
        self.deadlines.own(n);
    }

    /// The answer that owns an attempt was judged, and the command is reported.
    pub fn report(&mut self, n: Attempt, row: Row, a: Answer)
        requires { IsOwnedRow self.old n row a }
        ensures runs { (s : SpecSeen) (P : List EntrySeen) (d : DispSeen) (x : AnswerSeen) → HostAgrees s P self.old → HostAgrees s (entries.Told row.command x ∷ entries.Judged row.command n d ∷ P) self.new }
        ensures shown { IsFreed self.old.attempts.tags.items self.new.attempts.tags.items n ByAnswer row.tag }
    {
        let device = self.commands.row(row.place).device;
        self.commands.tell(row.place);
        self.devices.judged(device, &a);
        self.devices.tell(row.tag);
        self.failures.tell(row.command);
        self.verdicts.leave(row.command);
        self.attempts.settle(n);
    }

    /// The answer that owns an attempt was judged, and the command waits again, which is counted as a retry or isn't.
    pub fn again(&mut self, n: Attempt, row: Row, a: Answer, counted: bool)
        requires owned { IsOwnedRow self.old n row a }
        requires few { counted ≡ true → HasRetries self.old row.place }
        ensures runs { (s : SpecSeen) (P : List EntrySeen) (d : DispSeen) → HostAgrees s P self.old → HostAgrees s (entries.Again row.command counted ∷ entries.Judged row.command n d ∷ P) self.new }
        ensures shown { IsFreed self.old.attempts.tags.items self.new.attempts.tags.items n ByAnswer row.tag }
    {
        let device = self.commands.row(row.place).device;
        self.commands.again(row.place, counted);
        self.devices.judged(device, &a);
        self.devices.again(device, row.tag, counted);
        self.failures.again(row.command);
        self.verdicts.leave(row.command);
        self.attempts.settle(n);
    }

    /// The answer that owns an attempt was judged, and the command has failed: the host is in recovery.
    pub fn fail(&mut self, n: Attempt, row: Row, a: Answer)
        requires { IsOwnedRow self.old n row a }
        ensures runs { (s : SpecSeen) (P : List EntrySeen) → HostAgrees s P self.old → HostAgrees s (entries.Failed row.command n false ∷ entries.Judged row.command n disps.Fail ∷ P) self.new }
        ensures shown { IsFreed self.old.attempts.tags.items self.new.attempts.tags.items n ByAnswer row.tag }
    {
        let device = self.commands.row(row.place).device;
        self.devices.judged(device, &a);
        self.attempts.settle(n);
        self.failures.fail(row.command, n, false);
        self.verdicts.fail(row.command, n, false, Some(a));
    }
}
