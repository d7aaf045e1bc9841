ghost use Rattle.std.specs.Prelude.{◌≡◌, [], true, false, List, ◌∷◌, MatchOption};
ghost use Rattle.mid_base.specs.declared.answers.Answer.{Answer as AnswerSeen};
ghost use Rattle.mid_base.specs.declared.answers.By.TheVariants.{Expiry as ByExpiry};
ghost use Rattle.mid_base.specs.declared.entries.Entry.{Entry as EntrySeen};
ghost use Rattle.mid_base.specs.declared.entries.Entry.TheVariants as entries;
ghost use Rattle.mid_base.specs.declared.host_spec.HostSpec.{HostSpec as SpecSeen};
ghost use Rattle.trace_model.specs.Commands.{aborts};
ghost use Rattle.host_state.specs.Owners.{IsFirstAbortOf};

use crate::Running;
use attempt_table::Row;
use mid_base::Attempt;

/// A scheduled abort: the attempt that is to be aborted, and what is kept of it.
#[derive(Clone, Copy, PartialEq, Eq, Debug)]
pub struct ScheduledAbort {
    pub attempt: Attempt,
    pub row: Row,
}

impl Running {
    ghost use Rattle.host_state.specs.HostAgrees.{HostAgrees, IsExpiredRow, IsFirstAbort, HasRetries, IsFreed};

    /// The abort of an attempt that its expired timer owns is scheduled.
    pub fn schedule_abort(&mut self, n: Attempt, row: Row)
        requires { IsExpiredRow self.old n row }
        ensures runs { (s : SpecSeen) (P : List EntrySeen) → HostAgrees s P self.old → HostAgrees s (entries.AbortSet row.command n ∷ P) self.new }
        ensures shown { IsFreed self.old.attempts.tags.items self.new.attempts.tags.items n ByExpiry row.tag }
    {
        self.commands.schedule_abort(row.place);
        self.failures.schedule(row.command, n);
        self.attempts.settle(n);
    }

    /// The command of an attempt that its expired timer owns has failed without an abort: the host is in recovery.
    pub fn cancel(&mut self, n: Attempt, row: Row)
        requires { IsExpiredRow self.old n row }
        ensures runs { (s : SpecSeen) (P : List EntrySeen) → HostAgrees s P self.old → HostAgrees s (entries.Failed row.command n true ∷ P) self.new }
        ensures shown { IsFreed self.old.attempts.tags.items self.new.attempts.tags.items n ByExpiry row.tag }
    {
        self.attempts.settle(n);
        self.failures.fail(row.command, n, true);
        self.verdicts.fail(row.command, n, true, None);
    }

    /// The abort that was scheduled first of those that weren't tried yet, None exactly where there is none.
    pub fn first_abort(&self) -> Option<ScheduledAbort>
        ensures { (s : SpecSeen) (P : List EntrySeen) → HostAgrees s P self.now → MatchOption result (aborts P ≡ []) (IsFirstAbortOf P self.now) }
    {
        let Some((_, attempt)) = self.failures.first_abort() else {
            return None;
        };
        let Some(row) = self.attempts.row(attempt) else {
            return None;
        };
        Some(ScheduledAbort { attempt, row })
    }

    /// The abort that was scheduled first went well, and the command waits again, as a counted retry.
    pub fn retry_aborted(&mut self, n: Attempt, row: Row)
        requires first { IsFirstAbort self.old n row }
        requires few { HasRetries self.old row.place }
        ensures runs { (s : SpecSeen) (P : List EntrySeen) → HostAgrees s P self.old → HostAgrees s (entries.Again row.command true ∷ entries.Aborted row.command n true ∷ P) self.new }
        ensures shown { self.new.attempts.tags.items ≡ self.old.attempts.tags.items }
    {
        let device = self.commands.row(row.place).device;
        self.commands.again(row.place, true);
        self.devices.again(device, row.tag, true);
        let _ = self.failures.take_abort();
        self.failures.again(row.command);
        self.verdicts.leave(row.command);
    }

    /// The abort that was scheduled first went well, and the command is reported.
    pub fn report_aborted(&mut self, n: Attempt, row: Row)
        requires { IsFirstAbort self.old n row }
        ensures runs { (s : SpecSeen) (P : List EntrySeen) (x : AnswerSeen) → HostAgrees s P self.old → HostAgrees s (entries.Told row.command x ∷ entries.Aborted row.command n true ∷ P) self.new }
        ensures shown { self.new.attempts.tags.items ≡ self.old.attempts.tags.items }
    {
        self.commands.tell(row.place);
        self.devices.tell(row.tag);
        let _ = self.failures.take_abort();
        self.failures.tell(row.command);
        self.verdicts.leave(row.command);
    }

    /// The abort that was scheduled first failed, and with it the command: the host is in recovery.
    pub fn fail_aborted(&mut self, n: Attempt, row: Row)
        requires { IsFirstAbort self.old n row }
        ensures runs { (s : SpecSeen) (P : List EntrySeen) → HostAgrees s P self.old → HostAgrees s (entries.Failed row.command n true ∷ entries.Aborted row.command n false ∷ P) self.new }
        ensures shown { self.new.attempts.tags.items ≡ self.old.attempts.tags.items }
    {
        let _ = self.failures.take_abort();
        self.failures.fail(row.command, n, true);
        self.verdicts.fail(row.command, n, true, None);
    }
}
