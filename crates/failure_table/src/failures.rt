ghost use Rattle.std.specs.Prelude.{◌≡◌, ◌<◌, ◌+◌, ◌++◌, ℕ, [], List, ◌∷◌, true, false, not, Bool, Some, IfOk, MatchOption, length, slice_get};
ghost use Rattle.mid_base.specs.declared.answers.Answer.{Answer as AnswerSeen};
ghost use Rattle.mid_base.specs.declared.answers.BusyOf.{BusyOf as BusyOfSeen};
ghost use Rattle.mid_base.specs.declared.entries.Entry.{Entry as EntrySeen};
ghost use Rattle.mid_base.specs.declared.entries.Entry.TheVariants as entries;
ghost use Rattle.mid_base.specs.declared.host_spec.HostSpec.{HostSpec as SpecSeen};
ghost use Rattle.mid_base.specs.declared.names.Attempt.{Attempt as AttemptSeen};
ghost use Rattle.mid_base.specs.declared.names.CmdId.{CmdId as IdSeen};
ghost use Rattle.mid_base.specs.declared.names.Tag.{Tag as TagSeen};
ghost use Rattle.mid_base.specs.Limits.{differ_in_id};
ghost use Rattle.mid_base.specs.Past.{was_sent, sent_for};
ghost use Rattle.trace_model.specs.Commands.{standing, is_busy, is_failed, aborts};
ghost use Rattle.trace_model.specs.Devices.{in_recovery, has_begun};
ghost use Rattle.trace_model.specs.Flush.{is_empty};
ghost use Rattle.trace_model.specs.Judging.{is_first};
ghost use Rattle.trace_model.specs.Recovery.{failed, is_quiet, may_begin};
ghost use Rattle.eh_queue.specs.Failures.{without};

use abort_work::AbortWork;
use eh_queue::EhQueue;
use mid_base::{Attempt, CmdId, NoMemory};
use std::alloc::Global;

/// A command on the failed list, its attempt that failed, and whether that was cancelled or else answered.
#[derive(Clone, Copy, PartialEq, Eq, Debug)]
pub struct FailedCommand {
    pub command: CmdId,
    pub attempt: Attempt,
    pub cancelled: bool,
}

/// The failed commands of a host, its scheduled aborts, and how far recovery is.
#[derive(Drop)]
pub struct Failures {
    queue: EhQueue,
    work: AbortWork,
    recovering: bool,
    begun: bool,
}

impl Failures {
    ghost use Rattle.failure_table.specs.FailuresAgree.{FailuresAgree, CanSend, CanSchedule, CanFail, CanEnd, is_aborting, is_out, is_for, failure_of, knows};

    /// The table of an empty journal, for a host of `can_queue` tags. NoMemory where room for so many can't be had.
    pub fn new(alloc: Global, can_queue: u16) -> Result<Failures, NoMemory>
        ensures tells { IfOk result (λ t. (s : SpecSeen) → differ_in_id s.cmds ≡ true → s.can_queue ≡ can_queue → FailuresAgree s [] t) }
        ensures none { IfOk result (λ t. (t.queue.failed ≡ []) × (t.queue.busy ≡ 0) × (t.work.waiting ≡ [])) }
        ensures most { IfOk result (λ t. (t.queue.most ≡ can_queue) × (t.work.most ≡ can_queue)) }
        ensures idle { IfOk result (λ t. (t.recovering ≡ false) × (t.begun ≡ false)) }
    {
        let queue = EhQueue::new(alloc, can_queue)?;
        let work = AbortWork::new(alloc, can_queue)?;
        Ok(Failures {
            queue,
            work,
            recovering: false,
            begun: false,
        })
    }

    /// A command that isn't busy is sent.
    pub fn send(&mut self)
        requires { CanSend self.old }
        ensures tells { (s : SpecSeen) (P : List EntrySeen) (c : IdSeen) (n : AttemptSeen) (t : TagSeen) → FailuresAgree s P self.old → knows s c.0 ≡ true → is_busy (standing c.0 P) ≡ false → was_sent n.0 P ≡ false → FailuresAgree s (entries.Sent c n t ∷ P) self.new }
        ensures busy { self.new.queue.busy ≡ self.old.queue.busy + 1 }
        ensures failed { (self.new.queue.failed ≡ self.old.queue.failed) × (self.new.queue.most ≡ self.old.queue.most) }
        ensures rest { (self.new.work ≡ self.old.work) × (self.new.recovering ≡ self.old.recovering) × (self.new.begun ≡ self.old.begun) }
    {
        self.queue.sent();
    }

    // A busy command is busy no longer.
    fn leave(&mut self, c: CmdId)
        requires { CanEnd c self.old }
        ensures busy { self.new.queue.busy + 1 ≡ self.old.queue.busy }
        ensures failed { (self.new.queue.failed ≡ without c self.old.queue.failed) × (self.new.queue.most ≡ self.old.queue.most) }
        ensures rest { (self.new.work ≡ self.old.work) × (self.new.recovering ≡ self.old.recovering) × (self.new.begun ≡ self.old.begun) }
    {
        self.queue.ended(c);
    }

    /// The lower layer turned a busy command away, which is out.
    pub fn bounce(&mut self, c: CmdId)
        requires { CanEnd c self.old }
        ensures tells { (s : SpecSeen) (P : List EntrySeen) (n : AttemptSeen) (why : BusyOfSeen) → FailuresAgree s P self.old → knows s c.0 ≡ true → is_out c.0 P ≡ true → FailuresAgree s (entries.Bounced c n why ∷ P) self.new }
        ensures busy { self.new.queue.busy + 1 ≡ self.old.queue.busy }
        ensures failed { (self.new.queue.failed ≡ without c self.old.queue.failed) × (self.new.queue.most ≡ self.old.queue.most) }
        ensures rest { (self.new.work ≡ self.old.work) × (self.new.recovering ≡ self.old.recovering) × (self.new.begun ≡ self.old.begun) }
    {
        self.leave(c);
    }

    /// A busy command waits again, which isn't to be aborted. Where it has failed, it is taken off the failed list.
    pub fn again(&mut self, c: CmdId)
        requires { CanEnd c self.old }
        ensures tells { (s : SpecSeen) (P : List EntrySeen) (counted : Bool) → FailuresAgree s P self.old → knows s c.0 ≡ true → is_busy (standing c.0 P) ≡ true → is_aborting c.0 P ≡ false → FailuresAgree s (entries.Again c counted ∷ P) self.new }
        ensures busy { self.new.queue.busy + 1 ≡ self.old.queue.busy }
        ensures failed { (self.new.queue.failed ≡ without c self.old.queue.failed) × (self.new.queue.most ≡ self.old.queue.most) }
        ensures rest { (self.new.work ≡ self.old.work) × (self.new.recovering ≡ self.old.recovering) × (self.new.begun ≡ self.old.begun) }
    {
        self.leave(c);
    }

    /// A busy command is reported, which isn't to be aborted. Where it has failed, it is taken off the failed list.
    pub fn tell(&mut self, c: CmdId)
        requires { CanEnd c self.old }
        ensures tells { (s : SpecSeen) (P : List EntrySeen) (a : AnswerSeen) → FailuresAgree s P self.old → knows s c.0 ≡ true → is_busy (standing c.0 P) ≡ true → is_aborting c.0 P ≡ false → FailuresAgree s (entries.Told c a ∷ P) self.new }
        ensures busy { self.new.queue.busy + 1 ≡ self.old.queue.busy }
        ensures failed { (self.new.queue.failed ≡ without c self.old.queue.failed) × (self.new.queue.most ≡ self.old.queue.most) }
        ensures rest { (self.new.work ≡ self.old.work) × (self.new.recovering ≡ self.old.recovering) × (self.new.begun ≡ self.old.begun) }
    {
        self.leave(c);
    }

    /// The abort of an attempt is scheduled, whose command is out.
    pub fn schedule(&mut self, c: CmdId, n: Attempt)
        requires { CanSchedule self.old }
        ensures tells { (s : SpecSeen) (P : List EntrySeen) → FailuresAgree s P self.old → knows s c.0 ≡ true → is_out c.0 P ≡ true → is_for P (c, n) ≡ true → FailuresAgree s (entries.AbortSet c n ∷ P) self.new }
        ensures waiting { (self.new.work.waiting ≡ self.old.work.waiting ++ (c, n) ∷ []) × (self.new.work.most ≡ self.old.work.most) }
        ensures rest { (self.new.queue ≡ self.old.queue) × (self.new.recovering ≡ self.old.recovering) × (self.new.begun ≡ self.old.begun) }
    {
        self.work.put(c, n);
    }

    /// The abort that was scheduled first of those that wait, None exactly where none waits.
    pub fn first_abort(&self) -> Option<(CmdId, Attempt)>
        ensures first { result ≡ slice_get self.now.work.waiting 0 }
        ensures tells { (s : SpecSeen) (P : List EntrySeen) → FailuresAgree s P self.now → MatchOption result (aborts P ≡ []) (λ x. (is_first x.1.0 (aborts P) ≡ true) × (sent_for x.1.0 P ≡ x.0.0)) }
    {
        self.work.first()
    }

    /// The abort that was scheduled first was tried, and waits no longer. It is the one that is returned.
    pub fn take_abort(&mut self) -> Option<(CmdId, Attempt)>
        ensures tells { (s : SpecSeen) (P : List EntrySeen) (c : IdSeen) (n : AttemptSeen) (ok : Bool) → FailuresAgree s P self.old → slice_get self.old.work.waiting 0 ≡ Some (c, n) → FailuresAgree s (entries.Aborted c n ok ∷ P) self.new }
        ensures waiting { MatchOption result ((self.old.work.waiting ≡ []) × (self.new.work.waiting ≡ [])) (λ first. self.old.work.waiting ≡ first ∷ self.new.work.waiting) }
        ensures most { self.new.work.most ≡ self.old.work.most }
        ensures rest { (self.new.queue ≡ self.old.queue) × (self.new.recovering ≡ self.old.recovering) × (self.new.begun ≡ self.old.begun) }
    {
        self.work.next()
    }

    /// A command that is out has failed with its attempt `n`, which was cancelled or else answered: it is the last on the
    /// failed list, and the host is in recovery.
    pub fn fail(&mut self, c: CmdId, n: Attempt, cancelled: bool)
        requires { CanFail c self.old }
        ensures tells { (s : SpecSeen) (P : List EntrySeen) → FailuresAgree s P self.old → knows s c.0 ≡ true → is_out c.0 P ≡ true → FailuresAgree s (entries.Failed c n cancelled ∷ P) self.new }
        ensures failed { self.new.queue.failed ≡ self.old.queue.failed ++ (c, n, cancelled) ∷ [] }
        ensures busy { (self.new.queue.busy ≡ self.old.queue.busy) × (self.new.queue.most ≡ self.old.queue.most) }
        ensures stage { (self.new.recovering ≡ true) × (self.new.begun ≡ self.old.begun) }
        ensures rest { self.new.work ≡ self.old.work }
    {
        self.queue.add(c, n, cancelled);
        self.recovering = true;
    }

    /// Recovery begins.
    pub fn begin(&mut self)
        ensures tells { (s : SpecSeen) (P : List EntrySeen) → FailuresAgree s P self.old → FailuresAgree s (entries.EhBegin ∷ P) self.new }
        ensures stage { (self.new.recovering ≡ self.old.recovering) × (self.new.begun ≡ true) }
        ensures rest { (self.new.queue ≡ self.old.queue) × (self.new.work ≡ self.old.work) }
    {
        self.begun = true;
    }

    /// Recovery ends, and with it the host's being in recovery.
    pub fn end(&mut self)
        ensures tells { (s : SpecSeen) (P : List EntrySeen) → FailuresAgree s P self.old → FailuresAgree s (entries.EhEnd ∷ P) self.new }
        ensures stage { (self.new.recovering ≡ false) × (self.new.begun ≡ false) }
        ensures rest { (self.new.queue ≡ self.old.queue) × (self.new.work ≡ self.old.work) }
    {
        self.recovering = false;
        self.begun = false;
    }

    /// Whether the host is in recovery: a command has failed since recovery ended last.
    pub fn in_recovery(&self) -> bool
        ensures { (s : SpecSeen) (P : List EntrySeen) → FailuresAgree s P self.now → in_recovery P ≡ result }
    {
        self.recovering
    }

    /// Whether recovery has begun.
    pub fn has_begun(&self) -> bool
        ensures { (s : SpecSeen) (P : List EntrySeen) → FailuresAgree s P self.now → has_begun P ≡ result }
    {
        self.begun
    }

    /// Whether each busy command has failed.
    pub fn is_quiet(&self) -> bool
        ensures { (s : SpecSeen) (P : List EntrySeen) → FailuresAgree s P self.now → is_quiet s P ≡ result }
    {
        self.queue.failed() == self.queue.busy()
    }

    /// Whether recovery may begin: a command has failed, and so has each busy one, and recovery hasn't begun.
    pub fn may_begin(&self) -> bool
        ensures { (s : SpecSeen) (P : List EntrySeen) → FailuresAgree s P self.now → may_begin s P ≡ result }
    {
        self.is_quiet() && !self.begun && self.has_failed()
    }

    /// Whether a command is on the failed list.
    pub fn has_failed(&self) -> bool
        ensures { (s : SpecSeen) (P : List EntrySeen) → FailuresAgree s P self.now → is_empty (failed P) ≡ not result }
    {
        self.count() > 0
    }

    /// How many commands are on the failed list.
    pub fn count(&self) -> u16
        ensures count { result ≡ length self.now.queue.failed }
        ensures tells { (s : SpecSeen) (P : List EntrySeen) → FailuresAgree s P self.now → length (failed P) ≡ result }
    {
        self.queue.failed()
    }

    /// The failed command at place `i` of the list, counted from 0, in the order in which they failed.
    pub fn failed_at(&self, i: u16) -> FailedCommand
        requires { i < length self.now.queue.failed }
        ensures { (s : SpecSeen) (P : List EntrySeen) → FailuresAgree s P self.now → slice_get (failed P) i ≡ Some (failure_of (result.command, result.attempt, result.cancelled)) }
    {
        let (command, attempt, cancelled) = self.queue.at(i);
        FailedCommand {
            command,
            attempt,
            cancelled,
        }
    }

    /// Whether a command has failed.
    pub fn is_failed(&self, c: CmdId) -> bool
        ensures { (s : SpecSeen) (P : List EntrySeen) → FailuresAgree s P self.now → is_failed c.0 P ≡ result }
    {
        self.queue.has(c)
    }
}
