ghost use Rattle.std.specs.Prelude.{◌≡◌, List, ◌∷◌};
ghost use Rattle.mid_base.specs.declared.entries.Entry.{Entry as EntrySeen};
ghost use Rattle.mid_base.specs.declared.steps.Step.TheVariants as steps;
ghost use Rattle.attempt_table.specs.AttemptsAgree.{HasRoom};
ghost use Rattle.host_template.specs.Meaning.{SameNature, IfHonest, NothingAdded};
ghost use Rattle.host_template.specs.Standing.{Before};
ghost use Rattle.host_state.specs.HostAgrees.{HostAgrees, IsAsked};
ghost use Rattle.mid_core.specs.Choices.{IsRunning, IsSaidOf};

use crate::Core;
use host_state::Running;
use host_template::{HostTemplate, TimerSay};
use mid_base::{Attempt, Did, Entry, HostSpec, NoMemory, Why};

impl<A: HostTemplate> Core<A> {
    ghost use Rattle.mid_core.specs.Steps.{Answers};

    // The lower layer is asked about the attempt whose time is up.
    pub(crate) fn due(&mut self) -> Result<Did, NoMemory>
        ensures { Answers A.stands A.is_due A.means self.old self.new steps.Due result }
    {
        let Some(n) = self.running.overdue() else {
            return Ok(Did::Skipped(Why::NoDue));
        };
        self.book.reserve(1)?;
        self.running.reserve()?;
        let said = ask(&self.spec, &mut self.lower, &mut self.running, n);
        self.book.push(said);
        Ok(Did::Done)
    }
}

/// Asks the lower layer about an attempt whose time is up (`scsi_eh.rst`, "Completing a scmd w/ timeout"), enters its answer
/// into the running state, and gives the entry that says it.
fn ask<A: HostTemplate>(spec: &HostSpec, lower: &mut A, running: &mut Running, n: Attempt) -> Entry
    requires runs { IsRunning spec.now running.old }
    requires asked { IsAsked running.old n }
    requires room { HasRoom running.old.attempts }
    ensures said { IsSaidOf n result }
    ensures runs { (P : List EntrySeen) → HostAgrees spec.now P running.old → HostAgrees spec.now (result ∷ P) running.new }
    ensures stands { (P : List EntrySeen) (b : Before) → HostAgrees spec.now P running.old → A.stands lower.old spec.now b P → A.stands lower.new spec.now b (result ∷ P) }
    ensures nature { SameNature (A.means lower.old) (A.means lower.new) }
    ensures honest { IfHonest NothingAdded (A.means lower.old) (A.means lower.new) }
    ensures shown { running.new.attempts.tags.items ≡ running.old.attempts.tags.items }
{
    let Some(row) = running.attempt(n) else {
        unreachable!()
    };
    let command = spec.cmds.as_slice()[row.place];
    match lower.timed_out(n, command.dev, running.now()) {
        TimerSay::NotHandled => {
            running.expire(n);
            Entry::Due(n)
        }
        TimerSay::ResetTimer => {
            running.lengthen(n, command.timeout);
            Entry::Longer(n)
        }
        TimerSay::Done => {
            running.say_done(n);
            Entry::DoneSaid(n)
        }
    }
}
