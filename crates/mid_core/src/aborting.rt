ghost use Rattle.std.specs.Prelude.{◌≡◌, true, List, ◌∷◌};
ghost use Rattle.mid_base.specs.declared.entries.Entry.{Entry as EntrySeen};
ghost use Rattle.mid_base.specs.declared.entries.Entry.TheVariants as entries;
ghost use Rattle.mid_base.specs.declared.steps.Step.TheVariants as steps;
ghost use Rattle.mid_base.specs.Levels.{abort as abort_level, calls};
ghost use Rattle.host_template.specs.Meaning.{SameNature, IfHonest};
ghost use Rattle.host_template.specs.Standing.{Before};
ghost use Rattle.host_state.specs.HostAgrees.{HostAgrees, IsFirstAbort};
ghost use Rattle.held_laws.specs.Steps.{HonestOpener};
ghost use Rattle.mid_core.specs.Choices.{IsRunning, after_abort};

use crate::Core;
use attempt_table::Row;
use bitflags::Flags;
use done_flush::{Flush, verdict};
use host_state::Running;
use host_template::{EhSay, HostTemplate};
use mid_base::{Attempt, Did, Entry, Handlers, HostSpec, NoMemory, Why};

impl<A: HostTemplate> Core<A> {
    ghost use Rattle.mid_core.specs.Steps.{Answers};

    // The abort that was scheduled first is tried (`scsi_eh.rst`, "Asynchronous command aborts").
    pub(crate) fn abort(&mut self) -> Result<Did, NoMemory>
        ensures { Answers A.stands A.is_due A.means self.old self.new steps.Abort result }
    {
        let Some(first) = self.running.first_abort() else {
            return Ok(Did::Skipped(Why::NoAbort));
        };
        self.book.reserve(2)?;
        let n = first.attempt;
        let row = first.row;
        let ok = try_abort(&self.spec, &mut self.lower, &self.running, n, row);
        let follows = settle_aborted(&self.spec, &mut self.running, n, row, ok);
        self.book.push(Entry::Aborted(row.command, n, ok));
        self.book.push(follows);
        Ok(Did::Done)
    }
}

/// Has the lower layer try to take an attempt back, where the host has the callback. It fails where the host hasn't.
fn try_abort<A: HostTemplate>(
    spec: &HostSpec,
    lower: &mut A,
    running: &Running,
    n: Attempt,
    row: Row,
) -> bool
    requires runs { IsRunning spec.now running.now }
    requires first { IsFirstAbort running.now n row }
    ensures calls { result ≡ true → calls spec.now.handlers abort_level ≡ true }
    ensures stands { (P : List EntrySeen) (b : Before) → HostAgrees spec.now P running.now → A.stands lower.old spec.now b P → A.stands lower.new spec.now b (entries.Aborted row.command n result ∷ P) }
    ensures nature { SameNature (A.means lower.old) (A.means lower.new) }
    ensures honest { (P : List EntrySeen) → IfHonest (HonestOpener spec.now P (entries.Aborted row.command n result)) (A.means lower.old) (A.means lower.new) }
{
    if !can_abort(spec.handlers) {
        return false;
    }
    let command = spec.cmds.as_slice()[row.place];
    match lower.abort(n, command.dev) {
        EhSay::Success => true,
        EhSay::Failed => false,
    }
}

fn can_abort(handlers: Handlers) -> bool
    ensures { result ≡ calls handlers abort_level }
{
    handlers.intersects(Handlers::ABORT)
}

/// Enters into the running state what follows the abort of an attempt, and gives the entry that says it: after a success the
/// verdict on a command without an answer, else the failure of the command.
fn settle_aborted(spec: &HostSpec, running: &mut Running, n: Attempt, row: Row, ok: bool) -> Entry
    requires runs { IsRunning spec.now running.old }
    requires first { IsFirstAbort running.old n row }
    ensures entry { (P : List EntrySeen) → HostAgrees spec.now P running.old → result ≡ after_abort spec.now P row.command n ok }
    ensures runs { (P : List EntrySeen) → HostAgrees spec.now P running.old → HostAgrees spec.now (result ∷ entries.Aborted row.command n ok ∷ P) running.new }
    ensures shown { running.new.attempts.tags.items ≡ running.old.attempts.tags.items }
{
    if !ok {
        running.fail_aborted(n, row);
        return Entry::Failed(row.command, n, true);
    }
    let command = spec.cmds.as_slice()[row.place];
    let kept = running.command(row.place);
    let state = running.device_state(kept.device);
    match verdict(&command, kept.retries, state, None, false) {
        Flush::Again => {
            running.retry_aborted(n, row);
            Entry::Again(row.command, true)
        }
        Flush::Told(answer) => {
            running.report_aborted(n, row);
            Entry::Told(row.command, answer)
        }
    }
}
