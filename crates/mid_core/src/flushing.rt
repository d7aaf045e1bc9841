ghost use Rattle.std.specs.Prelude.{◌≡◌, List, ◌∷◌};
ghost use Rattle.mid_base.specs.declared.entries.Entry.{Entry as EntrySeen};
ghost use Rattle.mid_base.specs.declared.steps.Step.TheVariants as steps;
ghost use Rattle.trace_model.specs.Legal.{EachStands};
ghost use Rattle.host_state.specs.HostAgrees.{HostAgrees};
ghost use Rattle.mid_core.specs.Recovering.{IsFirstFailed, flushed_entry};

use crate::Core;
use done_flush::{Flush, verdict};
use host_state::{FailedRow, Running};
use host_template::HostTemplate;
use mid_base::{Did, Entry, HostSpec, NoMemory, Why};

impl<A: HostTemplate> Core<A> {
    ghost use Rattle.mid_core.specs.Steps.{Answers};

    // The command that failed first waits again, or is reported (`scsi_eh.rst`, "scsi_eh_flush_done_q").
    pub(crate) fn flush(&mut self) -> Result<Did, NoMemory>
        ensures { Answers A.stands A.is_due A.means self.old self.new steps.EhFlush result }
    {
        let Some(ladder) = &self.ladder else {
            return Ok(Did::Skipped(Why::EhIdle));
        };
        if !ladder.left().is_empty() {
            return Ok(Did::Skipped(Why::LadderOpen));
        }
        let Some(failed) = self.running.failed().first().copied() else {
            return Ok(Did::Skipped(Why::FlushDone));
        };
        self.book.reserve(1)?;
        let entry = flush_first(&self.spec, &mut self.running, failed);
        self.book.push(entry);
        Ok(Did::Done)
    }

    // Recovery ends.
    pub(crate) fn end_recovery(&mut self) -> Result<Did, NoMemory>
        ensures { Answers A.stands A.is_due A.means self.old self.new steps.EhEnd result }
    {
        let Some(ladder) = &self.ladder else {
            return Ok(Did::Skipped(Why::EhIdle));
        };
        if !ladder.left().is_empty() {
            return Ok(Did::Skipped(Why::LadderOpen));
        }
        if self.running.has_failed() {
            return Ok(Did::Skipped(Why::FlushLeft));
        }
        self.book.reserve(1)?;
        self.book.push(Entry::EhEnd);
        self.running.end_recovery();
        self.ladder = None;
        Ok(Did::Done)
    }
}

// Enters into the running state what comes of the command that failed first, and gives the entry that says it.
fn flush_first(spec: &HostSpec, running: &mut Running, failed: FailedRow) -> Entry
    requires { IsFirstFailed spec.now running.old failed }
    ensures entry { (P : List EntrySeen) → EachStands spec.now P → HostAgrees spec.now P running.old → result ≡ flushed_entry spec.now P failed }
    ensures runs { (P : List EntrySeen) → EachStands spec.now P → HostAgrees spec.now P running.old → HostAgrees spec.now (result ∷ P) running.new }
    ensures shown { running.new.attempts.tags.items ≡ running.old.attempts.tags.items }
{
    let Some(row) = running.attempt(failed.attempt) else {
        unreachable!()
    };
    let command = spec.cmds.as_slice()[row.place];
    let kept = running.command(row.place);
    let state = running.device_state(kept.device);
    match verdict(
        &command,
        kept.retries,
        state,
        failed.answer.as_ref(),
        failed.success,
    ) {
        Flush::Again => {
            running.retry_failed(failed.attempt, row);
            Entry::Again(row.command, true)
        }
        Flush::Told(answer) => {
            running.report_failed(failed.attempt, row);
            Entry::Told(row.command, answer)
        }
    }
}
