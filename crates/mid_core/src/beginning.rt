ghost use Rattle.std.specs.Prelude.{◌≡◌, List, IfOk};
ghost use Rattle.mid_base.specs.declared.entries.Entry.{Entry as EntrySeen};
ghost use Rattle.mid_base.specs.declared.steps.Step.TheVariants as steps;
ghost use Rattle.host_state.specs.HostAgrees.{HostAgrees};
ghost use Rattle.trace_model.specs.Legal.{EachStands};
ghost use Rattle.trace_model.specs.Recovery.{Failure, listed, todo_of as todo_seen};
ghost use Rattle.mid_core.specs.Recovering.{lost_of};
ghost use Rattle.mid_core.specs.Failures.{IsFailure};

use crate::Core;
use crate::telling::tell_all;
use device_states::online;
use escalation::{Cx, Ladder, Todo};
use host_state::{FailedRow, Running};
use host_template::HostTemplate;
use mid_base::{Did, Entry, HostSpec, NoMemory, Why};
use std::alloc::Global;

// The level of what is cleared as recovery begins, since its device isn't online.
const NOT_ONLINE: u8 = 0;

impl<A: HostTemplate> Core<A> {
    ghost use Rattle.mid_core.specs.Steps.{Answers};

    // Recovery begins: the failed commands whose device isn't online are cleared, and the ladder has the others before it
    // (`scsi_eh.rst`, "How SCSI EH takes over").
    pub(crate) fn begin_recovery(&mut self) -> Result<Did, NoMemory>
        ensures { Answers A.stands A.is_due A.means self.old self.new steps.EhBegin result }
    {
        if self.ladder.is_some() {
            return Ok(Did::Skipped(Why::EhRunning));
        }
        if !self.running.has_failed() {
            return Ok(Did::Skipped(Why::NoFailed));
        }
        if !self.running.is_quiet() {
            return Ok(Did::Skipped(Why::NotQuiet));
        }
        let alloc = *self.probes.allocator();
        let todo = todo_of(alloc, &self.spec, &self.running)?;
        let cleared = lost_of(alloc, &todo)?;
        self.book.reserve(cleared.len().saturating_add(1))?;
        let mut ladder = Ladder::begin(todo, self.spec.handlers, self.spec.no_async_abort)?;
        ladder.leave_offline();
        self.running.begin_recovery();
        self.book.push(Entry::EhBegin);
        tell_all(&self.spec, &mut self.book, &mut self.running, &cleared);
        self.ladder = Some(ladder);
        Ok(Did::Done)
    }
}

// What recovery has to do with: each failed command, in the order in which they failed.
fn todo_of(alloc: Global, spec: &HostSpec, running: &Running) -> Result<Vec<Todo>, NoMemory>
    requires { (P : List EntrySeen) × HostAgrees spec.now P running.now × EachStands spec.now P }
    ensures { IfOk result (λ todo. (P : List EntrySeen) → HostAgrees spec.now P running.now → EachStands spec.now P → todo.items ≡ listed spec.now P) }
{
    let failed = running.failed();
    let mut todo = Vec::with_capacity(alloc, failed.len()).map_err(|_| NoMemory)?;
    for row in failed {
        todo.push_reserved(one_todo(spec, running, *row));
    }
    Ok(todo)
}

// What recovery has to do with a failed command.
fn one_todo(spec: &HostSpec, running: &Running, failed: FailedRow) -> Todo
    requires { (P : List EntrySeen) × (f : Failure) × IsFailure spec.now P running.now f failed }
    ensures { (P : List EntrySeen) (f : Failure) → IsFailure spec.now P running.now f failed → result ≡ todo_seen spec.now P f }
{
    let Some(row) = running.attempt(failed.attempt) else {
        unreachable!()
    };
    let command = spec.cmds.as_slice()[row.place];
    let kept = running.command(row.place);
    Todo {
        cmd: failed.command,
        n: failed.attempt,
        dev: command.dev,
        cancelled: failed.cancelled,
        answer: failed.answer,
        cx: Cx {
            retries: kept.retries,
            allowed: command.allowed,
            failfast: command.failfast,
            online: online(running.device_state(kept.device)),
        },
    }
}

// The commands whose device isn't online are cleared.
fn lost_of(alloc: Global, todo: &[Todo]) -> Result<Vec<Entry>, NoMemory>
    ensures { IfOk result (λ entries. entries.items ≡ lost_of todo.now) }
{
    let cleared = todo
        .iter()
        .filter(|x| !x.cx.online)
        .map(|x| Entry::Cleared(x.cmd, NOT_ONLINE));
    match cleared.collect(alloc) {
        Ok(cleared) => Ok(cleared),
        Err(_) => Err(NoMemory),
    }
}
