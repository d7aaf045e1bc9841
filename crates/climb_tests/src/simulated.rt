ghost use Rattle.std.specs.Prelude.{IfOk};
ghost use Rattle.script_text.specs.Playable.{IsPlayable};

use crate::commands::{cancelled, told};
use debug_adapter::DebugAdapter;
use escalation::Todo;
use host_template::HostTemplate;
use mid_base::{Attempt, CdbBytes, DevAddr, HostNo, Tick};
use mid_io::MemSink;
use report_text::write_host;
use script_text::{Reader, Script, good_scripts_are_playable};
use std::alloc::Global;
use std::test::Fail;

/// How a command came onto the list: it was cancelled, or the adapter answered it.
#[derive(Clone, Copy, PartialEq, Eq, Debug)]
pub(crate) enum Ending {
    Cancelled,
    Answered,
}

fn script_of(alloc: Global, text: &str) -> Result<Script, Fail>
    ensures { IfOk result (λ script. IsPlayable script) }
{
    good_scripts_are_playable();
    let mut reader = Reader::new(alloc);
    reader.feed(text.as_bytes())?;
    match reader.finish() {
        Ok(script) => Ok(script),
        Err(_) => Err("a good script".into()),
    }
}

// READ(10) of the first block (SBC-3).
const READ: [u8; 10] = [0x28, 0, 0, 0, 0, 0, 0, 0, 1, 0];

// A command that the adapter answers, one tick after it was sent.
fn answered(lower: &mut DebugAdapter, id: u32, n: u64, dev: DevAddr) -> Result<Todo, Fail> {
    let read = CdbBytes::from_slice(&READ);
    lower.queue(Attempt(n), dev, &read, 0, Tick(0))?;
    match lower.work(Tick(1))? {
        Some((n, answer)) => Ok(Todo {
            n,
            cancelled: false,
            answer: Some(answer),
            ..cancelled(id, dev)
        }),
        None => Err("an answer".into()),
    }
}

fn todo_of(
    alloc: Global,
    lower: &mut DebugAdapter,
    failed: &[(u32, u64, DevAddr, Ending)],
) -> Result<Vec<Todo>, Fail> {
    let mut todo = Vec::new(alloc);
    for (id, n, dev, ending) in failed {
        todo.push(match ending {
            Ending::Cancelled => Todo {
                n: Attempt(*n),
                ..cancelled(*id, *dev)
            },
            Ending::Answered => answered(lower, *id, *n, *dev)?,
        })?;
    }
    Ok(todo)
}

// What is printed of the climb of these commands over the simulated adapter of a script's first host.
pub(crate) fn climb_text(
    alloc: Global,
    script: &str,
    failed: &[(u32, u64, DevAddr, Ending)],
) -> Result<MemSink, Fail> {
    let script = script_of(alloc, script)?;
    let Some(host) = script.hosts.as_slice().first() else {
        return Err("a host".into());
    };
    let mut lower = DebugAdapter::new(alloc, host)?;
    let todo = todo_of(alloc, &mut lower, failed)?;
    let entries = told(alloc, &mut lower, &todo, host.handlers, host.no_async_abort)?;
    let mut text = MemSink::new(alloc, 4096, Vec::new(alloc))?;
    write_host(alloc, HostNo(0), &[], &entries, &mut text)?;
    Ok(text)
}
