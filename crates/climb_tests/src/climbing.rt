ghost use Rattle.std.specs.Prelude.{◌≡◌, ◌≤◌, ◌<◌, ◌+◌, ◌*◌, ◌++◌, [], filter, length, IfOk};
ghost use Rattle.escalation.specs.Climbing.{is_left};

use escalation::{Acted, Ladder, Todo};
use host_template::HostTemplate;
use mid_base::{Entry, Handlers, NoMemory};

/// Recovers these failed commands over any lower layer of a host with these callbacks, and gives what the acts of the climb
/// told, in order. Each command is cleared by then, whatever the lower layer said. Commands that were cancelled are aborted
/// only where `aborts` says so. The buffer has at least 2,056 bytes.
pub fn recovered<A: HostTemplate>(
    todo: Vec<Todo>,
    handlers: Handlers,
    aborts: bool,
    lower: &mut A,
    into: &mut [u8],
) -> Result<Vec<Entry>, NoMemory>
    requires { 2056 ≤ length into.old }
    ensures { IfOk result (λ told. filter (is_left told.items) todo.items ≡ []) }
{
    let mut told = Vec::new(*todo.allocator());
    let calls = calls_for(&todo);
    let mut ladder = Ladder::begin(todo, handlers, aborts)?;
    climb(&mut ladder, lower, into, calls, &mut told)?;
    Ok(told)
}

// How often a ladder for these commands is called at most: it has seven acts ahead for each command, and one.
fn calls_for(todo: &[Todo]) -> usize
    ensures { 7 * length todo.now + 1 < result }
{
    7 * todo.len() + 2
}

// Climbs until each command that is left is cleared: each call but the last passes an act that is ahead.
fn climb<A: HostTemplate>(
    ladder: &mut Ladder,
    lower: &mut A,
    into: &mut [u8],
    calls: usize,
    told: &mut Vec<Entry>,
) -> Result<(), NoMemory>
    requires buffer { 2056 ≤ length into.old }
    requires calls { length ladder.old.ahead < calls }
    requires empty { told.old.items ≡ [] }
    ensures { IfOk result (λ u. filter (is_left told.new.items) ladder.old.left ≡ []) }
{
    for _ in 0..calls {
        match ladder.next(lower, into)? {
            Acted::Act { entries, .. } => add(told, &entries)?,
            Acted::Finished => return Ok(()),
        }
    }
    Ok(())
}

fn add(told: &mut Vec<Entry>, entries: &[Entry]) -> Result<(), NoMemory>
    ensures { IfOk result (λ u. told.new.items ≡ told.old.items ++ entries.now) }
{
    match told.extend_from_slice(entries) {
        Ok(()) => Ok(()),
        Err(_) => Err(NoMemory),
    }
}
