ghost use Rattle.std.specs.Prelude.{◌≡◌, ◌≤◌, ◌+◌, ◌*◌, [], filter, IfOk, length, vec_capacity};
ghost use Rattle.disposition.specs.Ladder.{is_in_scope as is_in_scope_seen};
ghost use Rattle.escalation.specs.Acts.{IsReady};

use crate::devices::{devices_of, in_scope_of};
use crate::testing::{Chosen, Told};
use disposition::Todo;
use mid_base::{NoMemory, Scope};
use std::alloc::Global;

/// The commands of a scope, and their devices.
pub(crate) fn chosen_of(left: &Vec<Todo>, scope: Scope) -> Result<Chosen, NoMemory>
    ensures { IfOk result (λ v. v.todo.items ≡ filter (is_in_scope_seen scope) left.now.items) }
{
    let todo = in_scope_of(left, scope)?;
    let devices = devices_of(&todo)?;
    Ok(Chosen { todo, devices })
}

/// Room for what an act on so many commands may tell.
pub(crate) fn room_for(alloc: Global, todo: &[Todo]) -> Result<Told, NoMemory>
    ensures { IfOk result (λ t. IsReady todo.now t) }
{
    let Ok(entries) = Vec::with_capacity(alloc, 4 + 3 * todo.len()) else {
        return Err(NoMemory);
    };
    match Vec::with_capacity(alloc, todo.len()) {
        Ok(ready) => Ok(Told { entries, ready }),
        Err(_) => Err(NoMemory),
    }
}

/// Room for the ids of those that it may clear: as many as it may tell entries.
pub(crate) fn room_for_ids(alloc: Global, todo: &[Todo]) -> Result<Vec<u32>, NoMemory>
    ensures none { IfOk result (λ v. v.items ≡ []) }
    ensures room { IfOk result (λ v. 4 + 3 * length todo.now ≤ vec_capacity v) }
{
    match Vec::with_capacity(alloc, 4 + 3 * todo.len()) {
        Ok(ids) => Ok(ids),
        Err(_) => Err(NoMemory),
    }
}
