ghost use Rattle.std.specs.Prelude.{◌≡◌, ◌≤◌, IfOk, IsTrue};
ghost use Rattle.host_words.specs.Seats.{view, tag_count};
ghost use Rattle.host_tests.specs.Turned.{AllTold, IsIdle, IsBack};

use crate::{Desk, Note, made_note, sent_and_told};
use host_words::{Claim, HostSeat, HostTable};
use mid_base::{Answer, Attempt, By, NoMemory, Tag};
use std::alloc::Global;
use std::sync::Wait;

/// Makes so many turns, each of which adds an entry.
pub fn filled<R: Wait>(
    rt: &R,
    table: &HostTable<Desk>,
    seat: &mut HostSeat<Desk>,
    turns: u32,
) -> Result<(), NoMemory>
    requires { IsIdle table.now seat.old }
    ensures { IsBack table.now seat.old seat.new }
{
    for _ in 0..turns {
        made_note(rt, table, seat, Note::Begun)?;
    }
    Ok(())
}

/// Sends the attempts 1 to `count` under the tags from 0 on, each with its answer, and lets the time of each be up. False
/// where that couldn't be.
pub fn sent_all<R: Wait>(
    rt: &R,
    table: &HostTable<Desk>,
    seat: &mut HostSeat<Desk>,
    count: u16,
    answer: Answer,
) -> Result<bool, NoMemory>
    requires { IsIdle table.now seat.old }
    ensures back { IsBack table.now seat.old seat.new }
    ensures told { IfOk result (λ b. IsTrue b → AllTold count (view seat.new).seen) }
{
    for i in 0..count {
        let Some(n) = sent_and_told(rt, table, seat, Tag(i), answer)? else {
            return Ok(false);
        };
        if n.0 != u64::from(i) + 1 {
            return Ok(false);
        }
    }
    Ok(true)
}

/// Claims the attempts 1 to `count` under the tags from 0 on, and says which it won.
pub fn claimed_all(
    alloc: Global,
    table: &HostTable<Desk>,
    seat: &mut HostSeat<Desk>,
    count: u16,
    by: By,
) -> Result<Vec<bool>, NoMemory>
    requires seat { IsIdle table.now seat.old }
    requires tags { count ≤ tag_count table.now }
    requires told { AllTold count (view seat.old).seen }
    ensures { IsBack table.now seat.old seat.new }
{
    let mut won = Vec::new(alloc);
    for i in 0..count {
        let claim = table.claim(seat, Tag(i), Attempt(u64::from(i) + 1), by);
        if won.push(claim == Claim::Won).is_err() {
            return Err(NoMemory);
        }
    }
    Ok(won)
}
