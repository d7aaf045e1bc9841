ghost use Rattle.std.specs.Prelude.{◌≡◌, IfOk, OnOk};
ghost use Rattle.attempt_table.specs.AttemptsAgree.{HasRoom, IsTied};
ghost use Rattle.attempt_table.specs.Rows.{row_of, claims_by};

use crate::Attempts;
use mid_base::{Answer, Attempt, By, CmdId, HostByte, NoMemory, SenseBytes, Tag, TagState};
use std::alloc::Global;

// A call of the table. Attempts and tags are told by their numbers.
#[derive(Clone, Copy, PartialEq, Eq, Debug)]
pub(crate) enum Call {
    // With this tag.
    Send(u16),
    Bounce(u64),
    // With this many bytes moved.
    Answer(u64, u32),
    Expire(u64),
    Own(u64, By),
    Settle(u64),
    DropLate(u64),
}

// Why calls end early: want of memory, or a call whose premises don't hold.
#[derive(Clone, Copy, PartialEq, Eq, Debug)]
pub(crate) enum Stop {
    NoMemory,
    Refused(Call),
}

// An answer that moved this many bytes, GOOD (SAM-5, 5.3.1).
pub(crate) fn moved(bytes: u32) -> Answer {
    Answer {
        host: HostByte(0),
        status: 0,
        sense: SenseBytes::empty(),
        moved: bytes,
        sum: 0,
    }
}

fn three_tags(alloc: Global) -> Result<Attempts, NoMemory>
    ensures { IfOk result (λ t. IsTied t) }
{
    Attempts::new(alloc, 3)
}

fn reserve(attempts: &mut Attempts) -> Result<(), NoMemory>
    requires { IsTied attempts.old }
    ensures tied { IsTied attempts.new }
    ensures room { OnOk result (HasRoom attempts.new) }
{
    attempts.reserve()
}

// The command that is sent with tag t is 10 + t, at the place 20 + t.
fn send(attempts: &mut Attempts, tag: u16) -> bool
    requires room { HasRoom attempts.old }
    requires tied { IsTied attempts.old }
    ensures { IsTied attempts.new }
{
    let Some(TagState::Free) = attempts.tag_states().get(usize::from(tag)) else {
        return false;
    };
    let place = 20 + usize::from(tag);
    let n = attempts.send(CmdId(10 + u32::from(tag)), place, Tag(tag));
    n == Attempt(attempts.count())
}

fn bounce(attempts: &mut Attempts, n: Attempt) -> bool
    requires { IsTied attempts.old }
    ensures { IsTied attempts.new }
{
    match attempts.row(n) {
        Some(row) if row.out && !row.answered && !row.due && row.owner.is_none() => {
            attempts.bounce(n);
            true
        }
        _ => false,
    }
}

fn answer(attempts: &mut Attempts, n: Attempt, bytes: u32) -> bool
    requires room { HasRoom attempts.old }
    requires tied { IsTied attempts.old }
    ensures { IsTied attempts.new }
{
    attempts.answer(n, moved(bytes));
    true
}

fn expire(attempts: &mut Attempts, n: Attempt) -> bool
    requires room { HasRoom attempts.old }
    requires tied { IsTied attempts.old }
    ensures { IsTied attempts.new }
{
    match attempts.row(n) {
        Some(row) if row.out && !row.due => {
            attempts.expire(n);
            true
        }
        _ => false,
    }
}

fn waits(attempts: &Attempts, n: Attempt, by: By) -> bool
    ensures { result ≡ claims_by by (row_of n.0 attempts.now.rows.items) }
{
    match (attempts.row(n), by) {
        (Some(row), By::Answer) => row.out && row.answered,
        (Some(row), By::Expiry) => row.out && row.due,
        (None, _) => false,
    }
}

fn own(attempts: &mut Attempts, n: Attempt, by: By) -> bool
    requires { IsTied attempts.old }
    ensures { IsTied attempts.new }
{
    if !waits(attempts, n, by) {
        return false;
    }
    attempts.own(n, by);
    true
}

fn settle(attempts: &mut Attempts, n: Attempt) -> bool
    requires { IsTied attempts.old }
    ensures { IsTied attempts.new }
{
    match attempts.row(n) {
        Some(row) if !row.out && !row.settled && row.owner.is_some() => {
            attempts.settle(n);
            true
        }
        _ => false,
    }
}

fn drop_late(attempts: &mut Attempts, n: Attempt) -> bool
    requires { IsTied attempts.old }
    ensures { IsTied attempts.new }
{
    attempts.drop_late(n);
    true
}

// Makes a call where its premises hold, and says whether they do.
fn is_made(attempts: &mut Attempts, call: Call) -> bool
    requires room { HasRoom attempts.old }
    requires tied { IsTied attempts.old }
    ensures { IsTied attempts.new }
{
    match call {
        Call::Send(tag) => send(attempts, tag),
        Call::Bounce(n) => bounce(attempts, Attempt(n)),
        Call::Answer(n, bytes) => answer(attempts, Attempt(n), bytes),
        Call::Expire(n) => expire(attempts, Attempt(n)),
        Call::Own(n, by) => own(attempts, Attempt(n), by),
        Call::Settle(n) => settle(attempts, Attempt(n)),
        Call::DropLate(n) => drop_late(attempts, Attempt(n)),
    }
}

fn make(attempts: &mut Attempts, call: Call) -> Result<(), Stop>
    requires { IsTied attempts.old }
    ensures { IsTied attempts.new }
{
    if reserve(attempts).is_err() {
        return Err(Stop::NoMemory);
    }
    if is_made(attempts, call) {
        Ok(())
    } else {
        Err(Stop::Refused(call))
    }
}

fn make_each(attempts: &mut Attempts, calls: &[Call]) -> Result<(), Stop>
    requires { IsTied attempts.old }
    ensures { IsTied attempts.new }
{
    for call in calls {
        make(attempts, *call)?;
    }
    Ok(())
}

// The table of three tags after these calls. Before them the attempts 1, 2 and 3 were sent with the tags 1, 0 and 2.
pub(crate) fn after(alloc: Global, calls: &[Call]) -> Result<Attempts, Stop> {
    let Ok(mut attempts) = three_tags(alloc) else {
        return Err(Stop::NoMemory);
    };
    make_each(
        &mut attempts,
        &[Call::Send(1), Call::Send(0), Call::Send(2)],
    )?;
    make_each(&mut attempts, calls)?;
    Ok(attempts)
}
