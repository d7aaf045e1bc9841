ghost use Rattle.std.specs.Prelude.{◌≡◌, ◌<◌, ◌^◌, OnOk, IfOk, IfSome};
ghost use Rattle.mid_base.specs.declared.answers.By.{By};
ghost use Rattle.host_words.specs.Journals.{HasSent, HasCause};
ghost use Rattle.host_words.specs.Seats.{view, IsSameTable};
ghost use Rattle.host_tests.specs.Desks.{entry_of};
ghost use Rattle.host_tests.specs.Turned.{Turned, Added, IsTold, IsIdle, IsBack};

use crate::{Desk, Note};
use host_words::{HostSeat, HostTable};
use mid_base::{Answer, Attempt, By, NoMemory, Tag};
use std::sync::Wait;

/// A turn that puts one entry behind the others, which arms and owns nothing.
pub fn made_note<R: Wait>(
    rt: &R,
    table: &HostTable<Desk>,
    seat: &mut HostSeat<Desk>,
    note: Note,
) -> Result<(), NoMemory>
    requires { IsIdle table.now seat.old }
    ensures table { IsSameTable seat.old seat.new }
    ensures turn { Turned (view seat.old) (view seat.new) }
    ensures added { OnOk result (Added (view seat.old) (entry_of note) (view seat.new)) }
{
    let mut desk = table.enter(rt, seat);
    let noted = desk.note(note);
    table.leave(seat, desk);
    noted
}

/// A turn that sends the next attempt under a tag, and arms the tag; None where the tag isn't free, or the table has no such
/// tag. That it has the tag is no condition of the caller's: a turn finds a state with a tag for each of the table's.
pub fn sent<R: Wait>(
    rt: &R,
    table: &HostTable<Desk>,
    seat: &mut HostSeat<Desk>,
    t: Tag,
) -> Result<Option<Attempt>, NoMemory>
    requires { IsIdle table.now seat.old }
    ensures table { IsSameTable seat.old seat.new }
    ensures turn { Turned (view seat.old) (view seat.new) }
    ensures sent { IfOk result (λ o. IfSome o (λ n. (n.0 < 2 ^ 60) × HasSent (view seat.new).seen t.0 n)) }
{
    let mut desk = table.enter(rt, seat);
    match desk.send(t) {
        Ok(Some(n)) => {
            table.arm(seat, t, n);
            table.leave(seat, desk);
            Ok(Some(n))
        }
        Ok(None) => {
            table.leave(seat, desk);
            Ok(None)
        }
        Err(_) => {
            table.leave(seat, desk);
            Err(NoMemory)
        }
    }
}

/// A turn that enters the answer of an attempt.
pub fn answered<R: Wait>(
    rt: &R,
    table: &HostTable<Desk>,
    seat: &mut HostSeat<Desk>,
    t: Tag,
    n: Attempt,
    answer: Answer,
) -> Result<(), NoMemory>
    requires seat { IsIdle table.now seat.old }
    requires sent { HasSent (view seat.old).seen t.0 n }
    ensures table { IsSameTable seat.old seat.new }
    ensures turn { Turned (view seat.old) (view seat.new) }
    ensures cause { OnOk result (HasCause (view seat.new).seen t.0 n By.Answer) }
{
    let _ = t;
    match made_note(rt, table, seat, Note::Answered(n, answer)) {
        Ok(()) => Ok(()),
        Err(_) => Err(NoMemory),
    }
}

/// A turn that enters that the time of an attempt is up.
pub fn overdue<R: Wait>(
    rt: &R,
    table: &HostTable<Desk>,
    seat: &mut HostSeat<Desk>,
    t: Tag,
    n: Attempt,
) -> Result<(), NoMemory>
    requires seat { IsIdle table.now seat.old }
    requires sent { HasSent (view seat.old).seen t.0 n }
    ensures table { IsSameTable seat.old seat.new }
    ensures turn { Turned (view seat.old) (view seat.new) }
    ensures cause { OnOk result (HasCause (view seat.new).seen t.0 n By.Expiry) }
{
    let _ = t;
    match made_note(rt, table, seat, Note::Overdue(n)) {
        Ok(()) => Ok(()),
        Err(_) => Err(NoMemory),
    }
}

/// Three turns: the next attempt is sent under a tag, is answered, and its time is up. None where the tag isn't free,
/// or the table has no such tag.
#[tactic(auto, using(crate::proofs::Turns::turned_on, crate::proofs::Turns::goes_nowhere))]
pub fn sent_and_told<R: Wait>(
    rt: &R,
    table: &HostTable<Desk>,
    seat: &mut HostSeat<Desk>,
    t: Tag,
    answer: Answer,
) -> Result<Option<Attempt>, NoMemory>
    requires { IsIdle table.now seat.old }
    ensures back { IsBack table.now seat.old seat.new }
    ensures told { IfOk result (λ o. IfSome o (λ n. (n.0 < 2 ^ 60) × IsTold (view seat.new).seen t.0 n)) }
{
    let Some(n) = sent(rt, table, seat, t)? else {
        return Ok(None);
    };
    answered(rt, table, seat, t, n, answer)?;
    overdue(rt, table, seat, t, n)?;
    Ok(Some(n))
}
