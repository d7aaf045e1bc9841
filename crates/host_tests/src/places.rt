ghost use Rattle.std.specs.Prelude.{◌≡◌, ◌+◌, IfOk, length};
ghost use Rattle.host_words.specs.Places.{AreApart};
ghost use Rattle.host_words.specs.Seats.{view, IsSeatOf, IsSameTable, IsAway};
ghost use Rattle.host_tests.specs.Desks.{entry_of};
ghost use Rattle.host_tests.specs.Places.{Fills, BothFill, TwoTurns, ranges_of_three};
ghost use Rattle.host_tests.specs.Turned.{Turned, Added, IsIdle};

use crate::{Desk, Note};
use host_words::{HostSeat, HostTable};
use mid_base::NoMemory;
use std::sync::Wait;

/// Places of a journal, from the first to before the second.
#[derive(Clone, Copy, PartialEq, Debug)]
pub struct Places {
    pub from: usize,
    pub to: usize,
}

/// A turn that puts one entry behind the others, and the places of the journal that it filled. The seat has seen the
/// journal up to there.
pub fn placed_note<R: Wait>(
    rt: &R,
    table: &HostTable<Desk>,
    seat: &mut HostSeat<Desk>,
    note: Note,
) -> Result<Places, NoMemory>
    requires { IsIdle table.now seat.old }
    ensures table { IsSameTable seat.old seat.new }
    ensures turn { Turned (view seat.old) (view seat.new) }
    ensures added { IfOk result (λ _. Added (view seat.old) (entry_of note) (view seat.new)) }
    ensures fills { IfOk result (λ p. Fills (view seat.old) p (view seat.new)) }
{
    let mut desk = table.enter(rt, seat);
    let from = desk.entries().len();
    let noted = desk.note(note);
    let to = desk.entries().len();
    table.leave(seat, desk);
    match noted {
        Ok(()) => Ok(Places { from, to }),
        Err(_) => Err(NoMemory),
    }
}

/// The turns of two seats, one after the other, which note the beginning and the end of recovery; then the first seat
/// takes the second in. What both filled is known of it then.
#[tactic(auto, using(crate::proofs::Turns::grown_length))]
pub fn two_turns<R: Wait>(
    rt: &R,
    table: &HostTable<Desk>,
    first: &mut HostSeat<Desk>,
    second: HostSeat<Desk>,
) -> Result<(Places, Places), NoMemory>
    requires { IsIdle table.now first.old × IsIdle table.now second }
    ensures seat { IfOk result (λ _. IsSeatOf table.now first.new × IsAway first.new) }
    ensures share { IfOk result (λ _. (view first.new).share ≡ (view first.old).share + (view second).share) }
    ensures turns { IfOk result (λ p. TwoTurns (view first.old) (view second) p (view first.new)) }
    ensures fill { IfOk result (λ p. BothFill (view first.old) (view second) p (view first.new)) }
{
    let mut second = second;
    let begun = placed_note(rt, table, first, Note::Begun)?;
    let ended = placed_note(rt, table, &mut second, Note::Ended)?;
    table.join(first, second);
    Ok((begun, ended))
}

/// The turns of three seats that have all shares of a table, which each note something, and the end of the table. Each
/// place of the journal is in at most one range of theirs, and none of these ends beyond it.
pub fn closed_after_three<R: Wait>(
    rt: &R,
    table: HostTable<Desk>,
    first: HostSeat<Desk>,
    second: HostSeat<Desk>,
    third: HostSeat<Desk>,
) -> Result<(Places, Places, Places, Desk), NoMemory>
    requires seats { IsIdle table first × IsIdle table second × IsIdle table third }
    requires shares { (view first).share + (view second).share + (view third).share ≡ 65536 }
    ensures apart { IfOk result (λ r. AreApart (ranges_of_three (view first) (view second) (view third) r.0 r.1 r.2) (length r.3.entries.items)) }
{
    let mut first = first;
    let mut third = third;
    let (begun, ended) = two_turns(rt, &table, &mut first, second)?;
    let again = placed_note(rt, &table, &mut third, Note::Begun)?;
    table.join(&mut first, third);
    Ok((begun, ended, again, table.close(first)))
}
