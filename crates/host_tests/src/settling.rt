ghost use Rattle.std.specs.Prelude.{◌≡◌, ◌≢◌, ◌<◌, ◌^◌, ℕ, IfOk, IfSome, Some, length};
ghost use Rattle.mid_base.specs.declared.answers.By.{By};
ghost use Rattle.mid_base.specs.declared.entries.Entry.TheVariants.{Owned};
ghost use Rattle.host_words.specs.declared.view.Stage.TheVariants.{Holding};
ghost use Rattle.host_words.specs.declared.words.WordSeen.TheVariants.{Armed};
ghost use Rattle.host_words.specs.Journals.{IsPrefix, In, HasCause};
ghost use Rattle.host_words.specs.Words.{claimed_word};
ghost use Rattle.host_words.specs.Views.{staged, showing, released_of, lost};
ghost use Rattle.host_words.specs.Leaving.{IsShownClaimed};
ghost use Rattle.host_words.specs.Looks.{Looks};
ghost use Rattle.host_words.specs.Seats.{view, turn, tag_count, IsSeatOf, IsSameTable, IsHolding, GoesOn};
ghost use Rattle.host_tests.specs.Desks.{begins, origin_of};
ghost use Rattle.host_tests.specs.Entering.{TellsOwner, AddsNone, Ends};
ghost use Rattle.host_tests.specs.Turned.{Turned, IsIdle, IsBack};

use crate::Desk;
use host_words::{Claim, HostSeat, HostTable, WordSeen};
use mid_base::{Attempt, By, NoMemory, Tag};
use std::sync::Wait;

// Begins a turn with a look at the word of a tag.
fn found<R: Wait>(
    rt: &R,
    table: &HostTable<Desk>,
    seat: &mut HostSeat<Desk>,
    t: Tag,
) -> (Desk, WordSeen)
    requires seat { IsIdle table.now seat.old }
    requires tag { t.0 < tag_count table.now }
    ensures table { IsSameTable seat.old seat.new }
    ensures origin { Some (origin_of result.0) ≡ (view seat.old).origin }
    ensures turn { (k : ℕ) × (view seat.new ≡ staged (view seat.old) (Holding k (showing (begins result.0) t.0 result.1))) }
    ensures tags { length result.0.tags.items ≡ tag_count table.now }
    ensures later { IsPrefix (view seat.old).seen result.0.entries.items }
    ensures looks { Looks (view seat.old) (begins result.0) t.0 result.1 }
{
    let desk = table.enter(rt, seat);
    let word = table.look(seat, t);
    (desk, word)
}

// Frees a tag for the claim that a look of this turn showed.
fn released(table: &HostTable<Desk>, seat: &mut HostSeat<Desk>, t: Tag, n: Attempt, by: By)
    requires table { IsSeatOf table.now seat.old }
    requires turn { IsHolding seat.old }
    requires tag { t.0 < tag_count table.now }
    requires shown { IsShownClaimed (turn seat.old) t.0 n by }
    ensures { GoesOn seat.old (released_of (turn seat.old) t.0 (claimed_word n by)) seat.new }
{
    let _ = (n, by);
    table.release(seat, t);
}

/// A turn that looks at the word of a tag, and where it is claimed enters the owner of the attempt. The tag is left to it,
/// for a later turn to free. None where nothing is claimed.
pub fn owned<R: Wait>(
    rt: &R,
    table: &HostTable<Desk>,
    seat: &mut HostSeat<Desk>,
    t: Tag,
) -> Result<Option<(Attempt, By)>, NoMemory>
    requires seat { IsIdle table.now seat.old }
    requires tag { t.0 < tag_count table.now }
    ensures table { IsSameTable seat.old seat.new }
    ensures turn { Turned (view seat.old) (view seat.new) }
    ensures tells { TellsOwner (view seat.old) t.0 result (view seat.new) }
{
    let (mut desk, word) = found(rt, table, seat, t);
    let owner = desk.own(t, word);
    table.leave(seat, desk);
    owner
}

/// A later turn than `owned`, which frees the tag that is left to the owner of an attempt; the seat has seen the owner. It
/// adds no entry and takes no memory. False where the tag isn't left to that owner any more.
pub fn freed<R: Wait>(
    rt: &R,
    table: &HostTable<Desk>,
    seat: &mut HostSeat<Desk>,
    t: Tag,
    n: Attempt,
    by: By,
) -> bool
    requires seat { IsIdle table.now seat.old }
    requires tag { t.0 < tag_count table.now }
    requires owner { In (Owned n by) (view seat.old).seen }
    ensures table { IsSameTable seat.old seat.new }
    ensures adds { AddsNone (view seat.old) (view seat.new) }
{
    let (mut desk, _) = found(rt, table, seat, t);
    if desk.free(t, n, by) {
        released(table, seat, t, n, by);
        table.leave(seat, desk);
        true
    } else {
        table.leave(seat, desk);
        false
    }
}

/// A turn that looks at the word of a tag, and where it is claimed enters the owner of the attempt, settles it and frees
/// the tag. None where nothing is claimed.
pub fn settled<R: Wait>(
    rt: &R,
    table: &HostTable<Desk>,
    seat: &mut HostSeat<Desk>,
    t: Tag,
) -> Result<Option<(Attempt, By)>, NoMemory>
    requires seat { IsIdle table.now seat.old }
    requires tag { t.0 < tag_count table.now }
    ensures table { IsSameTable seat.old seat.new }
    ensures turn { Turned (view seat.old) (view seat.new) }
    ensures tells { TellsOwner (view seat.old) t.0 result (view seat.new) }
{
    let (mut desk, word) = found(rt, table, seat, t);
    match desk.settle(t, word) {
        Ok(Some((n, by))) => {
            released(table, seat, t, n, by);
            table.leave(seat, desk);
            Ok(Some((n, by)))
        }
        Ok(None) => {
            table.leave(seat, desk);
            Ok(None)
        }
        Err(_) => {
            table.leave(seat, desk);
            Err(NoMemory)
        }
    }
}

/// Claims an attempt, and settles it where the claim was won: the seat has then seen its owner, who is the one that it
/// claimed for.
pub fn claimed_and_settled<R: Wait>(
    rt: &R,
    table: &HostTable<Desk>,
    seat: &mut HostSeat<Desk>,
    t: Tag,
    n: Attempt,
    by: By,
) -> Result<Claim, NoMemory>
    requires seat { IsIdle table.now seat.old }
    requires tag { t.0 < tag_count table.now }
    requires attempt { n.0 < 2 ^ 60 }
    requires cause { HasCause (view seat.old).seen t.0 n by }
    ensures back { IsBack table.now seat.old seat.new }
    ensures ends { IfOk result (λ c. Ends (view seat.old) t.0 n by c (view seat.new)) }
{
    match table.claim(seat, t, n, by) {
        Claim::Won => match settled(rt, table, seat, t) {
            Ok(_) => Ok(Claim::Won),
            Err(_) => Err(NoMemory),
        },
        Claim::Lost(met) => Ok(Claim::Lost(met)),
    }
}

/// A claim that comes too late: the seat has seen an owner of the attempt. It is lost, also where the tag is armed for
/// another attempt by then. The answer is the word that it met, which isn't that the attempt is armed.
pub fn late_claim(
    table: &HostTable<Desk>,
    seat: &mut HostSeat<Desk>,
    t: Tag,
    n: Attempt,
    by: By,
) -> WordSeen
    requires table { IsSeatOf table.now seat.old }
    requires tag { t.0 < tag_count table.now }
    requires attempt { n.0 < 2 ^ 60 }
    requires cause { HasCause (view seat.old).seen t.0 n by }
    requires owner { (b : By) × In (Owned n b) (view seat.old).seen }
    ensures table { IsSameTable seat.old seat.new }
    ensures lost { (result ≢ Armed n) × (view seat.new ≡ lost (view seat.old) t.0 n result) }
{
    match table.claim(seat, t, n, by) {
        Claim::Lost(met) => met,
        Claim::Won => unreachable!(),
    }
}

/// Settles in two turns: one enters the owner, a later one frees the tag. The seat has then seen the owner. None where
/// nothing is claimed.
pub fn settled_in_two_turns<R: Wait>(
    rt: &R,
    table: &HostTable<Desk>,
    seat: &mut HostSeat<Desk>,
    t: Tag,
) -> Result<Option<(Attempt, By)>, NoMemory>
    requires seat { IsIdle table.now seat.old }
    requires tag { t.0 < tag_count table.now }
    ensures back { IsBack table.now seat.old seat.new }
    ensures owner { IfOk result (λ o. IfSome o (λ x. In (Owned x.0 x.1) (view seat.new).seen)) }
{
    let Some((n, by)) = owned(rt, table, seat, t)? else {
        return Ok(None);
    };
    freed(rt, table, seat, t, n, by);
    Ok(Some((n, by)))
}
