ghost use Rattle.std.specs.Prelude.{◌≡◌, ◌≤◌, ◌+◌, IfOk};
ghost use Rattle.std.specs.Thread.{IsSync};
ghost use Rattle.host_words.specs.Seats.{view, tag_count};
ghost use Rattle.host_tests.specs.Turned.{IsIdle, IsReady, MayEnd, IsBack};

use super::*;
use bitflags::Flags;
use host_words::{Claim, HostSeat, HostTable, WordSeen};
use mid_base::{
    Answer, Attempt, By, DID_OK, Entry, GOOD, Handlers, HostNo, HostSpec, NoMemory, Rows,
    SenseBytes, Tag,
};
use std::alloc::Global;
use std::sync::Wait;
use std::test::Fail;
use std::thread::{Threads, join};

const EACH: u32 = 100;

const ATTEMPTS: u16 = 1000;

// DID_OK and GOOD, nothing moved.
fn good() -> Answer {
    Answer {
        host: DID_OK,
        status: GOOD,
        sense: SenseBytes::empty(),
        moved: 0,
        sum: 0,
    }
}

fn plain_host(alloc: Global) -> HostSpec {
    HostSpec {
        no: HostNo(0),
        can_queue: 1,
        handlers: Handlers::from_bits_retain(0),
        no_async_abort: false,
        luns: Rows::new(alloc),
        cmds: Rows::new(alloc),
        plan: Rows::new(alloc),
    }
}

// A table over a desk without entries.
fn table_of(alloc: Global, tags: u16) -> Result<(HostTable<Desk>, HostSeat<Desk>), NoMemory>
    ensures seat { IfOk result (λ t. IsIdle t.0 t.1 × ((view t.1).share ≡ 65536)) }
    ensures tags { IfOk result (λ t. tag_count t.0 ≡ tags) }
{
    let desk = Desk::new(alloc, plain_host(alloc), tags)?;
    HostTable::new(alloc, desk, tags)
}

// The places that two turns over a new table filled, and the desk after them.
fn two_turns_and_close<R: Wait>(rt: &R, alloc: Global) -> Result<(Places, Places, Desk), NoMemory> {
    let (table, mut first) = table_of(alloc, 0)?;
    let second = table.split(&mut first);
    let (begun, ended) = two_turns(rt, &table, &mut first, second)?;
    Ok((begun, ended, table.close(first)))
}

// `two_turns` says that the first seat has these places then, and has seen the journal up to the second one's end.
#[test]
fn two_turns_are_kept_in_order(rt: HostRuntime) -> Result<(), Fail> {
    let (begun, ended, desk) = two_turns_and_close(&rt, rt.alloc())?;
    assert_eq!(rt; begun, Places { from: 0, to: 1 });
    assert_eq!(rt; ended, Places { from: 1, to: 2 });
    assert!(rt; desk.entries() == [Entry::EhBegin, Entry::EhEnd].as_slice());
    Ok(())
}

// Whether three claims on tag 0 answer what they should: one for its old attempt, which is settled, while it is armed for
// attempt 2, and two for attempt 2.
fn a_reused_tag_is_kept_apart<R: Wait>(rt: &R, alloc: Global) -> Result<bool, NoMemory> {
    let (table, mut seat) = table_of(alloc, 1)?;
    let Some(first) = sent_and_told(rt, &table, &mut seat, Tag(0), good())? else {
        return Ok(false);
    };
    let ended = claimed_and_settled(rt, &table, &mut seat, Tag(0), first, By::Answer)?;
    let Claim::Won = ended else {
        return Ok(false);
    };
    let Some(second) = sent_and_told(rt, &table, &mut seat, Tag(0), good())? else {
        return Ok(false);
    };
    let old = late_claim(&table, &mut seat, Tag(0), first, By::Answer);
    let new = table.claim(&mut seat, Tag(0), second, By::Answer);
    let again = table.claim(&mut seat, Tag(0), second, By::Answer);
    Ok(
        old == WordSeen::Armed(Attempt(2))
            && new == Claim::Won
            && again == Claim::Lost(WordSeen::Done(Attempt(2))),
    )
}

#[test]
fn an_old_claim_on_a_reused_tag_is_lost(rt: HostRuntime) -> Result<(), Fail> {
    assert!(rt; a_reused_tag_is_kept_apart(&rt, rt.alloc())?);
    Ok(())
}

// Whether two turns settle attempt 1, which was claimed for its answer, so that attempt 2 is sent under its tag.
fn two_turns_settle<R: Wait>(rt: &R, alloc: Global) -> Result<bool, NoMemory> {
    let (table, mut seat) = table_of(alloc, 1)?;
    let Some(n) = sent_and_told(rt, &table, &mut seat, Tag(0), good())? else {
        return Ok(false);
    };
    table.claim(&mut seat, Tag(0), n, By::Answer);
    let owner = settled_in_two_turns(rt, &table, &mut seat, Tag(0))?;
    let next = sent(rt, &table, &mut seat, Tag(0))?;
    Ok(owner == Some((Attempt(1), By::Answer)) && next == Some(Attempt(2)))
}

#[test]
fn an_attempt_is_settled_in_two_turns(rt: HostRuntime) -> Result<(), Fail> {
    assert!(rt; two_turns_settle(&rt, rt.alloc())?);
    Ok(())
}

// Whether a turn that enters an owner leaves the tag to it: a further one answers the same, and nothing is sent.
fn a_tag_is_left_to_its_owner<R: Wait>(rt: &R, alloc: Global) -> Result<bool, NoMemory> {
    let (table, mut seat) = table_of(alloc, 1)?;
    let Some(n) = sent_and_told(rt, &table, &mut seat, Tag(0), good())? else {
        return Ok(false);
    };
    table.claim(&mut seat, Tag(0), n, By::Expiry);
    let owner = owned(rt, &table, &mut seat, Tag(0))?;
    let again = owned(rt, &table, &mut seat, Tag(0))?;
    let next = sent(rt, &table, &mut seat, Tag(0))?;
    Ok(owner == Some((Attempt(1), By::Expiry)) && again == owner && next.is_none())
}

#[test]
fn an_owned_tag_is_not_sent_under(rt: HostRuntime) -> Result<(), Fail> {
    assert!(rt; a_tag_is_left_to_its_owner(&rt, rt.alloc())?);
    Ok(())
}

// Whether a turn settles nothing under a tag whose attempt nobody has claimed.
fn an_unclaimed_tag_is_let_be<R: Wait>(rt: &R, alloc: Global) -> Result<bool, NoMemory> {
    let (table, mut seat) = table_of(alloc, 1)?;
    sent(rt, &table, &mut seat, Tag(0))?;
    let owner = settled(rt, &table, &mut seat, Tag(0))?;
    Ok(owner.is_none())
}

#[test]
fn an_unclaimed_attempt_is_not_settled(rt: HostRuntime) -> Result<(), Fail> {
    assert!(rt; an_unclaimed_tag_is_let_be(&rt, rt.alloc())?);
    Ok(())
}

// The places that three seats of a new table filled.
fn places_of_three<R: Wait>(rt: &R, alloc: Global) -> Result<(Places, Places, Places), NoMemory> {
    let (table, mut first) = table_of(alloc, 0)?;
    let second = table.split(&mut first);
    let third = table.split(&mut first);
    let (begun, ended, again, _) = closed_after_three(rt, table, first, second, third)?;
    Ok((begun, ended, again))
}

#[test]
fn three_seats_fill_places_of_their_own(rt: HostRuntime) -> Result<(), Fail> {
    let (begun, ended, again) = places_of_three(&rt, rt.alloc())?;
    assert_eq!(rt; begun, Places { from: 0, to: 1 });
    assert_eq!(rt; ended, Places { from: 1, to: 2 });
    assert_eq!(rt; again, Places { from: 2, to: 3 });
    Ok(())
}

type Filled = (HostSeat<Desk>, bool);

fn fills<R: Wait>(rt: &R, table: &HostTable<Desk>, mut seat: HostSeat<Desk>) -> Filled
    requires { IsIdle table.now seat }
    ensures { IsBack table.now seat result.0 }
{
    let done = filled(rt, table, &mut seat, EACH).is_ok();
    (seat, done)
}

fn two_fill<R: Threads + Wait + Sync>(
    rt: &R,
    table: &HostTable<Desk>,
    first: HostSeat<Desk>,
    second: HostSeat<Desk>,
) -> (Filled, Filled)
    requires { IsIdle table.now first × IsIdle table.now second }
    ensures { IsBack table.now first result.0.0 × IsBack table.now second result.1.0 }
{
    join(
        rt,
        || -> Filled
            requires { IsIdle table.now first }
            ensures { IsBack table.entry.now first result.0 }
        { fills(rt, table, first) },
        || -> Filled
            requires { IsIdle table.now second }
            ensures { IsBack table.entry.now second result.0 }
        { fills(rt, table, second) },
    )
}

// How many entries two threads make.
fn entries_of_two<R: Threads + Wait + Sync>(rt: &R, alloc: Global) -> Result<usize, NoMemory> {
    let (table, mut first) = table_of(alloc, 0)?;
    let second = table.split(&mut first);
    let ((mut first, _), (second, _)) = two_fill(rt, &table, first, second);
    table.join(&mut first, second);
    Ok(table.close(first).entries().len())
}

#[test]
fn two_threads_lose_no_entry(rt: HostRuntime) -> Result<(), Fail> {
    assert_eq!(rt; entries_of_two(&rt, rt.alloc())?, 200);
    Ok(())
}

type Claimed = (HostSeat<Desk>, Option<Vec<bool>>);

fn claims(alloc: Global, table: &HostTable<Desk>, mut seat: HostSeat<Desk>, by: By) -> Claimed
    requires { IsReady table.now seat }
    ensures { IsBack table.now seat result.0 }
{
    let won = claimed_all(alloc, table, &mut seat, ATTEMPTS, by).ok();
    (seat, won)
}

// One claims by answer, the other by expiry.
fn two_claim<R: Threads + Sync>(
    rt: &R,
    alloc: Global,
    table: &HostTable<Desk>,
    first: HostSeat<Desk>,
    second: HostSeat<Desk>,
) -> (Claimed, Claimed)
    requires { IsReady table.now first × IsReady table.now second }
    ensures { IsBack table.now first result.0.0 × IsBack table.now second result.1.0 }
{
    join(
        rt,
        || -> Claimed
            requires { IsReady table.now first }
            ensures { IsBack table.entry.now first result.0 }
        { claims(alloc, table, first, By::Answer) },
        || -> Claimed
            requires { IsReady table.now second }
            ensures { IsBack table.entry.now second result.0 }
        { claims(alloc, table, second, By::Expiry) },
    )
}

fn four_claim<R: Threads + Sync>(
    rt: &R,
    alloc: Global,
    table: &HostTable<Desk>,
    one: (HostSeat<Desk>, HostSeat<Desk>),
    other: (HostSeat<Desk>, HostSeat<Desk>),
) -> ((Claimed, Claimed), (Claimed, Claimed))
    requires one { IsReady table.now one.0 × IsReady table.now one.1 }
    requires other { IsReady table.now other.0 × IsReady table.now other.1 }
    ensures one { IsBack table.now one.0 result.0.0.0 × IsBack table.now one.1 result.0.1.0 }
    ensures other { IsBack table.now other.0 result.1.0.0 × IsBack table.now other.1 result.1.1.0 }
{
    let (first, second) = one;
    let (third, fourth) = other;
    join(
        rt,
        || -> (Claimed, Claimed)
            requires { IsReady table.now first × IsReady table.now second × IsSync R.row }
            ensures { IsBack table.entry.now first result.0.0 × IsBack table.entry.now second result.1.0 }
        { two_claim(rt, alloc, table, first, second) },
        || -> (Claimed, Claimed)
            requires { IsReady table.now third × IsReady table.now fourth × IsSync R.row }
            ensures { IsBack table.entry.now third result.0.0 × IsBack table.entry.now fourth result.1.0 }
        { two_claim(rt, alloc, table, third, fourth) },
    )
}

fn ready_split(table: &HostTable<Desk>, seat: &mut HostSeat<Desk>) -> HostSeat<Desk>
    requires ready { IsReady table.now seat.old }
    requires share { 2 ≤ (view seat.old).share }
    ensures ready { IsReady table.now seat.new × IsReady table.now result }
    ensures share { ((view seat.new).share + 1 ≡ (view seat.old).share) × ((view result).share ≡ 1) }
{
    table.split(seat)
}

// How many of four threads won each attempt.
fn winners(won: &[Option<Vec<bool>>], i: usize) -> usize {
    won.iter()
        .filter(|one| one.as_ref().and_then(|all| all.get(i)) == Some(&true))
        .count()
}

// What four threads won that claim the same attempts at once, two by answer and two by expiry.
fn won_by_four<R: Threads + Wait + Sync>(
    rt: &R,
    alloc: Global,
) -> Result<Option<[Option<Vec<bool>>; 4]>, NoMemory> {
    let (table, mut first) = table_of(alloc, ATTEMPTS)?;
    if !sent_all(rt, &table, &mut first, ATTEMPTS, good())? {
        return Ok(None);
    }
    let second = ready_split(&table, &mut first);
    let third = ready_split(&table, &mut first);
    let fourth = ready_split(&table, &mut first);
    let (one, other) = four_claim(rt, alloc, &table, (first, second), (third, fourth));
    let ((mut first, a), (second, b)) = one;
    let ((third, c), (fourth, d)) = other;
    table.join(&mut first, second);
    table.join(&mut first, third);
    table.join(&mut first, fourth);
    table.close(first);
    Ok(Some([a, b, c, d]))
}

#[test]
fn each_attempt_has_one_winner_of_four_threads(rt: HostRuntime) -> Result<(), Fail> {
    let Some(won) = won_by_four(&rt, rt.alloc())? else {
        assert!(rt; false);
        return Ok(());
    };
    for i in 0..1000 {
        assert_eq!(rt; winners(&won, i), 1, "{i}");
    }
    Ok(())
}

type Ended = (HostSeat<Desk>, Option<Claim>);

fn ends<R: Wait>(
    rt: &R,
    table: &HostTable<Desk>,
    mut seat: HostSeat<Desk>,
    n: Attempt,
    by: By,
) -> Ended
    requires { MayEnd table.now seat n }
    ensures { IsBack table.now seat result.0 }
{
    let claim = claimed_and_settled(rt, table, &mut seat, Tag(0), n, by).ok();
    (seat, claim)
}

// One claims by answer, the other by expiry, and each settles what it won.
fn two_end<R: Threads + Wait + Sync>(
    rt: &R,
    table: &HostTable<Desk>,
    first: HostSeat<Desk>,
    second: HostSeat<Desk>,
    n: Attempt,
) -> (Ended, Ended)
    requires { MayEnd table.now first n × MayEnd table.now second n }
    ensures { IsBack table.now first result.0.0 × IsBack table.now second result.1.0 }
{
    join(
        rt,
        || -> Ended
            requires { MayEnd table.now first n }
            ensures { IsBack table.entry.now first result.0 }
        { ends(rt, table, first, n, By::Answer) },
        || -> Ended
            requires { MayEnd table.now second n }
            ensures { IsBack table.entry.now second result.0 }
        { ends(rt, table, second, n, By::Expiry) },
    )
}

fn split_to_end(table: &HostTable<Desk>, seat: &mut HostSeat<Desk>, n: Attempt) -> HostSeat<Desk>
    requires may { MayEnd table.now seat.old n }
    requires share { (view seat.old).share ≡ 65536 }
    ensures may { MayEnd table.now seat.new n × MayEnd table.now result n }
    ensures share { ((view seat.new).share + 1 ≡ 65536) × ((view result).share ≡ 1) }
{
    let _ = n;
    table.split(seat)
}

// How many of two threads won attempt 1, and how many entries stand then.
fn ended_by_two<R: Threads + Wait + Sync>(
    rt: &R,
    alloc: Global,
) -> Result<Option<(usize, usize)>, NoMemory> {
    let (table, mut first) = table_of(alloc, 1)?;
    let Some(n) = sent_and_told(rt, &table, &mut first, Tag(0), good())? else {
        return Ok(None);
    };
    let second = split_to_end(&table, &mut first, n);
    let ((mut first, a), (second, b)) = two_end(rt, &table, first, second, n);
    table.join(&mut first, second);
    let desk = table.close(first);
    let won = [a, b]
        .iter()
        .filter(|one| **one == Some(Claim::Won))
        .count();
    Ok(Some((won, desk.entries().len())))
}

// The entries are that it was sent, answered, and that its time was up; and one owner.
#[test]
fn one_of_two_threads_wins_and_settles(rt: HostRuntime) -> Result<(), Fail> {
    assert!(rt; ended_by_two(&rt, rt.alloc())? == Some((1, 4)));
    Ok(())
}
