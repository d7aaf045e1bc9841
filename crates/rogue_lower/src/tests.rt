use crate::RogueLower;
use host_template::{EhSay, HostTemplate, Queued, TimerSay};
use mid_base::{
    Answer, Attempt, CdbBytes, DID_OK, DevAddr, GOOD, NoMemory, ProbeSay, SenseBytes, Tick,
};
use std::alloc::Global;
use std::test::Fail;

pub(crate) const DEV: DevAddr = DevAddr {
    channel: 0,
    target: 0,
    lun: 0,
};

// DID_OK and GOOD.
pub(crate) fn good(moved: u32, sum: u32) -> Answer {
    Answer {
        host: DID_OK,
        status: GOOD,
        sense: SenseBytes::empty(),
        moved,
        sum,
    }
}

// Says this of sendings, and nothing else.
fn queueing(alloc: Global, queues: &[Queued]) -> Result<RogueLower, Fail> {
    let queues = Vec::from_slice(alloc, queues)?;
    Ok(RogueLower::new(
        queues,
        Vec::new(alloc),
        Vec::new(alloc),
        Vec::new(alloc),
        Vec::new(alloc),
    ))
}

// Answers these attempts, each from its tick on, and nothing else.
fn answering(alloc: Global, due: &[(u64, u64)]) -> Result<RogueLower, Fail> {
    let mut answers = Vec::new(alloc);
    for (tick, attempt) in due {
        answers.push((Tick(*tick), Attempt(*attempt), good(0, 0)))?;
    }
    Ok(RogueLower::new(
        Vec::new(alloc),
        answers,
        Vec::new(alloc),
        Vec::new(alloc),
        Vec::new(alloc),
    ))
}

// Says this of timers, and of aborts and resets.
fn acting(alloc: Global, timers: &[TimerSay], says: &[EhSay]) -> Result<RogueLower, Fail> {
    let timers = Vec::from_slice(alloc, timers)?;
    let says = Vec::from_slice(alloc, says)?;
    Ok(RogueLower::new(
        Vec::new(alloc),
        Vec::new(alloc),
        timers,
        says,
        Vec::new(alloc),
    ))
}

fn sent(lower: &mut RogueLower) -> Result<Queued, NoMemory> {
    let cdb = CdbBytes::from_slice(&[0; 6]);
    lower.queue(Attempt(1), DEV, &cdb, 0, Tick(0))
}

// The attempt that is handed out at a tick.
fn handed_out(lower: &mut RogueLower, now: u64) -> Result<Option<u64>, NoMemory> {
    Ok(lower.work(Tick(now))?.map(|(n, _)| n.0))
}

#[test]
fn sendings_come_to_what_their_list_says(rt: HostRuntime) -> Result<(), Fail> {
    let mut lower = queueing(rt.alloc(), &[Queued::HostBusy, Queued::DeviceBusy])?;
    let said = [sent(&mut lower)?, sent(&mut lower)?, sent(&mut lower)?];
    assert_eq!(rt; said, [Queued::HostBusy, Queued::DeviceBusy, Queued::Taken]);
    Ok(())
}

#[test]
fn there_is_room_for_each_attempt(rt: HostRuntime) -> Result<(), Fail> {
    let mut lower = queueing(rt.alloc(), &[])?;
    assert_eq!(rt; lower.reserve(usize::MAX), Ok(()));
    Ok(())
}

#[test]
fn an_answer_is_due_from_its_tick_on(rt: HostRuntime) -> Result<(), Fail> {
    let lower = answering(rt.alloc(), &[(3, 1)])?;
    let due = [lower.due(Tick(2)), lower.due(Tick(3)), lower.due(Tick(4))];
    assert_eq!(rt; due, [false, true, true]);
    Ok(())
}

#[test]
fn an_answer_is_handed_out_as_it_is(rt: HostRuntime) -> Result<(), Fail> {
    let mut lower = answering(rt.alloc(), &[(1, 77)])?;
    assert_eq!(rt; lower.work(Tick(1)), Ok(Some((Attempt(77), good(0, 0)))));
    Ok(())
}

#[test]
fn an_answer_waits_for_its_tick_and_comes_once(rt: HostRuntime) -> Result<(), Fail> {
    let mut lower = answering(rt.alloc(), &[(3, 1)])?;
    let handed = [
        handed_out(&mut lower, 2)?,
        handed_out(&mut lower, 3)?,
        handed_out(&mut lower, 3)?,
    ];
    assert_eq!(rt; handed, [None, Some(1), None]);
    Ok(())
}

#[test]
fn an_attempt_may_be_answered_twice(rt: HostRuntime) -> Result<(), Fail> {
    let mut lower = answering(rt.alloc(), &[(1, 1), (1, 1)])?;
    let handed = [
        handed_out(&mut lower, 1)?,
        handed_out(&mut lower, 1)?,
        handed_out(&mut lower, 1)?,
    ];
    assert_eq!(rt; handed, [Some(1), Some(1), None]);
    Ok(())
}

#[test]
fn answers_wait_for_those_before_them(rt: HostRuntime) -> Result<(), Fail> {
    let mut lower = answering(rt.alloc(), &[(3, 1), (1, 2)])?;
    let handed = [handed_out(&mut lower, 1)?, handed_out(&mut lower, 3)?];
    assert_eq!(rt; handed, [None, Some(1)]);
    Ok(())
}

fn expired(lower: &mut RogueLower) -> TimerSay {
    lower.timed_out(Attempt(1), DEV, Tick(0))
}

#[test]
fn timers_come_to_what_their_list_says(rt: HostRuntime) -> Result<(), Fail> {
    let mut lower = acting(rt.alloc(), &[TimerSay::Done, TimerSay::ResetTimer], &[])?;
    let said = [
        expired(&mut lower),
        expired(&mut lower),
        expired(&mut lower),
    ];
    assert_eq!(rt;
        said,
        [TimerSay::Done, TimerSay::ResetTimer, TimerSay::NotHandled]
    );
    Ok(())
}

// What an abort and the four resets come to, in this order.
fn acts(lower: &mut RogueLower) -> [EhSay; 5] {
    [
        lower.abort(Attempt(1), DEV),
        lower.reset_device(DEV),
        lower.reset_target(0, 0),
        lower.reset_bus(0),
        lower.reset_host(),
    ]
}

#[test]
fn an_abort_and_resets_use_one_list(rt: HostRuntime) -> Result<(), Fail> {
    use EhSay::{Failed, Success};
    let says = [Failed, Success, Failed, Success, Failed];
    let mut lower = acting(rt.alloc(), &[], &says)?;
    assert_eq!(rt; acts(&mut lower), says);
    Ok(())
}

#[test]
fn acts_without_a_saying_succeed(rt: HostRuntime) -> Result<(), Fail> {
    let mut lower = acting(rt.alloc(), &[], &[])?;
    assert_eq!(rt; acts(&mut lower), [EhSay::Success; 5]);
    Ok(())
}
