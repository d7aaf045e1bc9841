use crate::commands::{FIRST, all_callbacks, cancelled, told};
use crate::rogue::Rogue;
use bitflags::Flags;
use mid_base::{Answer, CmdId, DID_OK, Entry, GOOD, Handlers, ProbeSay, Scope, SenseBytes};
use std::alloc::Global;
use std::test::Fail;

fn ready() -> ProbeSay {
    ProbeSay::Answered(Answer {
        host: DID_OK,
        status: GOOD,
        sense: SenseBytes::empty(),
        moved: 0,
        sum: 0,
    })
}

// Whether these entries are told of a climb of a command of a device that is ready after each reset, where these callbacks
// succeed.
fn tells(alloc: Global, succeeds: Handlers, wanted: &[Entry]) -> Result<bool, Fail> {
    let mut lower = Rogue {
        succeeds,
        says: [ready(), ready(), ready()],
        calls: 0,
    };
    let todo = [cancelled(1, FIRST)];
    let entries = told(alloc, &mut lower, &todo, all_callbacks(), false)?;
    Ok(entries.as_slice() == wanted)
}

#[test]
fn a_device_reset_clears_its_command(rt: HostRuntime) -> Result<(), Fail> {
    let wanted = [
        Entry::Act(4, Scope::Dev(FIRST), true),
        Entry::Probe(FIRST, 0, ready()),
        Entry::Cleared(CmdId(1), 4),
    ];
    assert!(rt; tells(rt.alloc(), Handlers::DEVICE, &wanted)?);
    Ok(())
}

#[test]
fn a_device_reset_that_fails_is_followed_by_a_target_reset(rt: HostRuntime) -> Result<(), Fail> {
    let wanted = [
        Entry::Act(4, Scope::Dev(FIRST), false),
        Entry::Act(5, Scope::Target(0, 0), true),
        Entry::Probe(FIRST, 0, ready()),
        Entry::Cleared(CmdId(1), 5),
    ];
    assert!(rt; tells(rt.alloc(), Handlers::TARGET, &wanted)?);
    Ok(())
}

#[test]
fn a_target_reset_that_fails_is_followed_by_a_bus_reset(rt: HostRuntime) -> Result<(), Fail> {
    let wanted = [
        Entry::Act(4, Scope::Dev(FIRST), false),
        Entry::Act(5, Scope::Target(0, 0), false),
        Entry::Act(6, Scope::Bus(0), true),
        Entry::Probe(FIRST, 0, ready()),
        Entry::Cleared(CmdId(1), 6),
    ];
    assert!(rt; tells(rt.alloc(), Handlers::BUS, &wanted)?);
    Ok(())
}

#[test]
fn a_bus_reset_that_fails_is_followed_by_a_host_reset(rt: HostRuntime) -> Result<(), Fail> {
    let wanted = [
        Entry::Act(4, Scope::Dev(FIRST), false),
        Entry::Act(5, Scope::Target(0, 0), false),
        Entry::Act(6, Scope::Bus(0), false),
        Entry::Act(7, Scope::Host, true),
        Entry::Probe(FIRST, 0, ready()),
        Entry::Cleared(CmdId(1), 7),
    ];
    assert!(rt; tells(rt.alloc(), Handlers::HOST, &wanted)?);
    Ok(())
}
