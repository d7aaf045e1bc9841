use crate::commands::{all_callbacks, cancelled, told};
use crate::rogue::Rogue;
use bitflags::Flags;
use escalation::Todo;
use mid_base::{Answer, DID_OK, DevAddr, GOOD, Handlers, ProbeSay, SenseBytes};
use std::alloc::Global;
use std::test::Fail;

// The address of a unit: 256 of them, on four channels with eight targets each, each with eight units.
fn address(unit: u16) -> DevAddr {
    DevAddr {
        channel: (unit / 64 % 4) as u8,
        target: (unit / 8 % 8) as u8,
        lun: unit % 8,
    }
}

// 1,024 cancelled commands, four on each unit, which failed in turn.
fn commands(alloc: Global) -> Result<Vec<Todo>, Fail> {
    let mut todo = Vec::new(alloc);
    for id in 0u16..1024 {
        todo.push(cancelled(u32::from(id), address(id % 256)))?;
    }
    Ok(todo)
}

// How many entries a climb of them tells, where these callbacks succeed and each probe says this.
fn entries_of(alloc: Global, succeeds: Handlers, says: ProbeSay) -> Result<usize, Fail> {
    let mut lower = Rogue {
        succeeds,
        says: [says, says, says],
        calls: 0,
    };
    let entries = told(alloc, &mut lower, &commands(alloc)?, all_callbacks(), false)?;
    Ok(entries.len())
}

// 256 devices, 32 targets, 4 channels and the host are reset in vain; then each device goes offline with its commands.
#[test]
fn climbs_1024_commands_of_256_units_to_the_top(rt: HostRuntime) -> Result<(), Fail> {
    let entries = entries_of(rt.alloc(), Handlers::empty(), ProbeSay::Silent)?;
    assert!(rt; entries == 256 + 32 + 4 + 1 + 256 * (2 + 4), "{entries}");
    Ok(())
}

// Each reset succeeds, and then each device in its scope is tested.
#[test]
fn tests_256_silent_units_at_each_level(rt: HostRuntime) -> Result<(), Fail> {
    let entries = entries_of(rt.alloc(), all_callbacks(), ProbeSay::Silent)?;
    assert!(rt;
        entries == 256 * 2 + 32 * 9 + 4 * 65 + 257 + 256 * (2 + 4),
        "{entries}"
    );
    Ok(())
}

// The reset of the host brings all devices back.
#[test]
fn a_host_reset_clears_1024_commands(rt: HostRuntime) -> Result<(), Fail> {
    let good = ProbeSay::Answered(Answer {
        host: DID_OK,
        status: GOOD,
        sense: SenseBytes::empty(),
        moved: 0,
        sum: 0,
    });
    let entries = entries_of(rt.alloc(), Handlers::HOST, good)?;
    assert!(rt; entries == 256 + 32 + 4 + 1 + 256 + 1024, "{entries}");
    Ok(())
}
