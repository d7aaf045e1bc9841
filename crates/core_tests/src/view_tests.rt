use crate::driving::{core_of, host_of, make_all};
use crate::{keeps_limits, one_command_host, simulated_core};
use debug_adapter::DebugAdapter;
use mid_base::{Attempt, By, DevAddr, DeviceState, NoMemory, Tag, TagState};
use mid_core::Core;
use std::alloc::Global;
use std::test::Fail;

const ATTEMPT: Attempt = Attempt(1);

const DEVICE: DevAddr = DevAddr {
    channel: 0,
    target: 0,
    lun: 0,
};

// A command with one tick, that is sent, and is answered and asked about at its deadline.
const BOTH: &str = "\
host 0 4 adtbh
lun 0 0:0:0 2048 8
cmd 1 0 0 0:0:0 1 5 - 000000000000
step 0 submit 0
step 0 send
step 0 tick
step 0 work
step 0 due
end stop
";

// The same, and its timer wins.
const BEATEN: &str = "\
host 0 4 adtbh
lun 0 0:0:0 2048 8
cmd 1 0 0 0:0:0 1 5 - 000000000000
step 0 submit 0
step 0 send
step 0 tick
step 0 work
step 0 due
step 0 own 1 expiry
end stop
";

// A command that is sent, and is owned by its answer.
const OWNED: &str = "\
host 0 4 adtbh
lun 0 0:0:0 2048 8
cmd 1 0 0 0:0:0 30 5 - 000000000000
step 0 submit 0
step 0 send
step 0 tick
step 0 work
step 0 own 1 answer
end stop
";

// A command that is sent.
const SENT: &str = "\
host 0 4 adtbh
lun 0 0:0:0 2048 8
cmd 1 0 0 0:0:0 30 5 - 000000000000
step 0 submit 0
step 0 send
end stop
";

// The core of a script's first host behind the script's steps.
fn core_behind(alloc: Global, script: &str) -> Result<Core<DebugAdapter>, Fail> {
    let (host, steps) = host_of(alloc, script)?;
    if !keeps_limits(&host) {
        return Err("a host within the limits".into());
    }
    let mut core = simulated_core(alloc, host)?;
    make_all(alloc, &mut core, &steps)?;
    Ok(core)
}

#[test]
fn a_tag_is_armed_by_a_sending(rt: HostRuntime) -> Result<(), Fail> {
    let core = core_behind(rt.alloc(), SENT)?;
    assert_eq!(rt; core.tag_states().first(), Some(&TagState::Armed(ATTEMPT)));
    Ok(())
}

#[test]
fn a_tag_is_owned_by_an_owner(rt: HostRuntime) -> Result<(), Fail> {
    let core = core_behind(rt.alloc(), OWNED)?;
    let owned = TagState::Owned(ATTEMPT, By::Answer);
    assert_eq!(rt; core.tag_states().first(), Some(&owned));
    Ok(())
}

// An attempt that is answered at its deadline, and then asked about, waits by both sides.
#[test]
fn an_attempt_waits_by_its_answer_before_its_timer(rt: HostRuntime) -> Result<(), Fail> {
    let core = core_behind(rt.alloc(), BOTH)?;
    let both = [(Tag(0), ATTEMPT, By::Answer), (Tag(0), ATTEMPT, By::Expiry)];
    assert!(rt; core.waiting_claims() == both.as_slice());
    Ok(())
}

// The answer of an attempt that its timer has won is the next one to be ignored.
#[test]
fn an_answer_that_the_timer_has_beaten_is_late(rt: HostRuntime) -> Result<(), Fail> {
    let core = core_behind(rt.alloc(), BEATEN)?;
    assert!(rt; core.next_late() == Some(ATTEMPT));
    Ok(())
}

#[test]
fn a_core_without_commands_left_is_drained(rt: HostRuntime) -> Result<(), Fail> {
    let script = "host 0 4 adtbh\nlun 0 0:0:0 2048 8\nend stop\n";
    let core = core_of(rt.alloc(), script)?;
    assert!(rt; core.drained());
    Ok(())
}

#[test]
fn a_new_core_shows_its_units(rt: HostRuntime) -> Result<(), Fail> {
    let core = simulated_core(rt.alloc(), one_command_host(rt.alloc(), 30)?)?;
    assert_eq!(rt; core.device_state(DEVICE), DeviceState::Running);
    Ok(())
}

#[test]
fn room_for_more_entries_than_there_can_be_is_refused(rt: HostRuntime) -> Result<(), Fail> {
    let mut core = core_of(rt.alloc(), SENT)?;
    assert_eq!(rt; core.reserve(usize::MAX), Err(NoMemory));
    Ok(())
}
