use crate::{Flush, verdict};
use mid_base::{
    Answer, CHECK_CONDITION, CdbBytes, CmdId, CmdSpec, DID_OK, DID_TIME_OUT, DevAddr, DeviceState,
    GOOD, LaneNo, SenseBytes,
};
use std::process::Abort;

const ONLINE: [DeviceState; 4] = [
    DeviceState::Created,
    DeviceState::Running,
    DeviceState::Quiesce,
    DeviceState::Block,
];

const NOT_ONLINE: [DeviceState; 3] = [DeviceState::Offline, DeviceState::Cancel, DeviceState::Del];

// Retries, and how many are allowed: fewer, then as many or more.
const HAS_RETRIES: [(u8, u8); 4] = [(0, 1), (4, 5), (0, 255), (254, 255)];

const HAS_NONE: [(u8, u8); 5] = [(0, 0), (1, 0), (5, 5), (6, 5), (255, 255)];

fn command(allowed: u8, failfast: bool) -> CmdSpec {
    let dev = DevAddr {
        channel: 0,
        target: 1,
        lun: 2,
    };
    CmdSpec {
        id: CmdId(4),
        lane: LaneNo(0),
        dev,
        cdb: CdbBytes::from_slice(&[0; 6]),
        fill: 0,
        timeout: 30,
        allowed,
        failfast,
    }
}

fn judged() -> Answer {
    Answer {
        host: DID_OK,
        status: CHECK_CONDITION,
        sense: SenseBytes::from_slice(&[0x70, 0, 3, 0, 0, 0, 0, 0]),
        moved: 512,
        sum: 7,
    }
}

fn timed_out() -> Answer {
    Answer {
        host: DID_TIME_OUT,
        status: GOOD,
        sense: SenseBytes::empty(),
        moved: 0,
        sum: 0,
    }
}

// It is told its last answer, whatever the last judgement was.
fn is_told(spec: &CmdSpec, retries: u8, state: DeviceState, success: bool) -> bool {
    let last = judged();
    verdict(spec, retries, state, Some(&last), success) == Flush::Told(last)
        && verdict(spec, retries, state, None, success) == Flush::Told(timed_out())
}

fn goes_again(spec: &CmdSpec, retries: u8, state: DeviceState) -> bool {
    let last = judged();
    verdict(spec, retries, state, Some(&last), false) == Flush::Again
        && verdict(spec, retries, state, None, false) == Flush::Again
}

// Where nothing stands against it, what isn't a success goes again.
fn check_retries(rt: &impl Abort, retries: u8, allowed: u8) {
    for state in ONLINE {
        assert!(rt;
            goes_again(&command(allowed, false), retries, state),
            "{retries} {allowed} {state:?}"
        );
    }
}

#[test]
fn a_command_with_retries_on_an_online_device_goes_again(rt: HostRuntime) {
    for (retries, allowed) in HAS_RETRIES {
        check_retries(&rt, retries, allowed);
    }
}

fn check_told(rt: &impl Abort, spec: &CmdSpec, retries: u8, states: &[DeviceState], success: bool) {
    for state in states {
        assert!(rt;
            is_told(spec, retries, *state, success),
            "{retries} {spec:?} {state:?}"
        );
    }
}

#[test]
fn a_success_is_told(rt: HostRuntime) {
    for (retries, allowed) in HAS_RETRIES {
        check_told(&rt, &command(allowed, false), retries, &ONLINE, true);
        check_told(&rt, &command(allowed, true), retries, &NOT_ONLINE, true);
    }
}

#[test]
fn a_command_without_retries_is_told(rt: HostRuntime) {
    for (retries, allowed) in HAS_NONE {
        check_told(&rt, &command(allowed, false), retries, &ONLINE, false);
        check_told(&rt, &command(allowed, false), retries, &ONLINE, true);
    }
}

#[test]
fn a_failfast_command_is_told(rt: HostRuntime) {
    for (retries, allowed) in HAS_RETRIES {
        check_told(&rt, &command(allowed, true), retries, &ONLINE, false);
    }
}

#[test]
fn a_command_of_a_device_that_is_not_online_is_told(rt: HostRuntime) {
    for (retries, allowed) in HAS_RETRIES {
        check_told(&rt, &command(allowed, false), retries, &NOT_ONLINE, false);
    }
}
