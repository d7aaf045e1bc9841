use crate::{Illegal, can_send, online, set_device, set_host};
use mid_base::{DeviceState, HostState};
use std::process::Abort;

const DEVICE_STATES: [DeviceState; 7] = [
    DeviceState::Created,
    DeviceState::Running,
    DeviceState::Quiesce,
    DeviceState::Block,
    DeviceState::Offline,
    DeviceState::Cancel,
    DeviceState::Del,
];

// A line for each state that is asked for: an x under each state that may go there.
const DEVICE_TABLE: [&[u8]; 7] = [
    // From created, running, quiesce, block, offline, cancel, del.
    b".......", // created
    b"x.xxx..", // running
    b".x.....", // quiesce
    b".x.....", // block
    b"xxxx...", // offline
    b"xxxxx..", // cancel
    b"x....x.", // del
];

const HOST_STATES: [HostState; 7] = [
    HostState::Created,
    HostState::Running,
    HostState::Recovery,
    HostState::Cancel,
    HostState::CancelRecovery,
    HostState::DelRecovery,
    HostState::Del,
];

const HOST_TABLE: [&[u8]; 7] = [
    // From created, running, recovery, cancel, cancel-recovery, del-recovery, del.
    b".......", // created
    b"x.x....", // running
    b".x.....", // recovery
    b"xx..x..", // cancel
    b"..xx...", // cancel-recovery
    b"....x..", // del-recovery
    b"...x.x.", // del
];

// Whether the line of a table has an x in this column.
fn is_marked(line: &[u8], column: usize) -> bool {
    line.get(column) == Some(&b'x')
}

fn check_device(rt: &impl Abort, had: DeviceState, asked: DeviceState, legal: bool) {
    let wanted = if legal {
        Ok(asked)
    } else {
        Err(Illegal { had, asked })
    };
    assert!(rt; set_device(had, asked) == wanted);
}

#[test]
fn a_device_goes_where_its_table_says(rt: HostRuntime) {
    for row in 0..7 {
        for column in 0..7 {
            let legal = is_marked(DEVICE_TABLE[row], column);
            check_device(&rt, DEVICE_STATES[column], DEVICE_STATES[row], legal);
        }
    }
}

fn check_host(rt: &impl Abort, had: HostState, asked: HostState, legal: bool) {
    let wanted = if legal {
        Ok(asked)
    } else {
        Err(Illegal { had, asked })
    };
    assert!(rt; set_host(had, asked) == wanted);
}

#[test]
fn a_host_goes_where_its_table_says(rt: HostRuntime) {
    for row in 0..7 {
        for column in 0..7 {
            let legal = is_marked(HOST_TABLE[row], column);
            check_host(&rt, HOST_STATES[column], HOST_STATES[row], legal);
        }
    }
}

#[test]
fn running_devices_are_sent_to_and_four_states_are_online(rt: HostRuntime) {
    for i in 0..7 {
        let state = DEVICE_STATES[i];
        assert!(rt; can_send(state) == (i == 1));
        assert!(rt; online(state) == (i < 4));
    }
}
