ghost use Rattle.std.specs.Prelude.{◌≡◌, [], ◌∷◌, IfOk};
ghost use Rattle.mid_base.specs.Bytes.{cdb_list};
ghost use Rattle.mid_base.specs.Limits.{KeepsLimits};

use crate::Running;
use bitflags::Flags;
use mid_base::{
    Attempt, CdbBytes, CmdId, CmdSpec, DevAddr, DeviceState, Handlers, HostNo, HostSpec, LaneNo,
    LunSpec, NoMemory, Rows, TagState, Tick,
};
use std::alloc::Global;

const FIRST: DevAddr = DevAddr {
    channel: 0,
    target: 0,
    lun: 0,
};

const SECOND: DevAddr = DevAddr {
    channel: 0,
    target: 0,
    lun: 1,
};

fn unit(dev: DevAddr) -> LunSpec
    ensures { (result.dev ≡ dev) × (result.blocks ≡ 8) × (result.depth ≡ 1) }
{
    LunSpec {
        dev,
        blocks: 8,
        depth: 1,
        read_only: false,
        stopped: false,
        start: DeviceState::Running,
    }
}

fn command(id: u32, lane: u8, dev: DevAddr) -> CmdSpec
    ensures names { (result.id.0 ≡ id) × (result.lane.0 ≡ lane) × (result.dev ≡ dev) }
    ensures limits { (result.timeout ≡ 30) × (result.allowed ≡ 5) }
    ensures block { cdb_list result.cdb ≡ 0 ∷ [] }
{
    CmdSpec {
        id: CmdId(id),
        lane: LaneNo(lane),
        dev,
        cdb: CdbBytes::from_slice(&[0]),
        fill: 0,
        timeout: 30,
        allowed: 5,
        failfast: false,
    }
}

fn rows<T: Drop, const N: usize>(alloc: Global, items: [T; N]) -> Result<Rows<T>, NoMemory>
    ensures { IfOk result (λ r. r ≡ items) }
{
    match Vec::from_array(alloc, items) {
        Ok(items) => Ok(Rows::from_vec(items)),
        Err(_) => Err(NoMemory),
    }
}

// Two units, two commands of lane 0 for the second one, and one of lane 3 for the first.
fn host(alloc: Global) -> Result<HostSpec, NoMemory>
    ensures { IfOk result (λ s. KeepsLimits s) }
{
    Ok(HostSpec {
        no: HostNo(0),
        can_queue: 2,
        handlers: Handlers::from_bits_retain(0),
        no_async_abort: false,
        luns: rows(alloc, [unit(FIRST), unit(SECOND)])?,
        cmds: rows(
            alloc,
            [
                command(7, 0, SECOND),
                command(8, 3, FIRST),
                command(9, 0, SECOND),
            ],
        )?,
        plan: Rows::new(alloc),
    })
}

fn running(alloc: Global) -> Result<Running, NoMemory>
    ensures { IfOk result (λ r. r.ticks ≡ 0) }
{
    Running::new(alloc, &host(alloc)?)
}

#[test]
fn nothing_is_under_way_on_a_new_host(rt: HostRuntime) {
    let Ok(running) = running(rt.alloc()) else {
        assert!(rt; false, "memory for a host");
        return;
    };
    assert_eq!(rt; running.now(), Tick(0));
    assert!(rt; !running.in_recovery() && !running.is_drained());
    assert!(rt; running.tag_states() == [TagState::Free; 2].as_slice());
    assert!(rt; running.waiting_claims().is_empty());
    assert_eq!(rt; running.next_late(), None);
    assert_eq!(rt; running.count(), 0);
    assert!(rt; !running.has_answer_waiting() && !running.has_expired());
    assert_eq!(rt; running.pick(), None);
}

#[test]
fn no_attempt_has_an_owner_on_a_new_host(rt: HostRuntime) {
    let Ok(running) = running(rt.alloc()) else {
        assert!(rt; false, "memory for a host");
        return;
    };
    assert_eq!(rt; running.next_owned(), None);
}

#[test]
fn lanes_begin_with_their_first_commands_and_devices_have_places(rt: HostRuntime) {
    let Ok(running) = running(rt.alloc()) else {
        assert!(rt; false, "memory for a host");
        return;
    };
    assert_eq!(rt; running.next_in(LaneNo(0)), Some(0));
    assert_eq!(rt; running.next_in(LaneNo(3)), Some(1));
    assert_eq!(rt; running.next_in(LaneNo(1)), None);
    assert_eq!(rt; running.device_at(FIRST), Some(0));
    assert_eq!(rt; running.device_at(SECOND), Some(1));
    let third = DevAddr { lun: 2, ..SECOND };
    assert_eq!(rt; running.device_at(third), None);
}

#[test]
fn time_goes_on_by_ticks(rt: HostRuntime) {
    let Ok(mut running) = running(rt.alloc()) else {
        assert!(rt; false, "memory for a host");
        return;
    };
    running.tick();
    assert_eq!(rt; running.now(), Tick(1));
    running.tick();
    assert_eq!(rt; running.now(), Tick(2));
    assert!(rt; running.reserve().is_ok());
    assert_eq!(rt; running.count(), 0);
}

#[test]
fn nobody_is_asked_about_and_nothing_is_aborted_on_a_new_host(rt: HostRuntime) {
    let Ok(running) = running(rt.alloc()) else {
        assert!(rt; false, "memory for a host");
        return;
    };
    assert!(rt; running.overdue().is_none() && running.first_abort().is_none());
}

#[test]
fn no_answer_is_late_on_a_new_host(rt: HostRuntime) {
    let Ok(mut running) = running(rt.alloc()) else {
        assert!(rt; false, "memory for a host");
        return;
    };
    running.drop_late(Attempt(1));
    assert!(rt; !running.is_late(Attempt(1)));
}
