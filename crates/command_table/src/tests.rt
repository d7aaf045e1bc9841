ghost use Rattle.std.specs.Prelude.{◌≡◌, IfSome, length};
ghost use Rattle.command_table.specs.Rows.{IsBusyAt, IsHoused};

use crate::Commands;
use mid_base::{Attempt, CdbBytes, CmdId, CmdSpec, DevAddr, DeviceState, LaneNo, LunSpec, Tag};
use std::test::Fail;

fn unit(lun: u16) -> LunSpec
    ensures { (result.dev.channel ≡ 0) × (result.dev.target ≡ 0) × (result.dev.lun ≡ lun) }
{
    LunSpec {
        dev: DevAddr {
            channel: 0,
            target: 0,
            lun,
        },
        blocks: 8,
        depth: 1,
        read_only: false,
        stopped: false,
        start: DeviceState::Running,
    }
}

fn command(id: u32, lane: u8, lun: u16) -> CmdSpec
    ensures { (result.id.0 ≡ id) × (result.lane.0 ≡ lane) × (result.dev.channel ≡ 0) × (result.dev.target ≡ 0) × (result.dev.lun ≡ lun) }
{
    CmdSpec {
        id: CmdId(id),
        lane: LaneNo(lane),
        dev: unit(lun).dev,
        cdb: CdbBytes::from_slice(&[0]),
        fill: 0,
        timeout: 30,
        allowed: 5,
        failfast: false,
    }
}

// Two commands of lane 0 for the second unit, and one of lane 3 for the first.
fn table(rt: &HostRuntime) -> Option<Commands> {
    let cmds = [command(7, 0, 1), command(8, 3, 0), command(9, 0, 1)];
    let luns = [unit(0), unit(1)];
    Commands::new(rt.alloc(), &cmds, &luns).ok()
}

#[test]
fn each_lane_begins_with_its_first_command(rt: HostRuntime) -> Result<(), Fail> {
    let Some(table) = table(&rt) else {
        assert!(rt; false, "memory for three commands");
        return Ok(());
    };
    assert_eq!(rt; table.next_in(LaneNo(0)), Some(0));
    assert_eq!(rt; table.next_in(LaneNo(3)), Some(1));
    assert_eq!(rt; table.next_in(LaneNo(1)), None);
    assert_eq!(rt; table.next_in(LaneNo(255)), None);
    Ok(())
}

#[test]
fn none_waits_before_one_is_taken(rt: HostRuntime) -> Result<(), Fail> {
    let Some(table) = table(&rt) else {
        assert!(rt; false, "memory for three commands");
        return Ok(());
    };
    assert_eq!(rt; table.first_waiting(0), None);
    assert_eq!(rt; table.first_waiting(1), None);
    assert_eq!(rt; table.first_waiting(2), None);
    assert!(rt; table.taken_as(0).is_none());
    assert!(rt; !table.drained());
    Ok(())
}

#[test]
fn a_host_without_commands_is_drained(rt: HostRuntime) -> Result<(), Fail> {
    let Ok(table) = Commands::new(rt.alloc(), &[], &[unit(0)]) else {
        assert!(rt; false, "memory for no command");
        return Ok(());
    };
    assert!(rt; table.drained());
    Ok(())
}

// The place of a command that was taken and sent.
fn one_busy(rt: &HostRuntime) -> Option<(Commands, usize)>
    ensures busy { IfSome result (λ x. IsBusyAt x.1 x.0.rows.items) }
    ensures housed { IfSome result (λ x. IsHoused x.1 x.0.rows.items (length x.0.waiting.items)) }
{
    let Ok(mut table) = Commands::new(rt.alloc(), &[command(7, 0, 0)], &[unit(0)]) else {
        return None;
    };
    let Some(place) = table.next_in(LaneNo(0)) else {
        return None;
    };
    let Ok(()) = table.take(place) else {
        return None;
    };
    table.send(place, Attempt(1), Tag(0));
    Some((table, place))
}

#[test]
fn a_command_that_goes_back_is_first_again(rt: HostRuntime) {
    let Some((mut table, place)) = one_busy(&rt) else {
        assert!(rt; false, "memory for one command");
        return;
    };
    table.again(place, false);
    assert_eq!(rt; table.first_waiting(0), Some(0));
}

#[test]
fn a_command_that_was_sent_waits_no_longer(rt: HostRuntime) {
    let Some((table, _)) = one_busy(&rt) else {
        assert!(rt; false, "memory for one command");
        return;
    };
    assert_eq!(rt; table.first_waiting(0), None);
}

#[test]
fn an_abort_is_remembered(rt: HostRuntime) {
    let Some((mut table, place)) = one_busy(&rt) else {
        assert!(rt; false, "memory for one command");
        return;
    };
    table.schedule_abort(place);
    assert!(rt; table.row(place).aborted);
}
