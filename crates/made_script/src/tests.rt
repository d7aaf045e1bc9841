ghost use Rattle.std.specs.Prelude.{◌≤◌};

use crate::{Sums, made, made_scripts_are_playable, sums_of, write_summary};
use mid_base::{Answer, CmdId, CmdSpec, DID_OK, Entry, Fault, GOOD, HostSpec, SenseBytes};
use mid_io::MemSink;
use std::alloc::Global;
use std::test::Fail;

// The host of a script of so many commands.
fn host(alloc: Global, count: u32) -> Result<HostSpec, Fail>
    requires { count ≤ 65536 }
{
    match made(alloc, count)?.hosts.into_vec().into_iter().next() {
        Some(host) => Ok(host),
        None => Err("a host".into()),
    }
}

fn last_command(alloc: Global, count: u32) -> Result<CmdSpec, Fail>
    requires { count ≤ 65536 }
{
    match host(alloc, count)?.cmds.as_slice().last() {
        Some(command) => Ok(*command),
        None => Err("a command".into()),
    }
}

#[test]
fn so_many_commands_are_made(rt: HostRuntime) -> Result<(), Fail> {
    made_scripts_are_playable();
    assert_eq!(rt; host(rt.alloc(), 20_000)?.cmds.len(), 20_000);
    Ok(())
}

#[test]
fn units_take_commands_in_turn(rt: HostRuntime) -> Result<(), Fail> {
    let command = last_command(rt.alloc(), 7)?;
    assert!(rt; command.id == CmdId(7) && command.lane.0 == 3);
    assert!(rt; command.dev.target == 1 && command.dev.lun == 1);
    Ok(())
}

#[test]
fn a_command_reads_eight_blocks(rt: HostRuntime) -> Result<(), Fail> {
    let command = last_command(rt.alloc(), 33)?;
    let read = [0x28, 0, 0, 0, 1, 8, 0, 0, 8, 0];
    assert_eq!(rt; command.cdb.as_slice(), read.as_slice());
    Ok(())
}

#[test]
fn each_unit_has_two_planned_faults(rt: HostRuntime) -> Result<(), Fail> {
    let host = host(rt.alloc(), 1)?;
    let plan = host.plan.as_slice();
    assert_eq!(rt; plan.len(), 8);
    match plan.last() {
        Some(last) => assert!(rt; last.fault == Fault::Never && last.dev.lun == 1),
        None => return Err("a planned fault".into()),
    }
    Ok(())
}

#[test]
fn reports_retries_and_ticks_are_counted(rt: HostRuntime) -> Result<(), Fail> {
    let good = Answer {
        host: DID_OK,
        status: GOOD,
        sense: SenseBytes::empty(),
        moved: 0,
        sum: 0,
    };
    let busy = Answer { status: 8, ..good };
    let entries = [
        Entry::Told(CmdId(1), good),
        Entry::Told(CmdId(2), busy),
        Entry::Again(CmdId(3), true),
        Entry::Again(CmdId(3), false),
        Entry::Again(CmdId(4), true),
        Entry::Tick,
        Entry::Tick,
        Entry::Tick,
    ];
    let want = Sums {
        goods: 1,
        retries: 2,
        ticks: 3,
    };
    assert_eq!(rt; sums_of(&entries), want);
    Ok(())
}

#[test]
fn a_summary_is_a_line_and_the_end(rt: HostRuntime) -> Result<(), Fail> {
    let mut out = MemSink::new(rt.alloc(), 100, Vec::new(rt.alloc()))?;
    let sums = Sums {
        goods: 20,
        retries: 4,
        ticks: 3,
    };
    assert!(rt; write_summary(rt.alloc(), 20, sums, &mut out).is_ok());
    assert_eq!(rt;
        out.bytes(),
        "commands 20 good 20 retries 4 ticks 3\nend\n".as_bytes()
    );
    Ok(())
}
