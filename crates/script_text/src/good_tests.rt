use crate::tests::read;
use crate::{counted_bytes_say_all, good_scripts_are_playable};
use bitflags::Flags;
use mid_base::{
    Attempt, By, CdbBytes, CmdId, CmdSpec, DevAddr, DeviceState, Fault, HostByte, HostNo, LaneNo,
    LunSpec, PlanEntry, SenseBytes, Step,
};
use std::test::Fail;

// Two hosts that are said in turn, with blanks, remarks, and digits of either case.
const RICH: &str =
    " # two hosts\nhost 7 00016 db noasync\r\n\nhost\t0  1024 -\nlun 7 15:255:16383 4294967295 1024 stopped ro\nlun 0 0:0:1 2048 8\nbudget 01000000000000000000\nplan 7 15:255:16383 check 1 2 65535 a 2A fF\ncmd 4294967295 7 63 15:255:16383 10000 20 failfast 28000000000000000100 aB\ncmd 1 0 0 0:0:1 1 0 - 00\nplan 0 0:0:1 raw 1 1 1 7000\nstep 0 submit 0\nstep 7 own 1152921504606846975 answer\nstep 7 state 15:255:16383 quiesce\nend stop\n  # over\n";

const HERE: DevAddr = DevAddr {
    channel: 15,
    target: 255,
    lun: 16_383,
};

const THERE: DevAddr = DevAddr {
    channel: 0,
    target: 0,
    lun: 1,
};

#[test]
fn a_good_script_says_its_hosts_in_order(rt: HostRuntime) -> Result<(), Fail> {
    for size in [1, 7, 16, 4096] {
        let script = read(rt.alloc(), &[RICH], size)?;
        let [first, second] = script.hosts.as_slice() else {
            return Err("two hosts".into());
        };
        assert_eq!(rt; (first.no, first.can_queue), (HostNo(7), 16));
        assert_eq!(rt; (first.handlers.bits(), first.no_async_abort), (10, true));
        assert_eq!(rt; (second.no, second.can_queue), (HostNo(0), 1024));
        assert_eq!(rt; (second.handlers.bits(), second.no_async_abort), (0, false));
        let unit = LunSpec {
            dev: HERE,
            blocks: 4_294_967_295,
            depth: 1024,
            read_only: true,
            stopped: true,
            start: DeviceState::Running,
        };
        assert_eq!(rt; first.luns.as_slice(), [unit].as_slice());
        let unit = LunSpec {
            dev: THERE,
            blocks: 2048,
            depth: 8,
            read_only: false,
            stopped: false,
            start: DeviceState::Running,
        };
        assert_eq!(rt; second.luns.as_slice(), [unit].as_slice());
    }
    Ok(())
}

#[test]
fn a_good_script_says_its_commands(rt: HostRuntime) -> Result<(), Fail> {
    let script = read(rt.alloc(), &[RICH], 7)?;
    let [first, second] = script.hosts.as_slice() else {
        return Err("two hosts".into());
    };
    let command = CmdSpec {
        id: CmdId(4_294_967_295),
        lane: LaneNo(63),
        dev: HERE,
        cdb: CdbBytes::from_slice(&[0x28, 0, 0, 0, 0, 0, 0, 0, 1, 0]),
        fill: 0xab,
        timeout: 10_000,
        allowed: 20,
        failfast: true,
    };
    assert_eq!(rt; first.cmds.as_slice(), [command].as_slice());
    let command = CmdSpec {
        id: CmdId(1),
        lane: LaneNo(0),
        dev: THERE,
        cdb: CdbBytes::from_slice(&[0]),
        fill: 0,
        timeout: 1,
        allowed: 0,
        failfast: false,
    };
    assert_eq!(rt; second.cmds.as_slice(), [command].as_slice());
    Ok(())
}

#[test]
fn a_good_script_says_its_plans_and_steps(rt: HostRuntime) -> Result<(), Fail> {
    let script = read(rt.alloc(), &[RICH], 16)?;
    let [first, second] = script.hosts.as_slice() else {
        return Err("two hosts".into());
    };
    let entry = PlanEntry {
        dev: HERE,
        fault: Fault::Check(10, 0x2a, 0xff),
        first: 1,
        every: 2,
        uses: 65_535,
    };
    assert_eq!(rt; first.plan.as_slice(), [entry].as_slice());
    let entry = PlanEntry {
        dev: THERE,
        fault: Fault::Raw(SenseBytes::from_slice(&[0x70, 0])),
        first: 1,
        every: 1,
        uses: 1,
    };
    assert_eq!(rt; second.plan.as_slice(), [entry].as_slice());
    let steps = [
        (12, HostNo(0), Step::Submit(LaneNo(0))),
        (
            13,
            HostNo(7),
            Step::Own(Attempt(1_152_921_504_606_846_975), By::Answer),
        ),
        (14, HostNo(7), Step::SetState(HERE, DeviceState::Quiesce)),
    ];
    assert_eq!(rt; script.steps.as_slice(), steps.as_slice());
    assert_eq!(rt; script.budget, Some(1_000_000_000_000_000_000));
    assert!(rt; script.scans.is_empty() && !script.drain);
    good_scripts_are_playable();
    counted_bytes_say_all();
    Ok(())
}

#[test]
fn devices_that_are_found_by_scanning_are_said(rt: HostRuntime) -> Result<(), Fail> {
    let text =
        "host 3 1 -\nlun 3 0:0:1 8 8 ro scan\nlun 3 0:1:1 8 8 stopped\nlun 3 15:255:16383 8 8 scan stopped\nend stop\n";
    let script = read(rt.alloc(), &[text], 16)?;
    let scans = [(HostNo(3), THERE), (HostNo(3), HERE)];
    assert_eq!(rt; script.scans.as_slice(), scans.as_slice());
    Ok(())
}

#[test]
fn only_devices_that_are_found_by_scanning_start_in_created(rt: HostRuntime) -> Result<(), Fail> {
    let text = "host 3 1 -\nlun 3 0:0:1 8 8 ro scan\nlun 3 0:1:1 8 8 stopped\nend stop\n";
    let script = read(rt.alloc(), &[text], 16)?;
    let [host] = script.hosts.as_slice() else {
        return Err("one host".into());
    };
    let [first, second] = host.luns.as_slice() else {
        return Err("two units".into());
    };
    assert_eq!(rt;
        (first.start, second.start),
        (DeviceState::Created, DeviceState::Running)
    );
    Ok(())
}

// Good scripts, with whether the hosts are run on behind the last step, and with their budget.
const ENDS: [(&str, bool, Option<u64>); 9] = [
    ("end stop\n", false, None),
    ("end drain\n", true, None),
    ("end drain", true, None),
    ("\tend \r drain\r\n", true, None),
    ("budget 5\nend stop\n", false, Some(5)),
    ("budget 5\nend drain\n", true, Some(5)),
    ("end drain\n\n# over\n  #end stop", true, None),
    ("end stop\n# end drain\n", false, None),
    (
        "host 0 4 -\nlun 0 0:0:0 8 8\ncmd 1 0 0 0:0:0 30 5 - 00\nstep 0 submit 0\nend drain\n",
        true,
        None,
    ),
];

#[test]
fn the_last_line_says_whether_hosts_are_run_on(rt: HostRuntime) -> Result<(), Fail> {
    for (text, drain, budget) in ENDS {
        let script = read(rt.alloc(), &[text], 7)?;
        assert_eq!(rt; (script.drain, script.budget), (drain, budget), "in {text}");
    }
    Ok(())
}

#[test]
fn each_fault_of_a_plan_is_said(rt: HostRuntime) -> Result<(), Fail> {
    let table = [
        ("hostbusy 1 1 1", Fault::HostBusy),
        ("busy 1 1 1", Fault::Busy),
        ("latency 1 1 1 10000", Fault::Latency(10_000)),
        ("never 1 1 1", Fault::Never),
        ("nosense 1 1 1 F 29 00", Fault::NoSense(15, 0x29, 0)),
        ("status 1 1 1 0b 28", Fault::Status(HostByte(11), 0x28)),
        ("longer 1 1 1", Fault::Longer),
        ("timerdone 1 1 1", Fault::TimerDone),
        ("abortfail 1 1 1", Fault::AbortFail),
        ("rdev 1 1 1", Fault::Rdev),
        ("rtgt 1 1 1", Fault::Rtgt),
        ("rbus 1 1 1", Fault::Rbus),
        ("rhost 1 1 1", Fault::Rhost),
        ("silent 1 1 1", Fault::Silent),
    ];
    for (text, fault) in table {
        let texts = [
            "host 0 1 -\nlun 0 0:0:1 8 8\nplan 0 0:0:1 ",
            text,
            "\nend stop",
        ];
        let script = read(rt.alloc(), &texts, 16)?;
        let [host] = script.hosts.as_slice() else {
            return Err("one host".into());
        };
        let [entry] = host.plan.as_slice() else {
            return Err("one entry".into());
        };
        assert_eq!(rt; entry.fault, fault, "in {text}");
    }
    Ok(())
}

#[test]
fn each_state_and_step_is_said(rt: HostRuntime) -> Result<(), Fail> {
    let table = [
        ("send", Step::Send),
        ("work", Step::Work),
        ("due", Step::Due),
        ("own 1 expiry", Step::Own(Attempt(1), By::Expiry)),
        ("settle 0", Step::Settle(Attempt(0))),
        (
            "drop 1152921504606846975",
            Step::Drop(Attempt(1_152_921_504_606_846_975)),
        ),
        ("abort", Step::Abort),
        ("eh begin", Step::EhBegin),
        ("eh act", Step::EhAct),
        ("eh flush", Step::EhFlush),
        ("eh end", Step::EhEnd),
        ("tick", Step::Tick),
        (
            "state 0:0:1 running",
            Step::SetState(THERE, DeviceState::Running),
        ),
        (
            "state 0:0:1 block",
            Step::SetState(THERE, DeviceState::Block),
        ),
        (
            "state 0:0:1 offline",
            Step::SetState(THERE, DeviceState::Offline),
        ),
        (
            "state 0:0:1 cancel",
            Step::SetState(THERE, DeviceState::Cancel),
        ),
        ("state 0:0:1 del", Step::SetState(THERE, DeviceState::Del)),
    ];
    for (text, step) in table {
        let texts = [
            "host 0 1 adtbh\nlun 0 0:0:1 8 8\nstep 0 ",
            text,
            "\nend stop\n",
        ];
        let script = read(rt.alloc(), &texts, 16)?;
        assert_eq!(rt; script.steps.as_slice(), [(3, HostNo(0), step)].as_slice());
    }
    Ok(())
}
