ghost use Rattle.std.specs.Prelude.{◌≡◌, List, true, IfOk};
ghost use Rattle.std.specs.List.{list_all};
ghost use Rattle.mid_base.specs.declared.host_spec.LunSpec.{LunSpec as Lun};
ghost use Rattle.mid_base.specs.Address.{has_dev};
ghost use Rattle.mid_base.specs.Limits.{KeepsLimits, differ_in_address, is_between, is_lun, is_planned};

use crate::scan_host;
use bitflags::Flags;
use mid_base::{
    DevAddr, DeviceState, Fault, Handlers, HostNo, HostSpec, LunSpec, NoMemory, PlanEntry, Rows,
};
use std::alloc::Global;
use std::test::Fail;

// Target 0 has units 0 and 256, target 1 has unit 0, and target 2 has no unit 0.
const FIRST: DevAddr = DevAddr {
    channel: 0,
    target: 0,
    lun: 0,
};

const FAR: DevAddr = DevAddr {
    channel: 0,
    target: 0,
    lun: 256,
};

const SECOND: DevAddr = DevAddr {
    channel: 0,
    target: 1,
    lun: 0,
};

const THIRD: DevAddr = DevAddr {
    channel: 0,
    target: 2,
    lun: 7,
};

const ALL: [DevAddr; 4] = [THIRD, SECOND, FAR, FIRST];

fn unit(dev: DevAddr) -> LunSpec
    ensures dev { result.dev ≡ dev }
    ensures blocks { result.blocks ≡ 8 }
    ensures depth { result.depth ≡ 1 }
{
    LunSpec {
        dev,
        blocks: 8,
        depth: 1,
        read_only: false,
        stopped: false,
        start: DeviceState::Created,
    }
}

fn units() -> [LunSpec; 4]
    ensures luns { list_all is_lun result ≡ true }
    ensures differ { differ_in_address result ≡ true }
    ensures second { has_dev result (record { channel = 0; target = 1; lun = 0 }) ≡ true }
{
    [unit(THIRD), unit(SECOND), unit(FAR), unit(FIRST)]
}

// Unit 0 of target 1 is silent to its probe with this number.
fn plan(silent: u32) -> [PlanEntry; 1]
    requires { is_between 1 65535 silent ≡ true }
    ensures { (luns : List Lun) → has_dev luns (record { channel = 0; target = 1; lun = 0 }) ≡ true → list_all (is_planned luns) result ≡ true }
{
    [PlanEntry {
        dev: SECOND,
        fault: Fault::Silent,
        first: silent,
        every: 1,
        uses: 1,
    }]
}

fn rows<T: Drop, const N: usize>(alloc: Global, items: [T; N]) -> Result<Rows<T>, NoMemory>
    ensures { IfOk result (λ r. r ≡ items) }
{
    match Vec::from_array(alloc, items) {
        Ok(items) => Ok(Rows::from_vec(items)),
        Err(_) => Err(NoMemory),
    }
}

fn host(alloc: Global, silent: u32) -> Result<HostSpec, NoMemory>
    requires { is_between 1 65535 silent ≡ true }
    ensures { IfOk result (λ s. KeepsLimits s) }
{
    Ok(HostSpec {
        no: HostNo(0),
        can_queue: 1,
        handlers: Handlers::from_bits_retain(0),
        no_async_abort: false,
        luns: rows(alloc, units())?,
        cmds: Rows::new(alloc),
        plan: rows(alloc, plan(silent))?,
    })
}

// The states in which the units of such a host start after the scan for these devices.
fn starts(alloc: Global, silent: u32, devices: &[DevAddr]) -> Result<Vec<DeviceState>, Fail>
    requires { is_between 1 65535 silent ≡ true }
{
    let scanned = scan_host(alloc, host(alloc, silent)?, devices)?;
    let units = scanned.spec.luns.as_slice().iter();
    Ok(units.map(|unit| unit.start).collect(alloc)?)
}

#[test]
fn devices_of_targets_that_answer_are_found(rt: HostRuntime) -> Result<(), Fail> {
    use DeviceState::{Del, Running};
    let found = starts(rt.alloc(), 3, &ALL)?;
    assert_eq!(rt;
        found.as_slice(),
        [Del, Running, Running, Running].as_slice()
    );
    Ok(())
}

#[test]
fn a_target_that_sends_no_list_has_no_devices(rt: HostRuntime) -> Result<(), Fail> {
    use DeviceState::{Del, Running};
    let found = starts(rt.alloc(), 2, &ALL)?;
    assert_eq!(rt; found.as_slice(), [Del, Del, Running, Running].as_slice());
    Ok(())
}

#[test]
fn other_devices_stay_as_they_were(rt: HostRuntime) -> Result<(), Fail> {
    use DeviceState::{Created, Running};
    let found = starts(rt.alloc(), 1, &[FAR])?;
    assert_eq!(rt;
        found.as_slice(),
        [Created, Created, Running, Created].as_slice()
    );
    Ok(())
}

#[test]
fn each_target_is_probed_once(rt: HostRuntime) -> Result<(), Fail> {
    let scanned = scan_host(rt.alloc(), host(rt.alloc(), 1)?, &ALL)?;
    let probes = [(FIRST, 2), (SECOND, 1), (DevAddr { lun: 0, ..THIRD }, 0)];
    assert_eq!(rt; scanned.before.as_slice(), probes.as_slice());
    Ok(())
}
