ghost use Rattle.std.specs.Prelude.{◌≡◌, List, true, IfOk};
ghost use Rattle.std.specs.List.{list_all};
ghost use Rattle.mid_base.specs.declared.host_spec.LunSpec.{LunSpec as Lun};
ghost use Rattle.mid_base.specs.Address.{has_dev};
ghost use Rattle.mid_base.specs.Limits.{KeepsLimits, is_lun, is_planned, differ_in_address};

use bitflags::Flags;
use mid_base::{
    DevAddr, DeviceState, Fault, Handlers, HostByte, HostNo, HostSpec, LunSpec, NoMemory,
    PlanEntry, Rows, SenseBytes,
};
use std::alloc::Global;

// The addresses of four units, of three targets on two channels.
pub(crate) const FIRST: DevAddr = DevAddr {
    channel: 0,
    target: 0,
    lun: 0,
};

pub(crate) const SECOND: DevAddr = DevAddr {
    channel: 0,
    target: 0,
    lun: 1,
};

pub(crate) const THIRD: DevAddr = DevAddr {
    channel: 0,
    target: 1,
    lun: 0,
};

pub(crate) const FOURTH: DevAddr = DevAddr {
    channel: 1,
    target: 0,
    lun: 0,
};

// Fixed format sense data of a unit attention, 6/2a/01 (SPC-4, 4.5.3).
const PARAMETERS_CHANGED: [u8; 18] = [0x70, 0, 6, 0, 0, 0, 0, 10, 0, 0, 0, 0, 0x2a, 1, 0, 0, 0, 0];

fn unit(dev: DevAddr) -> LunSpec
    ensures dev { result.dev ≡ dev }
    ensures blocks { result.blocks ≡ 64 }
    ensures depth { result.depth ≡ 8 }
{
    LunSpec {
        dev,
        blocks: 64,
        depth: 8,
        read_only: false,
        stopped: false,
        start: DeviceState::Running,
    }
}

fn units() -> [LunSpec; 4]
    ensures luns { list_all is_lun result ≡ true }
    ensures differ { differ_in_address result ≡ true }
    ensures first { has_dev result (record { channel = 0; target = 0; lun = 0 }) ≡ true }
    ensures second { has_dev result (record { channel = 0; target = 0; lun = 1 }) ≡ true }
    ensures third { has_dev result (record { channel = 0; target = 1; lun = 0 }) ≡ true }
    ensures fourth { has_dev result (record { channel = 1; target = 0; lun = 0 }) ≡ true }
{
    [unit(FIRST), unit(SECOND), unit(THIRD), unit(FOURTH)]
}

// The fault hits one call: the one with this number.
fn once(dev: DevAddr, fault: Fault, first: u32) -> PlanEntry
    ensures dev { result.dev ≡ dev }
    ensures fault { result.fault ≡ fault }
    ensures first { result.first ≡ first }
    ensures every { result.every ≡ 1 }
    ensures uses { result.uses ≡ 1 }
{
    PlanEntry {
        dev,
        fault,
        first,
        every: 1,
        uses: 1,
    }
}

// Each kind of fault once.
fn plan() -> [PlanEntry; 16]
    ensures { (luns : List Lun) → has_dev luns (record { channel = 0; target = 0; lun = 0 }) ≡ true → has_dev luns (record { channel = 0; target = 0; lun = 1 }) ≡ true
        → has_dev luns (record { channel = 0; target = 1; lun = 0 }) ≡ true → has_dev luns (record { channel = 1; target = 0; lun = 0 }) ≡ true → list_all (is_planned luns) result ≡ true }
{
    let raw = SenseBytes::from_slice(&PARAMETERS_CHANGED);
    [
        once(FIRST, Fault::HostBusy, 2),
        once(FIRST, Fault::Busy, 4),
        once(FIRST, Fault::Silent, 2),
        once(SECOND, Fault::Latency(3), 1),
        once(SECOND, Fault::Never, 2),
        once(SECOND, Fault::Longer, 1),
        once(SECOND, Fault::TimerDone, 2),
        once(SECOND, Fault::AbortFail, 1),
        once(THIRD, Fault::Check(3, 0x11, 0), 1),
        once(THIRD, Fault::NoSense(5, 0x24, 1), 2),
        once(THIRD, Fault::Raw(raw), 3),
        once(THIRD, Fault::Status(HostByte(7), 8), 4),
        once(SECOND, Fault::Rdev, 1),
        once(SECOND, Fault::Rtgt, 1),
        once(THIRD, Fault::Rbus, 1),
        once(FOURTH, Fault::Rhost, 1),
    ]
}

fn rows<T: Drop, const N: usize>(alloc: Global, items: [T; N]) -> Result<Rows<T>, NoMemory>
    ensures { IfOk result (λ r. r ≡ items) }
{
    match Vec::from_array(alloc, items) {
        Ok(items) => Ok(Rows::from_vec(items)),
        Err(_) => Err(NoMemory),
    }
}

// A host with four units and this plan.
pub(crate) fn host(alloc: Global) -> Result<HostSpec, NoMemory>
    ensures { IfOk result (λ s. KeepsLimits s) }
{
    Ok(HostSpec {
        no: HostNo(0),
        can_queue: 16,
        handlers: Handlers::from_bits_retain(31),
        no_async_abort: false,
        luns: rows(alloc, units())?,
        cmds: Rows::new(alloc),
        plan: rows(alloc, plan())?,
    })
}
