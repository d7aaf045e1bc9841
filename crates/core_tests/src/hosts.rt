ghost use Rattle.std.specs.Prelude.{◌≡◌, ◌∷◌, [], ◌≤◌, true, false, IfOk};
ghost use Rattle.mid_base.specs.Address.{has_dev};
ghost use Rattle.mid_base.specs.Bytes.{cdb_list};
ghost use Rattle.mid_base.specs.Limits.{KeepsLimits};
ghost use Rattle.mid_base.specs.declared.states.DeviceState.TheVariants.{Running};

use bitflags::Flags;
use debug_adapter::DebugAdapter;
use mid_base::{
    CdbBytes, CmdId, CmdSpec, DevAddr, DeviceState, Handlers, HostNo, HostSpec, LaneNo, LunSpec,
    NoMemory, Rows,
};
use mid_core::Core;
use std::alloc::Global;

/// TEST UNIT READY (SPC-4): six bytes of zeros.
pub fn test_unit_ready() -> CdbBytes
    ensures { cdb_list result ≡ 0 ∷ 0 ∷ 0 ∷ 0 ∷ 0 ∷ 0 ∷ [] }
{
    CdbBytes::from_slice(&[0, 0, 0, 0, 0, 0])
}

/// READ(10) of the first block (SBC-3).
pub fn read_first_block() -> CdbBytes
    ensures { cdb_list result ≡ 40 ∷ 0 ∷ 0 ∷ 0 ∷ 0 ∷ 0 ∷ 0 ∷ 0 ∷ 1 ∷ 0 ∷ [] }
{
    CdbBytes::from_slice(&[0x28, 0, 0, 0, 0, 0, 0, 0, 1, 0])
}

/// A running unit of 2048 blocks.
pub fn unit(dev: DevAddr, depth: u16) -> LunSpec
    ensures { result ≡ record { dev = dev; blocks = 2048; depth = depth; read_only = false; stopped = false; start = Running } }
{
    LunSpec {
        dev,
        blocks: 2048,
        depth,
        read_only: false,
        stopped: false,
        start: DeviceState::Running,
    }
}

/// A command of the first lane, which has 30 ticks and five retries.
pub fn command(id: u32, dev: DevAddr, cdb: CdbBytes) -> CmdSpec
    ensures { result ≡ record { id = record { 0 = id }; lane = record { 0 = 0 }; dev = dev; cdb = cdb; fill = 0; timeout = 30; allowed = 5; failfast = false } }
{
    CmdSpec {
        id: CmdId(id),
        lane: LaneNo(0),
        dev,
        cdb,
        fill: 0,
        timeout: 30,
        allowed: 5,
        failfast: false,
    }
}

const DEVICE: DevAddr = DevAddr {
    channel: 0,
    target: 0,
    lun: 0,
};

/// A host with a unit and one command: TEST UNIT READY, with this timeout in ticks.
pub fn one_command_host(alloc: Global, timeout: u32) -> Result<HostSpec, NoMemory>
    requires some { 1 ≤ timeout }
    requires few { timeout ≤ 10000 }
    ensures limits { IfOk result (λ s. KeepsLimits s) }
    ensures device { IfOk result (λ s. has_dev s.luns (record { channel = 0; target = 0; lun = 0 }) ≡ true) }
{
    let command = CmdSpec {
        timeout,
        ..command(1, DEVICE, test_unit_ready())
    };
    Ok(HostSpec {
        no: HostNo(0),
        can_queue: 4,
        handlers: Handlers::from_bits_retain(0),
        no_async_abort: false,
        luns: only_row(alloc, unit(DEVICE, 8))?,
        cmds: only_row(alloc, command)?,
        plan: Rows::new(alloc),
    })
}

fn only_row<T: Drop>(alloc: Global, row: T) -> Result<Rows<T>, NoMemory>
    ensures { IfOk result (λ rows. rows ≡ row ∷ []) }
{
    let mut rows = Vec::new(alloc);
    match rows.push(row) {
        Ok(()) => Ok(Rows::from_vec(rows)),
        Err(_) => Err(NoMemory),
    }
}

/// The core of a host over a new simulated adapter.
pub fn simulated_core(alloc: Global, spec: HostSpec) -> Result<Core<DebugAdapter>, NoMemory>
    requires { KeepsLimits spec }
    ensures spec { IfOk result (λ c. c.spec ≡ spec) }
    ensures journal { IfOk result (λ c. c.journal ≡ []) }
{
    let adapter = DebugAdapter::new(alloc, &spec)?;
    Core::new(alloc, spec, Rows::new(alloc), adapter)
}
