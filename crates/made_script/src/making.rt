ghost use Rattle.std.specs.Prelude.{◌≡◌, ◌<◌, ◌≤◌, ◌++◌, ◌∷◌, [], OnOk, IfOk};
ghost use Rattle.made_script.specs.Made.{made, host, command, commands, address, unit, units, faults, plan, read};

use bitflags::Flags;
use mid_base::{
    CdbBytes, CmdId, CmdSpec, DevAddr, DeviceState, Fault, Handlers, HostNo, HostSpec, LaneNo,
    LunSpec, NoMemory, PlanEntry, Rows,
};
use script_text::Script;
use script_words::cdb_of;
use std::alloc::Global;

// How many units the host has.
const UNITS: u32 = 4;

/// The script of so many commands, at most 65,536. It can be played (`made_scripts_are_playable`).
pub fn made(alloc: Global, count: u32) -> Result<Script, NoMemory>
    requires { count ≤ 65536 }
    ensures { IfOk result (λ script. script ≡ made count) }
{
    let mut hosts = Vec::new(alloc);
    push(&mut hosts, host(alloc, count)?)?;
    Ok(Script {
        hosts: Rows::from_vec(hosts),
        scans: Rows::new(alloc),
        steps: Rows::new(alloc),
        budget: None,
        drain: true,
    })
}

fn push<T: Drop>(rows: &mut Vec<T>, row: T) -> Result<(), NoMemory>
    ensures { OnOk result (rows.new.items ≡ rows.old.items ++ row ∷ []) }
{
    match rows.push(row) {
        Ok(()) => Ok(()),
        Err(_) => Err(NoMemory),
    }
}

fn host(alloc: Global, count: u32) -> Result<HostSpec, NoMemory>
    requires { count ≤ 65536 }
    ensures { IfOk result (λ made. made ≡ host count) }
{
    Ok(HostSpec {
        no: HostNo(0),
        can_queue: 64,
        handlers: Handlers::from_bits_retain(31),
        no_async_abort: false,
        luns: units(alloc)?,
        cmds: commands(alloc, count)?,
        plan: plan(alloc)?,
    })
}

// The address of a unit by its number.
fn address(unit: u32) -> DevAddr
    requires { unit < 4 }
    ensures { result ≡ address unit }
{
    DevAddr {
        channel: 0,
        target: (unit / 2) as u8,
        lun: (unit % 2) as u16,
    }
}

fn unit(number: u32) -> LunSpec
    requires { number < 4 }
    ensures { result ≡ unit number }
{
    LunSpec {
        dev: address(number),
        blocks: 65536,
        depth: 16,
        read_only: false,
        stopped: false,
        start: DeviceState::Running,
    }
}

fn units(alloc: Global) -> Result<Rows<LunSpec>, NoMemory>
    ensures { IfOk result (λ rows. rows ≡ units) }
{
    let mut rows = Vec::new(alloc);
    push(&mut rows, unit(0))?;
    push(&mut rows, unit(1))?;
    push(&mut rows, unit(2))?;
    push(&mut rows, unit(3))?;
    Ok(Rows::from_vec(rows))
}

// The planned faults of a unit, behind others.
fn push_faults(rows: &mut Vec<PlanEntry>, unit: u32) -> Result<(), NoMemory>
    requires { unit < 4 }
    ensures { OnOk result (rows.new.items ≡ rows.old.items ++ faults unit) }
{
    push(rows, each(unit, Fault::Check(0xb, 0, 0), 5))?;
    push(rows, each(unit, Fault::Never, 7))
}

// A fault that hits each sending of such a number, a thousand times.
fn each(unit: u32, fault: Fault, every: u32) -> PlanEntry
    requires { unit < 4 }
    ensures { result ≡ record { dev = address unit; fault = fault; first = every; every = every; uses = 1000 } }
{
    PlanEntry {
        dev: address(unit),
        fault,
        first: every,
        every,
        uses: 1000,
    }
}

fn plan(alloc: Global) -> Result<Rows<PlanEntry>, NoMemory>
    ensures { IfOk result (λ rows. rows ≡ plan) }
{
    let mut rows = Vec::new(alloc);
    push_faults(&mut rows, 0)?;
    push_faults(&mut rows, 1)?;
    push_faults(&mut rows, 2)?;
    push_faults(&mut rows, 3)?;
    Ok(Rows::from_vec(rows))
}

// READ(10) of eight blocks (SBC-3, 5.11).
fn read(block: u32) -> CdbBytes
    requires { block < 65536 }
    ensures { result ≡ read block }
{
    let high = (block / 256) as u8;
    let low = (block % 256) as u8;
    cdb_of(&[0x28, 0, 0, 0, high, low, 0, 0, 8, 0])
}

fn command(number: u32) -> CmdSpec
    requires { number ≤ 65536 }
    ensures { result ≡ command number }
{
    CmdSpec {
        id: CmdId(number),
        lane: LaneNo((number % UNITS) as u8),
        dev: address(number % UNITS),
        cdb: read(8 * number % 65536),
        fill: 0,
        timeout: 30,
        allowed: 5,
        failfast: false,
    }
}

fn commands(alloc: Global, count: u32) -> Result<Rows<CmdSpec>, NoMemory>
    requires { count ≤ 65536 }
    ensures { IfOk result (λ rows. rows ≡ commands count) }
{
    let mut rows = Vec::new(alloc);
    for number in 0..count {
        push(&mut rows, command(number + 1))?;
    }
    Ok(Rows::from_vec(rows))
}
