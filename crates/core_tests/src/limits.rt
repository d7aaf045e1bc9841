ghost use Rattle.std.specs.Prelude.{◌≡◌, ◌↔◌, ◌==◌, IsTrue};
ghost use Rattle.std.specs.List.{list_any, list_all};
ghost use Rattle.mid_base.specs.Address.{has_dev};
ghost use Rattle.mid_base.specs.Limits.{KeepsLimits, is_between, is_address, is_lun, is_command, has_block, is_fault, is_planned, differ_in_address, differ_in_id};

use mid_base::{CmdId, CmdSpec, DevAddr, Fault, HostSpec, LunSpec, PlanEntry, same_dev};

fn is_between(low: u32, high: u32, n: u32) -> bool
    ensures { result ≡ is_between low high n }
{
    low <= n && n <= high
}

fn has_unit(luns: &[LunSpec], dev: DevAddr) -> bool
    ensures { result ≡ has_dev luns.now dev }
{
    luns.iter().any(|l| same_dev(l.dev, dev))
}

fn has_id(cmds: &[CmdSpec], id: CmdId) -> bool
    ensures { result ≡ list_any (λ j. j.id.0 == id.0) cmds.now }
{
    cmds.iter().any(|k| k.id.0 == id.0)
}

fn is_address(dev: DevAddr) -> bool
    ensures { result ≡ is_address dev }
{
    dev.channel <= 15 && dev.lun <= 16383
}

fn is_unit(l: &LunSpec) -> bool
    ensures { result ≡ is_lun l.now }
{
    is_address(l.dev)
        && is_between(1, u32::MAX, l.blocks)
        && is_between(1, 1024, u32::from(l.depth))
}

fn is_command(luns: &[LunSpec], k: &CmdSpec) -> bool
    ensures { result ≡ is_command luns.now k.now }
{
    has_unit(luns, k.dev)
        && is_between(1, u32::MAX, k.id.0)
        && k.lane.0 <= 63
        && is_between(1, 10000, k.timeout)
        && k.allowed <= 20
        && has_block(k)
}

fn has_block(k: &CmdSpec) -> bool
    ensures { result ≡ has_block k.now }
{
    let length = k.cdb.as_slice().len();
    1 <= length && length <= 16
}

fn is_fault(fault: Fault) -> bool
    ensures { result ≡ is_fault fault }
{
    match fault {
        Fault::Latency(ticks) => is_between(1, 10000, ticks),
        Fault::Check(key, _, _) | Fault::NoSense(key, _, _) => key < 16,
        _ => true,
    }
}

fn is_planned(luns: &[LunSpec], e: &PlanEntry) -> bool
    ensures { result ≡ is_planned luns.now e.now }
{
    has_unit(luns, e.dev)
        && is_fault(e.fault)
        && is_between(1, 65535, e.first)
        && is_between(1, 65535, e.every)
        && is_between(1, 65535, e.uses)
}

fn differ_in_address(luns: &[LunSpec]) -> bool
    ensures { result ≡ differ_in_address luns.now }
{
    match luns.split_first() {
        Some((first, rest)) => !has_unit(rest, first.dev) && differ_in_address(rest),
        None => true,
    }
}

fn differ_in_id(cmds: &[CmdSpec]) -> bool
    ensures { result ≡ differ_in_id cmds.now }
{
    match cmds.split_first() {
        Some((first, rest)) => !has_id(rest, first.id) && differ_in_id(rest),
        None => true,
    }
}

fn are_units(luns: &[LunSpec]) -> bool
    ensures { result ≡ list_all is_lun luns.now }
{
    luns.iter().all(|l| is_unit(l))
}

fn are_commands(luns: &[LunSpec], cmds: &[CmdSpec]) -> bool
    ensures { result ≡ list_all (is_command luns.now) cmds.now }
{
    cmds.iter().all(|k| is_command(luns, k))
}

fn is_plan(luns: &[LunSpec], plan: &[PlanEntry]) -> bool
    ensures { result ≡ list_all (is_planned luns.now) plan.now }
{
    plan.iter().all(|e| is_planned(luns, e))
}

/// Whether a spec keeps the limits of a host.
pub fn keeps_limits(spec: &HostSpec) -> bool
    ensures { IsTrue result ↔ KeepsLimits spec.now }
{
    let luns = spec.luns.as_slice();
    let cmds = spec.cmds.as_slice();
    spec.no.0 <= 63
        && is_between(1, 1024, u32::from(spec.can_queue))
        && (luns.len() <= 256 && cmds.len() <= 65536 && spec.plan.len() <= 65536)
        && are_units(luns)
        && differ_in_address(luns)
        && are_commands(luns, cmds)
        && differ_in_id(cmds)
        && is_plan(luns, spec.plan.as_slice())
}
