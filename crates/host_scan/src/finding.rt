ghost use Rattle.std.specs.Prelude.{◌≡◌, ◌==◌, [], map, IfOk, true};
ghost use Rattle.std.specs.List.{list_any};
ghost use Rattle.mid_base.specs.Address.{has_dev};
ghost use Rattle.mid_base.specs.Limits.{KeepsLimits};
ghost use Rattle.debug_adapter.specs.Adapter.{AdapterStands};
ghost use Rattle.host_scan.specs.Targets.{targets_of, zero_of};
ghost use Rattle.host_scan.specs.Found.{probed_before};
ghost use Rattle.host_scan.specs.Findings.{ScansTo, finding_of, lists, probes_until, probes_up_to, told};

use crate::target::{Target, targets_of};
use debug_adapter::DebugAdapter;
use lun_scan::{ScanFault, scan};
use mid_base::{DevAddr, HostSpec, NoMemory, Rows, same_dev};
use std::alloc::Global;

const INQUIRY: u8 = 18;

/// What the scan of a target came to: how many probes were sent, and the numbers of the units that were told, none where the
/// target didn't tell them.
#[derive(Drop)]
pub(crate) struct Finding {
    pub target: Target,
    pub probes: u32,
    pub numbers: Rows<u16>,
}

impl Finding {
    /// The unit 0 that was scanned, and how many probes it was sent.
    pub(crate) fn told(&self) -> (DevAddr, u32)
        ensures { result ≡ told self.now }
    {
        (self.target.zero(), self.probes)
    }

    /// Whether it has this device.
    pub(crate) fn lists(&self, dev: DevAddr) -> bool
        ensures { result ≡ lists dev self.now }
    {
        self.target.is_same(Target::of(dev)) && has_number(self.numbers.as_slice(), dev.lun)
    }
}

fn has_number(numbers: &[u16], lun: u16) -> bool
    ensures { result ≡ list_any (λ n. n == lun) numbers.now }
{
    numbers.iter().any(|n| *n == lun)
}

/// Scans the targets of these devices, each once, in address order.
pub(crate) fn scan_targets(
    alloc: Global,
    spec: &HostSpec,
    devices: &[DevAddr],
    lower: &mut DebugAdapter,
) -> Result<Vec<Finding>, NoMemory>
    requires limits { KeepsLimits spec.now }
    requires stands { AdapterStands lower.old spec.now [] [] }
    ensures found { IfOk result (λ v. v.items ≡ map (finding_of spec.now) (targets_of devices.now)) }
    ensures stands { IfOk result (λ v. AdapterStands lower.new spec.now (probed_before devices.now spec.now) []) }
{
    let targets = targets_of(alloc, devices)?;
    let mut findings = Vec::new(alloc);
    for target in &targets {
        let finding = scan_target(alloc, spec, *target, lower)?;
        findings.push(finding).map_err(|_| NoMemory)?;
    }
    Ok(findings)
}

// Scans a target. One without a unit 0 isn't asked.
fn scan_target(
    alloc: Global,
    spec: &HostSpec,
    target: Target,
    lower: &mut DebugAdapter,
) -> Result<Finding, NoMemory>
    requires { KeepsLimits spec.now }
    ensures { IfOk result (ScansTo spec.now lower.old lower.new target) }
{
    if has_unit(spec, target.zero()) {
        ask(alloc, spec, target, lower)
    } else {
        Ok(Finding {
            target,
            probes: 0,
            numbers: Rows::new(alloc),
        })
    }
}

fn has_unit(spec: &HostSpec, dev: DevAddr) -> bool
    ensures { result ≡ has_dev spec.now.luns dev }
{
    spec.luns
        .as_slice()
        .iter()
        .any(|unit| same_dev(unit.dev, dev))
}

// Scans a target that has a unit 0.
fn ask(
    alloc: Global,
    spec: &HostSpec,
    target: Target,
    lower: &mut DebugAdapter,
) -> Result<Finding, NoMemory>
    requires limits { KeepsLimits spec.now }
    requires unit { has_dev spec.now.luns (zero_of target) ≡ true }
    ensures { IfOk result (ScansTo spec.now lower.old lower.new target) }
{
    let mut buffer = [0; 2056];
    match scan(alloc, lower, target.channel, target.target, &mut buffer) {
        Ok(numbers) => Ok(Finding {
            target,
            probes: 2,
            numbers: Rows::from_vec(numbers),
        }),
        Err(fault) => match probes_until(fault) {
            Some(probes) => Ok(Finding {
                target,
                probes,
                numbers: Rows::new(alloc),
            }),
            None => Err(NoMemory),
        },
    }
}

// How many probes were sent where a scan ended with this fault; None where there was no memory to begin it.
fn probes_until(fault: ScanFault) -> Option<u32>
    ensures { result ≡ probes_until fault }
{
    match fault {
        ScanFault::Silent(code) => Some(probes_up_to(code)),
        ScanFault::Refused(code, _) => Some(probes_up_to(code)),
        ScanFault::Inquiry(_) => Some(1),
        ScanFault::List(_) => Some(2),
        ScanFault::NoMemory => None,
    }
}

fn probes_up_to(code: u8) -> u32
    ensures { result ≡ probes_up_to code }
{
    if code == INQUIRY { 1 } else { 2 }
}
