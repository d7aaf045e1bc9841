ghost use Rattle.std.specs.Prelude.{◌≡◌, [], map, IfOk, if◌then◌else◌};
ghost use Rattle.std.specs.List.{list_any};
ghost use Rattle.mid_base.specs.Address.{same_dev as same_dev_seen};
ghost use Rattle.mid_base.specs.Limits.{KeepsLimits};
ghost use Rattle.debug_adapter.specs.Adapter.{AdapterStands};
ghost use Rattle.host_scan.specs.Found.{found, probed_before};
ghost use Rattle.host_scan.specs.Findings.{lists, told, unit_by};

use crate::finding::{Finding, scan_targets};
use debug_adapter::DebugAdapter;
use mid_base::{DevAddr, DeviceState, HostSpec, LunSpec, NoMemory, Rows, same_dev};
use std::alloc::Global;

/// A host whose targets were scanned.
#[derive(Drop)]
pub struct ScannedHost {
    /// Its spec, where each device that is found by scanning starts in Running if it was found, else in Del.
    pub spec: HostSpec,
    /// The logical units 0 that were scanned, in address order, with the number of probes that each of them was sent.
    pub before: Rows<(DevAddr, u32)>,
    /// Its adapter, after these probes.
    pub lower: DebugAdapter,
}

/// Makes the simulated adapter of a host, and scans the targets of the devices that are found by scanning, each once, in
/// address order: logical unit 0 is asked by INQUIRY and, where that is answered, by REPORT LUNS (SPC-4, 6.6 and 6.33).
///
/// A device is found where its target lists it; a target without a logical unit 0 isn't asked, and lists none. NoMemory where
/// there is no memory for the adapter or for what is found.
pub fn scan_host(
    alloc: Global,
    spec: HostSpec,
    devices: &[DevAddr],
) -> Result<ScannedHost, NoMemory>
    requires { KeepsLimits spec }
    ensures spec { IfOk result (λ host. host.spec ≡ found devices.now spec) }
    ensures before { IfOk result (λ host. host.before ≡ probed_before devices.now spec) }
    ensures limits { IfOk result (λ host. KeepsLimits host.spec) }
    ensures stands { IfOk result (λ host. AdapterStands host.lower host.spec host.before []) }
{
    let mut lower = DebugAdapter::new(alloc, &spec)?;
    let findings = scan_targets(alloc, &spec, devices, &mut lower)?;
    let before = Rows::from_vec(probes_told(alloc, &findings)?);
    let spec = with_findings(alloc, spec, devices, &findings)?;
    Ok(ScannedHost {
        spec,
        before,
        lower,
    })
}

// The units 0 that were scanned, with their numbers of probes.
fn probes_told(alloc: Global, findings: &[Finding]) -> Result<Vec<(DevAddr, u32)>, NoMemory>
    ensures { IfOk result (λ v. v.items ≡ map told findings.now) }
{
    let probes = findings.iter().map(|finding| finding.told());
    match probes.collect(alloc) {
        Ok(probes) => Ok(probes),
        Err(_) => Err(NoMemory),
    }
}

// The spec, where each of these devices starts as it was found.
fn with_findings(
    alloc: Global,
    spec: HostSpec,
    devices: &[DevAddr],
    findings: &[Finding],
) -> Result<HostSpec, NoMemory>
    ensures { IfOk result (λ s. s ≡ record spec { luns = map (unit_by devices.now findings.now) spec.luns }) }
{
    let units = units_with(alloc, spec.luns.as_slice(), devices, findings)?;
    Ok(HostSpec {
        luns: Rows::from_vec(units),
        ..spec
    })
}

fn units_with(
    alloc: Global,
    units: &[LunSpec],
    devices: &[DevAddr],
    findings: &[Finding],
) -> Result<Vec<LunSpec>, NoMemory>
    ensures { IfOk result (λ v. v.items ≡ map (unit_by devices.now findings.now) units.now) }
{
    let found = units.iter().map(|unit| unit_with(*unit, devices, findings));
    match found.collect(alloc) {
        Ok(units) => Ok(units),
        Err(_) => Err(NoMemory),
    }
}

fn unit_with(unit: LunSpec, devices: &[DevAddr], findings: &[Finding]) -> LunSpec
    ensures { result ≡ unit_by devices.now findings.now unit }
{
    if !is_among(devices, unit.dev) {
        return unit;
    }
    LunSpec {
        start: state_by(unit.dev, findings),
        ..unit
    }
}

fn is_among(devices: &[DevAddr], dev: DevAddr) -> bool
    ensures { result ≡ list_any (λ d. same_dev_seen d dev) devices.now }
{
    devices.iter().any(|d| same_dev(*d, dev))
}

fn state_by(dev: DevAddr, findings: &[Finding]) -> DeviceState
    ensures { result ≡ (if list_any (lists dev) findings.now then DeviceState.Running else DeviceState.Del) }
{
    if is_found(dev, findings) {
        DeviceState::Running
    } else {
        DeviceState::Del
    }
}

fn is_found(dev: DevAddr, findings: &[Finding]) -> bool
    ensures { result ≡ list_any (lists dev) findings.now }
{
    findings.iter().any(|finding| finding.lists(dev))
}
