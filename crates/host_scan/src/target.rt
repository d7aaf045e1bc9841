ghost use Rattle.std.specs.Prelude.{◌≡◌, IfOk};
ghost use Rattle.host_scan.specs.Targets.{comes_before, same_target, target_of, targets_of, with_target, zero_of};

use mid_base::{DevAddr, NoMemory};
use std::alloc::Global;

/// A target: its channel, and its number there.
#[derive(Clone, Copy, PartialEq, Eq, Debug)]
pub(crate) struct Target {
    pub channel: u8,
    pub target: u8,
}

impl Target {
    /// The target of a device.
    pub(crate) fn of(dev: DevAddr) -> Target
        ensures { result ≡ target_of dev }
    {
        Target {
            channel: dev.channel,
            target: dev.target,
        }
    }

    /// Its logical unit 0, which a scan asks.
    pub(crate) fn zero(self) -> DevAddr
        ensures { result ≡ zero_of self }
    {
        DevAddr {
            channel: self.channel,
            target: self.target,
            lun: 0,
        }
    }

    pub(crate) fn is_same(self, other: Target) -> bool
        ensures { result ≡ same_target self other }
    {
        self.channel == other.channel && self.target == other.target
    }

    // Whether it comes before another in address order.
    fn comes_before(self, other: Target) -> bool
        ensures { result ≡ comes_before self other }
    {
        self.channel < other.channel || self.channel == other.channel && self.target < other.target
    }
}

// Puts a target among others in address order, where it isn't there.
fn add_target(targets: &mut Vec<Target>, target: Target) -> Result<(), NoMemory>
    ensures { IfOk result (λ u. targets.new.items ≡ with_target target targets.old.items) }
{
    for place in 0..targets.len() {
        let other = targets[place];
        if target.is_same(other) {
            return Ok(());
        }
        if target.comes_before(other) {
            return match targets.insert(place, target) {
                Ok(()) => Ok(()),
                Err(_) => Err(NoMemory),
            };
        }
    }
    match targets.push(target) {
        Ok(()) => Ok(()),
        Err(_) => Err(NoMemory),
    }
}

/// The targets of these devices in address order, each once.
pub(crate) fn targets_of(alloc: Global, devices: &[DevAddr]) -> Result<Vec<Target>, NoMemory>
    ensures { IfOk result (λ v. v.items ≡ targets_of devices.now) }
{
    let mut targets = Vec::new(alloc);
    for dev in devices.iter().rev().copied() {
        add_target(&mut targets, Target::of(dev))?;
    }
    Ok(targets)
}
