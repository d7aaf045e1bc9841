ghost use Rattle.std.specs.Prelude.{◌≡◌, IfOk, find, option_map, nat_lt};
ghost use Rattle.attempt_table.specs.Claims.{is_by};
ghost use Rattle.trace_model.specs.Steps.{same_owner};
ghost use Rattle.drain_rounds.specs.Rounds.{earlier, is_stopped};
ghost use Rattle.disposition.specs.Ladder.{address};
ghost use Rattle.play_sched.specs.Runs.{devices_on};

use debug_adapter::DebugAdapter;
use host_scan::{ScannedHost, scan_host};
use mid_base::{
    Attempt, By, DevAddr, DeviceState, Did, Entry, HostNo, HostSpec, NoMemory, Step, Tag, Why,
};
use mid_core::Core;
use std::alloc::Global;
use std::marker::Model;

/// One of a script's hosts: its core over a simulated adapter.
#[derive(Drop)]
pub struct Host {
    core: Core<DebugAdapter>,
}

impl Model for Host {
    ghost use Rattle.std.specs.Prelude.{reverse};
    ghost use Rattle.drain_rounds.specs.Making.{HostRun};

    ghost Value = { HostRun };

    ghost view = { λ h. record { spec = h.core.spec; before = h.core.before; entries = reverse h.core.journal } };
}

impl Host {
    ghost use Rattle.std.specs.Prelude.{◌≡◌, ◌<◌, None, Ok, reverse, length, IfOk, true};
    ghost use Rattle.mid_base.specs.Limits.{KeepsLimits};
    ghost use Rattle.trace_model.specs.Claims.{IsNextLate};
    ghost use Rattle.attempt_table.specs.Claims.{IsNextOwned};
    ghost use Rattle.drain_rounds.specs.Making.{Comes};
    ghost use Rattle.drain_rounds.specs.Rounds.{first_stopped, is_drained};
    ghost use Rattle.play_sched.specs.Runs.{IsRun, unplayed};
    ghost use Rattle.play_sched.specs.Rest.{GoesOn, IsFirstClaim, stops_none};

    /// A host to which nothing has happened yet, but that its targets were scanned for those of these devices that are its own.
    pub fn new(alloc: Global, spec: HostSpec, scans: &[(HostNo, DevAddr)]) -> Result<Host, NoMemory>
        requires { KeepsLimits spec }
        ensures { IfOk result (λ host. host ≡ unplayed scans.now spec) }
    {
        let devices = devices_on(alloc, spec.no, scans)?;
        let host = scan_host(alloc, spec, &devices)?;
        let ScannedHost {
            spec,
            before,
            lower,
        } = host;
        let core = Core::new(alloc, spec, before, lower)?;
        Ok(Host { core })
    }

    pub fn spec(&self) -> &HostSpec
        ensures { result.now ≡ self.now.spec }
    {
        self.core.spec()
    }

    /// The journal, the oldest entry first.
    pub fn journal(&self) -> &[Entry]
        ensures entries { result.now ≡ reverse self.now.entries }
        ensures run { IsRun self.now }
    {
        self.core.journal()
    }

    /// Makes one step, and says why it was skipped.
    pub fn make(&mut self, step: Step) -> Result<Option<Why>, NoMemory>
        ensures comes { IfOk result (λ why. Comes self.old.spec self.old.before self.old.entries step why self.new.entries) }
        ensures spec { IfOk result (λ why. self.new.spec ≡ self.old.spec) }
        ensures before { IfOk result (λ why. self.new.before ≡ self.old.before) }
        ensures goes { stops_none step ≡ true → IfOk result (λ why. GoesOn self.old self.new) }
        ensures more { result ≡ Ok None → length self.old.entries < length self.new.entries }
    {
        // Where the adapter stands says whether an answer is due.
        let _ = self.core.journal();
        match self.core.step(step)? {
            Did::Done => Ok(None),
            Did::Skipped(why) => Ok(Some(why)),
        }
    }

    /// How many entries the journal has.
    pub fn count(&self) -> usize
        ensures { result ≡ length self.now.entries }
    {
        self.core.journal().len()
    }

    /// Whether the host is drained: each command is handed in, and each that was taken is reported.
    pub fn is_drained(&self) -> bool
        ensures { result ≡ is_drained self.now.spec self.now.entries }
    {
        self.core.drained()
    }

    /// The least attempt that waits for its answer, or for its expiry, to own it.
    pub fn first_claim(&self, by: By) -> Option<Attempt>
        ensures { IsFirstClaim by self.now.entries result }
    {
        let _ = self.core.journal();
        claim_by(self.core.waiting_claims(), by)
    }

    /// The least attempt that has an owner and isn't settled.
    pub fn next_owned(&self) -> Option<Attempt>
        ensures { IsNextOwned self.now.entries result }
    {
        self.core.next_owned()
    }

    /// The least attempt with an answer that is to be ignored.
    pub fn next_late(&self) -> Option<Attempt>
        ensures { IsNextLate self.now.entries result }
    {
        self.core.next_late()
    }

    /// The first device in address order that is in quiesce or block.
    pub fn first_stopped(&self) -> Option<DevAddr>
        ensures { result ≡ first_stopped self.now.spec self.now.entries self.now.spec.luns }
    {
        let luns = self.core.spec().luns.as_slice();
        let mut first = None;
        for place in (0..luns.len()).rev() {
            let device = luns[place].dev;
            if is_stopped(self.core.device_state(device)) {
                first = Some(earlier(device, first));
            }
        }
        first
    }
}

// Of these devices those of the host with this number.
fn devices_on(
    alloc: Global,
    no: HostNo,
    scans: &[(HostNo, DevAddr)],
) -> Result<Vec<DevAddr>, NoMemory>
    ensures { IfOk result (λ v. v.items ≡ devices_on no.0 scans.now) }
{
    let own = scans.iter().filter(|scan| scan.0.0 == no.0);
    match own.map(|scan| scan.1).collect(alloc) {
        Ok(devices) => Ok(devices),
        Err(_) => Err(NoMemory),
    }
}

// The attempt of the first claim of this side.
fn claim_by(claims: &[(Tag, Attempt, By)], by: By) -> Option<Attempt>
    ensures { result ≡ option_map (λ c. c.1) (find (is_by by) claims.now) }
{
    match claims.iter().find(|claim| same_owner(claim.2, by)) {
        Some(claim) => Some(claim.1),
        None => None,
    }
}

fn same_owner(one: By, other: By) -> bool
    ensures { result ≡ same_owner one other }
{
    matches!(
        (one, other),
        (By::Answer, By::Answer) | (By::Expiry, By::Expiry)
    )
}

fn is_stopped(state: DeviceState) -> bool
    ensures { result ≡ is_stopped state }
{
    matches!(state, DeviceState::Quiesce | DeviceState::Block)
}

// The one of two devices that comes first in address order.
fn earlier(device: DevAddr, other: Option<DevAddr>) -> DevAddr
    ensures { result ≡ earlier device other }
{
    match other {
        Some(other) if is_before(other, device) => other,
        _ => device,
    }
}

fn is_before(device: DevAddr, other: DevAddr) -> bool
    ensures { result ≡ nat_lt (address device) (address other) }
{
    device.channel < other.channel
        || device.channel == other.channel
            && (device.target < other.target
                || device.target == other.target && device.lun < other.lun)
}
