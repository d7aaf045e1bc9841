ghost use Rattle.std.specs.Prelude.{◌≡◌, ◌<◌, OnOk};
ghost use Rattle.std.specs.List.{position};
ghost use Rattle.script_text.specs.Said.{is_host, on_host, with_unit, with_planned, with_command};

use crate::host_draft::HostDraft;
use mid_base::{CmdSpec, HostNo, LunSpec, NoMemory, PlanEntry};

fn place_of(hosts: &[HostDraft], number: u8) -> Option<usize>
    ensures { result ≡ position (is_host number) hosts.now }
{
    hosts.iter().position(|h| h.no().0 == number)
}

/// Adds a unit to the host with this number, if there is one.
#[tactic(auto, using(crate::proofs::Places::place_below, crate::proofs::Places::on_none))]
pub fn unit_onto(hosts: &mut [HostDraft], no: HostNo, unit: LunSpec) -> Result<(), NoMemory>
    ensures { OnOk result (hosts.new ≡ on_host no.0 (with_unit unit) hosts.old) }
{
    let Some(place) = place_of(hosts, no.0) else {
        return Ok(());
    };
    hosts[place].add_unit(unit)?;
    Ok(())
}

/// Adds a planned fault to the host with this number, if there is one.
#[tactic(auto, using(crate::proofs::Places::place_below, crate::proofs::Places::on_none))]
pub fn fault_onto(hosts: &mut [HostDraft], no: HostNo, entry: PlanEntry) -> Result<(), NoMemory>
    ensures { OnOk result (hosts.new ≡ on_host no.0 (with_planned entry) hosts.old) }
{
    let Some(place) = place_of(hosts, no.0) else {
        return Ok(());
    };
    hosts[place].add_planned(entry)?;
    Ok(())
}

/// Adds a command to the host with this number, if there is one.
#[tactic(auto, using(crate::proofs::Places::place_below, crate::proofs::Places::on_none))]
pub fn command_onto(hosts: &mut [HostDraft], no: HostNo, command: CmdSpec) -> Result<(), NoMemory>
    requires { command.lane.0 < 64 }
    ensures { OnOk result (hosts.new ≡ on_host no.0 (with_command command) hosts.old) }
{
    let Some(place) = place_of(hosts, no.0) else {
        return Ok(());
    };
    hosts[place].add_command(command)?;
    Ok(())
}
