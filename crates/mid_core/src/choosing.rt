ghost use Rattle.std.specs.Prelude.{◌≡◌, List};
ghost use Rattle.mid_base.specs.declared.entries.Entry.{Entry as EntrySeen};
ghost use Rattle.mid_base.specs.declared.host_spec.HostSpec.{HostSpec as SpecSeen};
ghost use Rattle.device_states.specs.States.{is_closed};
ghost use Rattle.host_state.specs.HostAgrees.{HostAgrees};
ghost use Rattle.mid_core.specs.Choices.{IsOfSome, SaysHanding, SaysTurn};

use device_states::online;
use host_state::Running;
use mid_base::{DeviceState, LAST_NUMBER, LaneNo, Why};

/// What comes of the command of a lane that is handed in next, by its place in the spec.
#[derive(Clone, Copy, PartialEq, Eq, Debug)]
pub(crate) enum Handing {
    Take(usize),
    /// Its device is on its way out, so it is reported.
    Refuse(usize),
}

/// What comes of the command that goes next, by its place in the spec.
#[derive(Clone, Copy, PartialEq, Eq, Debug)]
pub(crate) enum Turn {
    Send(usize),
    /// Its device isn't online, so it is reported.
    Report(usize),
}

/// What Submit does, or the condition that bars it.
pub(crate) fn next_handing(running: &Running, lane: LaneNo) -> Result<Handing, Why>
    requires { IsOfSome running.now }
    ensures { (s : SpecSeen) (P : List EntrySeen) → HostAgrees s P running.now → SaysHanding s P running.now lane result }
{
    let Some(place) = running.next_in(lane) else {
        return Err(Why::LaneDone);
    };
    let row = running.command(place);
    if is_closed(running.device_state(row.device)) {
        return Ok(Handing::Refuse(place));
    }
    Ok(Handing::Take(place))
}

/// What Send does, or the first condition that bars it.
pub(crate) fn next_turn(running: &Running) -> Result<Turn, Why>
    requires { IsOfSome running.now }
    ensures { (s : SpecSeen) (P : List EntrySeen) → HostAgrees s P running.now → SaysTurn s P running.now result }
{
    if running.in_recovery() {
        return Err(Why::Recovery);
    }
    let Some(place) = running.pick() else {
        return Err(Why::NoSend);
    };
    let row = running.command(place);
    if !online(running.device_state(row.device)) {
        return Ok(Turn::Report(place));
    }
    if running.count() + 1 >= LAST_NUMBER {
        return Err(Why::Spent);
    }
    Ok(Turn::Send(place))
}

// Whether a device in this state takes no more commands.
fn is_closed(state: DeviceState) -> bool
    ensures { result ≡ is_closed state }
{
    matches!(state, DeviceState::Cancel | DeviceState::Del)
}
