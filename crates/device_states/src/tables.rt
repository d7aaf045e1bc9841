ghost use Rattle.std.specs.Prelude.{◌≡◌};
ghost use Rattle.device_states.specs.States.{is_online_state, is_running, may_become, host_may_become, set_or_refuse};

use mid_base::{DeviceState, HostState};

/// A state that may not follow the one that was had.
#[derive(Clone, Copy, PartialEq, Eq, Debug)]
pub struct Illegal<T> {
    pub had: T,
    pub asked: T,
}

/// The state that a device goes to, where it may go there from the one that it had (the kernel's
/// `scsi_device_set_state`). Illegal comes exactly where it may not; no state may follow itself.
pub fn set_device(had: DeviceState, asked: DeviceState) -> Result<DeviceState, Illegal<DeviceState>>
    ensures { result ≡ set_or_refuse (may_become had asked) had asked }
{
    use DeviceState::{Block, Cancel, Created, Del, Offline, Quiesce, Running};
    let legal = match asked {
        Created => false,
        Running => matches!(had, Created | Offline | Quiesce | Block),
        Quiesce | Block => matches!(had, Running),
        Offline => matches!(had, Created | Running | Quiesce | Block),
        Cancel => matches!(had, Created | Running | Quiesce | Block | Offline),
        Del => matches!(had, Created | Cancel),
    };
    if legal {
        Ok(asked)
    } else {
        Err(Illegal { had, asked })
    }
}

/// The state that a host goes to, where it may go there from the one that it had (the kernel's `scsi_host_set_state`).
/// Illegal comes exactly where it may not; no state may follow itself.
pub fn set_host(had: HostState, asked: HostState) -> Result<HostState, Illegal<HostState>>
    ensures { result ≡ set_or_refuse (host_may_become had asked) had asked }
{
    use HostState::{Cancel, CancelRecovery, Created, Del, DelRecovery, Recovery, Running};
    let legal = match asked {
        Created => false,
        Running => matches!(had, Created | Recovery),
        Recovery => matches!(had, Running),
        Cancel => matches!(had, Created | Running | CancelRecovery),
        CancelRecovery => matches!(had, Cancel | Recovery),
        DelRecovery => matches!(had, CancelRecovery),
        Del => matches!(had, Cancel | DelRecovery),
    };
    if legal {
        Ok(asked)
    } else {
        Err(Illegal { had, asked })
    }
}

/// Whether commands are sent to a device in this state: to a running one alone.
pub fn can_send(s: DeviceState) -> bool
    ensures { result ≡ is_running s }
{
    matches!(s, DeviceState::Running)
}

/// Whether a device in this state counts as online: unless it is offline or on its way out.
pub fn online(s: DeviceState) -> bool
    ensures { result ≡ is_online_state s }
{
    !matches!(
        s,
        DeviceState::Offline | DeviceState::Cancel | DeviceState::Del
    )
}
