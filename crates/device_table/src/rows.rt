use mid_base::{DevAddr, DeviceState};

/// What is kept of a device. The rows stand in the order of the spec's logical units.
#[derive(Clone, Copy, PartialEq, Eq, Debug)]
pub struct DeviceRow {
    pub dev: DevAddr,
    pub state: DeviceState,
    /// Nothing is sent to it until the next tick.
    pub paused: bool,
}
