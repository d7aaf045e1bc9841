use crate::{DevAddr, HostByte, SenseBytes};

/// A planned fault of the simulated lower layer.
#[derive(Clone, Copy, PartialEq, Eq, Debug)]
pub enum Fault {
    /// The host is busy.
    HostBusy,
    /// The device is busy.
    Busy,
    /// The answer is due so many ticks after the sending.
    Latency(u32),
    /// The attempt is never answered.
    Never,
    /// CHECK CONDITION with fixed sense of this key, ASC and ASCQ.
    Check(u8, u8, u8),
    /// CHECK CONDITION without sense; the unit keeps this key, ASC and ASCQ pending.
    NoSense(u8, u8, u8),
    /// CHECK CONDITION with this sense.
    Raw(SenseBytes),
    /// This host byte and status, without sense.
    Status(HostByte, u8),
    /// The timer is reset.
    Longer,
    /// The command is said to be done.
    TimerDone,
    /// The abort fails.
    AbortFail,
    /// The device reset fails.
    Rdev,
    /// The target reset fails.
    Rtgt,
    /// The bus reset fails.
    Rbus,
    /// The host reset fails.
    Rhost,
    /// A command of recovery or scanning isn't answered.
    Silent,
}

/// A line of the fault plan: the fault hits the device's calls number `first`, `first + every` and so on, `uses` of them.
#[derive(Clone, Copy, PartialEq, Eq, Debug)]
pub struct PlanEntry {
    pub dev: DevAddr,
    pub fault: Fault,
    pub first: u32,
    pub every: u32,
    pub uses: u32,
}
