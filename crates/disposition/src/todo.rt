use mid_base::{Answer, Attempt, CmdId, DevAddr};

/// What the disposition of a command looks at beside its answer: how often it was retried, how often it may be, whether it
/// fails at the first error, and whether its device is online.
#[derive(Clone, Copy, PartialEq, Eq, Debug)]
pub struct Cx {
    pub retries: u8,
    pub allowed: u8,
    pub failfast: bool,
    pub online: bool,
}

/// A failed command that recovery has to do with: its last attempt `n`, its device, whether it was cancelled, and its answer
/// where it wasn't.
#[derive(Clone, Copy, PartialEq, Eq, Debug)]
pub struct Todo {
    pub cmd: CmdId,
    pub n: Attempt,
    pub dev: DevAddr,
    pub cancelled: bool,
    pub answer: Option<Answer>,
    pub cx: Cx,
}
