use mid_base::{CmdId, LaneNo};
use trace_model::Standing;

/// What is kept of a command. The rows stand in the order of the spec's commands.
#[derive(Clone, Copy, PartialEq, Eq, Debug)]
pub struct CommandRow {
    pub id: CmdId,
    pub lane: LaneNo,
    /// The place of its device among the spec's logical units.
    pub device: usize,
    pub standing: Standing,
    /// How often it was sent again as a counted retry.
    pub retries: u8,
    /// Whether an abort of it was ever scheduled.
    pub aborted: bool,
    /// Its place among the commands that were taken, the earliest first. It says nothing of one that wasn't.
    pub order: usize,
}

/// A command that was taken, and its place in the spec.
#[derive(Clone, Copy, PartialEq, Eq, Debug)]
pub struct Taken {
    pub place: usize,
    pub command: CmdId,
}
