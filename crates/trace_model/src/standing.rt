use mid_base::{Attempt, Tag};

/// Where a command stands: not handed in yet, waiting to be sent, busy with an attempt that holds a tag, or reported.
#[derive(Clone, Copy, PartialEq, Eq, Debug)]
pub enum Standing {
    New,
    Waits,
    Busy(Attempt, Tag),
    Ended,
}
