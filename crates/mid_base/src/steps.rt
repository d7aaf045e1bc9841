use crate::{Attempt, By, DevAddr, DeviceState, LaneNo};

/// One event of a host's core.
#[derive(Clone, Copy, PartialEq, Eq, Debug)]
pub enum Step {
    /// Hands in the next command of a lane.
    Submit(LaneNo),
    /// Sends the command that was taken earliest of those that can go.
    Send,
    /// Takes an answer that is due from the lower layer.
    Work,
    /// Asks the lower layer about an attempt that reached its deadline.
    Due,
    /// Gives an open attempt to its completion or to its expired timer.
    Own(Attempt, By),
    /// Judges an owned attempt, or schedules its abort.
    Settle(Attempt),
    /// Ignores a late answer.
    Drop(Attempt),
    /// Tries the abort that was scheduled first.
    Abort,
    EhBegin,
    EhAct,
    EhFlush,
    EhEnd,
    Tick,
    SetState(DevAddr, DeviceState),
}

/// What a step came to.
#[derive(Clone, Copy, PartialEq, Eq, Debug)]
pub enum Did {
    Done,
    /// The step wasn't enabled: its first condition that failed.
    Skipped(Why),
}

/// Why a step was skipped. Its printed word is its name in lower case.
#[derive(Clone, Copy, PartialEq, Eq, Debug)]
pub enum Why {
    /// Each command of the lane was handed in.
    LaneDone,
    /// The host is in recovery.
    Recovery,
    /// No waiting command can go.
    NoSend,
    /// The numbers of attempts or of ticks are used up.
    Spent,
    /// The lower layer has no answer that is due.
    NoWork,
    /// No attempt has reached its deadline.
    NoDue,
    /// The attempt isn't open.
    NotOpen,
    /// The attempt has no answer yet.
    NotReady,
    /// The attempt's timer hasn't expired.
    NotDue,
    /// The attempt has no owner, or it is settled.
    NotOwned,
    /// No answer of the attempt is late.
    NotLate,
    /// No abort is scheduled.
    NoAbort,
    /// Recovery has begun.
    EhRunning,
    /// No command is failed.
    NoFailed,
    /// Some busy command isn't failed.
    NotQuiet,
    /// Recovery hasn't begun.
    EhIdle,
    /// Every failed command is cleared.
    LadderDone,
    /// Some failed command isn't cleared.
    LadderOpen,
    /// Every cleared command is flushed.
    FlushDone,
    /// Some cleared command isn't flushed.
    FlushLeft,
    /// The lower layer has an answer that is due.
    WorkDue,
    /// Some answer is neither owned nor ignored.
    AnswerWaiting,
    /// Some attempt has reached its deadline and has no owner.
    ExpiryWaiting,
    /// The device isn't the host's, or can't go to that state.
    Illegal,
}
