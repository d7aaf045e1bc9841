use crate::{
    Answer, Attempt, BusyOf, By, CmdId, DevAddr, DeviceState, Disp, ProbeSay, Scope, SenseBytes,
    Tag,
};

/// One entry of a host's journal. A journal is a list of entries, the oldest first; the tick of an entry is the number of
/// `Tick` entries before it.
#[derive(Clone, Copy, PartialEq, Eq, Debug)]
pub enum Entry {
    /// The command was taken into the host.
    Took(CmdId),
    /// The attempt was handed to the lower layer under this tag.
    Sent(CmdId, Attempt, Tag),
    /// The lower layer was busy and turned the attempt away.
    Bounced(CmdId, Attempt, BusyOf),
    /// The lower layer answered.
    Ready(Attempt, Answer),
    /// The deadline was reached, and the lower layer left it at that.
    Due(Attempt),
    /// The deadline was reached, and the lower layer had the timer reset.
    Longer(Attempt),
    /// The deadline was reached, and the lower layer said that the command is done.
    DoneSaid(Attempt),
    /// The attempt belongs to its completion or to its expired timer from here on.
    Owned(Attempt, By),
    /// An answer that came too late, or twice, was ignored.
    Late(Attempt),
    /// The verdict on the attempt's answer.
    Judged(CmdId, Attempt, Disp),
    /// An abort was scheduled.
    AbortSet(CmdId, Attempt),
    /// The scheduled abort was tried; whether it succeeded.
    Aborted(CmdId, Attempt, bool),
    /// The command is on the failed list; true where it was cancelled, false where it was answered.
    Failed(CmdId, Attempt, bool),
    /// Recovery is done with the command, at this level.
    Cleared(CmdId, u8),
    /// Sense data was fetched for the attempt's answer.
    Sensed(CmdId, Attempt, SenseBytes),
    /// The command waits to be sent again; whether this counts as a retry.
    Again(CmdId, bool),
    /// The command was reported with this answer.
    Told(CmdId, Answer),
    /// Recovery began.
    EhBegin,
    /// Recovery ended.
    EhEnd,
    /// An act of recovery: its level, what it is aimed at, whether it succeeded.
    Act(u8, Scope, bool),
    /// A command of recovery: the device, the operation code, what came of it.
    Probe(DevAddr, u8, ProbeSay),
    /// Recovery put the device offline.
    Offline(DevAddr),
    /// The device was set to this state from outside.
    State(DevAddr, DeviceState),
    /// Time went on by one tick.
    Tick,
}
