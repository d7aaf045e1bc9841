use crate::{Attempt, CmdId, DevAddr, HostByte, SenseBytes};
use std::error::Error;
use std::fmt;

/// What a lower layer answers to a command: the host byte, the status byte of SAM-5 5.3, the sense data that came with
/// it, the number of data bytes that were moved, and the sum of the data-in bytes as a number, 0 where none came in.
///
/// It is GOOD where the host byte is DID_OK (00h) and the status is GOOD (00h).
#[derive(Clone, Copy, PartialEq, Eq, Debug)]
pub struct Answer {
    pub host: HostByte,
    pub status: u8,
    pub sense: SenseBytes,
    pub moved: u32,
    pub sum: u32,
}

/// Who settles an attempt: the path of its completion, or that of its expired timer.
#[derive(Clone, Copy, PartialEq, Eq, Debug)]
pub enum By {
    Answer,
    Expiry,
}

/// Who was busy when the lower layer turned an attempt away, as SCSI_MLQUEUE_HOST_BUSY and SCSI_MLQUEUE_DEVICE_BUSY of
/// `scsi_mid_low_api.rst` say it.
#[derive(Clone, Copy, PartialEq, Eq, Debug)]
pub enum BusyOf {
    Host,
    Device,
}

/// An allocation failed. Unless a call says otherwise, it has changed nothing then.
#[derive(Clone, Copy, PartialEq, Eq, Debug)]
pub struct NoMemory;

impl fmt::Display for NoMemory {
    fn fmt<W: fmt::Write>(&self, f: &mut fmt::Formatter<W>) -> fmt::Result {
        f.write_str("out of memory")
    }
}

impl Error for NoMemory {}

/// The verdict on an answer: the command is finished, sent again as a retry, sent again without counting, or given to the
/// error handler (`scsi_eh.rst`, "Completing a scmd w/ scsi_done").
#[derive(Clone, Copy, PartialEq, Eq, Debug)]
pub enum Disp {
    Success,
    Retry,
    Requeue,
    Fail,
}

/// What an act of recovery is aimed at: one command, one device, a target (channel and number), a bus (its channel) or
/// the whole host.
#[derive(Clone, Copy, PartialEq, Eq, Debug)]
pub enum Scope {
    Cmd(CmdId),
    Dev(DevAddr),
    Target(u8, u8),
    Bus(u8),
    Host,
}

/// What came of a command of recovery or scanning: an answer, or nothing.
#[derive(Clone, Copy, PartialEq, Eq, Debug)]
pub enum ProbeSay {
    Answered(Answer),
    Silent,
}

/// Where the last attempt of a tag is: open, owned and not settled yet, or neither.
#[derive(Clone, Copy, PartialEq, Eq, Debug)]
pub enum TagState {
    Free,
    Armed(Attempt),
    Owned(Attempt, By),
}
