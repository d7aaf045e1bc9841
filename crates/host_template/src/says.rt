/// What is to be done with an attempt that isn't answered in time, as the return values of `eh_timed_out` in
/// `scsi_mid_low_api.rst`: SCSI_EH_DONE, SCSI_EH_RESET_TIMER and SCSI_EH_NOT_HANDLED.
#[derive(Clone, Copy, PartialEq, Eq, Debug)]
pub enum TimerSay {
    /// The attempt is done, and its answer comes.
    Done,
    /// The attempt is given its timeout once more.
    ResetTimer,
    /// Nothing is known of it: recovery is to act.
    NotHandled,
}

/// What an abort or a reset comes to, as the return values SUCCESS and FAILED in `scsi_mid_low_api.rst`.
#[derive(Clone, Copy, PartialEq, Eq, Debug)]
pub enum EhSay {
    Success,
    Failed,
}
