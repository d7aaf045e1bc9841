ghost use Rattle.std.specs.Prelude.{◌≡◌, option_copied};
ghost use Rattle.done_flush.specs.Verdict.{flush, told as told_seen};

use device_states::online;
use mid_base::{Answer, CmdSpec, DID_TIME_OUT, DeviceState, GOOD, SenseBytes};

/// What becomes of a command that recovery is done with.
#[derive(Clone, Copy, PartialEq, Eq, Debug)]
pub enum Flush {
    /// It waits to be sent again, which counts as a retry.
    Again,
    /// It is reported with this answer.
    Told(Answer),
}

/// The verdict on a command that recovery is done with, by its spec, how often it was retried and the state of its device.
///
/// `last` is the answer that was judged last, with the sense that was fetched for it, or None where the timer of its last
/// attempt expired; `success` says whether the last judgement was Success. The command is retried where it wasn't, its
/// device is online, it isn't failfast and was retried fewer times than is allowed. Otherwise it is told its last answer, or
/// DID_TIME_OUT where there is none.
pub fn verdict(
    spec: &CmdSpec,
    retries: u8,
    state: DeviceState,
    last: Option<&Answer>,
    success: bool,
) -> Flush
    ensures { result ≡ flush spec.now retries state (option_copied last.entry) success }
{
    if !success && online(state) && !spec.failfast && retries < spec.allowed {
        Flush::Again
    } else {
        Flush::Told(told(last))
    }
}

fn told(last: Option<&Answer>) -> Answer
    ensures { result ≡ told_seen (option_copied last.entry) }
{
    match last {
        Some(answer) => *answer,
        None => Answer {
            host: DID_TIME_OUT,
            status: GOOD,
            sense: SenseBytes::empty(),
            moved: 0,
            sum: 0,
        },
    }
}
