ghost use Rattle.std.specs.Prelude.{◌≡◌};
ghost use Rattle.report_text.specs.Words.{again_word, busy_word, by_word, disp_word, failed_word, ok_word, state_word, why_word};

use mid_base::{BusyOf, By, DeviceState, Disp, Why};

pub fn busy_word(why: BusyOf) -> &'static str
    ensures { result.now ≡ busy_word why }
{
    match why {
        BusyOf::Host => "host",
        BusyOf::Device => "device",
    }
}

pub fn by_word(by: By) -> &'static str
    ensures { result.now ≡ by_word by }
{
    match by {
        By::Answer => "answer",
        By::Expiry => "expiry",
    }
}

pub fn disp_word(d: Disp) -> &'static str
    ensures { result.now ≡ disp_word d }
{
    match d {
        Disp::Success => "success",
        Disp::Retry => "retry",
        Disp::Requeue => "requeue",
        Disp::Fail => "fail",
    }
}

pub fn ok_word(ok: bool) -> &'static str
    ensures { result.now ≡ ok_word ok }
{
    if ok { "ok" } else { "failed" }
}

pub fn failed_word(cancelled: bool) -> &'static str
    ensures { result.now ≡ failed_word cancelled }
{
    if cancelled { "cancelled" } else { "answered" }
}

pub fn again_word(counted: bool) -> &'static str
    ensures { result.now ≡ again_word counted }
{
    if counted { "counted" } else { "free" }
}

pub fn state_word(state: DeviceState) -> &'static str
    ensures { result.now ≡ state_word state }
{
    match state {
        DeviceState::Created => "created",
        DeviceState::Running => "running",
        DeviceState::Quiesce => "quiesce",
        DeviceState::Block => "block",
        DeviceState::Offline => "offline",
        DeviceState::Cancel => "cancel",
        DeviceState::Del => "del",
    }
}

/// The printed word: the name of the cause in lower case.
pub fn why_word(why: Why) -> &'static str
    ensures { result.now ≡ why_word why }
{
    match why {
        Why::LaneDone => "lanedone",
        Why::Recovery => "recovery",
        Why::NoSend => "nosend",
        Why::Spent => "spent",
        Why::NoWork => "nowork",
        Why::NoDue => "nodue",
        Why::NotOpen => "notopen",
        Why::NotReady => "notready",
        Why::NotDue => "notdue",
        Why::NotOwned => "notowned",
        Why::NotLate => "notlate",
        Why::NoAbort => "noabort",
        Why::EhRunning => "ehrunning",
        Why::NoFailed => "nofailed",
        Why::NotQuiet => "notquiet",
        Why::EhIdle => "ehidle",
        Why::LadderDone => "ladderdone",
        Why::LadderOpen => "ladderopen",
        Why::FlushDone => "flushdone",
        Why::FlushLeft => "flushleft",
        Why::WorkDue => "workdue",
        Why::AnswerWaiting => "answerwaiting",
        Why::ExpiryWaiting => "expirywaiting",
        Why::Illegal => "illegal",
    }
}
