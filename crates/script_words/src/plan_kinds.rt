ghost use Rattle.std.specs.Prelude.{◌≡◌};
ghost use Rattle.script_words.specs.Keywords.{plan_kind, recovery_kind};

/// The kinds of planned faults, without what they are given.
#[derive(Clone, Copy, PartialEq, Eq, Debug)]
pub enum PlanKind {
    HostBusy,
    Busy,
    Latency,
    Never,
    Check,
    NoSense,
    Raw,
    Status,
    Longer,
    TimerDone,
    AbortFail,
    Rdev,
    Rtgt,
    Rbus,
    Rhost,
    Silent,
}

/// The kind of fault that this word names.
#[tactic(auto, unfolding(crate::specs::Keywords::plan_kind))]
pub fn plan_kind_of(word: &[u8]) -> Option<PlanKind>
    ensures { result ≡ plan_kind word.now }
{
    if word == b"hostbusy".as_slice() {
        return Some(PlanKind::HostBusy);
    }
    if word == b"busy".as_slice() {
        return Some(PlanKind::Busy);
    }
    if word == b"latency".as_slice() {
        return Some(PlanKind::Latency);
    }
    if word == b"never".as_slice() {
        return Some(PlanKind::Never);
    }
    if word == b"check".as_slice() {
        return Some(PlanKind::Check);
    }
    if word == b"nosense".as_slice() {
        return Some(PlanKind::NoSense);
    }
    if word == b"raw".as_slice() {
        return Some(PlanKind::Raw);
    }
    if word == b"status".as_slice() {
        return Some(PlanKind::Status);
    }
    recovery_kind_of(word)
}

/// The kind of fault of the timer, of an abort, of a reset or of a probe that this word names.
#[tactic(auto, unfolding(crate::specs::Keywords::recovery_kind))]
fn recovery_kind_of(word: &[u8]) -> Option<PlanKind>
    ensures { result ≡ recovery_kind word.now }
{
    if word == b"longer".as_slice() {
        return Some(PlanKind::Longer);
    }
    if word == b"timerdone".as_slice() {
        return Some(PlanKind::TimerDone);
    }
    if word == b"abortfail".as_slice() {
        return Some(PlanKind::AbortFail);
    }
    if word == b"rdev".as_slice() {
        return Some(PlanKind::Rdev);
    }
    if word == b"rtgt".as_slice() {
        return Some(PlanKind::Rtgt);
    }
    if word == b"rbus".as_slice() {
        return Some(PlanKind::Rbus);
    }
    if word == b"rhost".as_slice() {
        return Some(PlanKind::Rhost);
    }
    if word == b"silent".as_slice() {
        return Some(PlanKind::Silent);
    }
    None
}
