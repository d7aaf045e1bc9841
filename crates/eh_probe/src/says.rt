ghost use Rattle.std.specs.Prelude.{◌≡◌, true, false, if◌then◌else◌};
ghost use Rattle.mid_base.specs.Answers.{is_good as is_good_seen, said_good as said_good_seen};
ghost use Rattle.trace_model.specs.Climb.{is_doubtful as is_doubtful_seen};
ghost use Rattle.disposition.specs.Disp.{disp, is_retry};
ghost use Rattle.eh_probe.specs.declared.says.Probe.TheVariants.{Good as GoodSeen, Bad as BadSeen};
ghost use Rattle.eh_probe.specs.Tests.{sorted as sorted_seen};

use disposition::{Cx, decide};
use mid_base::{Answer, DID_OK, Disp, GOOD, ProbeSay};

/// What came of a probe: an answer of DID_OK and GOOD, another answer, or nothing.
#[derive(Clone, Copy, PartialEq, Eq, Debug)]
pub enum Probe {
    Good(Answer),
    Bad(Answer),
    Silent,
}

/// A test whether a device is ready: what the first TEST UNIT READY said, what the second one said where it was sent, and
/// whether the device is ready.
#[derive(Clone, Copy, PartialEq, Eq, Debug)]
pub struct Tested {
    pub first: Probe,
    pub second: Option<Probe>,
    pub ready: bool,
}

pub(crate) fn sorted(say: ProbeSay) -> Probe
    ensures { result ≡ sorted_seen say }
{
    match say {
        ProbeSay::Answered(answer) => sorted_answer(answer),
        ProbeSay::Silent => Probe::Silent,
    }
}

fn sorted_answer(answer: Answer) -> Probe
    ensures { result ≡ (if is_good_seen answer then GoodSeen answer else BadSeen answer) }
{
    if is_good(&answer) {
        Probe::Good(answer)
    } else {
        Probe::Bad(answer)
    }
}

pub(crate) fn said_good(say: &ProbeSay) -> bool
    ensures { result ≡ said_good_seen say.now }
{
    match say {
        ProbeSay::Answered(answer) => is_good(answer),
        ProbeSay::Silent => false,
    }
}

fn is_good(answer: &Answer) -> bool
    ensures { result ≡ is_good_seen answer.now }
{
    answer.host == DID_OK && answer.status == GOOD
}

// Whether a first test is made again: its answer isn't GOOD, and would be retried.
pub(crate) fn is_doubtful(say: &ProbeSay) -> bool
    ensures { result ≡ is_doubtful_seen say.now }
{
    match say {
        ProbeSay::Answered(answer) => !is_good(answer) && is_retried(answer),
        ProbeSay::Silent => false,
    }
}

fn is_retried(answer: &Answer) -> bool
    ensures { result ≡ is_retry (disp answer.now 0 1 false true) }
{
    let first = Cx {
        retries: 0,
        allowed: 1,
        failfast: false,
        online: true,
    };
    matches!(decide(answer, &first), Disp::Retry)
}
