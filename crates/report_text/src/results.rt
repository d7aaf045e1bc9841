ghost use Rattle.std.specs.Prelude.{Some, ◌≡◌};
ghost use Rattle.report_text.specs.Results.{ended_by, ended_word, outcome_text};

use crate::pieces::Reply;
use mid_base::{Answer, By};
use std::fmt;

/// How a command ended, by what its report was made of: an answer that was judged, an attempt that its expired timer
/// owned, or neither, since the device wasn't online.
#[derive(Clone, Copy, PartialEq, Eq, Debug)]
pub enum Ended {
    Answered,
    TimedOut,
    NotConnected,
}

/// A command's report: how it ended, and the answer that it was told.
#[derive(Clone, Copy, PartialEq, Eq, Debug)]
pub struct Report {
    pub ended: Ended,
    pub answer: Answer,
}

/// A command's first report: how it ended, and the place of the entry in the journal.
#[derive(Clone, Copy)]
pub struct FirstTold {
    pub ended: Ended,
    pub place: usize,
}

/// The last entry that names a command, as far as the command's end asks for it.
#[derive(Clone, Copy, PartialEq, Eq, Debug)]
pub enum LastOwn {
    Judged,
    Aborted,
    Cleared,
    Other,
}

/// How a command ended, by the last entry that names it before its report and the owner of its last attempt.
pub fn ended_by(last: LastOwn, owner: Option<By>) -> Ended
    ensures { result ≡ ended_by last owner }
{
    match (last, owner) {
        (LastOwn::Judged, _) | (LastOwn::Cleared, Some(By::Answer)) => Ended::Answered,
        (LastOwn::Aborted | LastOwn::Cleared, _) => Ended::TimedOut,
        (LastOwn::Other, _) => Ended::NotConnected,
    }
}

pub fn ended_word(ended: Ended) -> &'static str
    ensures { result.now ≡ ended_word ended }
{
    match ended {
        Ended::Answered => "answered",
        Ended::TimedOut => "timeout",
        Ended::NotConnected => "noconnect",
    }
}

/// A result: how the command ended and its answer, or `open`.
#[derive(Clone, Copy)]
pub struct Outcome(pub Option<Report>);

impl fmt::Display for Outcome {
    ghost output = { λ t. Some (outcome_text t.0) };

    fn fmt<W: fmt::Write>(&self, f: &mut fmt::Formatter<W>) -> fmt::Result {
        match self.0 {
            Some(report) => write!(f, "{} {}", ended_word(report.ended), Reply(report.answer)),
            None => write!(f, "open"),
        }
    }
}
