ghost use Rattle.std.specs.Prelude.{Some};
ghost use Rattle.report_text.specs.Entries.{entry_text};

use crate::pieces::{Address, Aim, Hex, HexByte, Reply};
use crate::words::{again_word, busy_word, by_word, disp_word, failed_word, ok_word, state_word};
use mid_base::{Entry, ProbeSay};
use std::fmt;

/// An entry as it is printed: its word and then its parts, with a space between.
#[derive(Clone, Copy)]
pub struct EntryText(pub Entry);

impl fmt::Display for EntryText {
    ghost output = { λ t. Some (entry_text t.0) };

    fn fmt<W: fmt::Write>(&self, f: &mut fmt::Formatter<W>) -> fmt::Result {
        match self.0 {
            Entry::Took(c) => write!(f, "took {}", c.0),
            Entry::Sent(c, n, t) => write!(f, "sent {} {} {}", c.0, n.0, t.0),
            Entry::Bounced(c, n, by) => write!(f, "bounced {} {} {}", c.0, n.0, busy_word(by)),
            Entry::Ready(n, a) => write!(f, "ready {} {}", n.0, Reply(a)),
            Entry::Due(n) => write!(f, "due {}", n.0),
            Entry::Longer(n) => write!(f, "longer {}", n.0),
            Entry::DoneSaid(n) => write!(f, "timerdone {}", n.0),
            Entry::Owned(n, by) => write!(f, "owned {} {}", n.0, by_word(by)),
            Entry::Late(n) => write!(f, "late {}", n.0),
            Entry::Judged(c, n, d) => write!(f, "judged {} {} {}", c.0, n.0, disp_word(d)),
            Entry::AbortSet(c, n) => write!(f, "abortset {} {}", c.0, n.0),
            Entry::Aborted(c, n, ok) => write!(f, "aborted {} {} {}", c.0, n.0, ok_word(ok)),
            Entry::Failed(c, n, how) => write!(f, "failed {} {} {}", c.0, n.0, failed_word(how)),
            Entry::Cleared(c, level) => write!(f, "cleared {} {level}", c.0),
            Entry::Sensed(c, n, s) => write!(f, "sensed {} {} {}", c.0, n.0, Hex(s.as_slice())),
            Entry::Again(c, counted) => write!(f, "again {} {}", c.0, again_word(counted)),
            Entry::Told(c, a) => write!(f, "told {} {}", c.0, Reply(a)),
            Entry::EhBegin => write!(f, "ehbegin"),
            Entry::EhEnd => write!(f, "ehend"),
            Entry::Act(level, at, ok) => write!(f, "act {level} {} {}", Aim(at), ok_word(ok)),
            Entry::Probe(dev, code, ProbeSay::Answered(a)) => {
                write!(f, "probe {} {} {}", Address(dev), HexByte(code), Reply(a))
            }
            Entry::Probe(dev, code, ProbeSay::Silent) => {
                write!(f, "probe {} {} silent", Address(dev), HexByte(code))
            }
            Entry::Offline(dev) => write!(f, "offline {}", Address(dev)),
            Entry::State(dev, to) => write!(f, "state {} {}", Address(dev), state_word(to)),
            Entry::Tick => write!(f, "tick"),
        }
    }
}
