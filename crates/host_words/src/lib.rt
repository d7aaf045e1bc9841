//! The table of a host, which threads share: the host's state behind a turn, and a word for each tag that says who may
//! settle its attempt.
//!
//! A thread works with a seat. With a turn it has the whole state to itself; `claim` needs none and is one exchange. What
//! a seat knows is its view, which exists in contracts alone; `specs/Hosted.antt` is the rule that ties views, words and
//! state.
#![tactic(auto)]

mod host_table;
mod plays;
mod seat;
mod tags;
mod turns;
mod view;
mod words;

pub use host_table::HostTable;
pub use seat::HostSeat;
pub use view::{Arm, InTurn, Loss, Origin, Range, Shown, Stage, Start, Turn, View, Win};
pub use words::{Claim, WordSeen};
