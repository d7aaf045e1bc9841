//! What an answer means for its command: whether the command is finished, retried, queued again, or given to the error
//! handler (`scsi_eh.rst`, "Completing a scmd w/ scsi_done").
//!
//! `specs/Disp.antt` has the tables, row by row; `docs/LINUX.md` says how they differ from Linux. `specs/Ladder.antt` says,
//! of a list of failed commands, what recovery does next: it is what the rules of a journal and the ladder share. No
//! call takes memory.
#![tactic(auto)]

mod judging;
#[cfg(test)]
mod tests;
mod todo;

pub use judging::{check_sense, decide};
pub use mid_base::Disp;
pub use todo::{Cx, Todo};
