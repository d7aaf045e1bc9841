//! The verdict at the end of recovery: a command that recovery is done with is retried, or reported with its last answer
//! (`scsi_eh.rst`, "scsi_eh_flush_done_q").
//!
//! `specs/Verdict.antt` has the rule. No call takes memory.
#![tactic(auto)]

mod flush;
#[cfg(test)]
mod tests;

pub use flush::{Flush, verdict};
