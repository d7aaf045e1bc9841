//! The verdicts on a host's failed commands: what the end of recovery needs of each (the kernel's `scsi_eh.rst`,
//! `scsi_eh_flush_done_q`): its attempt, the answer that this has with the sense data that was fetched, and whether its last
//! judgement was a success.
//!
//! The table is tied to the host's journal by one relation, `VerdictsAgree`: it has a row for each failed command, in the
//! order in which they failed, with what looking back over the journal says. Each call says that it keeps the relation for
//! the entry that it is for. All room is taken when the table is made; no later call takes memory.
#![tactic(auto)]

mod laws;
#[cfg(test)]
mod tests;
mod verdicts;

pub use laws::{
    each_row_is_of_a_failed_command, other_attempts_change_no_verdict,
    other_entries_change_no_verdict, there_is_room_while_fewer_have_failed_than_there_are_tags,
};
pub use verdicts::{FailedRow, Verdicts};
