//! The failures of a host: which commands have failed, which aborts are scheduled, and whether recovery has begun (the
//! kernel's `scsi_eh.rst`, 1-3, "Asynchronous command aborts", and 1-4, "How SCSI EH takes over").
//!
//! The table is tied to the host's journal by one relation, `FailuresAgree`: the words of the journal's rules on failures,
//! looked back over, have the values that the table has. Each call says that it keeps the relation for the entry that it is for, or
//! that its answer is what a word says. Each busy command is out with the lower layer, or is to be aborted, or has failed,
//! and these are counted; so there is room for each abort and each failure. All room is taken when the table is made; no
//! later call takes memory.
//!
//! Which failed commands recovery has cleared isn't kept here: it is the list that the ladder still has before it. The
//! failed list stays whole until a command goes again or is reported.
#![tactic(auto)]

mod failures;
mod laws;
#[cfg(test)]
mod tests;

pub use failures::{FailedCommand, Failures};
pub use laws::{
    a_busy_command_can_end, a_command_that_is_not_busy_changes_no_failure,
    a_command_that_is_out_has_room, a_command_that_is_sent_is_out,
    a_command_whose_abort_was_tried_is_out, each_busy_command_is_counted_once,
    no_failed_command_waits_for_an_abort, other_entries_change_no_failure,
    there_is_room_while_a_tag_is_free,
};
