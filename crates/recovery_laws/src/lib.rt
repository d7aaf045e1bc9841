//! What a legal journal has of recovery, by its definitions alone.
//!
//! Recovery works on what the journal's past has made of each command. These laws say what that is: while it goes on nothing
//! else is under way (`begun`); a failed command is busy with its last attempt, which its expiry or its answer owns, and what
//! its expiry owns is never judged (`failures`); what an act makes owed speaks of failed commands and of devices of the host
//! alone (`acting`); and what the flush tells a command, or whether it goes again, is by that attempt (`flushing`).
#![tactic(auto)]

mod acting;
mod begun;
mod failures;
mod flushing;

pub use acting::{the_clearing_at_the_beginning_is_taken, the_next_act_is_taken};
pub use begun::{nothing_else_is_under_way, recovery_begins_in_quiet};
pub use failures::{
    an_expired_attempt_is_not_judged, each_failed_attempt_is_the_last_of_its_command,
    each_failed_attempt_was_lost_or_answered, failed_commands_are_busy,
    the_todo_list_has_last_attempts,
};
pub use flushing::a_flushed_command_is_told_its_last_answer;
