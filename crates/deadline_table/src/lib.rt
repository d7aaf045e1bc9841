//! The deadlines of a host's attempts: which attempts still wait for theirs, and which one's time is up first (the kernel's
//! `scsi_eh.rst`, 1-2-2, "Completing a scmd w/ timeout").
//!
//! The table is tied to the host's journal by one relation, `DeadlinesAgree`: it has the timers of those attempts that are
//! open and whose expired timer hasn't been answered for yet, each with the deadline of the journal's rules. Each call says
//! for which entry it keeps the relation. All room is taken when the table is made; no later call takes memory.
#![tactic(auto)]

mod deadlines;
mod laws;
#[cfg(test)]
mod tests;

pub use deadlines::Deadlines;
pub use laws::{
    a_new_attempt_has_no_deadline, other_entries_change_no_deadline,
    time_goes_on_where_no_attempt_is_expired,
};
