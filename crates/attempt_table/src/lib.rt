//! The attempts of a host: how far each has come, which tag is whose, who waits for its owner, and which answers are to be
//! ignored (the kernel's `scsi_eh.rst`, 1-2, "How do scmd's get completed?"). It knows timeouts, aborts and recovery.
//!
//! The table is tied to the host's journal by one relation, `AttemptsAgree`: what the entries say of attempts, looked back over,
//! has the values that the table has. Each call says for which entries it keeps the relation. Only `reserve` takes memory. A
//! row says nothing of an answer: the answers of attempts under way stand at their tags, and others aren't kept.
#![tactic(auto)]

mod attempts;
mod claims;
mod entries;
mod laws;
mod rows;
#[cfg(test)]
mod test_calls;
#[cfg(test)]
mod tests;

pub use attempts::Attempts;
pub use laws::{
    a_held_tag_has_its_attempt, a_settled_attempt_may_be_settled_again,
    an_attempt_under_way_holds_its_tag, other_entries_change_no_attempt,
    sense_is_fetched_behind_an_attempt,
};
pub use rows::Row;
