//! Callers of a host's table, over a small state that is a list of entries and the states of tags, and the tests of the
//! table with threads.
//!
//! Each caller makes one turn. That it may end its turn as it does is proved, from the clauses of the table's calls alone.
#![tactic(auto)]

mod callers;
mod changes;
mod desk;
mod places;
mod settling;
#[cfg(test)]
mod tests;
mod workers;

pub use callers::{answered, made_note, overdue, sent, sent_and_told};
pub use desk::{Desk, Note};
pub use places::{Places, closed_after_three, placed_note, two_turns};
pub use settling::{claimed_and_settled, freed, late_claim, owned, settled, settled_in_two_turns};
pub use workers::{claimed_all, filled, sent_all};
