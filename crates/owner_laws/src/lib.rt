//! Who owns an attempt, and under which tag: what each legal journal says of it, in the words of a host's table.
//!
//! A host's table speaks of a journal by the entries that stand in it, the oldest first. The rules look back over it, the
//! newest entry first. The laws here say that both speak of the same.
#![tactic(auto)]

mod laws;

/// The laws at a small journal.
pub mod small;

pub use laws::{
    attempts_are_numbered_in_turn, looking_back_turns_a_journal_round,
    no_two_tags_show_one_attempt, owned_attempts_were_sent, sent_tags_are_the_hosts,
    waiting_claims_have_causes, words_of_attempts_are_entries,
};
