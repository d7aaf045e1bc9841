//! That recovery's ladder stands where the journal does.
//!
//! `escalation` climbs over a list of failed commands that it keeps, and knows no journal. `trace_model` says by a journal
//! what is left to do and what the next act is, and knows no ladder. The laws here hold the two together: a ladder stands at
//! a journal (`IsLadderOf`) as recovery begins, after each act, and after whatever else may be told while recovery goes on.
#![tactic(auto)]

mod laws;

pub use laws::{
    a_flush_keeps_the_ladder, a_ladder_acts_by_the_rules, a_ladder_begins_with_recovery,
    a_ladder_does_the_next_act_of_its_journal, a_ladder_has_last_attempts,
    other_entries_keep_the_ladder, recovery_is_quiet, refused_commands_have_not_failed,
};
