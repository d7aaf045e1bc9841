//! What a journal says and which journals are legal: the rules of the mid level as definitions that look back over a list
//! of entries, and the laws that they give.
//!
//! The definitions know no waiting lists, tag pools, deadline lists or state words, which the code has. A list that is
//! looked back over has its newest entry first; a journal has its oldest entry first.
#![tactic(auto)]

mod booked;
mod laws;
mod rules;
mod standing;

pub use booked::Booked;
pub use laws::{
    acts_are_quiet, beginnings_are_legal, each_attempt_has_one_owner, each_command_is_told_once,
    groups_are_places, nothing_follows_a_report, owed_entries_are_permitted, places_are_groups,
};
pub use rules::{
    acts_succeed_by_their_callbacks, an_answer_that_lost_is_late, no_command_is_aborted_twice,
    no_state_is_set_in_recovery, nothing_is_sent_in_recovery,
    recovery_begins_with_what_is_not_online, requeues_are_free_and_flushes_count,
    silent_devices_are_not_ready, time_waits_for_answers,
};
pub use standing::Standing;
