//! What a legal journal promises whoever hands commands in: laws over the definitions of `trace_model` alone.
#![tactic(auto)]

mod laws;

pub use laws::{
    answers_in_time_win, drained_stays, good_answers_are_told, late_answers_alone_go,
    late_answers_change_nothing, legal_journals_keep_the_headline, reported_retries_stay,
    reports_are_verdicts,
};
