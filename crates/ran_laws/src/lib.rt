//! What a script plays is determined: its hosts come to one journal each, and its step lines are skipped in one way.
//!
//! `play_sched` says how journals come about: by a step at a time, each made or skipped, then by phases that make what they name
//! until they name none, by rounds of such phases, and by at most so many rounds. None of that leaves a choice over the simulated
//! adapter, whose part of a journal is determined (`adds_laws`). The laws here say so from one step up to a whole script.
#![tactic(auto)]

mod laws;

pub use laws::{
    a_phase_comes_to_one_journal, a_playable_script_has_one_outcome, a_round_comes_to_one_journal,
    a_step_comes_to_one_journal, rounds_are_counted, rounds_come_to_one_journal,
};
