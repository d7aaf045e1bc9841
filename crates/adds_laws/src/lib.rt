//! What a step adds to a journal over the simulated adapter is one list.
//!
//! The rules say which entries may stand, and leave open what a lower layer answers. The simulated adapter leaves nothing open:
//! its part of a journal is determined by what stands before (`LowerRun`). The laws here say that nothing is left then: two
//! lists that a step could add (`AddsTo`) after the same entries are the same.
#![tactic(auto)]

mod laws;

pub use laws::{it_is_determined_whether_an_answer_is_due, what_a_step_adds_is_one_list};
