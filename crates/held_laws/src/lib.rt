//! That an honest lower layer holds no earlier attempt of a command that is sent.
//!
//! `host_template` says what each call of an honest lower layer does with the attempts that it holds. The laws here say that
//! these are then such as the journal has it (`HoldsRight`): no answered attempt is held, and none of a command that waits.
#![tactic(auto)]

mod laws;

pub use laws::{
    a_lower_layer_begins_right, a_waiting_command_has_no_held_attempt, each_group_keeps_it_right,
    no_earlier_attempt_is_held, the_same_attempts_are_right,
};
