//! A lower layer that lies: `RogueLower` says what it was told to say, from five lists, whatever it is asked. So it answers
//! an attempt twice, or late, or one that nobody sent, and brings sense data that is cut.
//!
//! Real drivers do so at times. What a core or a probe promises over every lower layer holds over this one; it isn't honest,
//! tells no attempts, and stands wherever a journal leaves it.
#![tactic(auto)]

mod filling;
mod laws;
mod lower_layer;
#[cfg(test)]
mod probe_tests;
mod rogue;
mod taking;
#[cfg(test)]
mod tests;

pub use laws::{rogues_are_not_honest, rogues_stand_everywhere};
pub use rogue::RogueLower;
