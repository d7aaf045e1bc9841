//! The faults that are planned for a simulated lower layer: which of them a call meets.
//!
//! `take` gives the fault of the first entry of a plan that hits the call with a given number. `Lines` is a plan for many
//! look-ups, with the same answers. No look-up takes memory.
//! `specs/Plan.antt` says of which class each fault is, which numbers an entry hits, and which fault of a plan is taken.
#![tactic(auto)]

mod blocks;
mod class;
mod laws;
mod lines;
mod plan;
#[cfg(test)]
mod tests;

pub use class::{Class, class_of, same_class};
pub use laws::hits_are_the_numbers_of_the_entry;
pub use lines::Lines;
pub use plan::take;
