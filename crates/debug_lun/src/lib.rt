//! A simulated logical unit: a disk of 512-byte blocks that serves thirteen commands of SPC-4 and SBC-3.
//!
//! `DebugLun::exec` makes the answer and the data of a command descriptor block, and changes the unit. `reset`, `start` and
//! `pend` are what happens to a unit from outside. `specs/Units.antt` says what a unit is, `specs/Serving.antt` what
//! refuses a command, in which order, and what it does and gives otherwise.
#![tactic(auto)]

mod commands;
mod effects;
mod laws;
mod lun;
mod pages;
mod refusals;
mod replies;
mod sense_code;
mod serving;
mod states;
#[cfg(test)]
mod tests;

pub use commands::data_needed;
pub use laws::{
    answers_tell_their_data, commands_look_at_what_they_need, spelled_commands_are_read,
};
pub use lun::DebugLun;
pub use sense_code::Sense;
