//! The table of a host's devices: their states and pauses, the tags that are out, and the depths.
//!
//! It is tied to the journal by one relation, `DevicesAgree`. Each call says for which entry it keeps the relation, or that its
//! answer is what a word of the journal's rules says.
#![tactic(auto)]

mod devices;
mod laws;
mod rows;
#[cfg(test)]
mod tests;

pub use devices::Devices;
pub use laws::{idle_commands_change_no_tag, other_entries_change_no_device};
pub use rows::DeviceRow;
