//! The states of devices and hosts: which may follow which, and what a device in a state takes.
//!
//! The states have the kernel's names; the tables are this project's own, in outline after Linux. A device in CANCEL
//! isn't online here, while Linux counts it as online. `specs/States.antt` has the tables, a line for each legal pair.
#![tactic(auto)]

mod tables;
#[cfg(test)]
mod tests;

pub use tables::{Illegal, can_send, online, set_device, set_host};
