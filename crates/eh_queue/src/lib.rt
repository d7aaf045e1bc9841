//! The failed commands of a host, and how many of its commands are busy.
//!
//! A command is busy from its sending on until it is given back or goes again. One that can't be given back without
//! recovery is linked on the failed list, and stays busy. The recovery thread starts when all busy commands have failed
//! (the kernel's `scsi_eh.rst`, 1-4: where `host_busy` equals `host_failed`).
//!
//! `EhQueue` keeps the count and the list. All its room is taken when it is made; no later call takes memory.
#![tactic(auto)]

mod queue;
#[cfg(test)]
mod tests;

pub use queue::EhQueue;
