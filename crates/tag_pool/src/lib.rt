//! The tags of a host, by which its adapter knows the commands that are out, and the depth of each device: how many of
//! its commands may be out at once (the kernel's `scsi_mid_low_api.rst`, `can_queue` and `scsi_change_queue_depth`; SAM-5,
//! 5.3, TASK SET FULL).
//!
//! `TagPool` gives the least free tag, and lowers and raises depths after the answers of a device. All its room is taken
//! when it is made; no later call takes memory.
#![tactic(auto)]

mod depths;
mod pool;
mod tags;
#[cfg(test)]
mod tests;
mod words;

pub use depths::DeviceDepth;
pub use pool::{TagPool, Take};
