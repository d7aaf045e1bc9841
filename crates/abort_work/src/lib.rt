//! The aborts that are scheduled: what runs later to abort commands whose timer has expired (the kernel's `scsi_eh.rst`,
//! 1-3, "Asynchronous command aborts"). They are served in the order in which they were scheduled.
//!
//! `AbortWork` is that queue. All its room is taken when it is made; no later call takes memory.
#![tactic(auto)]

#[cfg(test)]
mod tests;
mod work;

pub use work::AbortWork;
