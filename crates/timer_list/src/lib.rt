//! The timers of a host: until when each attempt that was sent may be answered (the kernel's `scsi_eh.rst`, 1-2-2,
//! "Completing a scmd w/ timeout").
//!
//! `TimerList` keeps a deadline for each attempt, in ticks, and says which attempt is due first. All its room is taken
//! when it is made; no later call takes memory.
#![tactic(auto)]

mod rows;
#[cfg(test)]
mod tests;
mod timers;

pub use timers::TimerList;
