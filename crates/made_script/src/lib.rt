//! A script of any length that nobody wrote: `made` builds the one that a number of commands asks for, and `write_summary`
//! writes what came of it in one line.
//!
//! The script has a host of 64 tags with all callbacks and four units, 0:0:0, 0:0:1, 0:1:0 and 0:1:1, of 65,536 blocks, each of
//! which takes sixteen commands at once. Of the sendings to a unit each fifth is answered ABORTED COMMAND and each seventh isn't
//! answered, a thousand times each. Command i reads eight blocks from block 8 * i modulo 65,536 on, by lane and unit in turn, with
//! a timeout of 30 ticks and five retries. The host is drained.
#![tactic(auto)]

mod laws;
mod making;
mod summary;
#[cfg(test)]
mod tests;

pub use laws::made_scripts_are_playable;
pub use making::made;
pub use summary::{Sums, sums_of, write_summary};
