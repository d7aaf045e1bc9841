//! What the words of a command line ask for: to play a script, or to make and play so many commands.
//!
//! `listed` gives it, and None for each list of words that isn't known. `specs/Words.antt` says of each list which it is.
#![tactic(auto)]

mod mode;
#[cfg(test)]
mod tests;
mod words;

pub use mode::Mode;
pub use words::listed;
