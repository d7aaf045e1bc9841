//! The journal of a host as the code keeps it: a list of entries that only grows, with room taken ahead, and beside each
//! entry the place of the next one of its command.
#![tactic(auto)]

mod book;
mod links;
mod maps;
#[cfg(test)]
mod tests;
mod trace;
mod whose;

pub use book::CoreBook;
pub use trace::Trace;
