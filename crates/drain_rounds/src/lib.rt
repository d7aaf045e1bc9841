//! The rounds in which a host is run on until nothing is left to do, and for how many of them.
#![tactic(auto)]

mod bound;

pub use bound::host_bound;
