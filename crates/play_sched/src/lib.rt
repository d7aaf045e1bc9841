//! Plays a script: scans the targets of its hosts, each over a simulated adapter, makes its steps on them, and runs the hosts on
//! in rounds until nothing is left to do.
//!
//! A round is a list of phases (`rounds`); each makes the steps that it names until it names none (`phases`), and then time
//! goes on. Hosts share nothing, so each is run on by itself.
#![tactic(auto)]

mod draining;
mod host;
mod phases;
mod playing;
mod rounds;

pub use host::Host;
pub use playing::{Played, play_script};
