//! Plays a script: reads it, scans the targets of its hosts, each over a simulated adapter, makes its steps on them, and writes
//! their journals with the results.
#![tactic(auto)]

#[cfg(test)]
mod barred_rows;
#[cfg(test)]
mod drain_rows;
mod reading;
#[cfg(test)]
mod recovery_rows;
#[cfg(test)]
mod rows;
#[cfg(test)]
mod scan_rows;
mod status;
#[cfg(test)]
mod tests;
#[cfg(test)]
mod timeout_rows;
mod top;
mod writing;

pub use status::Status;
pub use top::play;
