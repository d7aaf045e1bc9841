//! The running state of a host's core, which says at each moment what its journal says, without looking back.
//!
//! It is made of the tables of attempts, commands, devices, deadlines, failures and verdicts, and the present tick. It is
//! tied to the journal by one relation, `HostAgrees`: the words of the journal's rules, looked back over, have the values that the
//! running state has. Each call here says that it keeps the relation for the entries that it is for, or that its answer is
//! what a word says.
#![tactic(auto)]

mod aborting;
mod asking;
mod handing;
mod picking;
mod recovering;
mod running;
mod sending;
mod settling;
#[cfg(test)]
mod tests;
mod times;

pub use aborting::ScheduledAbort;
pub use running::Running;
pub use sending::Sending;
pub use settling::Owned;
pub use verdict_table::FailedRow;
