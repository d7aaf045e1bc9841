//! The table of a host's commands: where each one stands, its retries, which of each lane comes next, and in which order
//! they were taken.
//!
//! It is tied to the journal by one relation, `CommandsAgree`. Each call says for which entry it keeps the relation; none looks at
//! all commands.
#![tactic(auto)]

mod commands;
mod lanes;
mod laws;
mod line;
mod making;
mod rows;
mod sets;
#[cfg(test)]
mod tests;

pub use commands::Commands;
pub use laws::{a_bounced_command_waits_again, other_entries_change_no_command};
pub use rows::{CommandRow, Taken};
