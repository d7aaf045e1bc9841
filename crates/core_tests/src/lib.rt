//! What a caller of the core may build on, got from the clauses of its steps alone, and the core run from end to end.
//!
//! Each caller here makes one step and says what it did to the tags and the journal, over any lower layer, or what the
//! simulated adapter holds then. The hosts are made in code, within the limits of a spec. The tests run scripts over the simulated adapter and over a lower layer that
//! lies, and compare the printed text of what came of them.
#![tactic(auto)]

mod callers;
#[cfg(test)]
mod driving;
mod hosts;
#[cfg(test)]
mod lie_rows;
mod limits;
#[cfg(test)]
mod lying_tests;
#[cfg(test)]
mod round_rows;
#[cfg(test)]
mod round_tests;
#[cfg(test)]
mod view_tests;

pub use callers::{gave, made_no_tag_step, made_simulated_step, sent, settled};
pub use hosts::{
    command, one_command_host, read_first_block, simulated_core, test_unit_ready, unit,
};
pub use limits::keeps_limits;
