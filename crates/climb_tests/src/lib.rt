//! What a user of the climb of recovery may build on, got from the clauses of its calls alone, and climbs from end to end.
//!
//! `recovered` climbs until each command of a list is cleared, over any lower layer, and that this comes to its end is its
//! contract. The tests climb over a lower layer that says anything: with each of its resets failing in turn, comparing what
//! the acts told with entries that were worked out by hand; with every choice of callbacks that succeed; and with 1,024
//! commands on 256 units. Over the simulated adapter they climb for each row of a table, which has the script of a host, the
//! commands of it that failed, and the printed text of the climb.
#![tactic(auto)]

mod climbing;
#[cfg(test)]
mod commands;
#[cfg(test)]
mod large_tests;
#[cfg(test)]
mod reset_tests;
#[cfg(test)]
mod rogue;
#[cfg(test)]
mod rogue_tests;
#[cfg(test)]
mod simulated;
#[cfg(test)]
mod simulated_rows;
#[cfg(test)]
mod simulated_tests;

pub use climbing::recovered;
