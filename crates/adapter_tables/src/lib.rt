//! The tables of a simulated host adapter, whose calls fail where a plan says: the attempts that it holds, the counts of its
//! calls, and its units.
//!
//! An adapter answers each attempt one tick after it was sent, in the order of due ticks and attempt numbers, and its unit
//! executes the command at that moment. A planned fault makes the adapter busy, moves or replaces an answer, or makes a
//! timeout, abort or reset come out otherwise. Each call here is a part of a callback of such an adapter.
//! Counts, units and planned faults are found by the address of their device, whose place a map tells (`CountTable`,
//! `UnitTable`, `PlanTable`).
//! `specs/Counted.antt`, `Held` and `Units` say what a journal tells of the calls that were counted, of the attempts that
//! are held, and of the units; `Ties` what the tables hold, and when they read what a journal says; `Answering` what
//! becomes of the faults, `Plans` how a plan is parted, `Addresses` and `TablesOf` what is looked up.
#![tactic(auto)]

mod addresses;
mod counts;
mod device_rows;
mod device_tables;
mod faults;
mod held;
mod held_table;
mod lun_numbers;
mod new_rows;
mod numbering;
mod planned;
mod probes;
mod resets;
#[cfg(test)]
mod tests;
mod units;

pub use counts::{CallCounts, CountRow};
pub use device_rows::UnitRow;
pub use device_tables::{CountTable, PlanTable, UnitTable};
pub use faults::{busy_answer, sent_attempt, timer_answer};
pub use held::Held;
pub use held_table::{first_due, hold, is_any_due, let_go, set_due};
pub use numbering::next_number;
pub use planned::fault_at;
pub use probes::{probe_unit, probes_are_served};
pub use resets::reset;
pub use units::answer_held;
