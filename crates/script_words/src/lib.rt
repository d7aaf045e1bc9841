//! The words of a script: how a text falls into lines and a line into words, what single words say (numbers, addresses,
//! letters of callbacks, bytes in hexadecimal digits, names), and what is wrong with a word that may not stand at its place.
//!
//! A line ends with a newline; the last one may lack it. Spaces, tabs and carriage returns part the words of a line, as many
//! of them as there are; each other byte is part of a word. A number is one to twenty decimal digits, with leading zeros or
//! without.
//!
//! The form of a word is judged before the range of what it says.
#![tactic(auto)]

mod address;
mod blocks;
mod handlers;
mod hex;
mod keywords;
mod kind;
mod number;
mod pieces;
mod places;
mod plan_kinds;

pub use blocks::bytes_in;
pub use hex::{cdb_of, sense_of};
pub use keywords::{EhName, EndName, Keyword, StepName, keyword_of};
pub use kind::{Kind, LineFault};
pub use pieces::Words;
pub use places::{
    address_in, byte_in, eh_name_in, end_name_in, failfast_in, half_in, handlers_in, number_in,
    owner_in, plan_kind_in, state_in, step_name_in,
};
pub use plan_kinds::PlanKind;
