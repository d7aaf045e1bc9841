//! Logical unit numbers of SCSI: the list of them that a device gives (SPC-4, REPORT LUNS parameter data), and the eight
//! bytes of each (SAM-5, addressing methods).
//!
//! `LunList::read` refuses what isn't a whole list, `LunList::iter` gives its entries, and `number` the number in an
//! entry; `write` makes such a list. A list and its entries are parts of the caller's own bytes: nothing is copied, and no
//! call takes memory. The definitions in `specs/Grammar.antt` say of a plain list of bytes whether it is a list of logical
//! units and which numbers it has.
#![tactic(auto)]

mod entry;
mod faults;
mod laws;
mod list;
#[cfg(test)]
mod tests;
mod writing;

pub use entry::number;
pub use faults::{Form, ListFault};
pub use laws::{entries_stand_in_the_reply, written_lists_read_back};
pub use list::{LunIter, LunList};
pub use writing::write;
