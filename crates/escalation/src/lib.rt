//! The climb of recovery over a list of failed commands (`scsi_eh.rst`, "How SCSI EH works"): level by level, what is tried,
//! which devices are tested, and which commands are cleared by it.
//!
//! A `Ladder` is begun with a list of failed commands. Each call of `next` performs one act over any lower layer and gives
//! the entries that tell it, until every command is cleared. `specs/Climbing.antt` has its contract.
//!
//! # A climb
//!
//! Commands 1 and 2 of the unit `0:0:0` were cancelled, and command 3 of `1:0:0` was answered CHECK CONDITION without sense
//! data. They failed in this order, so this is the order of the list. The host has one callback, the reset of a device, and
//! makes no aborts within recovery:
//!
//! ```text
//! let mut ladder = Ladder::begin(todo, Handlers::DEVICE, false)?;
//! let mut into = [0u8; 2056];
//! loop {
//!     match ladder.next(&mut lower, &mut into)? {
//!         Acted::Act { entries, .. } => tell(&entries),
//!         Acted::Finished => break,
//!     }
//! }
//! ```
//!
//! The first call fetches the sense data that command 3 lacks. They are those of a reset, so the command is judged as one to
//! be retried, and is cleared. The second call resets the device of the other two, for which no sense is fetched since they
//! were cancelled. The device isn't ready at its first test, since a reset leaves a unit attention, and is ready at the
//! second, so both are cleared. The third call finds nothing left. What they tell, as it is printed:
//!
//! ```text
//! act 1 3 ok
//! probe 1:0:0 03 00 00 18 169 -
//! sensed 3 1 700006000000000a00000000290000000000
//! judged 3 1 retry
//! cleared 3 1
//!
//! act 4 0:0:0 ok
//! probe 0:0:0 00 00 02 0 0 700006000000000a00000000290000000000
//! probe 0:0:0 00 00 00 0 0 -
//! cleared 1 4
//! cleared 2 4
//! ```
//!
//! Had the reset failed, levels 5 to 7 would have failed too, since the host has no callbacks for them, and level 8 would have
//! put the device offline with both commands cleared.
#![tactic(auto)]

mod acted;
mod acts;
mod choosing;
mod devices;
mod ladder;
mod laws;
mod leaving;
mod rungs;
mod testing;
mod wanting;

pub use acted::Acted;
pub use disposition::{Cx, Todo};
pub use ladder::Ladder;
pub use laws::a_ladder_does_the_next_act_of_its_list;
