//! A simulated host adapter, whose calls fail where a plan says: a lower layer over simulated logical units.
//!
//! `DebugAdapter::new` makes one for a host's spec, and it has all the calls of a lower layer (`HostTemplate`). It is honest,
//! and tells the attempts that it holds. `specs/LowerRun.antt` says which journals are those of an adapter; its words for the
//! calls that were counted, the attempts that are held and the units are those of `adapter_tables`. `specs/Stands.antt` says
//! when an adapter with such tables stands where a journal leaves it, `specs/Laws.antt` what leaves it standing where it
//! stood. `laws` proves that what an adapter does next is determined.
#![tactic(auto)]

mod adapter;
mod laws;
mod lower_layer;
mod new_adapter;
#[cfg(test)]
mod test_calls;
#[cfg(test)]
mod test_host;
#[cfg(test)]
mod tests;

pub use adapter::DebugAdapter;
pub use laws::{
    a_probe_has_one_answer, standing_adapters_ran, the_next_answer_is_one,
    the_plan_says_who_is_busy,
};
