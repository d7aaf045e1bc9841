//! The core of a host: it takes commands, hands them to a lower layer, and settles what comes back, one step at a time.
//!
//! Whatever steps are made, in whatever order and over whatever lower layer, the journal stays legal and the lower layer
//! stands where the journal leaves it. One that is honest, and tells the attempts that it holds, holds no earlier attempt of a
//! command that is sent.
//!
//! A step finds out by the running state whether it is enabled and what it is to do (`choosing`, `judging`, `expiring`); then it
//! takes all its room, and from there on it can't fail.
//!
//! Recovery has four steps: it begins (`beginning`), acts (`acting`), sends its commands again or reports them (`flushing`), and
//! ends. From its beginning to its end the core has a ladder, which says what is left to do and makes each act; what an act
//! tells is entered into the running state and the journal one by one (`telling`).
#![tactic(auto)]

mod aborting;
mod acting;
mod answering;
mod asking;
mod beginning;
mod choosing;
mod expiring;
mod flushing;
mod handing;
mod judging;
mod machine;
mod sending;
mod settling;
mod telling;
mod timing;

pub use machine::Core;
