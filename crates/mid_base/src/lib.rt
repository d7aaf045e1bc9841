//! The types that every layer of the SCSI mid level shares: names, commands and answers, the specification of a host,
//! the entries of its journal and the steps that make them.
//!
//! The definitions in `specs/` are the few words on these types that crates below the journal's rules need.
#![tactic(auto)]

mod answers;
mod bytes;
mod codes;
mod entries;
mod faults;
mod host_spec;
mod laws;
mod names;
mod rows;
mod states;
mod steps;

pub use answers::{Answer, BusyOf, By, Disp, NoMemory, ProbeSay, Scope, TagState};
pub use bytes::{CdbBytes, SenseBytes};
pub use codes::{
    ACA_ACTIVE, BUSY, CHECK_CONDITION, CONDITION_MET, DID_ABORT, DID_BAD_TARGET, DID_BUS_BUSY,
    DID_ERROR, DID_IMM_RETRY, DID_NO_CONNECT, DID_OK, DID_PARITY, DID_REQUEUE, DID_RESET,
    DID_SOFT_ERROR, DID_TIME_OUT, GOOD, RESERVATION_CONFLICT, TASK_ABORTED, TASK_SET_FULL,
};
pub use entries::Entry;
pub use faults::{Fault, PlanEntry};
pub use host_spec::{CmdSpec, Handlers, HostSpec, LunSpec};
pub use laws::{
    callbacks_have_their_bits, equal_cdb_lists_are_equal, equal_sense_lists_are_equal,
    host_bytes_have_their_numbers, levels_have_their_numbers, operation_codes_have_their_numbers,
    statuses_have_their_numbers,
};
pub use names::{
    Attempt, CmdId, DevAddr, HostByte, HostNo, LAST_NUMBER, LaneNo, Tag, Tick, same_dev,
};
pub use rows::Rows;
pub use states::{DeviceState, HostState};
pub use steps::{Did, Step, Why};
