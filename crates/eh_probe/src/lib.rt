//! The commands that recovery sends to a device: REQUEST SENSE, START STOP UNIT, and the test whether it is ready
//! (`scsi_eh.rst`, "Overview": "How SCSI EH works").
//!
//! Each call sends its probe over any lower layer, and says where the lower layer stands afterwards. No call takes memory.
#![tactic(auto)]

mod probes;
mod says;
#[cfg(test)]
mod tests;

pub use probes::{get_sense, ready, start_unit};
pub use says::{Probe, Tested};
