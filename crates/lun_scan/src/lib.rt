//! The scan of a target: which logical units it has, found by asking its logical unit 0 (Linux's `scsi_scan.c`,
//! `scsi_probe_lun` and `scsi_report_lun_scan`).
//!
//! `scan` sends INQUIRY and REPORT LUNS over any lower layer, and says what these gave and where the lower layer stands
//! afterwards. No other unit is probed. `specs/Scans.antt` says what a scan comes to by what its two probes said and brought.
#![tactic(auto)]

mod fault;
mod listing;
mod probes;
mod scanning;
#[cfg(test)]
mod tests;

pub use fault::ScanFault;
pub use scanning::scan;
