//! The scan of a host: which of its devices are there, found by asking logical unit 0 of each of their targets (Linux's
//! `scsi_scan.c`, `scsi_report_lun_scan`).
//!
//! `scan_host` makes the simulated adapter of a host, scans each target that has a device which is found by scanning once, in
//! address order, and gives the adapter on, with the host's spec as it was found and the probes that were made. Contracts say
//! what is found by the planned faults alone (`specs/Found.antt`).
#![tactic(auto)]

mod finding;
mod host;
mod target;
#[cfg(test)]
mod tests;

pub use host::{ScannedHost, scan_host};
