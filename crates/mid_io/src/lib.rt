//! Where bytes come from and where they go: a source that is read, a sink that is written to, both in memory and over
//! the standard streams, and the loops that read all and write all.
//!
//! Reads and writes may be short, as in POSIX `read(2)` and `write(2)`, and may fail. Each end counts its faults, so that
//! who meets a failure further up can tell where it came from.
#![tactic(auto)]

mod ends;
mod gathering;
mod memory;
mod reading;
mod standard;
mod writing;

pub use ends::{Failed, NoMemory, Sink, Source};
pub use memory::{MemSink, MemSource};
pub use reading::{ReadFault, read_all};
pub use standard::{StdSink, StdSource};
pub use writing::write_all;
