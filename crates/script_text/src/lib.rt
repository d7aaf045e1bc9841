//! Reads the script of a run: a text that says hosts, their units, commands and planned faults, and the steps that are
//! played on them.
//!
//! A line ends with a newline; the last one may lack it. Spaces, tabs and carriage returns part its words. A line without
//! words says nothing, nor does a remark, whose first word begins with `#`. The others stand in any order, but a line names
//! hosts, units and lanes of earlier lines alone, and the `end` line is the last.
//!
//! | line | what it says |
//! |---|---|
//! | `host H CANQ HANDLERS [noasync]` | Host H, 0 to 63, takes CANQ commands at once, 1 to 1,024. HANDLERS names the callbacks of recovery that it has (`scsi_eh.rst`, "How SCSI EH works"): letters of `adtbh`, for abort and for device, target, bus and host reset, each at most once and in this order, or `-` for none. With `noasync` it makes no asynchronous aborts. |
//! | `lun H ADDR BLOCKS DEPTH [FLAGS]` | That host has a logical unit of BLOCKS blocks, 1 to 4,294,967,295, which takes DEPTH commands at once, 1 to 1,024. ADDR is `C:T:L`: channel 0 to 15, target 0 to 255, logical unit number 0 to 16,383. FLAGS, each at most once: `ro`, it is write protected; `stopped`, it isn't started; `scan`, its device is found by scanning. |
//! | `plan H ADDR KIND FIRST EVERY USES [VALUES]` | A fault of that unit hits the calls number FIRST, FIRST + EVERY and so on, USES of them; these three are 1 to 65,535. KIND with its VALUES is one of `Fault`: `hostbusy`, `busy`, `latency N` (1 to 10,000 ticks), `never`, `check KEY ASC ASCQ`, `nosense KEY ASC ASCQ`, `raw HEX` (1 to 252 bytes), `status HOST STATUS`, `longer`, `timerdone`, `abortfail`, `rdev`, `rtgt`, `rbus`, `rhost`, `silent`. KEY is one hexadecimal digit; ASC, ASCQ, HOST and STATUS are two. |
//! | `cmd ID H LANE ADDR TIMEOUT ALLOWED FLAG CDB [FILL]` | Command ID, 1 to 4,294,967,295, in a lane, 0 to 63, of that host, for that unit, with a timeout of TIMEOUT ticks, 1 to 10,000, and ALLOWED retries, 0 to 20. FLAG is `failfast` where it is to fail at the first error, else `-`. CDB is 1 to 16 bytes in hexadecimal digits; FILL is the byte that a write sends throughout, in two. |
//! | `step H WORDS` | A step of that host. WORDS is `submit LANE`, of a lane that has commands, `send`, `work`, `due`, `own N answer`, `own N expiry`, `settle N`, `drop N`, `abort`, `eh begin`, `eh act`, `eh flush`, `eh end`, `tick` or `state ADDR NAME`; N, below 2^60, is an attempt, and NAME is `running`, `quiesce`, `block`, `offline`, `cancel` or `del`. |
//! | `budget N` | At most N rounds are run, 1 to 10^18. |
//! | `end stop`, `end drain` | The last line. `drain` says that the hosts are run on behind the last step, until nothing is left to do. |
//!
//! A number is one to twenty decimal digits; leading zeros may stand, and it is compared by its value. There are at most 64
//! hosts, 256 units of each, 65,536 commands and 65,536 planned faults.
//!
//! A script is bad where some line is, and the first bad line counts, with its kind (`script_words::Kind`). The words of a
//! line are judged from left to right; of a word first its form, then its range, then what earlier lines say. Where the line
//! comes behind the `end` line, says a second budget, or is one too many of its kind, its first word is the wrong one; a unit
//! too many is told by the number of its host. Where a line may end, a flag that it has already is `Twice`, and another word
//! `Word` or, where none may stand, `Extra`. A script has 16,777,216 bytes at most: the line that has the byte after these is
//! bad whatever its words are. Without an `end` line the line behind the last one is bad.
#![tactic(auto)]

#[cfg(test)]
mod bad_rows;
mod command_line;
mod commands;
#[cfg(test)]
mod count_tests;
mod draft;
mod ends;
#[cfg(test)]
mod good_tests;
mod host_draft;
mod hosts;
mod laws;
mod line;
mod names;
mod plan;
mod present;
mod read;
mod reader;
mod script;
mod steps;
#[cfg(test)]
mod tests;

pub use laws::{counted_bytes_say_all, good_scripts_are_playable};
pub use reader::Reader;
pub use script::{Bad, ReadEnd, Script};
