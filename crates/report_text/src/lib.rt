//! The printed text of hosts: what happened to each, entry by entry, how each of its commands ended, and which steps of a
//! script were skipped.
//!
//! The text has, for each host in ascending numbers, the line `host H`, a line `TICK TEXT` for each entry of its journal,
//! and a result line for each of its commands in ascending ids. Then come a line `skipped LINE WHY` for each step line
//! that was skipped, in order, and the line `end`. TICK is the number of ticks before the entry; WHY is the name of the
//! cause in lower case. Numbers are decimal, hex digits are in lower case, and each line ends with a newline.
//!
//! The TEXT of an entry is its word and then its parts, with a space between. C is the id of a command, N the number of an
//! attempt, T a tag, DEV an address `CHANNEL:TARGET:LUN`. An ANSWER is `HH SS MOVED SUM SENSE`: host byte and status in
//! two hex digits each, the number of bytes that were moved, the sum of the bytes that came in, and the sense data in hex,
//! or `-` where there is none.
//!
//! | text | the entry says |
//! |---|---|
//! | `took C` | the command was taken into the host |
//! | `sent C N T`, `bounced C N host` or `device` | the attempt was sent; the lower layer was busy |
//! | `ready N ANSWER`, `late N` | the lower layer answered; an answer was ignored |
//! | `due N`, `longer N`, `timerdone N` | the deadline was reached, and the lower layer left it, reset the timer or said done |
//! | `owned N answer` or `expiry` | who settles the attempt |
//! | `judged C N success`, `retry`, `requeue` or `fail` | the verdict on the answer |
//! | `abortset C N`, `aborted C N ok` or `failed` | an abort was scheduled, and tried |
//! | `failed C N cancelled` or `answered` | the command is on the failed list |
//! | `cleared C LEVEL` | recovery is done with the command |
//! | `sensed C N HEX` | sense data was fetched |
//! | `again C counted` or `free` | the command waits to be sent again, as a retry or not |
//! | `told C ANSWER` | the command was reported |
//! | `ehbegin`, `ehend` | recovery began, and ended |
//! | `act LEVEL SCOPE ok` or `failed` | an act of recovery; SCOPE is `C`, `DEV`, `CHANNEL:TARGET`, `CHANNEL`, or `-` for the host |
//! | `probe DEV CODE ANSWER` or `silent` | a command of recovery, by its operation code in two hex digits |
//! | `offline DEV`, `state DEV NAME` | the state of a device was set, by recovery and from outside |
//! | `tick` | time went on by one |
//!
//! A result line is `result C ENDED ANSWER RETRIES`, or `result C open RETRIES` where the command wasn't reported. RETRIES
//! is how often it was sent again as a retry. Of a command that was reported more than once, the first report counts.
//! ENDED is `answered` where the reported answer was judged; `timeout` where it was made, since the last attempt was owned
//! by its expired timer; `noconnect` where it was made since the device wasn't online. It is told from the entry of the
//! command before the report: Judged; Aborted; Cleared, with the owner of the last attempt; any other or none.
#![tactic(auto)]

mod entries;
mod gather;
mod lines;
mod numbered;
mod pieces;
mod readings;
mod results;
mod words;
mod write;

pub use lines::WriteEnd;
pub use readings::a_line_has_one_reading;
pub use write::{write_host, write_skips};
