//! Plays each host of a script over lower layers that lie, and writes what comes of each as `scsi_play` does: its journal, the
//! results, the step lines that were skipped, and `end`.
//!
//! The words are FIRST and COUNT: liars of so many numbers from FIRST on are played. Each says other things, in each call: that
//! it or a device is busy, answers of attempts that were never sent, are over or were answered before, sense data that is cut,
//! and bytes that no probe asked for. The exit status is 0, or 2 for other words, 3 for a bad script, 4 where reading failed, 5
//! where writing failed, 7 where memory ran out.
#![tactic(auto)]

mod dice;
mod lies;
mod playing;

use crate::playing::{Unplayed, write_lied};
use mid_io::{ReadFault, StdSink, StdSource, read_all};
use std::process::ExitCode;
use std::{env, io};

// The longest script that is read.
const MOST_BYTES: usize = 1_048_576;

fn main(rt: HostRuntime) -> ExitCode {
    ExitCode::from(run(&rt))
}

fn run(rt: &HostRuntime) -> u8 {
    let Some((first, count)) = words(rt) else {
        return 2;
    };
    let Ok(mut sink) = StdSink::gathering(rt.alloc(), io::writer(rt)) else {
        return 7;
    };
    let script = match read_all(rt.alloc(), &mut StdSource::new(rt.reader()), MOST_BYTES) {
        Ok(script) => script,
        Err(ReadFault::Failed) => return 4,
        Err(ReadFault::NoMemory) => return 7,
    };
    for number in 0..count {
        match write_lied(rt.alloc(), &script, first.wrapping_add(number), &mut sink) {
            Ok(()) => {}
            Err(Unplayed::BadScript) => return 3,
            Err(Unplayed::Unwritten) => return 5,
            Err(Unplayed::NoMemory) => return 7,
        }
    }
    if sink.end().is_ok() { 0 } else { 5 }
}

// FIRST and COUNT, where there are these two words.
fn words(rt: &HostRuntime) -> Option<(u64, u64)> {
    let words = env::args(rt)
        .ok()?
        .skip(1)
        .collect::<Vec<String>>(rt.alloc())
        .ok()?;
    match words.as_slice() {
        [first, count] => Some((first.parse().ok()?, count.parse().ok()?)),
        _ => None,
    }
}
