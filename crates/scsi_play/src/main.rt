//! Plays a SCSI mid level script from standard input, and writes the journal to standard output. The exit status is that of
//! `play_top::play`, where all that was written went out. What went wrong is told in words on standard error.
#![tactic(auto)]

mod ending;
mod telling;

use crate::ending::ended;
use crate::telling::{bad_line, failure};
use mid_io::{NoMemory, StdSink, StdSource};
use play_top::{Status, play};
use std::alloc::AllocError;
use std::io::ErrorKind;
use std::process::ExitCode;
use std::{env, io};

fn main(rt: HostRuntime) -> ExitCode {
    let status = run(&rt);
    if let Some(words) = failure(status) {
        let _ = eprintln!(rt; "scsi_play: {words}");
    }
    ExitCode::from(status.0)
}

// Plays over the standard streams. A bad line is told.
fn run(rt: &HostRuntime) -> Status {
    let Ok(mut sink) = StdSink::gathering(rt.alloc(), io::writer(rt)) else {
        return Status(7);
    };
    let Ok(words) = words(rt) else {
        return Status(7);
    };
    let mut source = StdSource::new(rt.reader());
    let status = play(rt.alloc(), &words, &mut source, &mut sink);
    if status == Status(3) {
        if let Some((line, words)) = bad_line(sink.gathered()) {
            let _ = eprintln!(rt; "scsi_play: line {line}: {words}");
        }
    }
    ended(status, sink.end().is_ok())
}

// The words of the command line without the program's name. Where one isn't UTF-8 there is one in the place of all, which is
// as unknown as it.
fn words(rt: &HostRuntime) -> Result<Vec<String>, NoMemory> {
    match env::args(rt) {
        Ok(words) => words.skip(1).collect(rt.alloc()).map_err(|_| NoMemory),
        Err(error) if error.kind() == ErrorKind::OutOfMemory => Err(NoMemory),
        Err(_) => unknown(rt).map_err(|_| NoMemory),
    }
}

fn unknown(rt: &HostRuntime) -> Result<Vec<String>, AllocError> {
    let mut words = Vec::new(rt.alloc());
    words.push("\u{fffd}".to_string(rt.alloc())?)?;
    Ok(words)
}
