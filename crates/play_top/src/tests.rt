use crate::barred_rows::BARRED;
use crate::drain_rows::{DRAINED, SHORT};
use crate::recovery_rows::RECOVERIES;
use crate::rows::{ENDS, FIRST, PLAYED};
use crate::scan_rows::SCANNED;
use crate::timeout_rows::TIMEOUTS;
use crate::{Status, play};
use mid_io::{MemSink, MemSource};
use std::alloc::Global;
use std::test::Fail;

// Plays a script without words. Of its reads and its writes those with these numbers fail; 0 is none.
fn ends(
    alloc: Global,
    script: &str,
    failing_read: u64,
    failing_write: u64,
) -> Result<(Status, Vec<u8>), Fail> {
    let bytes = script.as_bytes().to_vec(alloc)?;
    let mut source = MemSource::new(bytes, 16, [failing_read].to_vec(alloc)?);
    let mut sink = MemSink::new(alloc, 4096, [failing_write].to_vec(alloc)?)?;
    let status = play(alloc, &[], &mut source, &mut sink);
    let text = sink.bytes().to_vec(alloc)?;
    Ok((status, text))
}

#[test]
fn scripts_are_played(rt: HostRuntime) -> Result<(), Fail> {
    for (script, text) in PLAYED {
        let (status, written) = ends(rt.alloc(), script, 0, 0)?;
        assert_eq!(rt; status, Status(0), "the status of {script}");
        assert_eq!(rt; written.as_slice(), text.as_bytes(), "the text of {script}");
    }
    Ok(())
}

#[test]
fn scripts_with_timeouts_are_played(rt: HostRuntime) -> Result<(), Fail> {
    for (script, text) in TIMEOUTS {
        let (_, written) = ends(rt.alloc(), script, 0, 0)?;
        assert_eq!(rt; written.as_slice(), text.as_bytes(), "the text of {script}");
    }
    Ok(())
}

#[test]
fn scripts_with_barred_steps_are_played(rt: HostRuntime) -> Result<(), Fail> {
    for (script, text) in BARRED {
        let (_, written) = ends(rt.alloc(), script, 0, 0)?;
        assert_eq!(rt; written.as_slice(), text.as_bytes(), "the text of {script}");
    }
    Ok(())
}

#[test]
fn scripts_with_recovery_are_played(rt: HostRuntime) -> Result<(), Fail> {
    for (script, text) in RECOVERIES {
        let (_, written) = ends(rt.alloc(), script, 0, 0)?;
        assert_eq!(rt; written.as_slice(), text.as_bytes(), "the text of {script}");
    }
    Ok(())
}

#[test]
fn scripts_are_drained(rt: HostRuntime) -> Result<(), Fail> {
    for (script, text) in DRAINED {
        let (status, written) = ends(rt.alloc(), script, 0, 0)?;
        assert_eq!(rt; status, Status(0), "the status of {script}");
        assert_eq!(rt; written.as_slice(), text.as_bytes(), "the text of {script}");
    }
    Ok(())
}

#[test]
fn scripts_with_scanned_devices_are_played(rt: HostRuntime) -> Result<(), Fail> {
    for (script, text) in SCANNED {
        let (_, written) = ends(rt.alloc(), script, 0, 0)?;
        assert_eq!(rt; written.as_slice(), text.as_bytes(), "the text of {script}");
    }
    Ok(())
}

#[test]
fn rounds_are_used_up(rt: HostRuntime) -> Result<(), Fail> {
    for (script, text) in SHORT {
        let (status, written) = ends(rt.alloc(), script, 0, 0)?;
        assert_eq!(rt; status, Status(6), "the status of {script}");
        assert_eq!(rt; written.as_slice(), text.as_bytes(), "the text of {script}");
    }
    Ok(())
}

#[test]
fn runs_end_with_their_status(rt: HostRuntime) -> Result<(), Fail> {
    for (script, failing_read, failing_write, wanted, text) in ENDS {
        let (status, written) = ends(rt.alloc(), script, failing_read, failing_write)?;
        assert_eq!(rt; status, Status(wanted), "the status of {script}");
        assert_eq!(rt; written.as_slice(), text.as_bytes(), "the text of {script}");
    }
    Ok(())
}

// What comes of words, where a script could be read.
fn asked(alloc: Global, words: &[&str]) -> Result<(Status, Vec<u8>), Fail> {
    let mut list = Vec::new(alloc);
    for word in words {
        list.push(word.to_string(alloc)?)?;
    }
    let bytes = FIRST.as_bytes().to_vec(alloc)?;
    let mut source = MemSource::new(bytes, 16, Vec::new(alloc));
    let mut sink = MemSink::new(alloc, 4096, Vec::new(alloc))?;
    let status = play(alloc, &list, &mut source, &mut sink);
    let text = sink.bytes().to_vec(alloc)?;
    Ok((status, text))
}

// Lists of words, and what is written for each.
const ASKED: [(&[&str], u8, &str); 4] = [
    (&["--verbose"], 2, "usage\n"),
    (&["--make", "0"], 2, "usage\n"),
    (
        &["--make", "4"],
        0,
        "commands 4 good 4 retries 0 ticks 1\nend\n",
    ),
    (
        &["--make=20", "--"],
        0,
        "commands 20 good 20 retries 4 ticks 3\nend\n",
    ),
];

#[test]
fn words_say_what_is_played(rt: HostRuntime) -> Result<(), Fail> {
    for (words, wanted, text) in ASKED {
        let (status, written) = asked(rt.alloc(), words)?;
        assert_eq!(rt; status, Status(wanted), "the status of {text}");
        assert_eq!(rt;
            written.as_slice(),
            text.as_bytes(),
            "the text that is written"
        );
    }
    Ok(())
}
