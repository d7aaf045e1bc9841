ghost use Rattle.std.specs.Prelude.{◌<◌};

use crate::bad_rows::{
    COMMAND_LINES, HOST_LINES, PLAN_LINES, STEP_LINES, TWO_HOST_LINES, UNIT_LINES, VALUE_LINES,
    WHOLE,
};
use crate::{Bad, ReadEnd, Reader, Script};
use std::alloc::Global;
use std::test::Fail;

pub const HOST: &str = "host 0 4 adtbh\n";

pub const UNIT: &str = "host 0 4 adtbh\nlun 0 0:0:0 2048 8\n";

pub const COMMAND: &str =
    "host 0 4 adtbh\nlun 0 0:0:0 2048 8\ncmd 1 0 0 0:0:0 30 5 - 000000000000\n";

pub const TWO_HOSTS: &str =
    "host 0 4 adtbh\nlun 0 0:0:0 2048 8\ncmd 1 0 0 0:0:0 30 5 - 000000000000\nhost 1 1 -\nlun 1 0:0:1 8 8\n";

/// Reads texts one after the other, in pieces of `size` bytes.
pub fn read(alloc: Global, texts: &[&str], size: usize) -> Result<Script, ReadEnd>
    requires { 0 < size }
{
    let mut reader = Reader::new(alloc);
    for text in texts {
        for piece in text.as_bytes().chunks(size) {
            if reader.feed(piece).is_err() {
                return Err(ReadEnd::NoMemory);
            }
        }
    }
    reader.finish()
}

pub fn bad(line: u64, kind: u8) -> Option<ReadEnd> {
    Some(ReadEnd::Bad(Bad { line, kind }))
}

#[test]
fn whole_scripts_are_bad_at_their_first_bad_line(rt: HostRuntime) {
    for (text, line, kind) in WHOLE {
        for size in [1, 7, 16] {
            let end = read(rt.alloc(), &[text], size).err();
            assert_eq!(rt; end, bad(line, kind), "in {text}");
        }
    }
}

#[test]
fn bad_lines_of_hosts_units_and_plans_have_their_kinds(rt: HostRuntime) {
    for (text, kind) in HOST_LINES {
        assert_eq!(rt;
            read(rt.alloc(), &[text], 7).err(),
            bad(1, kind),
            "in {text}"
        );
    }
    for (text, kind) in UNIT_LINES {
        assert_eq!(rt;
            read(rt.alloc(), &[HOST, text], 7).err(),
            bad(2, kind),
            "in {text}"
        );
    }
    for (text, kind) in PLAN_LINES {
        assert_eq!(rt;
            read(rt.alloc(), &[UNIT, text], 7).err(),
            bad(3, kind),
            "in {text}"
        );
    }
    for (text, kind) in VALUE_LINES {
        assert_eq!(rt;
            read(rt.alloc(), &[UNIT, text], 7).err(),
            bad(3, kind),
            "in {text}"
        );
    }
}

#[test]
fn bad_lines_of_commands_and_steps_have_their_kinds(rt: HostRuntime) {
    for (text, kind) in COMMAND_LINES {
        assert_eq!(rt;
            read(rt.alloc(), &[UNIT, text], 7).err(),
            bad(3, kind),
            "in {text}"
        );
    }
    for (text, kind) in STEP_LINES {
        assert_eq!(rt;
            read(rt.alloc(), &[COMMAND, text], 7).err(),
            bad(4, kind),
            "in {text}"
        );
    }
    for (text, kind) in TWO_HOST_LINES {
        assert_eq!(rt;
            read(rt.alloc(), &[TWO_HOSTS, text], 7).err(),
            bad(6, kind),
            "in {text}"
        );
    }
}

/// Why a text is bad that has `line` so many times between its first and its last part.
fn read_many(alloc: Global, first: &str, line: &[u8], count: usize, last: &str) -> Option<ReadEnd> {
    let mut reader = Reader::new(alloc);
    let mut answers = reader.feed(first.as_bytes()).is_ok();
    for _ in 0..count {
        answers = reader.feed(line).is_ok() && answers;
    }
    answers = reader.feed(last.as_bytes()).is_ok() && answers;
    if answers {
        reader.finish().err()
    } else {
        Some(ReadEnd::NoMemory)
    }
}

// 4,096 blocks of 4,096 bytes are 16,777,216, which is the most.

#[test]
fn a_script_of_the_most_bytes_is_read(rt: HostRuntime) {
    let remarks = [b'#'; 4096];
    let end = read_many(rt.alloc(), "", &remarks, 4096, "");
    assert_eq!(rt; end, bad(2, 9));
}

#[test]
fn the_line_behind_the_limit_is_too_long(rt: HostRuntime) {
    let remarks = [b'#'; 4096];
    let end = read_many(rt.alloc(), "", &remarks, 4096, "\n");
    assert_eq!(rt; end, bad(1, 8));
}

#[test]
fn a_bad_line_before_the_limit_wins(rt: HostRuntime) {
    let block = [b'x'; 4096];
    let end = read_many(rt.alloc(), "hello\n", &block, 4096, "");
    assert_eq!(rt; end, bad(1, 1));
    let end = read_many(rt.alloc(), "end stop\n", &block, 4096, "");
    assert_eq!(rt; end, bad(2, 8));
}

#[test]
fn a_line_above_its_count_is_too_many(rt: HostRuntime) {
    let plan = b"plan 0 0:0:0 busy 1 1 1\n";
    let table = [
        (65_536, "end stop\n", None),
        (65_536, "plan\nend stop\n", bad(65_539, 8)),
        (65_536, "end stop\nplan\n", bad(65_540, 10)),
    ];
    for (count, last, wanted) in table {
        let end = read_many(rt.alloc(), UNIT, plan, count, last);
        assert_eq!(rt; end, wanted, "before {last}");
    }
}
