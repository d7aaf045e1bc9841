ghost use Rattle.std.specs.Prelude.{◌<◌};

use crate::tests::{HOST, UNIT, bad};
use crate::{ReadEnd, Reader};
use std::alloc::Global;
use std::test::Fail;

/// Why a text is bad that says a line for each number from `from` to `to`, between its first and its last part.
fn read_numbered(
    alloc: Global,
    first: &str,
    numbers: (u32, u32),
    line: (&str, &str),
    last: &str,
) -> Result<Option<ReadEnd>, Fail> {
    let mut reader = Reader::new(alloc);
    reader.feed(first.as_bytes()).map_err(|_| "memory")?;
    for n in numbers.0..numbers.1 {
        let (before, behind) = line;
        let text = format!(in alloc; "{before}{n}{behind}\n")?;
        reader.feed(text.as_bytes()).map_err(|_| "memory")?;
    }
    reader.feed(last.as_bytes()).map_err(|_| "memory")?;
    Ok(reader.finish().err())
}

#[test]
fn a_65th_host_is_too_many(rt: HostRuntime) -> Result<(), Fail> {
    let line = ("host ", " 1024 -");
    let end = read_numbered(rt.alloc(), "", (0, 64), line, "end stop\n")?;
    assert_eq!(rt; end, None);
    let end = read_numbered(rt.alloc(), "", (0, 64), line, "host x\n")?;
    assert_eq!(rt; end, bad(65, 8));
    Ok(())
}

#[test]
fn a_257th_unit_of_a_host_is_too_many(rt: HostRuntime) -> Result<(), Fail> {
    let line = ("lun 0 0:0:", " 8 8");
    let end = read_numbered(rt.alloc(), HOST, (0, 256), line, "end stop\n")?;
    assert_eq!(rt; end, None);
    for (last, kind) in [("lun 0 x\n", 8), ("lun 1 x\n", 7), ("lun 0\n", 8)] {
        let end = read_numbered(rt.alloc(), HOST, (0, 256), line, last)?;
        assert_eq!(rt; end, bad(258, kind));
    }
    let other = "host 1 1 -\nlun 1 0:0:0 8 8\nend stop\n";
    let end = read_numbered(rt.alloc(), HOST, (0, 256), line, other)?;
    assert_eq!(rt; end, None);
    Ok(())
}

#[test]
fn a_65537th_command_is_too_many(rt: HostRuntime) -> Result<(), Fail> {
    let line = ("cmd ", " 0 0 0:0:0 30 5 - 00");
    let end = read_numbered(rt.alloc(), UNIT, (1, 65_537), line, "end stop\n")?;
    assert_eq!(rt; end, None);
    let end = read_numbered(rt.alloc(), UNIT, (1, 65_537), line, "cmd x\n")?;
    assert_eq!(rt; end, bad(65_539, 8));
    Ok(())
}
