ghost use Rattle.std.specs.Prelude.{◌<◌};

use crate::{Form, ListFault, LunList, number, write};
use std::alloc::Global;
use std::fmt::Write;
use std::test::Fail;

// Bytes in hexadecimal, and what a reader of them is told: the number or the form of each entry, or the fault.
const LISTS: &str = "\
# headers
: Short(0)
000000: Short(3)
00000000000000: Short(7)
0000000000000000: whole
00000000ffffffff: whole
0000000c00000000000000000000000000000000: Uneven(12)
0000000c00000000: Uneven(12)
0000000100000000: Uneven(1)
ffffffff00000000: Uneven(4294967295)
0000000800000000: Cut(8, 0)
000000080000000000000000000000: Cut(8, 7)
0000001000000000000a000000000000: Cut(16, 8)
fffffff800000000: Cut(4294967288, 0)
# one entry of each form
00000008000000000000000000000000: whole 0
00000008000000000007000000000000: whole 7
000000080000000000ff000000000000: whole 255
00000008000000004000000000000000: whole 0
000000080000000040ff000000000000: whole 255
00000008000000004100000000000000: whole 256
00000008000000005fff000000000000: whole 8191
00000008000000006000000000000000: whole 8192
00000008000000007fff000000000000: whole 16383
00000008000000000105000000000000: whole form 1
00000008000000003f05000000000000: whole form 63
00000008000000008005000000000000: whole form 128
0000000800000000bf05000000000000: whole form 191
0000000800000000c101000000000000: whole form 193
0000000800000000ffffffffffffffff: whole form 255
00000008000000000007000900000000: whole 7
00000008000000004101ffffffffffff: whole 257
# more entries, and bytes that follow the last
00000018000000000000000000000000000700000000000041f0000000000000: whole 0 7 496
0000001800000000c1010000000000000007000000000000c101000000000000: whole form 193 7 form 193
00000008000000000007000000000000000800000000000000: whole 7
";

fn digit(c: u8) -> u8
    ensures { result < 16 }
{
    match c {
        b'0'..=b'9' => c - b'0',
        b'a'..=b'f' => c - b'a' + 10,
        _ => 0,
    }
}

fn bytes_of(alloc: Global, hex: &str) -> Result<Vec<u8>, Fail> {
    let mut bytes = Vec::new(alloc);
    for pair in hex.as_bytes().chunks_exact(2) {
        if let [high, low] = pair {
            bytes.push(digit(*high) * 16 + digit(*low))?;
        }
    }
    Ok(bytes)
}

fn text_of(alloc: Global, list: &LunList) -> Result<String, Fail> {
    let mut text = format!(in alloc; "whole")?;
    for entry in list.iter() {
        match number(entry) {
            Ok(lun) => write!(text, " {lun}")?,
            Err(Form(form)) => write!(text, " form {form}")?,
        }
    }
    Ok(text)
}

fn answer(alloc: Global, bytes: &[u8]) -> Result<String, Fail> {
    match LunList::read(bytes) {
        Ok(list) => text_of(alloc, &list),
        Err(fault) => Ok(format!(in alloc; "{fault:?}")?),
    }
}

#[test]
fn reads_each_list(rt: HostRuntime) -> Result<(), Fail> {
    let alloc = rt.alloc();
    for line in LISTS.lines() {
        let Some((hex, want)) = line.split_once(": ") else {
            assert!(rt; line.starts_with('#'), "{line}");
            continue;
        };
        let bytes = bytes_of(alloc, hex)?;
        assert_eq!(rt; answer(alloc, &bytes)?.as_str(), want, "{hex}");
    }
    Ok(())
}

#[test]
fn reads_a_list_of_three_up_to_each_place(rt: HostRuntime) {
    let bytes = [
        0, 0, 0, 24, 0, 0, 0, 0, 0, 1, 0, 0, 0, 0, 0, 0, 0, 2, 0, 0, 0, 0, 0, 0, 0x41, 2, 0, 0, 0,
        0, 0, 0,
    ];
    for length in 0..8 {
        assert_eq!(rt;
            LunList::read(&bytes[..length]).err(),
            Some(ListFault::Short(length))
        );
    }
    for present in 0..24 {
        assert_eq!(rt;
            LunList::read(&bytes[..8 + present]).err(),
            Some(ListFault::Cut(24, present))
        );
    }
    assert_eq!(rt; LunList::read(&bytes).err(), None);
}

#[test]
fn entries_are_eight_bytes_each_in_order(rt: HostRuntime) -> Result<(), Fail> {
    let bytes = [
        0, 0, 0, 16, 0, 0, 0, 0, 0, 1, 2, 3, 4, 5, 6, 7, 0, 9, 10, 11, 12, 13, 14, 15, 99,
    ];
    let mut entries = LunList::read(&bytes)?.iter();
    assert_eq!(rt; entries.next(), Some(&bytes[8..16]));
    assert_eq!(rt; entries.next(), Some(&bytes[16..24]));
    assert_eq!(rt; entries.next(), None);
    assert_eq!(rt; entries.next(), None);
    Ok(())
}

#[test]
fn writes_the_bytes_of_a_list(rt: HostRuntime) -> Result<(), Fail> {
    let alloc = rt.alloc();
    let mut buffer = [0xee; 34];
    assert_eq!(rt; write(&[], &mut buffer), 8);
    assert_eq!(rt;
        &buffer[..10],
        bytes_of(alloc, "0000000000000000eeee")?.as_slice()
    );
    assert_eq!(rt; write(&[255], &mut buffer), 16);
    assert_eq!(rt;
        &buffer[..18],
        bytes_of(alloc, "000000080000000000ff000000000000eeee")?.as_slice()
    );
    assert_eq!(rt; write(&[0, 256, 16_383], &mut buffer), 32);
    assert_eq!(rt;
        buffer.as_slice(),
        bytes_of(
            alloc,
            "0000001800000000000000000000000041000000000000007fff000000000000eeee"
        )?
        .as_slice()
    );
    Ok(())
}

#[test]
fn a_list_of_256_is_written_and_read(rt: HostRuntime) -> Result<(), Fail> {
    let mut buffer = [0xee; 2064];
    assert_eq!(rt; write(&[16_383; 256], &mut buffer), 2056);
    assert_eq!(rt;
        &buffer[..10],
        [0, 0, 8, 0, 0, 0, 0, 0, 0x7f, 0xff].as_slice()
    );
    assert_eq!(rt; &buffer[2056..], [0xee; 8].as_slice());
    assert_eq!(rt; LunList::read(&buffer)?.iter().count(), 256);
    Ok(())
}

#[test]
fn a_list_tells_how_many_entries_it_has(rt: HostRuntime) -> Result<(), Fail> {
    let mut reply = [0; 32];
    reply[3] = 24;
    assert_eq!(rt; LunList::read(&reply)?.len(), 3);
    Ok(())
}

#[test]
fn a_list_without_entries_is_empty(rt: HostRuntime) -> Result<(), Fail> {
    assert!(rt; LunList::read(&[0; 8])?.is_empty());
    Ok(())
}

#[test]
fn faults_are_told_in_words(rt: HostRuntime) -> Result<(), Fail> {
    let told = format!(in rt.alloc();
        "{}; {}; {}; {}",
        ListFault::Short(3),
        ListFault::Uneven(12),
        ListFault::Cut(16, 8),
        Form(0xc1)
    )?;
    assert_eq!(rt;
        told.as_str(),
        "3 bytes, and the header has 8; a list length of 12 bytes is no multiple of 8; 8 bytes of a list of 16; c1h begins no address that has a number"
    );
    Ok(())
}
