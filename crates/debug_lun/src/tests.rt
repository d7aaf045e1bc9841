ghost use Rattle.std.specs.Prelude.{◌<◌, ◌≡◌, ◌&&◌, true};
ghost use Rattle.mid_base.specs.Limits.{is_lun};

use crate::{DebugLun, data_needed};
use mid_base::{
    Answer, CHECK_CONDITION, CdbBytes, DID_OK, DevAddr, DeviceState, GOOD, LunSpec, SenseBytes,
};
use sense_data::SenseView;
use std::alloc::Global;
use std::fmt::Write;
use std::test::Fail;

// What happens to three units, one after the other: a block in hexadecimal, with the byte that fills the buffer where it
// isn't ee, and then what the unit answers: `good`, how much was moved, the sum of what came in, and the data where it is
// short; or `check` and the sense. `pend` leaves 3/11/00 pending.
const COMMANDS: &str = "\
# an ordinary unit: 0, 1 and more blocks, its first and its last block
ordinary 000000000000: good 0 0
ordinary 25000000000000000000: good 8 264 000007ff00000200
ordinary 28000000000000000100: good 512 0
ordinary 2a000000000700000100 01: good 512 0
ordinary 28000000000700000100: good 512 512
ordinary 28000000000600000300: good 1536 512
ordinary 0a0007ff0100 02: good 512 0
ordinary 080007ff0100: good 512 1024
ordinary 28ff000007feff000200: good 1024 1024
ordinary 080008000100: check 5/21/00
ordinary 080007ff0200: check 5/21/00
ordinary 0a0008000100: check 5/21/00
ordinary 081fffff0100: check 5/21/00
ordinary 28000000000000000000: good 0 0
ordinary 28000000080000000000: good 0 0
ordinary 28000000080100000000: check 5/21/00
ordinary 2a00000007ff00000000 ff: good 0 0
ordinary 2800000007ff00000100: good 512 1024
ordinary 28000000080000000100: check 5/21/00
ordinary 28008000000000000100: check 5/21/00
ordinary 2800ffffffff00000100: check 5/21/00
# 256 and 257 blocks
ordinary 080000000000: good 131072 512
ordinary 080007000000: good 131072 1024
ordinary 080007010000: check 5/21/00
ordinary 28000000000000010000: good 131072 512
ordinary 28000000000000010100: check 5/24/00
ordinary 2800ffffffff00010100: check 5/24/00
ordinary 8a0000000000000003e8000001000000 03: good 131072 0
ordinary 880000000000000003e7000001000000: good 131072 391680
ordinary 880000000000000004e7000000020000: good 1024 1536
ordinary 8a000000000000000000000001010000 04: check 5/24/00
ordinary 28000000000000000100: good 512 0
# SYNCHRONIZE CACHE may name more blocks
ordinary 35000000000000080000: good 0 0
ordinary 35000000000000080100: check 5/21/00
ordinary 35000000080000000000: good 0 0
ordinary 35000000080100000000: check 5/21/00
# blocks that are no command
ordinary ff0000000000: check 5/20/00
ordinary 01: check 5/20/00
ordinary 2800: check 5/24/00
ordinary 082000000000: check 5/24/00
ordinary 00000000000000: check 5/24/00
# a protected unit
protected 25000000000000000000: good 8 46 0000012b00000200
protected 2a000000000000000100 05: check 7/27/00
protected 2a000000000000000000 05: check 7/27/00
protected 2a000000000000010100 05: check 7/27/00
protected 0a0000000100 05: check 7/27/00
protected 8a00ffffffffffffffff000000010000 05: check 7/27/00
protected 8800000000000000012b000000010000: good 512 0
protected 8800000000000000012c000000010000: check 5/21/00
protected 88000000000080000000000000010000: check 5/21/00
protected 8800ffffffffffffffff000000000000: check 5/21/00
protected 8800ffffffffffffffff000000010000: check 5/21/00
protected 88000000000000000000ffffffff0000: check 5/24/00
protected 35000000012b00000200: check 5/21/00
# a unit attention is reported once, and not by INQUIRY, REPORT LUNS or REQUEST SENSE
protected reset
protected 000000000000: check 6/29/00
protected 000000000000: good 0 0
protected reset
protected ff0000000000: check 5/20/00
protected 120000000500: good 5 39 000006021f
protected 120001000500: check 5/24/00
protected a00000000000000000100000: good 16 24 00000018000000000000000000000000
protected 2a000000000000000100 05: check 6/29/00
protected 2a000000000000000100 05: check 7/27/00
protected reset
protected 1b0000000000: check 6/29/00
protected 000000000000: good 0 0
protected reset
protected 030000001200: good 18 169 700006000000000a00000000290000000000
protected 030000001200: good 18 122 700000000000000a00000000000000000000
protected reset
protected 030000000000: good 0 0
protected 000000000000: good 0 0
# sense that is pending comes before a unit attention, and neither stops the other
protected reset
protected pend
protected 03000000fc00: good 18 142 700003000000000a00000000110000000000
protected 03010000fc00: good 8 161 7206290000000000
protected 03010000fc00: good 8 114 7200000000000000
protected pend
protected 000000000000: good 0 0
protected 030000000000: good 0 0
protected 030000001200: good 18 122 700000000000000a00000000000000000000
protected pend
protected reset
protected 030000001200: good 18 169 700006000000000a00000000290000000000
protected 030000001200: good 18 122 700000000000000a00000000000000000000
# a unit that is stopped
stopped 000000000000: check 2/04/02
stopped 25000000000000000000: check 2/04/02
stopped 28000000000000000100: check 2/04/02
stopped 28000000000000010100: check 2/04/02
stopped 8a000000000000000000000000010000 06: check 2/04/02
stopped 35000000000000000000: check 2/04/02
stopped 12010000ff00: good 6 133 000000020083
stopped a00001000000000000080000: good 8 0 0000000000000000
stopped 030000001200: good 18 130 700002000000000a00000000040200000000
stopped 030100000800: good 8 122 7202040200000000
stopped reset
stopped 000000000000: check 6/29/00
stopped 000000000000: good 0 0
stopped 1b0000000000: good 0 0
stopped 000000000000: check 2/04/02
stopped start
stopped 000000000000: good 0 0
stopped 1b000000fe00: good 0 0
stopped 000000000000: check 2/04/02
stopped 1b010000ff00: good 0 0
stopped 000000000000: good 0 0
# the greatest unit
stopped 25000000000000000000: good 8 1021 fffffffe00000200
stopped 8a0000000000fffffffe000000010000 ff: good 512 0
stopped 2800fffffffe00000100: good 512 130560
stopped 2800ffffffff00000000: good 0 0
stopped 2800ffffffff00000100: check 5/21/00
stopped 28008000000000000100: good 512 0
stopped 88000000000100000000000000000000: check 5/21/00
stopped 880000000000fffffffe000000010000: good 512 130560
# designators
ordinary 12018300ff00: good 13 407 0083000902000005303a303a30
protected 12018300ff00: good 16 571 0083000c02000008333a31373a333030
stopped 12018300ff00: good 20 796 008300100200000c31353a3235353a3136333833
# pages that there are not
ordinary 12008000ff00: check 5/24/00
ordinary 12008300ff00: check 5/24/00
ordinary 1200ff00ff00: check 5/24/00
ordinary 12010100ff00: check 5/24/00
ordinary 12018000ff00: check 5/24/00
ordinary 1201ff00ff00: check 5/24/00
ordinary a00003000000000008080000: check 5/24/00
ordinary a000ff000000000008080000: check 5/24/00
ordinary a00001000000000008080000: good 8 0 0000000000000000
";

const ORDINARY: LunSpec = LunSpec {
    dev: DevAddr {
        channel: 0,
        target: 0,
        lun: 0,
    },
    blocks: 2048,
    depth: 8,
    read_only: false,
    stopped: false,
    start: DeviceState::Running,
};

const PROTECTED: LunSpec = LunSpec {
    dev: DevAddr {
        channel: 3,
        target: 17,
        lun: 300,
    },
    blocks: 300,
    depth: 1,
    read_only: true,
    stopped: false,
    start: DeviceState::Running,
};

const STOPPED: LunSpec = LunSpec {
    dev: DevAddr {
        channel: 15,
        target: 255,
        lun: 16_383,
    },
    blocks: 4_294_967_295,
    depth: 1024,
    read_only: false,
    stopped: true,
    start: DeviceState::Running,
};

fn digit(c: u8) -> u8
    ensures { result < 16 }
{
    match c {
        b'0'..=b'9' => c - b'0',
        b'a'..=b'f' => c - b'a' + 10,
        _ => 0,
    }
}

fn bytes_of(alloc: Global, hex: &str) -> Result<Vec<u8>, Fail> {
    let mut bytes = Vec::new(alloc);
    for pair in hex.as_bytes().chunks_exact(2) {
        if let [high, low] = pair {
            bytes.push(digit(*high) * 16 + digit(*low))?;
        }
    }
    Ok(bytes)
}

// What an answer says, and whether the buffer behind the data, which was filled with one byte, is changed.
fn text_of(alloc: Global, answer: &Answer, buffer: &[u8], fill: u8) -> Result<String, Fail> {
    let moved = (answer.moved as usize).min(buffer.len());
    let mut text = String::new(alloc);
    if answer.host == DID_OK && answer.status == GOOD {
        write!(text, "good {} {}", answer.moved, answer.sum)?;
        if moved > 0 && moved <= 40 {
            text.push(' ')?;
            for byte in &buffer[..moved] {
                write!(text, "{byte:02x}")?;
            }
        }
    }
    if answer.status == CHECK_CONDITION {
        let sense = SenseView::read(answer.sense.as_slice())?;
        write!(
            text,
            "check {:x}/{:02x}/{:02x}",
            sense.key(),
            sense.asc(),
            sense.ascq()
        )?;
    }
    if buffer[moved..].iter().any(|byte| *byte != fill) {
        text.push_str(" changed")?;
    }
    Ok(text)
}

// What a unit of a target with the units 0, 1 and 256 answers to a block.
fn served(
    alloc: Global,
    unit: &mut DebugLun,
    block: &[u8],
    fill: u8,
    buffer: &mut [u8],
) -> Result<String, Fail> {
    if block.is_empty() || block.len() > 16 || buffer.len() < 131_072 {
        return Ok(format!(in alloc; "no block")?);
    }
    buffer.fill(fill);
    match unit.exec(&CdbBytes::from_slice(block), &[0, 1, 256], buffer) {
        Ok(answer) => text_of(alloc, &answer, buffer, fill),
        Err(_) => Ok(format!(in alloc; "no memory")?),
    }
}

fn done(
    alloc: Global,
    unit: &mut DebugLun,
    words: &str,
    buffer: &mut [u8],
) -> Result<String, Fail> {
    match words {
        "reset" => unit.reset(),
        "start" => unit.start(),
        "pend" => unit.pend(3, 0x11, 0),
        _ => {
            let (block, fill) = words.split_once(' ').unwrap_or((words, "ee"));
            let block = bytes_of(alloc, block)?;
            let fill = bytes_of(alloc, fill)?.first().copied().unwrap_or(0);
            return served(alloc, unit, &block, fill, buffer);
        }
    }
    Ok(String::new(alloc))
}

#[derive(Drop)]
struct Bench {
    ordinary: DebugLun,
    protected: DebugLun,
    stopped: DebugLun,
}

fn done_to(
    alloc: Global,
    bench: &mut Bench,
    name: &str,
    words: &str,
    buffer: &mut [u8],
) -> Result<String, Fail> {
    match name {
        "ordinary" => done(alloc, &mut bench.ordinary, words, buffer),
        "protected" => done(alloc, &mut bench.protected, words, buffer),
        _ => done(alloc, &mut bench.stopped, words, buffer),
    }
}

#[test]
fn three_units_answer_each_command(rt: HostRuntime) -> Result<(), Fail> {
    let alloc = rt.alloc();
    let mut bench = Bench {
        ordinary: DebugLun::new(alloc, &ORDINARY),
        protected: DebugLun::new(alloc, &PROTECTED),
        stopped: DebugLun::new(alloc, &STOPPED),
    };
    let mut buffer = vec![in alloc; 0u8; 131_100]?;
    for line in COMMANDS.lines() {
        if line.starts_with('#') {
            continue;
        }
        let (name, rest) = line.split_once(' ').unwrap_or((line, ""));
        let (words, want) = rest.split_once(": ").unwrap_or((rest, ""));
        let text = done_to(alloc, &mut bench, name, words, &mut buffer)?;
        assert_eq!(rt; text.as_str(), want, "{line}");
    }
    Ok(())
}

// A block, the place of the low byte of its allocation length, and the data of the ordinary unit before it is cut.
const PAGES: &str = "\
120000000000 4 000006021f0000024d49444c415945526465627567204c554e2020202020202030303031
120100000000 4 000000020083
120183000000 4 0083000902000005303a303a30
030000000000 4 700000000000000a00000000000000000000
030100000000 4 7200000000000000
a00000000000000000000000 9 0000001800000000000000000000000000010000000000004100000000000000
a00001000000000000000000 9 0000000000000000
a00002000000000000000000 9 0000001800000000000000000000000000010000000000004100000000000000
";

// What is said of the first bytes of the data, as many as were asked for.
fn cut(alloc: Global, data: &[u8], allocation: usize) -> Result<String, Fail> {
    let count = allocation.min(data.len());
    let mut sum = 0u32;
    let mut hex = String::new(alloc);
    for byte in &data[..count] {
        sum = sum.wrapping_add(u32::from(*byte));
        write!(hex, "{byte:02x}")?;
    }
    if count == 0 {
        return Ok(format!(in alloc; "good 0 0")?);
    }
    Ok(format!(in alloc; "good {count} {sum} {hex}")?)
}

#[test]
fn data_is_cut_at_each_allocation_length(rt: HostRuntime) -> Result<(), Fail> {
    let alloc = rt.alloc();
    let mut unit = DebugLun::new(alloc, &ORDINARY);
    let mut buffer = vec![in alloc; 0u8; 131_100]?;
    for line in PAGES.lines() {
        let (block, rest) = line.split_once(' ').unwrap_or((line, ""));
        let (place, data) = rest.split_once(' ').unwrap_or((rest, ""));
        let mut block = bytes_of(alloc, block)?;
        let place = if place == "9" { 9 } else { 4 };
        let data = bytes_of(alloc, data)?;
        for allocation in 0..data.len().min(40) + 2 {
            if let Some(low) = block.get_mut(place) {
                *low = allocation as u8;
            }
            let text = served(alloc, &mut unit, &block, 0xee, &mut buffer)?;
            let want = cut(alloc, &data, allocation)?;
            assert_eq!(rt; text.as_str(), want.as_str(), "{line} at {allocation}");
        }
    }
    Ok(())
}

#[test]
fn a_refusal_has_fixed_sense_and_moves_nothing(rt: HostRuntime) -> Result<(), Fail> {
    let alloc = rt.alloc();
    let mut unit = DebugLun::new(alloc, &ORDINARY);
    let mut buffer = vec![in alloc; 0xeeu8; 131_072]?;
    assert!(rt; buffer.len() == 131_072);
    let cdb = CdbBytes::from_slice(&[0xff, 0, 0]);
    let sense = [0x70, 0, 5, 0, 0, 0, 0, 10, 0, 0, 0, 0, 0x20, 0, 0, 0, 0, 0];
    let want = Answer {
        host: DID_OK,
        status: CHECK_CONDITION,
        sense: SenseBytes::from_slice(&sense),
        moved: 0,
        sum: 0,
    };
    assert!(rt; unit.exec(&cdb, &[0], &mut buffer) == Ok(want));
    Ok(())
}

#[test]
fn a_write_looks_at_the_data_of_its_blocks(rt: HostRuntime) {
    let cdb = CdbBytes::from_slice(&[0x2a, 0, 0, 0, 0, 0, 0, 0, 3, 0]);
    assert_eq!(rt; data_needed(&cdb), 1536);
}

#[test]
fn a_write_of_length_0_looks_at_256_blocks(rt: HostRuntime) {
    let cdb = CdbBytes::from_slice(&[0x0a, 0, 0, 0, 0, 0]);
    assert_eq!(rt; data_needed(&cdb), 131_072);
}

#[test]
fn a_write_of_too_many_blocks_looks_at_no_data(rt: HostRuntime) {
    let cdb = CdbBytes::from_slice(&[0x2a, 0, 0, 0, 0, 0, 0, 1, 1, 0]);
    assert_eq!(rt; data_needed(&cdb), 0);
}

#[test]
fn a_read_looks_at_no_data(rt: HostRuntime) {
    let cdb = CdbBytes::from_slice(&[0x28, 0, 0, 0, 0, 0, 0, 0, 3, 0]);
    assert_eq!(rt; data_needed(&cdb), 0);
}
