ghost use Rattle.std.specs.Prelude.{◌<◌};

use crate::{SenseFault, SenseView, build_descriptor, build_fixed};
use mid_base::SenseBytes;
use std::alloc::Global;
use std::fmt::Write;
use std::test::Fail;

// Senses in hexadecimal, and what a reader of their first n bytes is told. Each answer stands behind the least n that it
// is given for, from 1 on: key/ASC/ASCQ, `deferred`, `i` and the information, and each descriptor as [type:body].
const SENSES: &str = "\
# fixed form, current, 18 bytes
700000000000000a00000000000000000000: 1 short, 8 0/00/00
700001000000000a00000000170100000000: 1 short, 8 1/00/00, 13 1/17/00, 14 1/17/01
700002000000000a00000000040100000000: 1 short, 8 2/00/00, 13 2/04/00, 14 2/04/01
700002000000000a00000000040200000000: 1 short, 8 2/00/00, 13 2/04/00, 14 2/04/02
700002000000000a000000003a0000000000: 1 short, 8 2/00/00, 13 2/3a/00
700003000000000a00000000110000000000: 1 short, 8 3/00/00, 13 3/11/00
700004000000000a00000000440000000000: 1 short, 8 4/00/00, 13 4/44/00
700005000000000a00000000200000000000: 1 short, 8 5/00/00, 13 5/20/00
700005000000000a00000000210000000000: 1 short, 8 5/00/00, 13 5/21/00
700005000000000a00000000240000c00002: 1 short, 8 5/00/00, 13 5/24/00
700006000000000a00000000280000000000: 1 short, 8 6/00/00, 13 6/28/00
700006000000000a00000000290000000000: 1 short, 8 6/00/00, 13 6/29/00
700006000000000a000000002a0900000000: 1 short, 8 6/00/00, 13 6/2a/00, 14 6/2a/09
700007000000000a00000000270000000000: 1 short, 8 7/00/00, 13 7/27/00
700008000000000a00000000000500000000: 1 short, 8 8/00/00, 14 8/00/05
700009000000000a00000000800100000000: 1 short, 8 9/00/00, 13 9/80/00, 14 9/80/01
70000a000000000a000000000d0200000000: 1 short, 8 a/00/00, 13 a/0d/00, 14 a/0d/02
70000b000000000a00000000470300000000: 1 short, 8 b/00/00, 13 b/47/00, 14 b/47/03
70000d000000000a00000000000200000000: 1 short, 8 d/00/00, 14 d/00/02
70000e000000000a000000001d0000000000: 1 short, 8 e/00/00, 13 e/1d/00
70000f000000000a00000000001f00000000: 1 short, 8 f/00/00, 14 f/00/1f
7000e5000000000a00000000240000000000: 1 short, 8 5/00/00, 13 5/24/00
70ff06000000000a00000000290400000000: 1 short, 8 6/00/00, 13 6/29/00, 14 6/29/04
700003123456780a00000000110000000000: 1 short, 8 3/00/00, 13 3/11/00
f00003123456780a00000000110000000000: 1 short, 8 3/00/00 i12345678, 13 3/11/00 i12345678
f00003000000000a00000000110400000000: 1 short, 8 3/00/00 i0, 13 3/11/00 i0, 14 3/11/04 i0
f00003ffffffff0a000000000c0200000000: 1 short, 8 3/00/00 iffffffff, 13 3/0c/00 iffffffff, 14 3/0c/02 iffffffff
f00000000010000a00000000000000000000: 1 short, 8 0/00/00 i1000
# fixed form, current, of other lengths
7000050000000000ffffffff242500000000: 1 short, 8 5/00/00
7000050000000004ffffffff242500000000: 1 short, 8 5/00/00
7000050000000005ffffffff242500000000: 1 short, 8 5/00/00, 13 5/24/00
7000050000000006ffffffff242500000000: 1 short, 8 5/00/00, 13 5/24/00, 14 5/24/25
700005000000000a: 1 short, 8 5/00/00
700005000000000a000000002425: 1 short, 8 5/00/00, 13 5/24/00, 14 5/24/25
70000500000000ff00000000240100000000: 1 short, 8 5/00/00, 13 5/24/00, 14 5/24/01
7000060000000018000000003f0e000000000000000000000000000000000000: 1 short, 8 6/00/00, 13 6/3f/00, 14 6/3f/0e
f000010000abcd00: 1 short, 8 1/00/00 iabcd
70000300: 1 short
70000300000000: 1 short
# fixed form, deferred
710003000000000a000000000c0200000000: 1 short, 8 3/00/00 deferred, 13 3/0c/00 deferred, 14 3/0c/02 deferred
f10003000000100a00000000110000000000: 1 short, 8 3/00/00 deferred i10, 13 3/11/00 deferred i10
710004000000000a00000000440000000000: 1 short, 8 4/00/00 deferred, 13 4/44/00 deferred
71000b000000000a00000000000600000000: 1 short, 8 b/00/00 deferred, 14 b/00/06 deferred
710006000000000500000000290100000000: 1 short, 8 6/00/00 deferred, 13 6/29/00 deferred
71000100000000000000000017: 1 short, 8 1/00/00 deferred
710002: 1 short
f1: 1 short
# descriptor form, current, without descriptors
7200000000000000: 1 short, 8 0/00/00
7201170200000000: 1 short, 8 1/17/02
7202040100000000: 1 short, 8 2/04/01
72023a0200000000: 1 short, 8 2/3a/02
7203110000000000: 1 short, 8 3/11/00
7204090100000000: 1 short, 8 4/09/01
7205240000000000: 1 short, 8 5/24/00
7205250000000000: 1 short, 8 5/25/00
7206290000000000: 1 short, 8 6/29/00
7207270100000000: 1 short, 8 7/27/01
7208140300000000: 1 short, 8 8/14/03
720b4b0400000000: 1 short, 8 b/4b/04
720d000200000000: 1 short, 8 d/00/02
720e1d0000000000: 1 short, 8 e/1d/00
7206290200000000ffffffffffffffff: 1 short, 8 6/29/02
72f6290300000000: 1 short, 8 6/29/03
f203110100000000: 1 short, 8 3/11/01
# descriptor form, current, with descriptors
720311000000000c000a80000000000000001234: 1 short, 8 3/11/00, 9 cut 8, 20 3/11/00 i1234 [00:80000000000000001234]
720311000000000c000a8000: 1 short, 8 3/11/00, 9 cut 8
720311000000000c000a00000000000000001234: 1 short, 8 3/11/00, 9 cut 8, 20 3/11/00 [00:00000000000000001234]
720311000000000c010a80000000000000001234: 1 short, 8 3/11/00, 9 cut 8, 20 3/11/00 [01:80000000000000001234]
720311000000000c000a8000ffffffffffffffff: 1 short, 8 3/11/00, 9 cut 8, 20 3/11/00 iffffffffffffffff [00:8000ffffffffffffffff]
720311000000000d000b8000000000000000123400: 1 short, 8 3/11/00, 9 cut 8, 21 3/11/00 [00:8000000000000000123400]
720311000000000b0009800000000000000012: 1 short, 8 3/11/00, 9 cut 8, 19 3/11/00 [00:800000000000000012]
720311000000000b000a80000000000000001234: 1 short, 8 3/11/00, 9 cut 8
720311000000000d000a8000000000000000123400: 1 short, 8 3/11/00, 9 cut 8, 20 3/11/00 i1234 [00:80000000000000001234], 21 cut 20
7203110000000018000a00000000000000001111000a80000000000000002222: 1 short, 8 3/11/00, 9 cut 8, 20 3/11/00 [00:00000000000000001111], 21 cut 20, 32 3/11/00 i2222 [00:00000000000000001111] [00:80000000000000002222]
7203110000000018000a80000000000000001111000a80000000000000002222: 1 short, 8 3/11/00, 9 cut 8, 20 3/11/00 i1111 [00:80000000000000001111], 21 cut 20, 32 3/11/00 i1111 [00:80000000000000001111] [00:80000000000000002222]
720311000000001003020007000a80000000000000000099: 1 short, 8 3/11/00, 9 cut 8, 12 3/11/00 [03:0007], 13 cut 12, 24 3/11/00 i99 [03:0007] [00:80000000000000000099]
720524000000000802060000cf000200: 1 short, 8 5/24/00, 9 cut 8, 16 5/24/00 [02:0000cf000200]
7201001d0000000e090c00000001000000000000a050: 1 short, 8 1/00/1d, 9 cut 8, 22 1/00/1d [09:00000001000000000000a050]
72020401000000020300: 1 short, 8 2/04/01, 9 cut 8, 10 2/04/01 [03:]
720204010000000403008100: 1 short, 8 2/04/01, 9 cut 8, 10 2/04/01 [03:], 11 cut 10, 12 2/04/01 [03:] [81:]
72020401000000010300: 1 short, 8 2/04/01, 9 cut 8
72031100000000ff000a80000000000000001234: 1 short, 8 3/11/00, 9 cut 8, 20 3/11/00 i1234 [00:80000000000000001234]
72031100000000ff80ff0000: 1 short, 8 3/11/00, 9 cut 8
720311000000000480050000: 1 short, 8 3/11/00, 9 cut 8
72031100000000088002000080050000: 1 short, 8 3/11/00, 9 cut 8, 12 3/11/00 [80:0000], 13 cut 12
# descriptor form, deferred
7303110000000000: 1 short, 8 3/11/00 deferred
730b000600000000: 1 short, 8 b/00/06 deferred
f306290100000000: 1 short, 8 6/29/01 deferred
730311000000000c000a80000000000000000007: 1 short, 8 3/11/00 deferred, 9 cut 8, 20 3/11/00 deferred i7 [00:80000000000000000007]
7301170100000004030200aa: 1 short, 8 1/17/01 deferred, 9 cut 8, 12 1/17/01 deferred [03:00aa]
73031100000000: 1 short
73: 1 short
# other response codes
74: 1 code 74
7f0003000000000a00000000110000000000: 1 code 7f
00: 1 code 00
ff00: 1 code ff
6f0003000000000a: 1 code 6f
f403110000000000: 1 code f4
ef0003000000000a: 1 code ef
";

fn digit(c: u8) -> u8
    ensures { result < 16 }
{
    match c {
        b'0'..=b'9' => c - b'0',
        b'a'..=b'f' => c - b'a' + 10,
        _ => 0,
    }
}

fn bytes_of(alloc: Global, hex: &str) -> Result<Vec<u8>, Fail> {
    let mut bytes = Vec::new(alloc);
    for pair in hex.as_bytes().chunks_exact(2) {
        if let [high, low] = pair {
            bytes.push(digit(*high) * 16 + digit(*low))?;
        }
    }
    Ok(bytes)
}

fn text_of(alloc: Global, view: &SenseView) -> Result<String, Fail> {
    let mut text = format!(in alloc; "{:x}/{:02x}/{:02x}", view.key(), view.asc(), view.ascq())?;
    if view.deferred() {
        text.push_str(" deferred")?;
    }
    if let Some(information) = view.information() {
        write!(text, " i{information:x}")?;
    }
    for (kind, body) in view.descriptors() {
        write!(text, " [{kind:02x}:")?;
        for byte in body {
            write!(text, "{byte:02x}")?;
        }
        text.push(']')?;
    }
    Ok(text)
}

fn answer(alloc: Global, bytes: &[u8]) -> Result<String, Fail> {
    let text = match SenseView::read(bytes) {
        Ok(view) => text_of(alloc, &view)?,
        Err(SenseFault::Code(code)) => format!(in alloc; "code {code:02x}")?,
        Err(SenseFault::Short(length, 8)) if length == bytes.len() => format!(in alloc; "short")?,
        Err(SenseFault::DescriptorCut(place)) => format!(in alloc; "cut {place}")?,
        Err(fault) => format!(in alloc; "{fault:?}")?,
    };
    Ok(text)
}

fn answers(alloc: Global, bytes: &[u8]) -> Result<String, Fail> {
    let mut all = String::new(alloc);
    let mut last = String::new(alloc);
    for length in 1..=bytes.len() {
        let now = answer(alloc, &bytes[..length])?;
        if now != last {
            if length > 1 {
                all.push_str(", ")?;
            }
            write!(all, "{length} {now}")?;
            last = now;
        }
    }
    Ok(all)
}

#[test]
fn reads_each_sense_up_to_each_place(rt: HostRuntime) -> Result<(), Fail> {
    let alloc = rt.alloc();
    assert_eq!(rt; answer(alloc, &[])?.as_str(), "Empty");
    for line in SENSES.lines() {
        let Some((hex, want)) = line.split_once(": ") else {
            assert!(rt; line.starts_with('#'), "{line}");
            continue;
        };
        let bytes = bytes_of(alloc, hex)?;
        assert_eq!(rt;
            answers(alloc, &bytes)?.as_str(),
            want,
            "the first bytes of {hex}"
        );
    }
    Ok(())
}

#[test]
fn reads_an_information_descriptor_and_refuses_it_cut(rt: HostRuntime) -> Result<(), Fail> {
    let bytes = [
        0x72, 0x03, 0x11, 0, 0, 0, 0, 0x0c, 0, 0x0a, 0x80, 0, 0, 0, 0, 0, 0, 0, 0x12, 0x34,
    ];
    let view = SenseView::read(&bytes)?;
    assert_eq!(rt; (view.key(), view.asc(), view.ascq()), (3, 17, 0));
    assert_eq!(rt; view.information(), Some(4660));
    let mut descriptors = view.descriptors();
    assert_eq!(rt; descriptors.next(), Some((0, &bytes[10..])));
    assert_eq!(rt; descriptors.next(), None);
    assert_eq!(rt;
        SenseView::read(&bytes[..12]).err(),
        Some(SenseFault::DescriptorCut(8))
    );
    Ok(())
}

#[derive(Clone, Copy, PartialEq, Debug)]
struct Fields {
    key: u8,
    asc: u8,
    ascq: u8,
    information: Option<u64>,
    deferred: bool,
}

fn fields_of(sense: &SenseBytes) -> Option<Fields> {
    let view = SenseView::read(sense.as_slice()).ok()?;
    Some(Fields {
        key: view.key(),
        asc: view.asc(),
        ascq: view.ascq(),
        information: view.information(),
        deferred: view.deferred(),
    })
}

#[test]
fn built_senses_read_back_at_each_key(rt: HostRuntime) {
    for key in 0..16 {
        for number in [0, 1, 0x1234_5678, u32::MAX] {
            for deferred in [false, true] {
                let mut fields = Fields {
                    key,
                    asc: 0x5d,
                    ascq: 0xff,
                    information: Some(u64::from(number)),
                    deferred,
                };
                let sense = build_fixed(key, 0x5d, 0xff, Some(number), deferred);
                assert_eq!(rt; fields_of(&sense), Some(fields));
                let sense = build_descriptor(key, 0x5d, 0xff, fields.information, deferred);
                assert_eq!(rt; fields_of(&sense), Some(fields));

                fields.information = None;
                let sense = build_fixed(key, 0x5d, 0xff, None, deferred);
                assert_eq!(rt; fields_of(&sense), Some(fields));
                let sense = build_descriptor(key, 0x5d, 0xff, None, deferred);
                assert_eq!(rt; fields_of(&sense), Some(fields));
            }
        }
    }
}

#[test]
fn built_senses_have_the_bytes_of_their_form(rt: HostRuntime) -> Result<(), Fail> {
    let alloc = rt.alloc();
    let fixed = [
        (
            5,
            0x24,
            0,
            None,
            false,
            "700005000000000a00000000240000000000",
        ),
        (
            3,
            0x11,
            4,
            Some(0x1234_5678),
            true,
            "f10003123456780a00000000110400000000",
        ),
    ];
    for (key, asc, ascq, information, deferred, hex) in fixed {
        let sense = build_fixed(key, asc, ascq, information, deferred);
        assert_eq!(rt; sense.as_slice(), bytes_of(alloc, hex)?.as_slice(), "{hex}");
    }
    let descriptor = [
        (5, 0x20, 0, None, true, "7305200000000000"),
        (
            3,
            0x11,
            0,
            Some(4660),
            false,
            "720311000000000c000a80000000000000001234",
        ),
    ];
    for (key, asc, ascq, information, deferred, hex) in descriptor {
        let sense = build_descriptor(key, asc, ascq, information, deferred);
        assert_eq!(rt; sense.as_slice(), bytes_of(alloc, hex)?.as_slice(), "{hex}");
    }
    Ok(())
}

#[test]
fn faults_are_told_in_words(rt: HostRuntime) -> Result<(), Fail> {
    let told = format!(in rt.alloc();
        "{}; {}; {}; {}",
        SenseFault::Empty,
        SenseFault::Code(0x7f),
        SenseFault::Short(3, 8),
        SenseFault::DescriptorCut(8)
    )?;
    assert_eq!(rt;
        told.as_str(),
        "no sense data; response code 7fh is none of sense data; 3 bytes of sense data, 8 at least; the descriptor at byte 8 is cut"
    );
    Ok(())
}

#[test]
fn a_clone_of_a_view_reads_the_same(rt: HostRuntime) -> Result<(), Fail> {
    let sense = build_fixed(3, 0x11, 0, None, false);
    let view = SenseView::read(sense.as_slice())?;
    let clone = view.clone()?;
    assert_eq!(rt; clone.key(), view.key());
    Ok(())
}
