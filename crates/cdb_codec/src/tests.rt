use crate::{Cdb, CdbFault, decode, decode_encoded, encode, encode_decoded};
use std::alloc::AllocError;

// A command and its bytes in each row, which ends with a semicolon.
macro_rules! commands {
    ($($command:ident { $($field:ident: $value:expr),* } => $($byte:literal)*;)*) => {
        [$((Cdb::$command { $($field: $value),* }, &[$($byte),*])),*]
    };
}

// From the layouts of SPC-4 and SBC-3. For each command: each field at 0; one field after the other at its greatest
// value, the others at 0; each at its greatest; and bytes that all differ, so that no two can be taken for one another.
const COMMANDS: [(Cdb, &[u8]); 81] = commands! {
    TestUnitReady { control: 0 } => 0x00 0 0 0 0 0;
    TestUnitReady { control: 255 } => 0x00 0 0 0 0 255;

    RequestSense { desc: false, alloc: 0, control: 0 } => 0x03 0 0 0 0 0;
    RequestSense { desc: true, alloc: 0, control: 0 } => 0x03 1 0 0 0 0;
    RequestSense { desc: false, alloc: 255, control: 0 } => 0x03 0 0 0 255 0;
    RequestSense { desc: false, alloc: 0, control: 255 } => 0x03 0 0 0 0 255;
    RequestSense { desc: true, alloc: 255, control: 255 } => 0x03 1 0 0 255 255;
    RequestSense { desc: true, alloc: 0x12, control: 0x34 } => 0x03 1 0 0 0x12 0x34;

    Read6 { lba: 0, len: 0, control: 0 } => 0x08 0 0 0 0 0;
    Read6 { lba: 2097151, len: 0, control: 0 } => 0x08 31 255 255 0 0;
    Read6 { lba: 0, len: 255, control: 0 } => 0x08 0 0 0 255 0;
    Read6 { lba: 0, len: 0, control: 255 } => 0x08 0 0 0 0 255;
    Read6 { lba: 2097151, len: 255, control: 255 } => 0x08 31 255 255 255 255;
    Read6 { lba: 0x123456, len: 0x78, control: 0x9a } => 0x08 0x12 0x34 0x56 0x78 0x9a;

    Write6 { lba: 0, len: 0, control: 0 } => 0x0a 0 0 0 0 0;
    Write6 { lba: 2097151, len: 0, control: 0 } => 0x0a 31 255 255 0 0;
    Write6 { lba: 0, len: 255, control: 0 } => 0x0a 0 0 0 255 0;
    Write6 { lba: 0, len: 0, control: 255 } => 0x0a 0 0 0 0 255;
    Write6 { lba: 2097151, len: 255, control: 255 } => 0x0a 31 255 255 255 255;
    Write6 { lba: 0x123456, len: 0x78, control: 0x9a } => 0x0a 0x12 0x34 0x56 0x78 0x9a;

    Inquiry { evpd: false, page: 0, alloc: 0, control: 0 } => 0x12 0 0 0 0 0;
    Inquiry { evpd: true, page: 0, alloc: 0, control: 0 } => 0x12 1 0 0 0 0;
    Inquiry { evpd: false, page: 255, alloc: 0, control: 0 } => 0x12 0 255 0 0 0;
    Inquiry { evpd: false, page: 0, alloc: 65535, control: 0 } => 0x12 0 0 255 255 0;
    Inquiry { evpd: false, page: 0, alloc: 0, control: 255 } => 0x12 0 0 0 0 255;
    Inquiry { evpd: true, page: 255, alloc: 65535, control: 255 } => 0x12 1 255 255 255 255;
    Inquiry { evpd: true, page: 0x83, alloc: 0x1234, control: 0x56 } => 0x12 1 0x83 0x12 0x34 0x56;

    StartStop { immed: false, bits: 0, control: 0 } => 0x1b 0 0 0 0 0;
    StartStop { immed: true, bits: 0, control: 0 } => 0x1b 1 0 0 0 0;
    StartStop { immed: false, bits: 255, control: 0 } => 0x1b 0 0 0 255 0;
    StartStop { immed: false, bits: 0, control: 255 } => 0x1b 0 0 0 0 255;
    StartStop { immed: true, bits: 255, control: 255 } => 0x1b 1 0 0 255 255;
    StartStop { immed: true, bits: 0x12, control: 0x34 } => 0x1b 1 0 0 0x12 0x34;

    ReadCapacity10 { control: 0 } => 0x25 0 0 0 0 0 0 0 0 0;
    ReadCapacity10 { control: 255 } => 0x25 0 0 0 0 0 0 0 0 255;

    Read10 { flags: 0, lba: 0, group: 0, len: 0, control: 0 } => 0x28 0 0 0 0 0 0 0 0 0;
    Read10 { flags: 255, lba: 0, group: 0, len: 0, control: 0 } => 0x28 255 0 0 0 0 0 0 0 0;
    Read10 { flags: 0, lba: 4294967295, group: 0, len: 0, control: 0 } => 0x28 0 255 255 255 255 0 0 0 0;
    Read10 { flags: 0, lba: 0, group: 255, len: 0, control: 0 } => 0x28 0 0 0 0 0 255 0 0 0;
    Read10 { flags: 0, lba: 0, group: 0, len: 65535, control: 0 } => 0x28 0 0 0 0 0 0 255 255 0;
    Read10 { flags: 0, lba: 0, group: 0, len: 0, control: 255 } => 0x28 0 0 0 0 0 0 0 0 255;
    Read10 { flags: 255, lba: 4294967295, group: 255, len: 65535, control: 255 }
        => 0x28 255 255 255 255 255 255 255 255 255;
    Read10 { flags: 0x12, lba: 0x3456789a, group: 0xbc, len: 0xdef0, control: 0x21 }
        => 0x28 0x12 0x34 0x56 0x78 0x9a 0xbc 0xde 0xf0 0x21;

    Write10 { flags: 0, lba: 0, group: 0, len: 0, control: 0 } => 0x2a 0 0 0 0 0 0 0 0 0;
    Write10 { flags: 255, lba: 0, group: 0, len: 0, control: 0 } => 0x2a 255 0 0 0 0 0 0 0 0;
    Write10 { flags: 0, lba: 4294967295, group: 0, len: 0, control: 0 } => 0x2a 0 255 255 255 255 0 0 0 0;
    Write10 { flags: 0, lba: 0, group: 255, len: 0, control: 0 } => 0x2a 0 0 0 0 0 255 0 0 0;
    Write10 { flags: 0, lba: 0, group: 0, len: 65535, control: 0 } => 0x2a 0 0 0 0 0 0 255 255 0;
    Write10 { flags: 0, lba: 0, group: 0, len: 0, control: 255 } => 0x2a 0 0 0 0 0 0 0 0 255;
    Write10 { flags: 255, lba: 4294967295, group: 255, len: 65535, control: 255 }
        => 0x2a 255 255 255 255 255 255 255 255 255;
    Write10 { flags: 0x12, lba: 0x3456789a, group: 0xbc, len: 0xdef0, control: 0x21 }
        => 0x2a 0x12 0x34 0x56 0x78 0x9a 0xbc 0xde 0xf0 0x21;

    SyncCache10 { flags: 0, lba: 0, group: 0, len: 0, control: 0 } => 0x35 0 0 0 0 0 0 0 0 0;
    SyncCache10 { flags: 255, lba: 0, group: 0, len: 0, control: 0 } => 0x35 255 0 0 0 0 0 0 0 0;
    SyncCache10 { flags: 0, lba: 4294967295, group: 0, len: 0, control: 0 } => 0x35 0 255 255 255 255 0 0 0 0;
    SyncCache10 { flags: 0, lba: 0, group: 255, len: 0, control: 0 } => 0x35 0 0 0 0 0 255 0 0 0;
    SyncCache10 { flags: 0, lba: 0, group: 0, len: 65535, control: 0 } => 0x35 0 0 0 0 0 0 255 255 0;
    SyncCache10 { flags: 0, lba: 0, group: 0, len: 0, control: 255 } => 0x35 0 0 0 0 0 0 0 0 255;
    SyncCache10 { flags: 255, lba: 4294967295, group: 255, len: 65535, control: 255 }
        => 0x35 255 255 255 255 255 255 255 255 255;
    SyncCache10 { flags: 0x12, lba: 0x3456789a, group: 0xbc, len: 0xdef0, control: 0x21 }
        => 0x35 0x12 0x34 0x56 0x78 0x9a 0xbc 0xde 0xf0 0x21;

    Read16 { flags: 0, lba: 0, len: 0, group: 0, control: 0 } => 0x88 0 0 0 0 0 0 0 0 0 0 0 0 0 0 0;
    Read16 { flags: 255, lba: 0, len: 0, group: 0, control: 0 } => 0x88 255 0 0 0 0 0 0 0 0 0 0 0 0 0 0;
    Read16 { flags: 0, lba: 18446744073709551615, len: 0, group: 0, control: 0 }
        => 0x88 0 255 255 255 255 255 255 255 255 0 0 0 0 0 0;
    Read16 { flags: 0, lba: 0, len: 4294967295, group: 0, control: 0 }
        => 0x88 0 0 0 0 0 0 0 0 0 255 255 255 255 0 0;
    Read16 { flags: 0, lba: 0, len: 0, group: 255, control: 0 } => 0x88 0 0 0 0 0 0 0 0 0 0 0 0 0 255 0;
    Read16 { flags: 0, lba: 0, len: 0, group: 0, control: 255 } => 0x88 0 0 0 0 0 0 0 0 0 0 0 0 0 0 255;
    Read16 { flags: 255, lba: 18446744073709551615, len: 4294967295, group: 255, control: 255 }
        => 0x88 255 255 255 255 255 255 255 255 255 255 255 255 255 255 255;
    Read16 { flags: 0x11, lba: 0x2233445566778899, len: 0xaabbccdd, group: 0xee, control: 0xff }
        => 0x88 0x11 0x22 0x33 0x44 0x55 0x66 0x77 0x88 0x99 0xaa 0xbb 0xcc 0xdd 0xee 0xff;

    Write16 { flags: 0, lba: 0, len: 0, group: 0, control: 0 } => 0x8a 0 0 0 0 0 0 0 0 0 0 0 0 0 0 0;
    Write16 { flags: 255, lba: 0, len: 0, group: 0, control: 0 } => 0x8a 255 0 0 0 0 0 0 0 0 0 0 0 0 0 0;
    Write16 { flags: 0, lba: 18446744073709551615, len: 0, group: 0, control: 0 }
        => 0x8a 0 255 255 255 255 255 255 255 255 0 0 0 0 0 0;
    Write16 { flags: 0, lba: 0, len: 4294967295, group: 0, control: 0 }
        => 0x8a 0 0 0 0 0 0 0 0 0 255 255 255 255 0 0;
    Write16 { flags: 0, lba: 0, len: 0, group: 255, control: 0 } => 0x8a 0 0 0 0 0 0 0 0 0 0 0 0 0 255 0;
    Write16 { flags: 0, lba: 0, len: 0, group: 0, control: 255 } => 0x8a 0 0 0 0 0 0 0 0 0 0 0 0 0 0 255;
    Write16 { flags: 255, lba: 18446744073709551615, len: 4294967295, group: 255, control: 255 }
        => 0x8a 255 255 255 255 255 255 255 255 255 255 255 255 255 255 255;
    Write16 { flags: 0x11, lba: 0x2233445566778899, len: 0xaabbccdd, group: 0xee, control: 0xff }
        => 0x8a 0x11 0x22 0x33 0x44 0x55 0x66 0x77 0x88 0x99 0xaa 0xbb 0xcc 0xdd 0xee 0xff;

    ReportLuns { select: 0, alloc: 0, control: 0 } => 0xa0 0 0 0 0 0 0 0 0 0 0 0;
    ReportLuns { select: 255, alloc: 0, control: 0 } => 0xa0 0 255 0 0 0 0 0 0 0 0 0;
    ReportLuns { select: 0, alloc: 4294967295, control: 0 } => 0xa0 0 0 0 0 0 255 255 255 255 0 0;
    ReportLuns { select: 0, alloc: 0, control: 255 } => 0xa0 0 0 0 0 0 0 0 0 0 0 255;
    ReportLuns { select: 255, alloc: 4294967295, control: 255 } => 0xa0 0 255 0 0 0 255 255 255 255 0 255;
    ReportLuns { select: 0x02, alloc: 0x12345678, control: 0x9a }
        => 0xa0 0 0x02 0 0 0 0x12 0x34 0x56 0x78 0 0x9a;
};

const REFUSALS: [(CdbFault, &[u8]); 24] = [
    (CdbFault::WrongLength(0, 1), &[]),
    (CdbFault::UnknownCode(0xff), &[0xff]),
    (CdbFault::UnknownCode(0x01), &[0x01, 0, 0, 0, 0, 0]),
    (CdbFault::WrongLength(1, 6), &[0x00]),
    (CdbFault::WrongLength(5, 6), &[0x12, 0, 0, 0, 0]),
    (CdbFault::WrongLength(7, 6), &[0x0a, 0, 0, 0, 0, 0, 0]),
    (CdbFault::WrongLength(2, 10), &[0x28, 0]),
    (
        CdbFault::WrongLength(12, 10),
        &[0x25, 0, 0, 0, 0, 0, 0, 0, 0, 0, 0, 0],
    ),
    (
        CdbFault::WrongLength(10, 16),
        &[0x88, 0, 0, 0, 0, 0, 0, 0, 0, 0],
    ),
    (
        CdbFault::WrongLength(10, 12),
        &[0xa0, 0, 0, 0, 0, 0, 0, 0, 0, 0],
    ),
    (CdbFault::WrongLength(5, 6), &[0x00, 255, 255, 255, 255]),
    (CdbFault::ReservedField(4), &[0x00, 0, 0, 0, 1, 0]),
    (CdbFault::ReservedField(1), &[0x00, 128, 0, 0, 1, 0]),
    (CdbFault::ReservedField(1), &[0x03, 2, 0, 0, 18, 0]),
    (CdbFault::ReservedField(2), &[0x03, 1, 1, 1, 18, 0]),
    (CdbFault::ReservedField(1), &[0x08, 32, 0, 0, 0, 0]),
    (CdbFault::ReservedField(1), &[0x0a, 128, 0, 0, 1, 0]),
    (CdbFault::ReservedField(1), &[0x12, 2, 0, 0, 36, 0]),
    (CdbFault::ReservedField(3), &[0x1b, 1, 0, 1, 1, 0]),
    (
        CdbFault::ReservedField(2),
        &[0x25, 0, 1, 0, 0, 0, 0, 0, 1, 0],
    ),
    (
        CdbFault::ReservedField(8),
        &[0x25, 0, 0, 0, 0, 0, 0, 0, 1, 0],
    ),
    (
        CdbFault::ReservedField(1),
        &[0xa0, 1, 0, 0, 0, 0, 0, 0, 0, 0, 0, 0],
    ),
    (
        CdbFault::ReservedField(5),
        &[0xa0, 0, 2, 0, 0, 1, 0, 0, 0, 16, 1, 0],
    ),
    (
        CdbFault::ReservedField(10),
        &[0xa0, 0, 2, 0, 0, 0, 0, 0, 0, 16, 1, 0],
    ),
];

#[test]
fn commands_are_read_and_written_at_the_ends_of_their_fields(rt: HostRuntime) {
    for (wanted, bytes) in COMMANDS {
        let read = decode(bytes);
        assert_eq!(rt; read, Ok(wanted), "reading {bytes:?}");
        if let Ok(command) = read {
            assert_eq!(rt; encode(&command).as_slice(), bytes, "writing {wanted:?}");
            assert_eq!(rt; decode_encoded(&command), Ok(wanted), "there and back");
        }
        let written = encode_decoded(bytes);
        assert!(rt;
            written.is_ok_and(|block| block.as_slice() == bytes),
            "back and there"
        );
    }
}

#[test]
fn other_bytes_are_refused_for_their_first_reason(rt: HostRuntime) {
    for (fault, bytes) in REFUSALS {
        assert_eq!(rt; decode(bytes), Err(fault), "reading {bytes:?}");
        assert_eq!(rt; encode_decoded(bytes), Err(fault), "reading {bytes:?}");
    }
}

#[test]
fn faults_are_told_in_words(rt: HostRuntime) -> Result<(), AllocError> {
    let told = format!(in rt.alloc();
        "{}; {}; {}",
        CdbFault::UnknownCode(0x5e),
        CdbFault::WrongLength(6, 10),
        CdbFault::ReservedField(4)
    )?;
    assert_eq!(rt;
        told.as_str(),
        "5eh is the code of no command; 6 bytes, and the command has 10; a reserved bit of byte 4 is set"
    );
    Ok(())
}
