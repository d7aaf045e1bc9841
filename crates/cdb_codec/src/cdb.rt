use std::error::Error;
use std::fmt;

/// A command, with the fields of its block. TEST UNIT READY, REQUEST SENSE, INQUIRY and REPORT LUNS are those of SPC-4,
/// the others those of SBC-3; the name's number is the length of the block in bytes.
///
/// In all of them `control` is the CONTROL byte, the last of the block (SAM-5, the command descriptor block). `lba` is
/// the LOGICAL BLOCK ADDRESS of the first block, and `len` how many logical blocks from there on. `flags` is the whole
/// of byte 1, and `group` the byte that holds the GROUP NUMBER. `alloc` is the ALLOCATION LENGTH: the most bytes of
/// data-in that are wanted.
#[derive(Clone, Copy, Debug, PartialEq, Eq)]
pub enum Cdb {
    /// 00h, 6 bytes.
    TestUnitReady {
        control: u8,
    },
    /// 03h, 6 bytes. `desc` is DESC: whether sense data is wanted in the descriptor format.
    RequestSense {
        desc: bool,
        alloc: u8,
        control: u8,
    },
    /// 08h, 6 bytes. `lba` is below 2^21; a `len` of 0 means 256 blocks.
    Read6 {
        lba: u32,
        len: u8,
        control: u8,
    },
    /// 0Ah, 6 bytes. `lba` is below 2^21; a `len` of 0 means 256 blocks.
    Write6 {
        lba: u32,
        len: u8,
        control: u8,
    },
    /// 12h, 6 bytes. `evpd` is EVPD: whether the vital product data page of the PAGE CODE `page` is wanted in place of
    /// the standard data.
    Inquiry {
        evpd: bool,
        page: u8,
        alloc: u16,
        control: u8,
    },
    /// START STOP UNIT, 1Bh, 6 bytes. `immed` is IMMED: whether the answer is to come before the unit has started or
    /// stopped. `bits` is byte 4, with START in bit 0, LOEJ in bit 1 and the POWER CONDITION in bits 4 to 7.
    StartStop {
        immed: bool,
        bits: u8,
        control: u8,
    },
    /// 25h, 10 bytes.
    ReadCapacity10 {
        control: u8,
    },
    /// 28h, 10 bytes. `flags` holds RDPROTECT, DPO and FUA; a `len` of 0 means no block.
    Read10 {
        flags: u8,
        lba: u32,
        group: u8,
        len: u16,
        control: u8,
    },
    /// 2Ah, 10 bytes. `flags` holds WRPROTECT, DPO and FUA; a `len` of 0 means no block.
    Write10 {
        flags: u8,
        lba: u32,
        group: u8,
        len: u16,
        control: u8,
    },
    /// SYNCHRONIZE CACHE(10), 35h, 10 bytes. `flags` holds IMMED; a `len` of 0 means all blocks from `lba` on.
    SyncCache10 {
        flags: u8,
        lba: u32,
        group: u8,
        len: u16,
        control: u8,
    },
    /// 88h, 16 bytes. `flags` holds RDPROTECT, DPO and FUA; a `len` of 0 means no block.
    Read16 {
        flags: u8,
        lba: u64,
        len: u32,
        group: u8,
        control: u8,
    },
    /// 8Ah, 16 bytes. `flags` holds WRPROTECT, DPO and FUA; a `len` of 0 means no block.
    Write16 {
        flags: u8,
        lba: u64,
        len: u32,
        group: u8,
        control: u8,
    },
    /// A0h, 12 bytes. `select` is SELECT REPORT, which says what logical units are listed: 02h all of them, 01h the
    /// well known ones alone, 00h all but these.
    ReportLuns {
        select: u8,
        alloc: u32,
        control: u8,
    },
}

/// Why bytes are no command. Where several reasons hold, it is the first in the order of the variants, but for no bytes
/// at all, which is `WrongLength(0, 1)`.
#[derive(Clone, Copy, Debug, PartialEq, Eq)]
pub enum CdbFault {
    /// Byte 0 is the operation code of no command here.
    UnknownCode(u8),
    /// How many bytes there are, and how many the operation code asks for.
    WrongLength(usize, usize),
    /// A bit is set that isn't in a named field. Of the bytes with such a bit it names the first, counted from 0.
    ReservedField(u8),
}

impl fmt::Display for CdbFault {
    fn fmt<W: fmt::Write>(&self, f: &mut fmt::Formatter<W>) -> fmt::Result {
        match self {
            CdbFault::UnknownCode(code) => write!(f, "{code:02x}h is the code of no command"),
            CdbFault::WrongLength(has, wanted) => write!(
                f,
                "{has} bytes, and the command has {wanted}"
            ),
            CdbFault::ReservedField(byte) => write!(f, "a reserved bit of byte {byte} is set"),
        }
    }
}

impl Error for CdbFault {}
