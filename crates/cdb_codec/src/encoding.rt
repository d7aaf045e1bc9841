ghost use Rattle.std.specs.Prelude.{◌≡◌, ◌<◌, ◌^◌, ◌∷◌};
ghost use Rattle.mid_base.specs.Bytes.{cdb_list};
ghost use Rattle.cdb_codec.specs.Grammar.{spelling, Fits, HasShortAddress, IsTransfer, IsLongTransfer, short_transfer, transfer, long_transfer};

use crate::Cdb;
use mid_base::CdbBytes;

/// The bytes of a command, 6 to 16 of them.
///
/// The address of a `Read6` or `Write6` has to be below 2^21. The type gives every other field its width, so that each
/// fits its place.
pub fn encode(c: &Cdb) -> CdbBytes
    requires { HasShortAddress c.now }
    ensures fits { Fits c.now }
    ensures spelled { cdb_list result ≡ spelling c.now }
{
    match *c {
        Cdb::TestUnitReady { control } => test_unit_ready(control),
        Cdb::RequestSense {
            desc,
            alloc,
            control,
        } => request_sense(desc, alloc, control),
        Cdb::Read6 { lba, len, control } => short_transfer_block(0x08, lba, len, control),
        Cdb::Write6 { lba, len, control } => short_transfer_block(0x0a, lba, len, control),
        Cdb::Inquiry {
            evpd,
            page,
            alloc,
            control,
        } => inquiry(evpd, page, alloc, control),
        Cdb::StartStop {
            immed,
            bits,
            control,
        } => start_stop_unit(immed, bits, control),
        Cdb::ReadCapacity10 { control } => read_capacity_10(control),
        Cdb::ReportLuns {
            select,
            alloc,
            control,
        } => report_luns(select, alloc, control),
        Cdb::Read10 { .. } | Cdb::Write10 { .. } | Cdb::SyncCache10 { .. } => ten_byte_transfer(c),
        Cdb::Read16 { .. } | Cdb::Write16 { .. } => sixteen_byte_transfer(c),
    }
}

fn ten_byte_transfer(c: &Cdb) -> CdbBytes
    requires { IsTransfer c.now }
    ensures fits { Fits c.now }
    ensures spelled { cdb_list result ≡ spelling c.now }
{
    match *c {
        Cdb::Read10 {
            flags,
            lba,
            group,
            len,
            control,
        } => transfer_block(0x28, flags, lba, group, len, control),
        Cdb::Write10 {
            flags,
            lba,
            group,
            len,
            control,
        } => transfer_block(0x2a, flags, lba, group, len, control),
        Cdb::SyncCache10 {
            flags,
            lba,
            group,
            len,
            control,
        } => transfer_block(0x35, flags, lba, group, len, control),
        _ => unreachable!(),
    }
}

fn sixteen_byte_transfer(c: &Cdb) -> CdbBytes
    requires { IsLongTransfer c.now }
    ensures fits { Fits c.now }
    ensures spelled { cdb_list result ≡ spelling c.now }
{
    match *c {
        Cdb::Read16 {
            flags,
            lba,
            len,
            group,
            control,
        } => long_transfer_block(0x88, flags, lba, len, group, control),
        Cdb::Write16 {
            flags,
            lba,
            len,
            group,
            control,
        } => long_transfer_block(0x8a, flags, lba, len, group, control),
        _ => unreachable!(),
    }
}

fn test_unit_ready(control: u8) -> CdbBytes
    ensures { cdb_list result ≡ spelling (Cdb.TestUnitReady control) }
{
    CdbBytes::from_slice(&[0x00, 0, 0, 0, 0, control])
}

fn request_sense(desc: bool, alloc: u8, control: u8) -> CdbBytes
    ensures { cdb_list result ≡ spelling (Cdb.RequestSense desc alloc control) }
{
    CdbBytes::from_slice(&[0x03, u8::from(desc), 0, 0, alloc, control])
}

fn inquiry(evpd: bool, page: u8, alloc: u16, control: u8) -> CdbBytes
    ensures { cdb_list result ≡ spelling (Cdb.Inquiry evpd page alloc control) }
{
    let [a0, a1] = alloc.to_be_bytes();
    CdbBytes::from_slice(&[0x12, u8::from(evpd), page, a0, a1, control])
}

fn start_stop_unit(immed: bool, bits: u8, control: u8) -> CdbBytes
    ensures { cdb_list result ≡ spelling (Cdb.StartStop immed bits control) }
{
    CdbBytes::from_slice(&[0x1b, u8::from(immed), 0, 0, bits, control])
}

fn read_capacity_10(control: u8) -> CdbBytes
    ensures { cdb_list result ≡ spelling (Cdb.ReadCapacity10 control) }
{
    CdbBytes::from_slice(&[0x25, 0, 0, 0, 0, 0, 0, 0, 0, control])
}

fn report_luns(select: u8, alloc: u32, control: u8) -> CdbBytes
    ensures { cdb_list result ≡ spelling (Cdb.ReportLuns select alloc control) }
{
    let [a0, a1, a2, a3] = alloc.to_be_bytes();
    CdbBytes::from_slice(&[0xa0, 0, select, 0, 0, 0, a0, a1, a2, a3, 0, control])
}

/// READ(6) and WRITE(6), whose bytes differ in the code alone.
fn short_transfer_block(code: u8, lba: u32, len: u8, control: u8) -> CdbBytes
    requires { lba < 2 ^ 21 }
    ensures { cdb_list result ≡ code ∷ short_transfer lba len control }
{
    let [_, l0, l1, l2] = lba.to_be_bytes();
    CdbBytes::from_slice(&[code, l0, l1, l2, len, control])
}

/// READ(10), WRITE(10) and SYNCHRONIZE CACHE(10).
fn transfer_block(code: u8, flags: u8, lba: u32, group: u8, len: u16, control: u8) -> CdbBytes
    ensures { cdb_list result ≡ code ∷ transfer flags lba group len control }
{
    let [l0, l1, l2, l3] = lba.to_be_bytes();
    let [n0, n1] = len.to_be_bytes();
    CdbBytes::from_slice(&[code, flags, l0, l1, l2, l3, group, n0, n1, control])
}

/// READ(16) and WRITE(16).
fn long_transfer_block(code: u8, flags: u8, lba: u64, len: u32, group: u8, control: u8) -> CdbBytes
    ensures { cdb_list result ≡ code ∷ long_transfer flags lba len group control }
{
    let [l0, l1, l2, l3, l4, l5, l6, l7] = lba.to_be_bytes();
    let [n0, n1, n2, n3] = len.to_be_bytes();
    CdbBytes::from_slice(&[
        code, flags, l0, l1, l2, l3, l4, l5, l6, l7, n0, n1, n2, n3, group, control,
    ])
}
