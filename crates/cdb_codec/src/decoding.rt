ghost use Rattle.std.specs.Prelude.{◌≡◌, ◌≤◌, ◌-◌, ◌∷◌, ◌↔◌, IfOk, IfErr, IsOk, Some, None, Ok, slice_get, slice_index, bit_and, OnOk};
ghost use Rattle.std.specs.Result.{result_err};
ghost use Rattle.cdb_codec.specs.Grammar.{spelling, Fits, refusal, layout_fault, short_transfer, FitsShortTransfer, short_transfer_bits, transfer, FitsTransfer, transfer_bits, long_transfer, FitsLongTransfer, long_transfer_bits};
ghost use Rattle.cdb_codec.specs.declared.cdb.Cdb.{Cdb as Command};

use crate::{Cdb, CdbFault};

/// The command that these bytes spell, or why they spell none.
///
/// The operation code is looked at first, then the length, then the bits outside the named fields, which have to be 0.
/// Fields of the standards that `Cdb` doesn't name count as reserved.
pub fn decode(b: &[u8]) -> Result<Cdb, CdbFault>
    ensures found { IfOk result (λ c. Fits c × (spelling c ≡ b.now)) }
    ensures only { (c : Command) → Fits c → b.now ≡ spelling c → result ≡ Ok c }
    ensures refused { result_err result ≡ refusal b.now }
{
    match b {
        [] => Err(CdbFault::WrongLength(0, 1)),
        [0x00, ..] => test_unit_ready(b),
        [0x03, ..] => request_sense(b),
        [0x08, ..] => read_6(b),
        [0x0a, ..] => write_6(b),
        [0x12, ..] => inquiry(b),
        [0x1b, ..] => start_stop_unit(b),
        [0x25, ..] => read_capacity_10(b),
        [0x28, ..] => read_10(b),
        [0x2a, ..] => write_10(b),
        [0x35, ..] => synchronize_cache_10(b),
        [0x88, ..] => read_16(b),
        [0x8a, ..] => write_16(b),
        [0xa0, ..] => report_luns(b),
        [code, ..] => Err(CdbFault::UnknownCode(*code)),
    }
}

/// Refuses a byte, which stands at this place, where a bit is set in it outside the named ones.
fn only_named(place: u8, byte: u8, named: u8) -> Result<(), CdbFault>
    ensures ok { IsOk result ↔ (bit_and (255 - named) byte ≡ 0) }
    ensures within { OnOk result (byte ≤ named) }
    ensures err { IfErr result (λ e. e ≡ CdbFault.ReservedField place) }
{
    if !named & byte == 0 {
        Ok(())
    } else {
        Err(CdbFault::ReservedField(place))
    }
}

// In the functions below `r1` is the reserved byte at place 1, and so on. Of the bytes of a number the one with 0 in
// its name is the highest.

fn test_unit_ready(b: &[u8]) -> Result<Cdb, CdbFault>
    requires { slice_get b.now 0 ≡ Some 0x00 }
    ensures found { IfOk result (λ c. Fits c × (spelling c ≡ b.now)) }
    ensures refused { IfErr result (λ e. refusal b.now ≡ Some e) }
{
    let [_, r1, r2, r3, r4, control] = b else {
        return Err(CdbFault::WrongLength(b.len(), 6));
    };
    only_named(1, *r1, 0)?;
    only_named(2, *r2, 0)?;
    only_named(3, *r3, 0)?;
    only_named(4, *r4, 0)?;
    Ok(Cdb::TestUnitReady { control: *control })
}

fn request_sense(b: &[u8]) -> Result<Cdb, CdbFault>
    requires { slice_get b.now 0 ≡ Some 0x03 }
    ensures found { IfOk result (λ c. Fits c × (spelling c ≡ b.now)) }
    ensures refused { IfErr result (λ e. refusal b.now ≡ Some e) }
{
    let [_, desc, r2, r3, alloc, control] = b else {
        return Err(CdbFault::WrongLength(b.len(), 6));
    };
    only_named(1, *desc, 0x01)?;
    only_named(2, *r2, 0)?;
    only_named(3, *r3, 0)?;
    Ok(Cdb::RequestSense {
        desc: *desc == 1,
        alloc: *alloc,
        control: *control,
    })
}

/// The fields of a READ(6) or WRITE(6).
#[derive(Clone, Copy)]
struct ShortTransfer {
    lba: u32,
    len: u8,
    control: u8,
}

fn short_transfer_fields(b: &[u8]) -> Result<ShortTransfer, CdbFault>
    ensures found { IfOk result (λ t. FitsShortTransfer t.lba t.len t.control
        × (slice_index b.now 0 ∷ short_transfer t.lba t.len t.control ≡ b.now)) }
    ensures refused { IfErr result (λ e. layout_fault b.now short_transfer_bits ≡ Some e) }
{
    let [_, l0, l1, l2, len, control] = b else {
        return Err(CdbFault::WrongLength(b.len(), 6));
    };
    only_named(1, *l0, 0x1f)?;
    Ok(ShortTransfer {
        lba: u32::from_be_bytes([0, *l0, *l1, *l2]),
        len: *len,
        control: *control,
    })
}

fn read_6(b: &[u8]) -> Result<Cdb, CdbFault>
    requires { slice_get b.now 0 ≡ Some 0x08 }
    ensures found { IfOk result (λ c. Fits c × (spelling c ≡ b.now)) }
    ensures refused { IfErr result (λ e. refusal b.now ≡ Some e) }
{
    let ShortTransfer { lba, len, control } = short_transfer_fields(b)?;
    Ok(Cdb::Read6 { lba, len, control })
}

fn write_6(b: &[u8]) -> Result<Cdb, CdbFault>
    requires { slice_get b.now 0 ≡ Some 0x0a }
    ensures found { IfOk result (λ c. Fits c × (spelling c ≡ b.now)) }
    ensures refused { IfErr result (λ e. refusal b.now ≡ Some e) }
{
    let ShortTransfer { lba, len, control } = short_transfer_fields(b)?;
    Ok(Cdb::Write6 { lba, len, control })
}

fn inquiry(b: &[u8]) -> Result<Cdb, CdbFault>
    requires { slice_get b.now 0 ≡ Some 0x12 }
    ensures found { IfOk result (λ c. Fits c × (spelling c ≡ b.now)) }
    ensures refused { IfErr result (λ e. refusal b.now ≡ Some e) }
{
    let [_, evpd, page, a0, a1, control] = b else {
        return Err(CdbFault::WrongLength(b.len(), 6));
    };
    only_named(1, *evpd, 0x01)?;
    Ok(Cdb::Inquiry {
        evpd: *evpd == 1,
        page: *page,
        alloc: u16::from_be_bytes([*a0, *a1]),
        control: *control,
    })
}

fn start_stop_unit(b: &[u8]) -> Result<Cdb, CdbFault>
    requires { slice_get b.now 0 ≡ Some 0x1b }
    ensures found { IfOk result (λ c. Fits c × (spelling c ≡ b.now)) }
    ensures refused { IfErr result (λ e. refusal b.now ≡ Some e) }
{
    let [_, immed, r2, r3, bits, control] = b else {
        return Err(CdbFault::WrongLength(b.len(), 6));
    };
    only_named(1, *immed, 0x01)?;
    only_named(2, *r2, 0)?;
    only_named(3, *r3, 0)?;
    Ok(Cdb::StartStop {
        immed: *immed == 1,
        bits: *bits,
        control: *control,
    })
}

fn read_capacity_10(b: &[u8]) -> Result<Cdb, CdbFault>
    requires { slice_get b.now 0 ≡ Some 0x25 }
    ensures found { IfOk result (λ c. Fits c × (spelling c ≡ b.now)) }
    ensures refused { IfErr result (λ e. refusal b.now ≡ Some e) }
{
    let [_, r1, r2, r3, r4, r5, r6, r7, r8, control] = b else {
        return Err(CdbFault::WrongLength(b.len(), 10));
    };
    only_named(1, *r1, 0)?;
    only_named(2, *r2, 0)?;
    only_named(3, *r3, 0)?;
    only_named(4, *r4, 0)?;
    only_named(5, *r5, 0)?;
    only_named(6, *r6, 0)?;
    only_named(7, *r7, 0)?;
    only_named(8, *r8, 0)?;
    Ok(Cdb::ReadCapacity10 { control: *control })
}

/// The fields of a READ(10), WRITE(10) or SYNCHRONIZE CACHE(10).
#[derive(Clone, Copy)]
struct Transfer {
    flags: u8,
    lba: u32,
    group: u8,
    len: u16,
    control: u8,
}

fn transfer_fields(b: &[u8]) -> Result<Transfer, CdbFault>
    ensures found { IfOk result (λ t. FitsTransfer t.flags t.lba t.group t.len t.control
        × (slice_index b.now 0 ∷ transfer t.flags t.lba t.group t.len t.control ≡ b.now)) }
    ensures refused { IfErr result (λ e. layout_fault b.now transfer_bits ≡ Some e) }
{
    let [_, flags, l0, l1, l2, l3, group, n0, n1, control] = b else {
        return Err(CdbFault::WrongLength(b.len(), 10));
    };
    Ok(Transfer {
        flags: *flags,
        lba: u32::from_be_bytes([*l0, *l1, *l2, *l3]),
        group: *group,
        len: u16::from_be_bytes([*n0, *n1]),
        control: *control,
    })
}

fn read_10(b: &[u8]) -> Result<Cdb, CdbFault>
    requires { slice_get b.now 0 ≡ Some 0x28 }
    ensures found { IfOk result (λ c. Fits c × (spelling c ≡ b.now)) }
    ensures refused { IfErr result (λ e. refusal b.now ≡ Some e) }
{
    let t = transfer_fields(b)?;
    Ok(Cdb::Read10 {
        flags: t.flags,
        lba: t.lba,
        group: t.group,
        len: t.len,
        control: t.control,
    })
}

fn write_10(b: &[u8]) -> Result<Cdb, CdbFault>
    requires { slice_get b.now 0 ≡ Some 0x2a }
    ensures found { IfOk result (λ c. Fits c × (spelling c ≡ b.now)) }
    ensures refused { IfErr result (λ e. refusal b.now ≡ Some e) }
{
    let t = transfer_fields(b)?;
    Ok(Cdb::Write10 {
        flags: t.flags,
        lba: t.lba,
        group: t.group,
        len: t.len,
        control: t.control,
    })
}

fn synchronize_cache_10(b: &[u8]) -> Result<Cdb, CdbFault>
    requires { slice_get b.now 0 ≡ Some 0x35 }
    ensures found { IfOk result (λ c. Fits c × (spelling c ≡ b.now)) }
    ensures refused { IfErr result (λ e. refusal b.now ≡ Some e) }
{
    let t = transfer_fields(b)?;
    Ok(Cdb::SyncCache10 {
        flags: t.flags,
        lba: t.lba,
        group: t.group,
        len: t.len,
        control: t.control,
    })
}

/// The fields of a READ(16) or WRITE(16).
#[derive(Clone, Copy)]
struct LongTransfer {
    flags: u8,
    lba: u64,
    len: u32,
    group: u8,
    control: u8,
}

fn long_transfer_fields(b: &[u8]) -> Result<LongTransfer, CdbFault>
    ensures found { IfOk result (λ t. FitsLongTransfer t.flags t.lba t.len t.group t.control
        × (slice_index b.now 0 ∷ long_transfer t.flags t.lba t.len t.group t.control ≡ b.now)) }
    ensures refused { IfErr result (λ e. layout_fault b.now long_transfer_bits ≡ Some e) }
{
    let [
        _,
        flags,
        l0,
        l1,
        l2,
        l3,
        l4,
        l5,
        l6,
        l7,
        n0,
        n1,
        n2,
        n3,
        group,
        control,
    ] = b
    else {
        return Err(CdbFault::WrongLength(b.len(), 16));
    };
    Ok(LongTransfer {
        flags: *flags,
        lba: u64::from_be_bytes([*l0, *l1, *l2, *l3, *l4, *l5, *l6, *l7]),
        len: u32::from_be_bytes([*n0, *n1, *n2, *n3]),
        group: *group,
        control: *control,
    })
}

fn read_16(b: &[u8]) -> Result<Cdb, CdbFault>
    requires { slice_get b.now 0 ≡ Some 0x88 }
    ensures found { IfOk result (λ c. Fits c × (spelling c ≡ b.now)) }
    ensures refused { IfErr result (λ e. refusal b.now ≡ Some e) }
{
    let t = long_transfer_fields(b)?;
    Ok(Cdb::Read16 {
        flags: t.flags,
        lba: t.lba,
        len: t.len,
        group: t.group,
        control: t.control,
    })
}

fn write_16(b: &[u8]) -> Result<Cdb, CdbFault>
    requires { slice_get b.now 0 ≡ Some 0x8a }
    ensures found { IfOk result (λ c. Fits c × (spelling c ≡ b.now)) }
    ensures refused { IfErr result (λ e. refusal b.now ≡ Some e) }
{
    let t = long_transfer_fields(b)?;
    Ok(Cdb::Write16 {
        flags: t.flags,
        lba: t.lba,
        len: t.len,
        group: t.group,
        control: t.control,
    })
}

fn report_luns(b: &[u8]) -> Result<Cdb, CdbFault>
    requires { slice_get b.now 0 ≡ Some 0xa0 }
    ensures found { IfOk result (λ c. Fits c × (spelling c ≡ b.now)) }
    ensures refused { IfErr result (λ e. refusal b.now ≡ Some e) }
{
    let [_, r1, select, r3, r4, r5, a0, a1, a2, a3, r10, control] = b else {
        return Err(CdbFault::WrongLength(b.len(), 12));
    };
    only_named(1, *r1, 0)?;
    only_named(3, *r3, 0)?;
    only_named(4, *r4, 0)?;
    only_named(5, *r5, 0)?;
    only_named(10, *r10, 0)?;
    Ok(Cdb::ReportLuns {
        select: *select,
        alloc: u32::from_be_bytes([*a0, *a1, *a2, *a3]),
        control: *control,
    })
}
