ghost use Rattle.std.specs.Prelude.{◌≡◌, ◌<◌, ◌≤◌, IfErr};
ghost use Rattle.mid_base.specs.Bytes.{cdb_list};
ghost use Rattle.debug_lun.specs.Commands.{read_command as read_command_of, passes_attention as passes, needs_start as needs, is_read as reads, is_write as writes, first_block as first_of, block_count as count_of, short_count as count_of_short, fault_sense as sense_of_fault, needed_by as needed, data_needed as bytes_needed};

use crate::Sense;
use crate::refusals::MOST_BLOCKS;
use crate::sense_code::sense_with;
use block_store::BLOCK_SIZE;
use cdb_codec::{Cdb, CdbFault, decode};
use mid_base::CdbBytes;
use sense_data::{ILLEGAL_REQUEST, INVALID_COMMAND_OPERATION_CODE, INVALID_FIELD_IN_CDB};

fn fault_sense(fault: CdbFault) -> Sense
    ensures { result ≡ sense_of_fault fault }
{
    match fault {
        CdbFault::UnknownCode(_) => sense_with(ILLEGAL_REQUEST, INVALID_COMMAND_OPERATION_CODE),
        _ => sense_with(ILLEGAL_REQUEST, INVALID_FIELD_IN_CDB),
    }
}

// The command of a block, or the sense of its refusal.
#[tactic(auto, using(crate::proofs::Spelled::read_refused))]
pub(crate) fn read_command(cdb: &CdbBytes) -> Result<Cdb, Sense>
    ensures read { result ≡ read_command_of (cdb_list cdb.now) }
    ensures keyed { IfErr result (λ s. s.key < 16) }
{
    match decode(cdb.as_slice()) {
        Ok(command) => Ok(command),
        Err(fault) => Err(fault_sense(fault)),
    }
}

// A unit attention keeps all but INQUIRY, REPORT LUNS and REQUEST SENSE from being served (SAM-5, unit attention
// conditions).
pub(crate) fn passes_attention(c: &Cdb) -> bool
    ensures { result ≡ passes c.now }
{
    matches!(
        c,
        Cdb::Inquiry { .. } | Cdb::RequestSense { .. } | Cdb::ReportLuns { .. }
    )
}

pub(crate) fn is_read(c: &Cdb) -> bool
    ensures { result ≡ reads c.now }
{
    matches!(
        c,
        Cdb::Read6 { .. } | Cdb::Read10 { .. } | Cdb::Read16 { .. }
    )
}

pub(crate) fn is_write(c: &Cdb) -> bool
    ensures { result ≡ writes c.now }
{
    matches!(
        c,
        Cdb::Write6 { .. } | Cdb::Write10 { .. } | Cdb::Write16 { .. }
    )
}

// A unit that is stopped serves none of these.
pub(crate) fn needs_start(c: &Cdb) -> bool
    ensures { result ≡ needs c.now }
{
    is_read(c)
        || is_write(c)
        || matches!(
            c,
            Cdb::TestUnitReady { .. } | Cdb::ReadCapacity10 { .. } | Cdb::SyncCache10 { .. }
        )
}

// The number of the first block that a command is for; 0 for commands that are for none.
pub(crate) fn first_block(c: &Cdb) -> u64
    ensures { result ≡ first_of c.now }
{
    match *c {
        Cdb::Read6 { lba, .. } | Cdb::Write6 { lba, .. } => u64::from(lba),
        Cdb::Read10 { lba, .. } | Cdb::Write10 { lba, .. } | Cdb::SyncCache10 { lba, .. } => {
            u64::from(lba)
        }
        Cdb::Read16 { lba, .. } | Cdb::Write16 { lba, .. } => lba,
        _ => 0,
    }
}

// How many blocks a command is for; 0 for commands that are for none.
pub(crate) fn block_count(c: &Cdb) -> u32
    ensures { result ≡ count_of c.now }
{
    match *c {
        Cdb::Read6 { len, .. } | Cdb::Write6 { len, .. } => short_count(len),
        Cdb::Read10 { len, .. } | Cdb::Write10 { len, .. } | Cdb::SyncCache10 { len, .. } => {
            u32::from(len)
        }
        Cdb::Read16 { len, .. } | Cdb::Write16 { len, .. } => len,
        _ => 0,
    }
}

// In READ(6) and WRITE(6) a TRANSFER LENGTH of 0 means 256 blocks (SBC-3).
fn short_count(len: u8) -> u32
    ensures { result ≡ count_of_short len }
{
    if len == 0 { 256 } else { u32::from(len) }
}

fn needed_by(c: &Cdb) -> usize
    ensures needed { result ≡ needed c.now }
    ensures few { result ≤ 131072 }
{
    let count = block_count(c);
    if is_write(c) && count <= MOST_BLOCKS {
        count as usize * BLOCK_SIZE
    } else {
        0
    }
}

/// How many bytes at the front of the data-out a command looks at: those of a write's blocks, at most 131,072, and none where
/// it is another command.
#[tactic(auto, unfolding(crate::specs::Commands::data_needed))]
pub fn data_needed(cdb: &CdbBytes) -> usize
    ensures needed { result ≡ bytes_needed (cdb_list cdb.now) }
    ensures few { result ≤ 131072 }
{
    match read_command(cdb) {
        Ok(command) => needed_by(&command),
        Err(_) => 0,
    }
}
