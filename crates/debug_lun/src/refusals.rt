ghost use Rattle.std.specs.Prelude.{◌≡◌, ◌+◌, ◌<◌, IfSome, nat_lt};
ghost use Rattle.debug_lun.specs.Units.{unit_of};
ghost use Rattle.debug_lun.specs.Pages.{is_unknown_page as unknown_page};
ghost use Rattle.debug_lun.specs.Serving.{refusals, first_refusal};

use crate::commands::{block_count, first_block, is_read, is_write, needs_start, passes_attention};
use crate::sense_code::sense_with;
use crate::{DebugLun, Sense};
use cdb_codec::Cdb;
use sense_data::{
    BLOCK_ADDRESS_OUT_OF_RANGE, DATA_PROTECT, ILLEGAL_REQUEST, INITIALIZING_COMMAND_REQUIRED,
    INVALID_FIELD_IN_CDB, NOT_READY, RESET_OCCURRED, UNIT_ATTENTION, WRITE_PROTECTED,
};

// The most blocks that one command moves.
pub(crate) const MOST_BLOCKS: u32 = 256;

// INQUIRY for a page that there isn't, or for a page without EVPD; REPORT LUNS for a SELECT REPORT above 02h (SPC-4).
fn is_unknown_page(c: &Cdb) -> bool
    ensures { result ≡ unknown_page c.now }
{
    match *c {
        Cdb::Inquiry { evpd, page, .. } => page != 0x00 && !(evpd && page == 0x83),
        Cdb::ReportLuns { select, .. } => select > 2,
        _ => false,
    }
}

impl DebugLun {
    // What refuses a command, by the first that does.
    #[tactic(auto, unfolding(crate::specs::Units::unit_of))]
    pub(crate) fn refusal(&self, c: &Cdb) -> Option<Sense>
        ensures refusal { result ≡ first_refusal (refusals (unit_of self.now) c.now) }
        ensures keyed { IfSome result (λ s. s.key < 16) }
    {
        if self.attention && !passes_attention(c) {
            return Some(sense_with(UNIT_ATTENTION, RESET_OCCURRED));
        }
        if !self.started && needs_start(c) {
            return Some(sense_with(NOT_READY, INITIALIZING_COMMAND_REQUIRED));
        }
        if self.write_protected && is_write(c) {
            return Some(sense_with(DATA_PROTECT, WRITE_PROTECTED));
        }
        if (is_read(c) || is_write(c)) && block_count(c) > MOST_BLOCKS {
            return Some(sense_with(ILLEGAL_REQUEST, INVALID_FIELD_IN_CDB));
        }
        if self.is_out_of_range(first_block(c), block_count(c)) {
            return Some(sense_with(ILLEGAL_REQUEST, BLOCK_ADDRESS_OUT_OF_RANGE));
        }
        if is_unknown_page(c) {
            return Some(sense_with(ILLEGAL_REQUEST, INVALID_FIELD_IN_CDB));
        }
        None
    }

    // Whether so many blocks from this one on end beyond the unit's last.
    #[tactic(auto, unfolding(crate::specs::Units::unit_of))]
    fn is_out_of_range(&self, first: u64, count: u32) -> bool
        ensures { result ≡ nat_lt (unit_of self.now).blocks (first + count) }
    {
        let blocks = u64::from(self.store.blocks());
        first > blocks || u64::from(count) > blocks - first
    }
}
