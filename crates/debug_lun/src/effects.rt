ghost use Rattle.std.specs.Prelude.{◌≡◌, ◌<◌, ◌≤◌, ◌+◌, ◌*◌, ◌++◌, length, take, drop, All, IfOk, OnOk, OnErr};
ghost use Rattle.block_store.specs.Blocks.{bytes_from, with_bytes};
ghost use Rattle.lun_addr.specs.Grammar.{lun_list};
ghost use Rattle.debug_lun.specs.Units.{unit_of, reply_of};
ghost use Rattle.debug_lun.specs.Pages.{inquiry as inquiry_data, capacity, listed_units, sense_bytes as bytes_of_sense};
ghost use Rattle.debug_lun.specs.Serving.{sense_due as due_sense, after_sense, data_reply, write_reply, takes, effect as effect_of, placed};

use crate::pages::{
    IDENTIFICATION, PAGE_LIST, STANDARD_INQUIRY, capacity_data, identification, sense_bytes,
};
use crate::replies::{give, good, written};
use crate::sense_code::sense_with;
use crate::{DebugLun, Sense};
use block_store::BLOCK_SIZE;
use cdb_codec::Cdb;
use mid_base::{Answer, NoMemory};
use sense_data::{
    INITIALIZING_COMMAND_REQUIRED, NO_ADDITIONAL_SENSE, NO_SENSE, NOT_READY, RESET_OCCURRED,
    UNIT_ATTENTION,
};

// SELECT REPORT of REPORT LUNS where the well known logical units alone are asked for (SPC-4).
const WELL_KNOWN: u8 = 0x01;

impl DebugLun {
    // Puts the data of these blocks into the front of the buffer.
    #[tactic(auto, unfolding(crate::specs::Units::unit_of))]
    pub(crate) fn read(&self, first: u64, count: u32, buf: &mut [u8]) -> Answer
        requires inside { first + count ≤ (unit_of self.now).blocks }
        requires few { count ≤ 256 }
        requires room { 131072 ≤ length buf.old }
        ensures reply { reply_of result ≡ data_reply (bytes_from (unit_of self.now).contents first count) }
        ensures buffer { buf.new ≡ placed (bytes_from (unit_of self.now).contents first count) buf.old }
    {
        let length = count as usize * BLOCK_SIZE;
        self.store.read_into(first as u32, &mut buf[..length]);
        good(&buf[..length])
    }

    // Writes the front of the buffer to these blocks.
    #[tactic(auto, unfolding(crate::specs::Units::unit_of))]
    pub(crate) fn write(&mut self, first: u64, count: u32, buf: &[u8]) -> Result<Answer, NoMemory>
        requires inside { first + count ≤ (unit_of self.old).blocks }
        requires few { count ≤ 256 }
        requires room { 131072 ≤ length buf.now }
        ensures reply { IfOk result (λ a. reply_of a ≡ write_reply (take (512 * count) buf.now)) }
        ensures unit { OnOk result (unit_of self.new ≡ (takes (unit_of self.old) first (take (512 * count) buf.now)).unit) }
        ensures no_memory { OnErr result (unit_of self.new ≡ unit_of self.old) }
    {
        let data = &buf[..count as usize * BLOCK_SIZE];
        self.store.write_from(first as u32, data)?;
        Ok(written(data))
    }

    // What a command other than a read or a write does and gives.
    #[tactic(auto, unfolding(crate::specs::Units::unit_of))]
    pub(crate) fn effect(&mut self, c: &Cdb, luns: &[u16], buf: &mut [u8]) -> Answer
        requires count { length luns.now ≤ 256 }
        requires numbers { All (λ n. n ≤ 16383) luns.now }
        requires room { 131072 ≤ length buf.old }
        ensures unit { unit_of self.new ≡ (effect_of (unit_of self.old) c.now luns.now).unit }
        ensures reply { reply_of result ≡ (effect_of (unit_of self.old) c.now luns.now).reply }
        ensures buffer { buf.new ≡ placed (effect_of (unit_of self.old) c.now luns.now).data_in buf.old }
    {
        match *c {
            Cdb::RequestSense { desc, alloc, .. } => self.request_sense(desc, alloc, buf),
            Cdb::Inquiry {
                evpd,
                page,
                alloc,
                ..
            } => self.inquiry(evpd, page, alloc, buf),
            // START is bit 0 (SBC-3, START STOP UNIT).
            Cdb::StartStop { bits, .. } => {
                self.started = bits % 2 == 1;
                good(&[])
            }
            Cdb::ReadCapacity10 { .. } => self.read_capacity(buf),
            Cdb::ReportLuns { select, alloc, .. } => report_luns(select, alloc, luns, buf),
            _ => good(&[]),
        }
    }

    // What is pending, else the unit attention, else that the unit is stopped (SPC-4, REQUEST SENSE).
    #[tactic(auto, unfolding(crate::specs::Units::unit_of))]
    fn sense_due(&self) -> Sense
        ensures due { result ≡ due_sense (unit_of self.now) (unit_of self.now).pending }
        ensures keyed { result.key < 16 }
    {
        if let Some(sense) = self.pending {
            return sense;
        }
        if self.attention {
            return sense_with(UNIT_ATTENTION, RESET_OCCURRED);
        }
        if !self.started {
            return sense_with(NOT_READY, INITIALIZING_COMMAND_REQUIRED);
        }
        sense_with(NO_SENSE, NO_ADDITIONAL_SENSE)
    }

    // What is told ends, also where the allocation length cuts it off.
    #[tactic(auto, unfolding(crate::specs::Units::unit_of))]
    fn request_sense(&mut self, desc: bool, alloc: u8, buf: &mut [u8]) -> Answer
        requires { 131072 ≤ length buf.old }
        ensures unit { unit_of self.new ≡ after_sense (unit_of self.old) (unit_of self.old).pending }
        ensures reply { reply_of result ≡ data_reply (take alloc (bytes_of_sense desc (due_sense (unit_of self.old) (unit_of self.old).pending))) }
        ensures buffer { buf.new ≡ placed (take alloc (bytes_of_sense desc (due_sense (unit_of self.old) (unit_of self.old).pending))) buf.old }
    {
        let bytes = sense_bytes(desc, self.sense_due());
        if self.pending.is_some() {
            self.pending = None;
        } else {
            self.attention = false;
        }
        give(bytes.as_slice(), alloc as usize, buf)
    }

    #[tactic(auto, unfolding(crate::specs::Units::unit_of))]
    fn inquiry(&self, evpd: bool, page: u8, alloc: u16, buf: &mut [u8]) -> Answer
        requires { 131072 ≤ length buf.old }
        ensures reply { reply_of result ≡ data_reply (take alloc (inquiry_data (unit_of self.now).dev evpd page)) }
        ensures buffer { buf.new ≡ placed (take alloc (inquiry_data (unit_of self.now).dev evpd page)) buf.old }
    {
        if !evpd {
            return give(&STANDARD_INQUIRY, alloc as usize, buf);
        }
        if page != IDENTIFICATION {
            return give(&PAGE_LIST, alloc as usize, buf);
        }
        let mut bytes = [0; 21];
        let length = identification(self.dev, &mut bytes);
        give(&bytes[..length], alloc as usize, buf)
    }

    #[tactic(auto, unfolding(crate::specs::Units::unit_of))]
    fn read_capacity(&self, buf: &mut [u8]) -> Answer
        requires { 131072 ≤ length buf.old }
        ensures reply { reply_of result ≡ data_reply (capacity (unit_of self.now).blocks) }
        ensures buffer { buf.new ≡ placed (capacity (unit_of self.now).blocks) buf.old }
    {
        let bytes = capacity_data(self.store.blocks());
        give(&bytes, bytes.len(), buf)
    }
}

// The logical units of a target that are asked for; none of them is a well known one.
fn listed(select: u8, luns: &[u16]) -> &[u16]
    requires count { length luns.now ≤ 256 }
    requires numbers { All (λ n. n ≤ 16383) luns.now }
    ensures listed { result.now ≡ listed_units select luns.now }
    ensures count { length result.now ≤ 256 }
    ensures numbers { All (λ n. n ≤ 16383) result.now }
{
    if select == WELL_KNOWN { &[] } else { luns }
}

#[tactic(auto, using(crate::proofs::Lists::take_list))]
fn report_luns(select: u8, alloc: u32, luns: &[u16], buf: &mut [u8]) -> Answer
    requires count { length luns.now ≤ 256 }
    requires numbers { All (λ n. n ≤ 16383) luns.now }
    requires room { 131072 ≤ length buf.old }
    ensures reply { reply_of result ≡ data_reply (take alloc (lun_list (listed_units select luns.now))) }
    ensures buffer { buf.new ≡ placed (take alloc (lun_list (listed_units select luns.now))) buf.old }
{
    let mut list = [0; 2056];
    let length = lun_addr::write(listed(select, luns), &mut list);
    give(&list[..length], alloc as usize, buf)
}
