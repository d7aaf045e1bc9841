ghost use Rattle.std.specs.Prelude.{◌≡◌, ◌<◌, true, false, Some, None, length, replicate, slice_set, IfOk, MatchOption};
ghost use Rattle.tag_pool.specs.Tags.{holder, is_out, all_out, AllOut, IsLeastFree};

use crate::words::{clear_bit, least_set, set_bit};
use mid_base::{DevAddr, NoMemory};
use std::alloc::Global;
use std::marker::Model;

/// The tags of a host. Contracts see for each tag the device that it is out for.
#[derive(Drop)]
pub(crate) struct Tags {
    // The bits of the free tags are set.
    free: Vec<u64>,
    holders: Vec<Option<DevAddr>>,
    // How many are out.
    out: u16,
}

impl Model for Tags {
    ghost use Rattle.std.specs.Prelude.{◌≡◌, ◌<◌, ◌^◌, vec_len};
    ghost use Rattle.tag_pool.specs.Tags.{Holders, all_out};
    ghost use Rattle.tag_pool.specs.Words.{AreFree};

    ghost Value = { Holders };

    ghost view = { λ t. t.holders.items };

    ghost invariant = { λ t. (vec_len t.holders < 2 ^ 16) × AreFree t.free.items t.holders.items × (t.out ≡ all_out t.holders.items) };
}

impl Tags {
    /// So many free tags. NoMemory where their room can't be had.
    pub(crate) fn new(alloc: Global, count: u16) -> Result<Tags, NoMemory>
        ensures { IfOk result (λ t. t ≡ replicate count None) }
    {
        let tags = usize::from(count);
        let Ok(mut free) = vec![in alloc; 0; tags / 64 + 1] else {
            return Err(NoMemory);
        };
        let Ok(holders) = vec![in alloc; None; tags] else {
            return Err(NoMemory);
        };
        for t in 0..tags {
            set_bit(&mut free, t);
        }
        Ok(Tags {
            free,
            holders,
            out: 0,
        })
    }

    /// How many tags there are.
    pub(crate) fn count(&self) -> u16
        ensures { result ≡ length self.now }
    {
        self.holders.len() as u16
    }

    /// How many are out.
    pub(crate) fn all_out(&self) -> u16
        ensures { result ≡ all_out self.now }
    {
        self.out
    }

    /// The least free tag, None where all are out.
    pub(crate) fn least_free(&self) -> Option<u16>
        ensures { MatchOption result (AllOut self.now) (λ t. IsLeastFree t self.now) }
    {
        match least_set(&self.free) {
            Some(t) => Some(t as u16),
            None => None,
        }
    }

    /// Takes a free tag for a device.
    pub(crate) fn take(&mut self, t: u16, dev: DevAddr)
        requires within { t < length self.old }
        requires free { is_out t self.old ≡ false }
        ensures { self.new ≡ slice_set self.old t (Some dev) }
    {
        let t = usize::from(t);
        clear_bit(&mut self.free, t);
        self.holders[t] = Some(dev);
        self.out += 1;
    }

    /// Gives back a tag that is out, and says for which device it was.
    pub(crate) fn give(&mut self, t: u16) -> DevAddr
        requires { is_out t self.old ≡ true }
        ensures holder { holder t self.old ≡ Some result }
        ensures free { self.new ≡ slice_set self.old t None }
    {
        let t = usize::from(t);
        let Some(dev) = self.holders[t] else {
            unreachable!();
        };
        set_bit(&mut self.free, t);
        self.holders[t] = None;
        self.out -= 1;
        dev
    }
}
