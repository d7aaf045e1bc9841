ghost use Rattle.std.specs.Prelude.{◌≡◌, ◌≤◌, ◌==◌, IfOk, IfErr, IsTrue, All, length};
ghost use Rattle.std.specs.Iterator.{YieldsFirst, item_count};
ghost use Rattle.lun_addr.specs.Grammar.{refusal, is_lun_list};
ghost use Rattle.lun_addr.specs.Parts.{part, list_part, entry_parts, parts_from};

use crate::ListFault;
use byteorder::{BigEndian, ByteOrder};
use std::marker::Model;

/// A whole list of logical units in the caller's bytes, as a device gives it (SPC-4, REPORT LUNS parameter data).
///
/// A contract sees the part of the slice that has the entries.
#[derive(Clone, Debug, Drop)]
pub struct LunList<'a> {
    entries: &'a [u8],
}

impl<'a> Model for LunList<'a> {
    ghost use Rattle.std.specs.Prelude.{List, ℕ};
    ghost use denote.Bor.{Bor};

    ghost Value = { Bor (List ℕ) };

    ghost view = { λ l. l.entries };
}

impl<'a> LunList<'a> {
    /// The list in these bytes, where it is whole: a list length of four bytes, which counts bytes and is a multiple of 8,
    /// four reserved bytes, and at least as many bytes as the list length says.
    ///
    /// What follows the last entry isn't looked at. The errors are tested for in the order of `ListFault`.
    pub fn read(b: &'a [u8]) -> Result<LunList<'a>, ListFault>
        ensures read { IfOk result (λ l. IsTrue (is_lun_list b.now) × (l ≡ list_part b.entry)) }
        ensures refused { IfErr result (λ e. refusal b.now ≡ Some e) }
    {
        if b.len() < 8 {
            return Err(ListFault::Short(b.len()));
        }
        let told = BigEndian::read_u32(b);
        if told % 8 != 0 {
            return Err(ListFault::Uneven(told));
        }
        let present = b.len() - 8;
        if present < told as usize {
            return Err(ListFault::Cut(told, present));
        }
        Ok(LunList {
            entries: part_of(b, 8, 8 + told as usize),
        })
    }

    /// How many entries it has.
    #[tactic(auto, using(crate::proofs::Entries::as_many_parts))]
    pub fn len(&self) -> usize
        ensures { result ≡ length (entry_parts self.now) }
    {
        self.entries.len() / 8
    }

    /// Whether it has none.
    pub fn is_empty(&self) -> bool
        ensures { result ≡ (length (entry_parts self.now) == 0) }
    {
        self.len() == 0
    }

    /// Each entry, eight bytes, in order, as parts of the slice that was read.
    #[tactic(auto, using(crate::proofs::Entries::eight_each))]
    pub fn iter(&self) -> LunIter<'a>
        ensures entries { result ≡ entry_parts self.now }
        ensures eight_bytes { All (λ e. length e.now ≡ 8) result }
    {
        LunIter {
            entries: self.entries,
            next: 0,
        }
    }
}

// A part of the caller's bytes.
fn part_of(b: &[u8], from: usize, to: usize) -> &[u8]
    requires order { from ≤ to }
    requires within { to ≤ length b.now }
    ensures { result ≡ part b.entry from to }
{
    &b[from..to]
}

/// The entries that are left of a list, each a part of eight bytes of the bytes that were read. A contract sees the list
/// of them.
#[derive(Clone, Debug, Drop)]
pub struct LunIter<'a> {
    entries: &'a [u8],
    next: usize,
}

impl<'a> Model for LunIter<'a> {
    ghost use Rattle.std.specs.Prelude.{List, ℕ};
    ghost use denote.Bor.{Bor};
    ghost use Rattle.lun_addr.specs.Parts.{parts_from};

    ghost Value = { List (Bor (List ℕ)) };

    ghost view = { λ i. parts_from i.entries i.next };
}

impl<'a> Iterator for LunIter<'a> {
    type Item = &'a [u8];

    ghost next_gives = { YieldsFirst (λ left. left) };

    ghost remaining = { item_count (λ left. left) };

    #[tactic(auto, using(crate::proofs::Entries::parts_step, crate::proofs::Entries::parts_end))]
    fn next(&mut self) -> Option<&'a [u8]> {
        if self.next >= self.entries.len() / 8 {
            return None;
        }
        let place = 8 * self.next;
        let entry = part_of(self.entries, place, place + 8);
        self.next += 1;
        Some(entry)
    }
}
