ghost use Rattle.std.specs.Prelude.{◌≡◌, ◌≤◌, length};
ghost use Rattle.std.specs.Iterator.{YieldsFirst, item_count};
ghost use Rattle.sense_data.specs.Grammar.{first_cut};
ghost use Rattle.sense_data.specs.Parts.{part, parts_from, IsWalk};

use std::marker::Model;

// The first descriptor from byte 8 on that isn't whole by `end`.
#[tactic(auto, using(crate::proofs::Walk::cut_step, crate::proofs::Walk::cut_end))]
pub(crate) fn first_cut(b: &[u8], end: usize) -> Option<usize>
    requires begins { 8 ≤ end }
    requires within { end ≤ length b.now }
    ensures { result ≡ first_cut b.now end 8 }
{
    let mut place = 8;
    while place < end {
        if end - place < 2 {
            return Some(place);
        }
        let next = place + 2 + b[place + 1] as usize;
        if next > end {
            return Some(place);
        }
        place = next;
    }
    None
}

// A part of the caller's bytes.
fn part_of(b: &[u8], from: usize, to: usize) -> &[u8]
    requires order { from ≤ to }
    requires within { to ≤ length b.now }
    ensures { result ≡ part b.entry from to }
{
    &b[from..to]
}

/// The descriptors that are left of sense data, each as its type and its body, which is a part of the bytes that were
/// read (SPC-4, 4.5.2.1). A contract sees the list of them.
#[derive(Clone, Debug, Drop)]
pub struct Descriptors<'a> {
    bytes: &'a [u8],
    end: usize,
    place: usize,
}

impl<'a> Model for Descriptors<'a> {
    ghost use Rattle.std.specs.Prelude.{List, ℕ};
    ghost use denote.Bor.{Bor};
    ghost use Rattle.sense_data.specs.Parts.{parts_from, IsWalk};

    ghost Value = { List (ℕ × Bor (List ℕ)) };

    ghost view = { λ d. parts_from d.bytes d.end d.place };

    ghost invariant = { λ d. IsWalk d.bytes.now d.end d.place };
}

impl<'a> Descriptors<'a> {
    // Those from `place` on up to `end`.
    pub(crate) fn new(bytes: &'a [u8], end: usize, place: usize) -> Descriptors<'a>
        requires { IsWalk bytes.now end place }
        ensures { result ≡ parts_from bytes.entry end place }
    {
        Descriptors { bytes, end, place }
    }
}

impl<'a> Iterator for Descriptors<'a> {
    type Item = (u8, &'a [u8]);

    ghost next_gives = { YieldsFirst (λ left. left) };

    ghost remaining = { item_count (λ left. left) };

    #[tactic(auto, using(crate::proofs::Walk::whole_step, crate::proofs::Walk::parts_step, crate::proofs::Walk::parts_end))]
    fn next(&mut self) -> Option<(u8, &'a [u8])> {
        if self.place >= self.end {
            return None;
        }
        let kind = self.bytes[self.place];
        let from = self.place + 2;
        let to = from + self.bytes[self.place + 1] as usize;
        let body = part_of(self.bytes, from, to);
        self.place = to;
        Some((kind, body))
    }
}
