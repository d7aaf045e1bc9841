ghost use Rattle.std.specs.Prelude.{◌≡◌, ◌≤◌, length, sum};
ghost use Rattle.std.specs.Iterator.{YieldsFirstMut, item_count};
ghost use Rattle.block_store.specs.Parts.{cuts, buffer_left, lengths_left, VisitsParts};

use crate::PartIter;
use std::mem;

/// Cuts a buffer into parts of these lengths: each begins where the one before it ends, and the first at place 0.
///
/// The parts are within the buffer: together they are no longer than it. What is written to them is written to the buffer.
pub fn parts<'a>(buf: &'a mut [u8], lens: &'a [u32]) -> PartIter<'a>
    requires { sum lens.now ≤ length buf.old }
    ensures same_buffer { (buffer_left result).ghost_name ≡ buf.entry.ghost_name }
    ensures whole { (buffer_left result).now ≡ buf.old }
    ensures lengths { lengths_left result ≡ lens.now }
{
    PartIter { rest: buf, lens }
}

impl<'a> Iterator for PartIter<'a> {
    type Item = &'a mut [u8];

    ghost next_gives = { YieldsFirstMut (λ s. cuts (buffer_left s).now (lengths_left s)) };

    ghost remaining = { item_count (λ s. cuts (buffer_left s).now (lengths_left s)) };

    fn next(&mut self) -> Option<&'a mut [u8]> {
        let (len, others) = self.lens.split_first()?;
        let (front, back) = mem::take(&mut self.rest).split_at_mut(*len as usize);
        self.rest = back;
        self.lens = others;
        Some(front)
    }
}

/// Calls `visit` at each part that `parts` would hand out, in order. What a call leaves in its part stands at the part's
/// place in the buffer, and the bytes behind the last part stay.
pub fn for_each_part<F: FnMut(&mut [u8])>(buf: &mut [u8], lens: &[u32], mut visit: F)
    requires inside { sum lens.now ≤ length buf.old }
    requires callable { F.IsAlwaysCallable visit }
    ensures { (last : F) × VisitsParts F.FnMut visit buf.old lens.now last buf.new }
{
    let mut at = 0;
    for len in lens {
        let to = at + *len as usize;
        visit(&mut buf[at..to]);
        at = to;
    }
}
