ghost use Rattle.std.specs.Prelude.{◌≤◌, length, sum};

/// The parts of a buffer that are still to come, in order. Contracts name the buffer from there on by `buffer_left`, and
/// the lengths of its parts by `lengths_left`.
#[derive(Drop)]
pub struct PartIter<'a> {
    pub(crate) rest: &'a mut [u8],
    pub(crate) lens: &'a [u32],
    pub(crate) ghost room: { sum lens.now ≤ length rest.now },
}
