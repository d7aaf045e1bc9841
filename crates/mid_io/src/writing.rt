ghost use Rattle.std.specs.Prelude.{◌≤◌};
ghost use Rattle.mid_io.specs.Whole.{WritesAll};

use crate::{Failed, Sink};

/// Writes all the bytes. What is left of a piece that is taken in part is offered on.
///
/// After a failure the sink's count of faults rose, and a front of the bytes is out.
pub fn write_all<K: Sink>(out: &mut K, bytes: &[u8]) -> Result<(), Failed>
    ensures answer { WritesAll (K.written out.old) (K.written out.new) bytes.now (K.faults out.old) (K.faults out.new) result }
    ensures later { K.faults out.old ≤ K.faults out.new }
{
    let mut at = 0;
    while at < bytes.len() {
        match out.write(&bytes[at..]) {
            Ok(count) => at += count,
            Err(failed) => return Err(failed),
        }
    }
    Ok(())
}

#[cfg(test)]
mod tests;
