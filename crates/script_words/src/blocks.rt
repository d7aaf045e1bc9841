ghost use Rattle.std.specs.Prelude.{◌≡◌, ◌<◌, ◌≤◌, length};
ghost use Rattle.script_words.specs.Faults.{BytesGive};

use crate::hex::hex_bytes;
use crate::kind::{Kind, LineFault};
use std::alloc::Global;

/// The next word as 1 to `most` bytes in hexadecimal digits, two for each.
pub fn bytes_in(alloc: Global, word: Option<&[u8]>, most: usize) -> Result<Vec<u8>, LineFault>
    ensures { BytesGive most word.entry result }
{
    let Some(word) = word else {
        return Err(LineFault::Bad(Kind::Missing));
    };
    match hex_bytes(alloc, word) {
        Err(_) => Err(LineFault::Memory),
        Ok(None) => Err(LineFault::Bad(Kind::Hex)),
        Ok(Some(bytes)) => {
            if 1 <= bytes.len() && bytes.len() <= most {
                Ok(bytes)
            } else {
                Err(LineFault::Bad(Kind::Limit))
            }
        }
    }
}
