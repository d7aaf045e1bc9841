ghost use Rattle.std.specs.Prelude.{◌≡◌, length};
ghost use Rattle.lun_addr.specs.Grammar.{lun_number};

use crate::Form;
use byteorder::{BigEndian, ByteOrder};

/// The number of a logical unit in the eight bytes of its entry: byte 1 with peripheral device addressing on bus 0, and
/// the 14 bits below the highest two with flat space addressing (SAM-5, addressing methods).
///
/// Any other entry is refused with its byte 0. The bytes from the third on address levels below, and aren't looked at.
pub fn number(entry: &[u8]) -> Result<u16, Form>
    requires { length entry.now ≡ 8 }
    ensures { result ≡ lun_number entry.now }
{
    let first = entry[0];
    if first == 0 {
        return Ok(u16::from(entry[1]));
    }
    if first >> 6 == 1 {
        return Ok(BigEndian::read_u16(entry) & 0x3fff);
    }
    Err(Form(first))
}
