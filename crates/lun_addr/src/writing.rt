ghost use Rattle.std.specs.Prelude.{◌≡◌, ◌≤◌, ◌+◌, ◌*◌, ◌++◌, length, drop, All};
ghost use Rattle.lun_addr.specs.Grammar.{lun_entry, lun_list};

use byteorder::{BigEndian, ByteOrder};

// The two bits of flat space addressing (SAM-5, addressing methods), above the 14 of the number.
const FLAT_SPACE: u16 = 0x4000;

/// Writes the list of these logical units as a device gives it (SPC-4, REPORT LUNS parameter data), and answers its
/// length in bytes: 8, and 8 for each.
///
/// A number below 256 is written with peripheral device addressing, and one from 256 to 16,383 with flat space addressing
/// (SAM-5, addressing methods). There are 256 numbers at most, and there is room for the list; what stands after it stays.
pub fn write(luns: &[u16], into: &mut [u8]) -> usize
    requires numbers { All (λ n. n ≤ 16383) luns.now }
    requires count { length luns.now ≤ 256 }
    requires room { 8 + 8 * length luns.now ≤ length into.old }
    ensures bytes { into.new ≡ lun_list luns.now ++ drop (8 + 8 * length luns.now) into.old }
    ensures length { result ≡ 8 + 8 * length luns.now }
{
    BigEndian::write_u32(into, 8 * luns.len() as u32);
    BigEndian::write_u32(&mut into[4..], 0);
    let mut at = 8;
    for lun in luns {
        write_entry(*lun, &mut into[at..]);
        at += 8;
    }
    at
}

// The entry of one logical unit, in front of what stands there.
fn write_entry(lun: u16, into: &mut [u8])
    requires number { lun ≤ 16383 }
    requires room { 8 ≤ length into.old }
    ensures { into.new ≡ lun_entry lun ++ drop 8 into.old }
{
    let address = if lun < 256 { lun } else { FLAT_SPACE + lun };
    BigEndian::write_u16(into, address);
    BigEndian::write_u48(&mut into[2..], 0);
}
