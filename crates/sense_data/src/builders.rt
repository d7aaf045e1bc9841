ghost use Rattle.std.specs.Prelude.{◌≡◌, ◌<◌};
ghost use Rattle.mid_base.specs.Bytes.{sense_list};
ghost use Rattle.sense_data.specs.Grammar.{HasFields, fixed_sense, descriptor_sense};

use crate::codes::{DESCRIPTOR_CURRENT, DESCRIPTOR_DEFERRED, FIXED_CURRENT, FIXED_DEFERRED, VALID};
use byteorder::{BigEndian, ByteOrder};
use mid_base::SenseBytes;

/// Sense data of the fixed form, 18 bytes (SPC-4, 4.5.3): VALID is set and INFORMATION given where there is some.
///
/// The key is one of the 16 of SPC-4, 4.5.6. Read again, the sense data has these fields.
#[tactic(auto, using(crate::proofs::Built::fixed_back))]
pub fn build_fixed(
    key: u8,
    asc: u8,
    ascq: u8,
    information: Option<u32>,
    deferred: bool,
) -> SenseBytes
    requires { key < 16 }
    ensures bytes { sense_list result ≡ fixed_sense key asc ascq information deferred }
    ensures fields { HasFields (sense_list result) key asc ascq information deferred }
{
    let form = if deferred {
        FIXED_DEFERRED
    } else {
        FIXED_CURRENT
    };
    let code = if information.is_some() {
        VALID + form
    } else {
        form
    };
    let mut bytes = [
        code, 0, key, 0, 0, 0, 0, 0x0a, 0, 0, 0, 0, asc, ascq, 0, 0, 0, 0,
    ];
    BigEndian::write_u32(&mut bytes[3..], information.unwrap_or(0));
    SenseBytes::from_slice(&bytes)
}

/// Sense data of the descriptor form (SPC-4, 4.5.2): 8 bytes, or 20 with an information descriptor where there is
/// INFORMATION.
///
/// The key is one of the 16 of SPC-4, 4.5.6. Read again, the sense data has these fields.
#[tactic(auto, using(crate::proofs::Built::descriptor_back))]
pub fn build_descriptor(
    key: u8,
    asc: u8,
    ascq: u8,
    information: Option<u64>,
    deferred: bool,
) -> SenseBytes
    requires { key < 16 }
    ensures bytes { sense_list result ≡ descriptor_sense key asc ascq information deferred }
    ensures fields { HasFields (sense_list result) key asc ascq information deferred }
{
    let code = if deferred {
        DESCRIPTOR_DEFERRED
    } else {
        DESCRIPTOR_CURRENT
    };
    let Some(information) = information else {
        return SenseBytes::from_slice(&[code, key, asc, ascq, 0, 0, 0, 0]);
    };
    let mut bytes = [
        code, key, asc, ascq, 0, 0, 0, 12, 0, 0x0a, VALID, 0, 0, 0, 0, 0, 0, 0, 0, 0,
    ];
    BigEndian::write_u64(&mut bytes[12..], information);
    SenseBytes::from_slice(&bytes)
}
