ghost use Rattle.std.specs.Prelude.{◌≡◌, ◌<◌, ◌≤◌, length, IfOk, MatchOption, None, Some};
ghost use Rattle.script_words.specs.Hex.{digit, hex_bytes, hex_byte, hex_half, cdb_of, sense_of};

use mid_base::{CdbBytes, SenseBytes};
use std::alloc::{AllocError, Global};

fn digit(b: u8) -> Option<u8>
    ensures { result ≡ digit b }
{
    match b {
        b'0'..=b'9' => Some(b - b'0'),
        b'a'..=b'f' => Some(b - b'a' + 10),
        b'A'..=b'F' => Some(b - b'A' + 10),
        _ => None,
    }
}

/// The bytes of a word of hexadecimal digits of either case, two for each byte. Any other word says no bytes.
#[tactic(auto, using(crate::proofs::HexLoop::joined_put), unfolding(crate::specs::Hex::hex_bytes))]
pub fn hex_bytes(alloc: Global, word: &[u8]) -> Result<Option<Vec<u8>>, AllocError>
    ensures { IfOk result (λ r. MatchOption r (hex_bytes word.now ≡ None) (λ v. hex_bytes word.now ≡ Some v.items)) }
{
    let mut bytes = Vec::new(alloc);
    let mut rest = word;
    while let Some((high, others)) = rest.split_first() {
        let Some((low, others)) = others.split_first() else {
            return Ok(None);
        };
        let (Some(h), Some(l)) = (digit(*high), digit(*low)) else {
            return Ok(None);
        };
        bytes.push(16 * h + l)?;
        rest = others;
    }
    Ok(Some(bytes))
}

/// The byte of two hexadecimal digits.
pub fn hex_byte(word: &[u8]) -> Option<u8>
    ensures { result ≡ hex_byte word.now }
{
    match word {
        [high, low] => match (digit(*high), digit(*low)) {
            (Some(h), Some(l)) => Some(16 * h + l),
            _ => None,
        },
        _ => None,
    }
}

/// The half byte of one hexadecimal digit.
pub fn hex_half(word: &[u8]) -> Option<u8>
    ensures { result ≡ hex_half word.now }
{
    match word {
        [b] => digit(*b),
        _ => None,
    }
}

/// The command descriptor block of these bytes.
#[tactic(auto, using(crate::proofs::Packed::cdb_is))]
pub fn cdb_of(bytes: &[u8]) -> CdbBytes
    requires some { 0 < length bytes.now }
    requires fits { length bytes.now ≤ 16 }
    ensures { result ≡ cdb_of bytes.now }
{
    CdbBytes::from_slice(bytes)
}

/// The sense data of these bytes.
#[tactic(auto, using(crate::proofs::Packed::sense_is))]
pub fn sense_of(bytes: &[u8]) -> SenseBytes
    requires { length bytes.now ≤ 252 }
    ensures { result ≡ sense_of bytes.now }
{
    SenseBytes::from_slice(bytes)
}
