//! Command descriptor blocks (CDBs): from bytes to commands, and from commands to bytes.
//!
//! `decode` and `encode` agree with one grammar, which `specs/Grammar.antt` states in the terms of SPC-4 and SBC-3: the
//! operation code, the length of the block, and the named bits of each byte.
#![tactic(auto)]

mod cdb;
mod decoding;
mod encoding;
mod laws;
#[cfg(test)]
mod tests;

pub use cdb::{Cdb, CdbFault};
pub use decoding::decode;
pub use encoding::encode;
pub use laws::{decode_encoded, encode_decoded, spelling_is_read};
