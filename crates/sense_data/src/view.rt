ghost use Rattle.std.specs.Prelude.{◌≡◌, IfOk, IfErr, IsTrue};
ghost use Rattle.sense_data.specs.Grammar.{refusal, is_valid_sense, response_code, is_fixed, sense_key, sense_asc, sense_ascq, byte_before_end, is_deferred, information};
ghost use Rattle.sense_data.specs.Parts.{descriptor_parts};

use crate::codes::{
    DESCRIPTOR_CURRENT, DESCRIPTOR_DEFERRED, FIXED_CURRENT, FIXED_DEFERRED, RESPONSE_CODE,
    SENSE_KEY, VALID,
};
use crate::descriptors::first_cut;
use crate::{Descriptors, SenseFault};
use byteorder::{BigEndian, ByteOrder};
use std::marker::Model;

/// Valid sense data in the caller's bytes, of the fixed or the descriptor form (SPC-4, 4.5).
///
/// A contract sees the slice that was read.
#[derive(Clone, Debug, Drop)]
pub struct SenseView<'a> {
    bytes: &'a [u8],
    end: usize,
}

impl<'a> Model for SenseView<'a> {
    ghost use Rattle.std.specs.Prelude.{List, ℕ};
    ghost use denote.Bor.{Bor};
    ghost use Rattle.sense_data.specs.Parts.{IsView};

    ghost Value = { Bor (List ℕ) };

    ghost view = { λ v. v.bytes };

    ghost invariant = { λ v. IsView v.bytes.now v.end };
}

impl<'a> SenseView<'a> {
    /// A view of these bytes, where they are sense data: byte 0 has a response code of SPC-4, 4.5.1, there are 8 bytes
    /// at least, and in the descriptor form each descriptor is whole.
    ///
    /// Sense data ends with the slice, or before that where its additional length says so (byte 7, counted from byte 8);
    /// what follows isn't looked at. Sense data that an allocation length cut short is read as far as it goes, except
    /// where the cut is within a descriptor. The errors are tested for in the order of `SenseFault`.
    pub fn read(b: &'a [u8]) -> Result<SenseView<'a>, SenseFault>
        ensures read { IfOk result (λ v. IsTrue (is_valid_sense b.now) × (v ≡ b.entry)) }
        ensures refused { IfErr result (λ e. refusal b.now ≡ Some e) }
    {
        let Some(code) = b.first() else {
            return Err(SenseFault::Empty);
        };
        let form = *code & RESPONSE_CODE;
        if !matches!(form, FIXED_CURRENT..=DESCRIPTOR_DEFERRED) {
            return Err(SenseFault::Code(*code));
        }
        if b.len() < 8 {
            return Err(SenseFault::Short(b.len(), 8));
        }
        let end = b.len().min(8 + b[7] as usize);
        if form >= DESCRIPTOR_CURRENT {
            if let Some(place) = first_cut(b, end) {
                return Err(SenseFault::DescriptorCut(place));
            }
        }
        Ok(SenseView { bytes: b, end })
    }

    /// The sense key, 0 to 15 (SPC-4, 4.5.6).
    pub fn key(&self) -> u8
        ensures { result ≡ sense_key self.now.now }
    {
        if self.is_fixed() {
            self.bytes[2] & SENSE_KEY
        } else {
            self.bytes[1] & SENSE_KEY
        }
    }

    /// The additional sense code; 0 where the fixed form ends before it.
    pub fn asc(&self) -> u8
        ensures { result ≡ sense_asc self.now.now }
    {
        if self.is_fixed() {
            self.byte_before_end(12)
        } else {
            self.bytes[2]
        }
    }

    /// The additional sense code qualifier; 0 where the fixed form ends before it.
    pub fn ascq(&self) -> u8
        ensures { result ≡ sense_ascq self.now.now }
    {
        if self.is_fixed() {
            self.byte_before_end(13)
        } else {
            self.bytes[3]
        }
    }

    /// Whether the error is deferred: it is of an earlier command, and not of the one that brought the sense data
    /// (SPC-4, 4.5.5).
    pub fn deferred(&self) -> bool
        ensures { result ≡ is_deferred self.now.now }
    {
        matches!(self.response_code(), FIXED_DEFERRED | DESCRIPTOR_DEFERRED)
    }

    /// The INFORMATION field, where it is valid: bytes 3 to 6 of the fixed form with VALID set (SPC-4, 4.5.3), else bytes
    /// 4 to 11 of the first information descriptor of length 0Ah with VALID set (4.5.2.2).
    pub fn information(&self) -> Option<u64>
        ensures { result ≡ information self.now.now }
    {
        if self.is_fixed() {
            if self.bytes[0] & VALID == 0 {
                return None;
            }
            return Some(u64::from(BigEndian::read_u32(&self.bytes[3..])));
        }
        for (kind, body) in self.descriptors() {
            if kind == 0 && body.len() == 10 && body[0] & VALID != 0 {
                return Some(BigEndian::read_u64(&body[2..]));
            }
        }
        None
    }

    /// Type and body of each descriptor, in order, as parts of the slice that was read. The fixed form has none.
    #[tactic(auto, using(crate::proofs::Walk::cut_end, crate::proofs::Walk::parts_end, crate::proofs::Walk::valid_walk))]
    pub fn descriptors(&self) -> Descriptors<'a>
        ensures { result ≡ descriptor_parts self.now }
    {
        if self.is_fixed() {
            return Descriptors::new(self.bytes, self.end, self.end);
        }
        Descriptors::new(self.bytes, self.end, 8)
    }

    fn response_code(&self) -> u8
        ensures { result ≡ response_code self.now.now }
    {
        self.bytes[0] & RESPONSE_CODE
    }

    fn is_fixed(&self) -> bool
        ensures { result ≡ is_fixed self.now.now }
    {
        self.response_code() < DESCRIPTOR_CURRENT
    }

    // The byte at `place`, or 0 where the sense data ends before it.
    fn byte_before_end(&self, place: usize) -> u8
        ensures { result ≡ byte_before_end self.now.now place }
    {
        if place < self.end {
            self.bytes[place]
        } else {
            0
        }
    }
}
