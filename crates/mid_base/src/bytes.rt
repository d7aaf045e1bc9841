ghost use Rattle.std.specs.Prelude.{◌≡◌, ◌<◌, ◌≤◌, length};
ghost use Rattle.mid_base.specs.Padded.{IsPadded};

use std::fmt;

/// A command descriptor block of 1 to 16 bytes (SPC-4, 4.3). The bytes past `len` are zero, so equal lists are equal
/// values. A contract names the list by `cdb_list`.
#[derive(Clone, Copy, PartialEq, Eq)]
pub struct CdbBytes {
    len: u8,
    bytes: [u8; 16],
    pub ghost padded: { IsPadded 16 len bytes },
}

impl CdbBytes {
    ghost use Rattle.mid_base.specs.Bytes.{cdb_list};

    /// The block of these bytes.
    #[tactic(auto, using(crate::specs::Padded::padded_made))]
    pub fn from_slice(b: &[u8]) -> CdbBytes
        requires some { 0 < length b.now }
        requires fits { length b.now ≤ 16 }
        ensures { cdb_list result ≡ b.now }
    {
        let mut bytes = [0u8; 16];
        bytes[..b.len()].copy_from_slice(b);
        CdbBytes {
            len: b.len() as u8,
            bytes,
        }
    }

    /// Its bytes, without the padding.
    pub fn as_slice(&self) -> &[u8]
        ensures { result.now ≡ cdb_list self.now }
    {
        &self.bytes[..self.len as usize]
    }
}

/// Sense data of 0 to 252 bytes (SPC-4, 4.5). The bytes past `len` are zero, so equal lists are equal values. A contract
/// names the list by `sense_list`.
#[derive(Clone, Copy, PartialEq, Eq)]
pub struct SenseBytes {
    len: u8,
    bytes: [u8; 252],
    pub ghost padded: { IsPadded 252 len bytes },
}

impl SenseBytes {
    ghost use Rattle.mid_base.specs.Bytes.{no_sense, sense_list};

    /// No sense at all.
    pub fn empty() -> SenseBytes
        ensures { result ≡ no_sense }
    {
        SenseBytes {
            len: 0,
            bytes: [0; 252],
        }
    }

    /// The sense of these bytes.
    pub fn from_slice(b: &[u8]) -> SenseBytes
        requires { length b.now ≤ 252 }
        ensures { sense_list result ≡ b.now }
    {
        let mut bytes = [0u8; 252];
        bytes[..b.len()].copy_from_slice(b);
        SenseBytes {
            len: b.len() as u8,
            bytes,
        }
    }

    /// Its bytes, without the padding.
    pub fn as_slice(&self) -> &[u8]
        ensures { result.now ≡ sense_list self.now }
    {
        &self.bytes[..self.len as usize]
    }
}

impl fmt::Debug for CdbBytes {
    fn fmt<W: fmt::Write>(&self, f: &mut fmt::Formatter<W>) -> fmt::Result {
        write_hex(f, self.as_slice())
    }
}

impl fmt::Debug for SenseBytes {
    fn fmt<W: fmt::Write>(&self, f: &mut fmt::Formatter<W>) -> fmt::Result {
        write_hex(f, self.as_slice())
    }
}

// Each byte in two hexadecimal digits, and `-` for none, as a journal is printed.
fn write_hex<W: fmt::Write>(f: &mut fmt::Formatter<W>, bytes: &[u8]) -> fmt::Result {
    if bytes.is_empty() {
        return f.write_str("-");
    }
    for byte in bytes {
        write!(f, "{byte:02x}")?;
    }
    Ok(())
}

#[cfg(test)]
mod tests {
    use super::*;
    use std::alloc::AllocError;

    #[test]
    fn bytes_come_back_and_equal_lists_are_equal_values(rt: HostRuntime) {
        let mut counted = [0u8; 252];
        for i in 0..252 {
            counted[i] = i as u8;
        }
        for length in [1, 6, 16] {
            let cdb = CdbBytes::from_slice(&counted[..length]);
            assert_eq!(rt; cdb.as_slice(), &counted[..length], "{length} bytes");
            assert_eq!(rt; CdbBytes::from_slice(cdb.as_slice()), cdb, "{length} bytes");
        }
        for length in [0, 1, 18, 252] {
            let sense = SenseBytes::from_slice(&counted[..length]);
            assert_eq!(rt; sense.as_slice(), &counted[..length], "{length} bytes");
            assert_eq!(rt;
                SenseBytes::from_slice(sense.as_slice()),
                sense,
                "{length} bytes"
            );
        }
        // The padding is no part of a list: a byte of zero is one more.
        assert!(rt; CdbBytes::from_slice(&[0]) != CdbBytes::from_slice(&[0, 0]));
        assert!(rt; SenseBytes::from_slice(&[0]) != SenseBytes::empty());
        assert_eq!(rt; SenseBytes::from_slice(&[]), SenseBytes::empty());
    }

    #[test]
    fn bytes_are_shown_in_hexadecimal_digits(rt: HostRuntime) -> Result<(), AllocError> {
        let cdb = CdbBytes::from_slice(&[0x28, 0, 0xff]);
        let sense = SenseBytes::from_slice(&[0x70, 0x0a]);
        let shown = format!(in rt.alloc(); "{cdb:?} {sense:?} {:?}", SenseBytes::empty())?;
        assert_eq!(rt; shown.as_str(), "2800ff 700a -");
        Ok(())
    }
}
