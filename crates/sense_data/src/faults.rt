use std::error::Error;
use std::fmt;

/// Why bytes aren't sense data (SPC-4, 4.5). The first reason that applies, in this order, is given.
#[derive(Clone, Copy, PartialEq, Eq, Debug)]
pub enum SenseFault {
    /// There are no bytes.
    Empty,
    /// This is byte 0, and its response code, bits 6 to 0, is none of 70h to 73h.
    Code(u8),
    /// There are so many bytes, and the least number is the second.
    Short(usize, usize),
    /// The descriptor that starts at this place isn't whole: it ends after the bytes do, or after the additional length.
    DescriptorCut(usize),
}

impl fmt::Display for SenseFault {
    fn fmt<W: fmt::Write>(&self, f: &mut fmt::Formatter<W>) -> fmt::Result {
        match self {
            SenseFault::Empty => f.write_str("no sense data"),
            SenseFault::Code(code) => write!(f, "response code {code:02x}h is none of sense data"),
            SenseFault::Short(has, least) => write!(
                f,
                "{has} bytes of sense data, {least} at least"
            ),
            SenseFault::DescriptorCut(place) => write!(f, "the descriptor at byte {place} is cut"),
        }
    }
}

impl Error for SenseFault {}
