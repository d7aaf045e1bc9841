use std::error::Error;
use std::fmt;

/// Why bytes aren't a list of logical units (SPC-4, REPORT LUNS parameter data). The first reason that applies,
/// in this order, is given.
#[derive(Clone, Copy, PartialEq, Eq, Debug)]
pub enum ListFault {
    /// There are so many bytes, and the header alone has 8.
    Short(usize),
    /// This is the list length in bytes, and it is no multiple of 8, the length of an entry.
    Uneven(u32),
    /// The first is the list length in bytes, and the second is how many follow the header, which is fewer.
    Cut(u32, usize),
}

/// Why an entry has no number: this is its byte 0, whose bits say how the logical unit is addressed (SAM-5, addressing
/// methods), and it is neither peripheral device addressing on bus 0 nor flat space addressing.
#[derive(Clone, Copy, PartialEq, Eq, Debug)]
pub struct Form(pub u8);

impl fmt::Display for ListFault {
    fn fmt<W: fmt::Write>(&self, f: &mut fmt::Formatter<W>) -> fmt::Result {
        match self {
            ListFault::Short(has) => write!(f, "{has} bytes, and the header has 8"),
            ListFault::Uneven(told) => write!(
                f,
                "a list length of {told} bytes is no multiple of 8"
            ),
            ListFault::Cut(told, has) => write!(f, "{has} bytes of a list of {told}"),
        }
    }
}

impl Error for ListFault {}

impl fmt::Display for Form {
    fn fmt<W: fmt::Write>(&self, f: &mut fmt::Formatter<W>) -> fmt::Result {
        write!(f, "{:02x}h begins no address that has a number", self.0)
    }
}

impl Error for Form {}
