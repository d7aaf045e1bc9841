use lun_addr::ListFault;
use mid_base::Answer;
use std::error::Error;
use std::fmt;

/// Why a target wasn't scanned to its end. The probes are named by their operation codes: 18 INQUIRY, 160 REPORT LUNS.
#[derive(Clone, Copy, PartialEq, Eq, Debug)]
pub enum ScanFault {
    /// This probe wasn't answered.
    Silent(u8),
    /// This probe was answered otherwise than with DID_OK and GOOD.
    Refused(u8, Answer),
    /// What REPORT LUNS brought isn't a list of logical units.
    List(ListFault),
    /// INQUIRY brought so many bytes, fewer than the 36 of standard INQUIRY data (SPC-4, 6.6.2).
    Inquiry(u32),
    /// There was no memory for the numbers, and nothing was probed.
    NoMemory,
}

impl fmt::Display for ScanFault {
    fn fmt<W: fmt::Write>(&self, f: &mut fmt::Formatter<W>) -> fmt::Result {
        match self {
            ScanFault::Silent(code) => write!(f, "no answer to command {code:02x}h"),
            ScanFault::Refused(code, answer) => {
                let host = answer.host.0;
                let status = answer.status;
                write!(
                    f,
                    "command {code:02x}h has host byte {host:02x}h and status {status:02x}h"
                )
            }
            ScanFault::List(fault) => write!(f, "{fault}"),
            ScanFault::Inquiry(moved) => write!(f, "{moved} bytes of INQUIRY data of 36"),
            ScanFault::NoMemory => f.write_str("out of memory"),
        }
    }
}

impl Error for ScanFault {}
