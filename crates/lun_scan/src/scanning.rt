ghost use Rattle.std.specs.Prelude.{◌≡◌, ◌≤◌, [], length, vec_capacity};
ghost use Rattle.host_template.specs.Meaning.{SameNature, IfHonest, NothingAdded};
ghost use Rattle.lun_scan.specs.Scans.{IsScan, Says, UnlessNoMemory, list_answer, unit_zero};

use crate::ScanFault;
use crate::listing::numbers_of;
use crate::probes::{REPORT_LUNS, inquire, inquiry_fault, probe_fault, report_list, taken_by};
use host_template::HostTemplate;
use mid_base::{DevAddr, ProbeSay};
use std::alloc::Global;

// The most units that 2,056 bytes of REPORT LUNS parameter data list.
const MOST_UNITS: usize = 256;

/// The numbers of the logical units that a target has, in the order in which it lists them; one whose address is of another
/// form than peripheral device addressing on bus 0 or flat space addressing (SAM-5, addressing methods) is left out.
///
/// Its logical unit 0 alone is asked: by INQUIRY for 36 bytes (SPC-4, 6.6), and where that was answered with DID_OK, GOOD
/// and these 36 bytes, by REPORT LUNS for 2,056 (SPC-4, 6.33). The buffer has at least 2,056 bytes; what REPORT LUNS brought
/// stands in it then. NoMemory comes before anything is asked.
pub fn scan<A: HostTemplate>(
    alloc: Global,
    lower: &mut A,
    channel: u8,
    target: u8,
    into: &mut [u8],
) -> Result<Vec<u16>, ScanFault>
    requires { 2056 ≤ length into.old }
    ensures scan { UnlessNoMemory (IsScan (A.stands lower.old) (A.stands lower.new) A.data_in (unit_zero channel target) into.new) result }
    ensures memory { result ≡ Err ScanFault.NoMemory → lower.new ≡ lower.old }
    ensures nature { SameNature (A.means lower.old) (A.means lower.new) }
    ensures honest { IfHonest NothingAdded (A.means lower.old) (A.means lower.new) }
    ensures len { length into.new ≡ length into.old }
{
    let Ok(room) = Vec::with_capacity(alloc, MOST_UNITS) else {
        return Err(ScanFault::NoMemory);
    };
    let zero = DevAddr {
        channel,
        target,
        lun: 0,
    };
    ask(lower, zero, into, room)
}

// Scans by this unit, with room for 256 numbers.
fn ask<A: HostTemplate>(
    lower: &mut A,
    dev: DevAddr,
    into: &mut [u8],
    room: Vec<u16>,
) -> Result<Vec<u16>, ScanFault>
    requires buffer { 2056 ≤ length into.old }
    requires none { room.items ≡ [] }
    requires room { 256 ≤ vec_capacity room }
    ensures scan { Says (IsScan (A.stands lower.old) (A.stands lower.new) A.data_in dev into.new) result }
    ensures nature { SameNature (A.means lower.old) (A.means lower.new) }
    ensures honest { IfHonest NothingAdded (A.means lower.old) (A.means lower.new) }
    ensures len { length into.new ≡ length into.old }
{
    let first = inquire(lower, dev, into);
    match inquiry_fault(first) {
        Some(fault) => Err(fault),
        None => {
            let second = report_list(lower, dev, into);
            answer_of(second, taken_by(&second, into), room)
        }
    }
}

// What REPORT LUNS and the bytes that it brought come to, with room for 256 numbers.
fn answer_of(say: ProbeSay, bytes: &[u8], room: Vec<u16>) -> Result<Vec<u16>, ScanFault>
    requires short { length bytes.now ≤ 2056 }
    requires none { room.items ≡ [] }
    requires room { 256 ≤ vec_capacity room }
    ensures { Says (λ r. r ≡ list_answer say bytes.now) result }
{
    match probe_fault(REPORT_LUNS, say) {
        Some(fault) => Err(fault),
        None => match numbers_of(bytes, room) {
            Ok(numbers) => Ok(numbers),
            Err(fault) => Err(ScanFault::List(fault)),
        },
    }
}
