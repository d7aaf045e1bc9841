ghost use Rattle.std.specs.Prelude.{◌≡◌, ◌≤◌, ◌∷◌, [], length, nat_lt, if◌then◌else◌};
ghost use Rattle.mid_base.specs.declared.entries.Entry.TheVariants.{Probe as Probed};
ghost use Rattle.mid_base.specs.Codes.{inquiry, report_luns};
ghost use Rattle.mid_base.specs.Answers.{is_good as is_good_seen};
ghost use Rattle.host_template.specs.Meaning.{SameNature, IfHonest, NothingAdded};
ghost use Rattle.host_template.specs.Probes.{taken};
ghost use Rattle.eh_probe.specs.Standings.{StandsAfter};
ghost use Rattle.lun_scan.specs.Scans.{IsGiven, probe_fault as probe_fault_seen, short_fault as short_fault_seen, inquiry_fault as inquiry_fault_seen};

use crate::ScanFault;
use host_template::HostTemplate;
use mid_base::{Answer, CdbBytes, DID_OK, DevAddr, GOOD, ProbeSay};

const INQUIRY: u8 = 18;

pub(crate) const REPORT_LUNS: u8 = 160;

// The length of standard INQUIRY data without anything vendor specific (SPC-4, 6.6.2).
const STANDARD_LENGTH: u32 = 36;

// Sends INQUIRY for 36 bytes of standard data (SPC-4, 6.6).
pub(crate) fn inquire<A: HostTemplate>(lower: &mut A, dev: DevAddr, into: &mut [u8]) -> ProbeSay
    requires { 2056 ≤ length into.old }
    ensures stands { StandsAfter (A.stands lower.old) (A.stands lower.new) (Probed dev inquiry result ∷ []) }
    ensures nature { SameNature (A.means lower.old) (A.means lower.new) }
    ensures honest { IfHonest NothingAdded (A.means lower.old) (A.means lower.new) }
    ensures len { length into.new ≡ length into.old }
{
    let cdb = CdbBytes::from_slice(&[INQUIRY, 0, 0, 0, 36, 0]);
    lower.probe(dev, &cdb, into)
}

// Sends REPORT LUNS of SELECT REPORT 00h for 2,056 bytes, a list of 256 units (SPC-4, 6.33).
pub(crate) fn report_list<A: HostTemplate>(lower: &mut A, dev: DevAddr, into: &mut [u8]) -> ProbeSay
    requires { 2056 ≤ length into.old }
    ensures stands { StandsAfter (A.stands lower.old) (A.stands lower.new) (Probed dev report_luns result ∷ []) }
    ensures given { IsGiven (A.stands lower.old) A.data_in dev result (taken report_luns result into.new) }
    ensures nature { SameNature (A.means lower.old) (A.means lower.new) }
    ensures honest { IfHonest NothingAdded (A.means lower.old) (A.means lower.new) }
    ensures len { length into.new ≡ length into.old }
{
    let cdb = CdbBytes::from_slice(&[REPORT_LUNS, 0, 0, 0, 0, 0, 0, 0, 8, 8, 0, 0]);
    lower.probe(dev, &cdb, into)
}

// The bytes that REPORT LUNS brought.
pub(crate) fn taken_by<'a>(say: &ProbeSay, into: &'a [u8]) -> &'a [u8]
    requires { 2056 ≤ length into.now }
    ensures bytes { result.now ≡ taken report_luns say.now into.now }
    ensures short { length result.now ≤ 2056 }
{
    match say {
        ProbeSay::Answered(answer) => &into[..(answer.moved as usize).min(2056)],
        ProbeSay::Silent => &into[..0],
    }
}

fn is_good(answer: &Answer) -> bool
    ensures { result ≡ is_good_seen answer.now }
{
    answer.host == DID_OK && answer.status == GOOD
}

// What is wrong with the answer to a probe.
pub(crate) fn probe_fault(code: u8, say: ProbeSay) -> Option<ScanFault>
    ensures { result ≡ probe_fault_seen code say }
{
    match say {
        ProbeSay::Answered(answer) => refused(code, answer),
        ProbeSay::Silent => Some(ScanFault::Silent(code)),
    }
}

fn refused(code: u8, answer: Answer) -> Option<ScanFault>
    ensures { result ≡ (if is_good_seen answer then None else Some (ScanFault.Refused code answer)) }
{
    if is_good(&answer) {
        None
    } else {
        Some(ScanFault::Refused(code, answer))
    }
}

// What is wrong with how much INQUIRY brought.
fn short_fault(say: &ProbeSay) -> Option<ScanFault>
    ensures { result ≡ short_fault_seen say.now }
{
    match say {
        ProbeSay::Answered(answer) => short_data(answer.moved),
        ProbeSay::Silent => None,
    }
}

fn short_data(moved: u32) -> Option<ScanFault>
    ensures { result ≡ (if nat_lt moved 36 then Some (ScanFault.Inquiry moved) else None) }
{
    if moved < STANDARD_LENGTH {
        Some(ScanFault::Inquiry(moved))
    } else {
        None
    }
}

// What is wrong with the answer to INQUIRY.
pub(crate) fn inquiry_fault(say: ProbeSay) -> Option<ScanFault>
    ensures { result ≡ inquiry_fault_seen say }
{
    match probe_fault(INQUIRY, say) {
        Some(fault) => Some(fault),
        None => short_fault(&say),
    }
}
