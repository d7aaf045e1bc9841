use crate::{ScanFault, scan};
use lun_addr::ListFault;
use mid_base::{Answer, CHECK_CONDITION, DID_OK, GOOD, ProbeSay, SenseBytes};
use rogue_lower::RogueLower;
use std::alloc::Global;
use std::test::Fail;

// INQUIRY and REPORT LUNS by their operation codes (SPC-4, clause 6).
const INQUIRY: u8 = 0x12;

const REPORT_LUNS: u8 = 0xa0;

// Logical units 0 and 256 (SPC-4, REPORT LUNS parameter data; SAM-5, addressing methods).
const TWO_UNITS: [u8; 24] = [
    0, 0, 0, 16, 0, 0, 0, 0, 0, 0, 0, 0, 0, 0, 0, 0, 0x41, 0, 0, 0, 0, 0, 0, 0,
];

// A well known logical unit, unit 7, and a unit on bus 1.
const OTHER_FORMS: [u8; 32] = [
    0, 0, 0, 24, 0, 0, 0, 0, 0xc1, 1, 0, 0, 0, 0, 0, 0, 0, 7, 0, 0, 0, 0, 0, 0, 1, 5, 0, 0, 0, 0,
    0, 0,
];

fn with_status(status: u8) -> ProbeSay {
    ProbeSay::Answered(Answer {
        host: DID_OK,
        status,
        sense: SenseBytes::empty(),
        moved: 0,
        sum: 0,
    })
}

// A lower layer that answers two probes so, with these bytes.
fn saying(alloc: Global, says: [ProbeSay; 2], brings: [&[u8]; 2]) -> Result<RogueLower, Fail> {
    let mut probes = Vec::new(alloc);
    probes.push((says[0], Vec::from_slice(alloc, brings[0])?))?;
    probes.push((says[1], Vec::from_slice(alloc, brings[1])?))?;
    Ok(RogueLower::new(
        Vec::new(alloc),
        Vec::new(alloc),
        Vec::new(alloc),
        Vec::new(alloc),
        probes,
    ))
}

// The scan where INQUIRY and REPORT LUNS say so, and bring as many bytes as are wanted and this list.
fn scan_saying(alloc: Global, says: [ProbeSay; 2], list: &[u8]) -> Result<Scanned, Fail> {
    let mut lower = saying(alloc, says, [&[0; 36], list])?;
    Ok(Scanned(scan(alloc, &mut lower, 0, 1, &mut [0; 2056])))
}

#[derive(Drop)]
struct Scanned(Result<Vec<u16>, ScanFault>);

impl Scanned {
    fn fault(&self) -> Option<ScanFault> {
        match &self.0 {
            Ok(_) => None,
            Err(fault) => Some(*fault),
        }
    }

    fn is(&self, numbers: &[u16]) -> bool {
        match &self.0 {
            Ok(found) => found.as_slice() == numbers,
            Err(_) => false,
        }
    }
}

#[test]
fn a_target_has_the_units_that_it_lists(rt: HostRuntime) -> Result<(), Fail> {
    let scanned = scan_saying(
        rt.alloc(),
        [with_status(GOOD), with_status(GOOD)],
        &TWO_UNITS,
    )?;
    assert!(rt; scanned.is(&[0, 256]));
    Ok(())
}

#[test]
fn units_of_other_forms_are_left_out(rt: HostRuntime) -> Result<(), Fail> {
    let scanned = scan_saying(
        rt.alloc(),
        [with_status(GOOD), with_status(GOOD)],
        &OTHER_FORMS,
    )?;
    assert!(rt; scanned.is(&[7]));
    Ok(())
}

#[test]
fn a_list_that_is_cut_is_a_fault(rt: HostRuntime) -> Result<(), Fail> {
    let says = [with_status(GOOD), with_status(GOOD)];
    let scanned = scan_saying(rt.alloc(), says, &TWO_UNITS[..16])?;
    let cut = ScanFault::List(ListFault::Cut(16, 8));
    assert_eq!(rt; scanned.fault(), Some(cut));
    Ok(())
}

#[test]
fn a_target_that_says_nothing_is_silent(rt: HostRuntime) -> Result<(), Fail> {
    let says = [ProbeSay::Silent, with_status(GOOD)];
    let scanned = scan_saying(rt.alloc(), says, &TWO_UNITS)?;
    assert_eq!(rt; scanned.fault(), Some(ScanFault::Silent(INQUIRY)));
    Ok(())
}

#[test]
fn a_list_that_does_not_come_is_silence(rt: HostRuntime) -> Result<(), Fail> {
    let says = [with_status(GOOD), ProbeSay::Silent];
    let scanned = scan_saying(rt.alloc(), says, &TWO_UNITS)?;
    assert_eq!(rt; scanned.fault(), Some(ScanFault::Silent(REPORT_LUNS)));
    Ok(())
}

#[test]
fn an_answer_that_is_not_good_is_a_refusal(rt: HostRuntime) -> Result<(), Fail> {
    let says = [with_status(CHECK_CONDITION), with_status(GOOD)];
    let scanned = scan_saying(rt.alloc(), says, &TWO_UNITS)?;
    assert!(rt; matches!(scanned.fault(), Some(ScanFault::Refused(INQUIRY, _))));
    Ok(())
}

#[test]
fn short_inquiry_data_is_a_fault(rt: HostRuntime) -> Result<(), Fail> {
    let alloc = rt.alloc();
    let good = with_status(GOOD);
    let mut lower = saying(alloc, [good, good], [&[0; 35], &TWO_UNITS])?;
    let scanned = Scanned(scan(alloc, &mut lower, 0, 1, &mut [0; 2056]));
    assert_eq!(rt; scanned.fault(), Some(ScanFault::Inquiry(35)));
    Ok(())
}

#[test]
fn faults_are_told_in_words(rt: HostRuntime) -> Result<(), Fail> {
    let told = format!(in rt.alloc();
        "{}; {}; {}",
        ScanFault::Silent(REPORT_LUNS),
        ScanFault::List(ListFault::Short(3)),
        ScanFault::Inquiry(35)
    )?;
    assert_eq!(rt;
        told.as_str(),
        "no answer to command a0h; 3 bytes, and the header has 8; 35 bytes of INQUIRY data of 36"
    );
    Ok(())
}
