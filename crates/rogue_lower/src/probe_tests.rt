use crate::RogueLower;
use crate::tests::{DEV, good};
use eh_probe::get_sense;
use host_template::HostTemplate;
use lun_addr::{ListFault, LunList};
use mid_base::{CdbBytes, ProbeSay};
use sense_data::{SenseFault, SenseView};
use std::alloc::Global;
use std::test::Fail;

// Answers one probe with these bytes, GOOD, and is silent then.
fn bringing(alloc: Global, bytes: &[u8]) -> Result<RogueLower, Fail> {
    let mut probes = Vec::new(alloc);
    let bytes = Vec::from_slice(alloc, bytes)?;
    probes.push((ProbeSay::Answered(good(0, 0)), bytes))?;
    Ok(RogueLower::new(
        Vec::new(alloc),
        Vec::new(alloc),
        Vec::new(alloc),
        Vec::new(alloc),
        probes,
    ))
}

// REPORT LUNS (SPC-4, 6.33), for 2,056 bytes.
fn report_luns() -> CdbBytes {
    CdbBytes::from_slice(&[0xa0, 0, 0, 0, 0, 0, 0, 0, 8, 8, 0, 0])
}

#[test]
fn a_probe_tells_how_much_it_brings(rt: HostRuntime) -> Result<(), Fail> {
    let mut lower = bringing(rt.alloc(), &[0x71, 2])?;
    let say = lower.probe(DEV, &report_luns(), &mut [0; 2056]);
    assert_eq!(rt; say, ProbeSay::Answered(good(2, 0x73)));
    Ok(())
}

#[test]
fn a_probe_changes_the_front_of_the_buffer(rt: HostRuntime) -> Result<(), Fail> {
    let mut lower = bringing(rt.alloc(), &[1, 2])?;
    let mut into = [7; 4];
    let _ = lower.probe(DEV, &report_luns(), &mut into);
    assert_eq!(rt; into, [1, 2, 7, 7]);
    Ok(())
}

#[test]
fn a_probe_brings_no_more_than_2056_bytes(rt: HostRuntime) -> Result<(), Fail> {
    let mut lower = bringing(rt.alloc(), &[1; 2060])?;
    let say = lower.probe(DEV, &report_luns(), &mut [0; 2060]);
    assert_eq!(rt; say, ProbeSay::Answered(good(2056, 2056)));
    Ok(())
}

#[test]
fn a_probe_brings_no_more_than_the_buffer_holds(rt: HostRuntime) -> Result<(), Fail> {
    let mut lower = bringing(rt.alloc(), &[1, 2, 3])?;
    let say = lower.probe(DEV, &report_luns(), &mut [0; 2]);
    assert_eq!(rt; say, ProbeSay::Answered(good(2, 3)));
    Ok(())
}

#[test]
fn a_probe_without_a_saying_is_silent(rt: HostRuntime) -> Result<(), Fail> {
    let mut lower = bringing(rt.alloc(), &[])?;
    let _ = lower.probe(DEV, &report_luns(), &mut []);
    assert_eq!(rt; lower.probe(DEV, &report_luns(), &mut []), ProbeSay::Silent);
    Ok(())
}

// Why what REQUEST SENSE brings isn't sense data, where it is these bytes; None where it is.
fn refused_sense(alloc: Global, bytes: &[u8]) -> Result<Option<SenseFault>, Fail> {
    let mut lower = bringing(alloc, bytes)?;
    let mut into = [0xee; 2056];
    let (_, count) = get_sense(&mut lower, DEV, &mut into);
    let count = count.min(into.len());
    Ok(SenseView::read(&into[..count]).err())
}

// A medium error, 3/11/00, in descriptor form with an information descriptor, and in fixed form (SPC-4, 4.5).
const DESCRIPTOR_SENSE: [u8; 20] = [
    0x72, 3, 0x11, 0, 0, 0, 0, 12, 0, 10, 0x80, 0, 0, 0, 0, 0, 0, 0, 0x12, 0x34,
];

const FIXED_SENSE: [u8; 18] = [0x70, 0, 3, 0, 0, 0, 0, 10, 0, 0, 0, 0, 0x11, 0, 0, 0, 0, 0];

// What so many bytes of the first sense are refused for: its header has 8 bytes, and its only descriptor starts behind it.
fn refusal_of_descriptor_sense(length: usize) -> Option<SenseFault> {
    match length {
        0 => Some(SenseFault::Empty),
        1..=7 => Some(SenseFault::Short(length, 8)),
        9..=19 => Some(SenseFault::DescriptorCut(8)),
        _ => None,
    }
}

fn refusal_of_fixed_sense(length: usize) -> Option<SenseFault> {
    match length {
        0 => Some(SenseFault::Empty),
        1..=7 => Some(SenseFault::Short(length, 8)),
        _ => None,
    }
}

#[test]
fn each_front_of_a_descriptor_sense_has_its_refusal(rt: HostRuntime) -> Result<(), Fail> {
    for length in 0..21 {
        let refused = refused_sense(rt.alloc(), &DESCRIPTOR_SENSE[..length])?;
        assert_eq!(rt;
            refused,
            refusal_of_descriptor_sense(length),
            "{length} bytes"
        );
    }
    Ok(())
}

#[test]
fn each_front_of_a_fixed_sense_has_its_refusal(rt: HostRuntime) -> Result<(), Fail> {
    for length in 0..19 {
        let refused = refused_sense(rt.alloc(), &FIXED_SENSE[..length])?;
        assert_eq!(rt; refused, refusal_of_fixed_sense(length), "{length} bytes");
    }
    Ok(())
}

#[test]
fn one_byte_of_sense_is_fetched_as_it_is(rt: HostRuntime) -> Result<(), Fail> {
    let mut lower = bringing(rt.alloc(), &[0x71])?;
    let fetched = get_sense(&mut lower, DEV, &mut [0; 2056]);
    assert_eq!(rt; fetched, (ProbeSay::Answered(good(1, 0x71)), 1));
    Ok(())
}

fn moved(say: &ProbeSay) -> usize {
    match say {
        ProbeSay::Answered(answer) => answer.moved as usize,
        ProbeSay::Silent => 0,
    }
}

// Why what REPORT LUNS brings isn't a list, where it is these bytes; None where it is.
fn refused_list(alloc: Global, bytes: &[u8]) -> Result<Option<ListFault>, Fail> {
    let mut lower = bringing(alloc, bytes)?;
    let mut into = [0xee; 2056];
    let count = moved(&lower.probe(DEV, &report_luns(), &mut into)).min(into.len());
    Ok(LunList::read(&into[..count]).err())
}

// Logical units 1, 2 and 514 (SPC-4, REPORT LUNS parameter data).
const THREE_UNITS: [u8; 32] = [
    0, 0, 0, 24, 0, 0, 0, 0, 0, 1, 0, 0, 0, 0, 0, 0, 0, 2, 0, 0, 0, 0, 0, 0, 0x42, 2, 0, 0, 0, 0,
    0, 0,
];

fn refusal_of_three_units(length: usize) -> Option<ListFault> {
    match length {
        0..=7 => Some(ListFault::Short(length)),
        8..=31 => Some(ListFault::Cut(24, length - 8)),
        _ => None,
    }
}

#[test]
fn each_front_of_a_list_has_its_refusal(rt: HostRuntime) -> Result<(), Fail> {
    for length in 0..33 {
        let refused = refused_list(rt.alloc(), &THREE_UNITS[..length])?;
        assert_eq!(rt; refused, refusal_of_three_units(length), "{length} bytes");
    }
    Ok(())
}
