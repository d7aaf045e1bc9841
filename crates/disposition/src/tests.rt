use crate::{Cx, Todo, check_sense, decide};
use mid_base::Disp::{Fail, Requeue, Retry, Success};
use mid_base::{
    Answer, Attempt, CHECK_CONDITION, CmdId, DID_OK, DevAddr, Disp, GOOD, HostByte, SenseBytes,
};
use sense_data::{SenseView, build_descriptor, build_fixed};
use std::process::Abort;

// What a context leaves of a disposition: all of it, all but retries, or nothing but success.
#[derive(Clone, Copy, PartialEq, Eq, Debug)]
enum Leaves {
    All,
    NoRetry,
    Success,
}

// Retries below, at and above what is allowed; failfast or not; online or not.
const CONTEXTS: [(u8, u8, bool, bool, Leaves); 14] = [
    (0, 1, false, true, Leaves::All),
    (4, 5, false, true, Leaves::All),
    (19, 20, false, true, Leaves::All),
    (0, 0, false, true, Leaves::NoRetry),
    (5, 5, false, true, Leaves::NoRetry),
    (6, 5, false, true, Leaves::NoRetry),
    (255, 20, false, true, Leaves::NoRetry),
    (4, 5, true, true, Leaves::NoRetry),
    (5, 5, true, true, Leaves::NoRetry),
    (6, 5, true, true, Leaves::NoRetry),
    (4, 5, false, false, Leaves::Success),
    (5, 5, false, false, Leaves::Success),
    (6, 5, false, false, Leaves::Success),
    (4, 5, true, false, Leaves::Success),
];

// The host bytes that don't fail, with GOOD.
const HOST_BYTES: [(u8, Disp); 11] = [
    (0x00, Success),
    (0x01, Success),
    (0x02, Retry),
    (0x04, Success),
    (0x05, Success),
    (0x06, Retry),
    (0x07, Retry),
    (0x08, Success),
    (0x0b, Retry),
    (0x0c, Requeue),
    (0x0d, Requeue),
];

// The statuses that don't fail, with DID_OK.
const STATUSES: [(u8, Disp); 7] = [
    (0x00, Success),
    (0x04, Success),
    (0x08, Requeue),
    (0x18, Success),
    (0x28, Requeue),
    (0x30, Success),
    (0x40, Retry),
];

// Key, additional code, qualifier.
const SENSES: [(u8, u8, u8, Disp); 66] = [
    (0x0, 0x00, 0x00, Success),
    (0x0, 0x04, 0x02, Success),
    (0x0, 0x29, 0x00, Success),
    (0x1, 0x00, 0x00, Success),
    (0x1, 0x17, 0x01, Success),
    (0x1, 0x04, 0x01, Success),
    (0x2, 0x00, 0x00, Success),
    (0x2, 0x04, 0x00, Success),
    (0x2, 0x04, 0x01, Retry),
    (0x2, 0x04, 0x02, Fail),
    (0x2, 0x04, 0x03, Success),
    (0x2, 0x03, 0x01, Success),
    (0x2, 0x05, 0x02, Success),
    (0x2, 0x28, 0x00, Success),
    (0x2, 0x29, 0x00, Retry),
    (0x2, 0x29, 0x01, Retry),
    (0x2, 0x2a, 0x00, Success),
    (0x2, 0x3a, 0x00, Success),
    (0x3, 0x00, 0x00, Retry),
    (0x3, 0x04, 0x02, Retry),
    (0x3, 0x0c, 0x00, Retry),
    (0x3, 0x10, 0x00, Retry),
    (0x3, 0x11, 0x00, Success),
    (0x3, 0x11, 0x04, Success),
    (0x3, 0x12, 0x00, Retry),
    (0x3, 0x13, 0x00, Success),
    (0x3, 0x14, 0x00, Success),
    (0x3, 0x14, 0x01, Success),
    (0x3, 0x15, 0x00, Retry),
    (0x3, 0x29, 0x00, Retry),
    (0x3, 0xff, 0xff, Retry),
    (0x4, 0x00, 0x00, Success),
    (0x4, 0x04, 0x01, Success),
    (0x4, 0x11, 0x00, Success),
    (0x5, 0x20, 0x00, Success),
    (0x5, 0x24, 0x00, Success),
    (0x5, 0x29, 0x00, Success),
    (0x6, 0x00, 0x00, Success),
    (0x6, 0x04, 0x00, Success),
    (0x6, 0x04, 0x01, Retry),
    (0x6, 0x04, 0x02, Fail),
    (0x6, 0x04, 0x03, Success),
    (0x6, 0x28, 0x00, Success),
    (0x6, 0x29, 0x00, Retry),
    (0x6, 0x29, 0x07, Retry),
    (0x6, 0x2a, 0x09, Success),
    (0x6, 0x3f, 0x0e, Success),
    (0x7, 0x27, 0x00, Success),
    (0x7, 0x29, 0x00, Success),
    (0x8, 0x00, 0x00, Success),
    (0x8, 0x04, 0x02, Success),
    (0x9, 0x80, 0x00, Success),
    (0x9, 0x04, 0x01, Success),
    (0xa, 0x0d, 0x00, Success),
    (0xa, 0x29, 0x00, Success),
    (0xb, 0x00, 0x00, Retry),
    (0xb, 0x04, 0x02, Retry),
    (0xb, 0x11, 0x00, Retry),
    (0xb, 0x47, 0x03, Retry),
    (0xc, 0x00, 0x00, Success),
    (0xc, 0x29, 0x00, Success),
    (0xd, 0x00, 0x00, Success),
    (0xd, 0x04, 0x01, Success),
    (0xe, 0x1d, 0x00, Success),
    (0xf, 0x00, 0x00, Success),
    (0xf, 0x29, 0x00, Success),
];

// Bytes that aren't sense data: none, another response code, too few, a descriptor that is cut.
const NO_SENSE_DATA: [&[u8]; 4] = [
    &[],
    &[0x6f, 0, 6, 0, 0, 0, 0, 10, 0, 0, 0, 0, 0x29, 0, 0, 0, 0, 0],
    &[0x70, 0, 6, 0, 0, 0, 0],
    &[0x72, 6, 0x29, 0, 0, 0, 0, 4, 0, 10, 0, 0],
];

fn answer(host: HostByte, status: u8, sense: SenseBytes) -> Answer {
    Answer {
        host,
        status,
        sense,
        moved: 512,
        sum: 7,
    }
}

fn wanted(base: Disp, leaves: Leaves) -> Disp {
    match leaves {
        Leaves::All => base,
        Leaves::NoRetry => match base {
            Retry => Success,
            _ => base,
        },
        Leaves::Success => Success,
    }
}

// The answer leads to this disposition, as far as each context leaves it.
fn check(rt: &impl Abort, a: &Answer, base: Disp) {
    for (retries, allowed, failfast, online, leaves) in CONTEXTS {
        let cx = Cx {
            retries,
            allowed,
            failfast,
            online,
        };
        let got = decide(a, &cx);
        assert!(rt; got == wanted(base, leaves), "{a:?} {cx:?} {got:?}");
    }
}

// What the table says of this code; every other one fails.
fn in_table(table: &[(u8, Disp)], code: u8) -> Disp {
    for (known, disp) in table {
        if *known == code {
            return *disp;
        }
    }
    Fail
}

#[test]
fn each_host_byte_has_its_disposition(rt: HostRuntime) {
    for code in 0..=255 {
        let a = answer(HostByte(code), GOOD, SenseBytes::empty());
        check(&rt, &a, in_table(&HOST_BYTES, code));
    }
}

#[test]
fn each_status_has_its_disposition(rt: HostRuntime) {
    for status in 0..=255 {
        let a = answer(DID_OK, status, SenseBytes::empty());
        check(&rt, &a, in_table(&STATUSES, status));
    }
}

fn check_sensed(rt: &impl Abort, sense: SenseBytes, base: Disp) {
    check(rt, &answer(DID_OK, CHECK_CONDITION, sense), base);
    if let Ok(view) = SenseView::read(sense.as_slice()) {
        assert!(rt; check_sense(&view) == base);
    }
    // Sense data counts with CHECK CONDITION alone.
    check(rt, &answer(DID_OK, GOOD, sense), Success);
}

// Both forms, current and deferred.
fn check_sense_of(rt: &impl Abort, key: u8, asc: u8, ascq: u8, base: Disp) {
    assert!(rt; key < 16);
    check_sensed(rt, build_fixed(key, asc, ascq, None, false), base);
    check_sensed(rt, build_descriptor(key, asc, ascq, Some(9), false), base);
    check_sensed(rt, build_fixed(key, asc, ascq, Some(9), true), Retry);
    check_sensed(rt, build_descriptor(key, asc, ascq, None, true), Retry);
}

#[test]
fn sense_is_judged_by_its_key_and_code_and_retried_where_deferred(rt: HostRuntime) {
    for (key, asc, ascq, base) in SENSES {
        check_sense_of(&rt, key, asc, ascq, base);
    }
}

fn check_invalid(rt: &impl Abort, bytes: &[u8]) {
    assert!(rt; bytes.len() <= 252);
    let sense = SenseBytes::from_slice(bytes);
    check(rt, &answer(DID_OK, CHECK_CONDITION, sense), Fail);
}

#[test]
fn a_check_condition_without_valid_sense_fails(rt: HostRuntime) {
    for bytes in NO_SENSE_DATA {
        check_invalid(&rt, bytes);
    }
}

#[test]
fn a_failed_command_keeps_what_it_is_made_of(rt: HostRuntime) {
    let cx = Cx {
        retries: 1,
        allowed: 5,
        failfast: false,
        online: true,
    };
    let todo = Todo {
        cmd: CmdId(4),
        n: Attempt(9),
        dev: DevAddr {
            channel: 0,
            target: 1,
            lun: 2,
        },
        cancelled: true,
        answer: None,
        cx,
    };
    assert!(rt;
        todo == todo
            && todo
                != Todo {
                    cancelled: false,
                    ..todo
                }
    );
    assert!(rt; todo.cx.retries == 1 && todo.n == Attempt(9));
}
