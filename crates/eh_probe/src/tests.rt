ghost use Rattle.std.specs.Prelude.{◌≤◌, length};

use crate::{Probe, get_sense, ready, start_unit};
use host_template::{EhSay, HostTemplate, Queued, TimerSay};
use mid_base::{
    Answer, Attempt, CHECK_CONDITION, CdbBytes, DID_NO_CONNECT, DID_OK, DevAddr, GOOD, HostByte,
    NoMemory, ProbeSay, SenseBytes, Tick,
};

// A lower layer that has one saying for the first probe and one for all others, and counts them.
#[derive(Drop)]
struct Saying {
    first: ProbeSay,
    other: ProbeSay,
    sent: u8,
    last: CdbBytes,
}

impl HostTemplate for Saying {
    ghost use Rattle.std.specs.Prelude.{[], false};

    // What it was sent is looked at by the tests, so nothing is said of where it stands.
    ghost stands = { λ x s b P. Unit {0} };

    ghost data_in = { λ s b P d code bytes. Unit {0} };

    ghost is_due = { λ x t. false };

    ghost means = { λ x. record { honest = false; tells = false; holds = [] } };

    fn queue(
        &mut self,
        _n: Attempt,
        _dev: DevAddr,
        _cdb: &CdbBytes,
        _fill: u8,
        _now: Tick,
    ) -> Result<Queued, NoMemory> {
        Ok(Queued::HostBusy)
    }

    fn reserve(&mut self, _k: usize) -> Result<(), NoMemory> {
        Ok(())
    }

    fn due(&self, _now: Tick) -> bool {
        false
    }

    fn work(&mut self, _now: Tick) -> Result<Option<(Attempt, Answer)>, NoMemory> {
        Ok(None)
    }

    fn timed_out(&mut self, _n: Attempt, _dev: DevAddr, _now: Tick) -> TimerSay {
        TimerSay::NotHandled
    }

    fn abort(&mut self, _n: Attempt, _dev: DevAddr) -> EhSay {
        EhSay::Failed
    }

    fn reset_device(&mut self, _dev: DevAddr) -> EhSay {
        EhSay::Failed
    }

    fn reset_target(&mut self, _channel: u8, _target: u8) -> EhSay {
        EhSay::Failed
    }

    fn reset_bus(&mut self, _channel: u8) -> EhSay {
        EhSay::Failed
    }

    fn reset_host(&mut self) -> EhSay {
        EhSay::Failed
    }

    fn probe(&mut self, _dev: DevAddr, cdb: &CdbBytes, _into: &mut [u8]) -> ProbeSay {
        self.last = *cdb;
        if self.sent == 0 {
            self.sent = 1;
            return self.first;
        }
        self.sent = 2;
        self.other
    }

    ghost silent = { λ x s b P e quiet h. tt };

    ghost quiet_tick = { λ x s b P idle h. tt };

    ghost scans = { λ x s b c P only same h. tt };
}

const DEV: DevAddr = DevAddr {
    channel: 0,
    target: 1,
    lun: 2,
};

fn lower_saying(first: ProbeSay, other: ProbeSay) -> Saying {
    Saying {
        first,
        other,
        sent: 0,
        last: CdbBytes::from_slice(&[1]),
    }
}

fn answer(host: HostByte, status: u8, sense: &[u8], moved: u32) -> Answer
    requires { length sense.now ≤ 252 }
{
    Answer {
        host,
        status,
        sense: SenseBytes::from_slice(sense),
        moved,
        sum: 0,
    }
}

fn good() -> Answer {
    answer(DID_OK, GOOD, &[], 0)
}

// UNIT ATTENTION of a reset, which is retried.
fn attention() -> Answer {
    let sense = [0x70, 0, 6, 0, 0, 0, 0, 10, 0, 0, 0, 0, 0x29, 0, 0, 0, 0, 0];
    answer(DID_OK, CHECK_CONDITION, &sense, 0)
}

// NOT READY, the medium isn't present: it isn't retried.
fn no_medium() -> Answer {
    let sense = [0x70, 0, 2, 0, 0, 0, 0, 10, 0, 0, 0, 0, 0x3a, 0, 0, 0, 0, 0];
    answer(DID_OK, CHECK_CONDITION, &sense, 0)
}

// The number of tests that were sent, and whether the device is ready.
fn test_of(first: ProbeSay, other: ProbeSay) -> (u8, bool) {
    let mut lower = lower_saying(first, other);
    let mut into = [0u8; 2056];
    let tested = ready(&mut lower, DEV, &mut into);
    (lower.sent, tested.ready)
}

#[test]
fn a_good_test_is_made_once(rt: HostRuntime) {
    let good = ProbeSay::Answered(good());
    assert!(rt; test_of(good, ProbeSay::Silent) == (1, true));
}

#[test]
fn a_doubtful_test_is_made_twice_and_the_second_counts(rt: HostRuntime) {
    let doubtful = ProbeSay::Answered(attention());
    assert!(rt; test_of(doubtful, ProbeSay::Answered(good())) == (2, true));
    assert!(rt; test_of(doubtful, doubtful) == (2, false));
    assert!(rt; test_of(doubtful, ProbeSay::Silent) == (2, false));
}

#[test]
fn a_test_that_is_not_retried_is_made_once(rt: HostRuntime) {
    let good = ProbeSay::Answered(good());
    let gone = ProbeSay::Answered(answer(DID_NO_CONNECT, GOOD, &[], 0));
    assert!(rt; test_of(ProbeSay::Answered(no_medium()), good) == (1, false));
    assert!(rt; test_of(gone, good) == (1, false));
    assert!(rt; test_of(ProbeSay::Silent, good) == (1, false));
}

#[test]
fn a_test_says_what_its_probes_said(rt: HostRuntime) {
    let mut lower = lower_saying(ProbeSay::Answered(attention()), ProbeSay::Answered(good()));
    let mut into = [0u8; 2056];
    let tested = ready(&mut lower, DEV, &mut into);
    assert!(rt; tested.first == Probe::Bad(attention()));
    assert!(rt; tested.second == Some(Probe::Good(good())));
    assert!(rt; lower.last.as_slice() == [0; 6].as_slice());
}

// How many bytes of sense data there are.
fn sense_of(say: ProbeSay) -> usize {
    let mut lower = lower_saying(say, ProbeSay::Silent);
    let mut into = [0u8; 2056];
    let (_, count) = get_sense(&mut lower, DEV, &mut into);
    count
}

#[test]
fn sense_is_as_long_as_it_was_moved_and_as_asked_for(rt: HostRuntime) {
    assert!(rt; sense_of(ProbeSay::Answered(answer(DID_OK, GOOD, &[], 18))) == 18);
    assert!(rt; sense_of(ProbeSay::Answered(answer(DID_OK, GOOD, &[], 252))) == 252);
    assert!(rt; sense_of(ProbeSay::Answered(answer(DID_OK, GOOD, &[], 253))) == 252);
}

#[test]
fn there_is_no_sense_without_good(rt: HostRuntime) {
    assert!(rt; sense_of(ProbeSay::Answered(answer(DID_OK, CHECK_CONDITION, &[], 18))) == 0);
    assert!(rt; sense_of(ProbeSay::Answered(answer(DID_NO_CONNECT, GOOD, &[], 18))) == 0);
    assert!(rt; sense_of(ProbeSay::Silent) == 0);
}

#[test]
fn sense_is_asked_for_by_request_sense(rt: HostRuntime) {
    let mut lower = lower_saying(ProbeSay::Answered(good()), ProbeSay::Silent);
    let mut into = [0u8; 2056];
    let (say, _) = get_sense(&mut lower, DEV, &mut into);
    assert!(rt; say == ProbeSay::Answered(good()));
    assert!(rt; lower.last.as_slice() == [3, 0, 0, 0, 252, 0].as_slice());
}

#[test]
fn a_unit_is_started_by_start_stop_unit(rt: HostRuntime) {
    let mut lower = lower_saying(ProbeSay::Silent, ProbeSay::Answered(good()));
    let mut into = [0u8; 2056];
    assert!(rt; start_unit(&mut lower, DEV, &mut into) == ProbeSay::Silent);
    assert!(rt; lower.last.as_slice() == [27, 0, 0, 0, 1, 0].as_slice() && lower.sent == 1);
}
