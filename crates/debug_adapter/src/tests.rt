use crate::DebugAdapter;
use crate::test_calls::{Call, Outcome, Said, make};
use crate::test_host::{FIRST, FOURTH, SECOND, THIRD, host};
use host_template::{EhSay, HostTemplate, Queued, TimerSay};
use mid_base::{CHECK_CONDITION, GOOD, NoMemory, Scope, Tick};
use std::alloc::Global;
use std::test::Fail;

const TEST_UNIT_READY: [u8; 6] = [0, 0, 0, 0, 0, 0];

const WRITE_ONE_BLOCK: [u8; 6] = [0x0a, 0, 0, 5, 1, 0];

const NO_SENSE: [u8; 3] = [0, 0, 0];

// GOOD, with nothing moved.
const READY: Outcome = (0, GOOD, NO_SENSE, 0, 0);

fn adapter(alloc: Global) -> Result<DebugAdapter, NoMemory> {
    let spec = host(alloc)?;
    DebugAdapter::new(alloc, &spec)
}

const SUCCESS: Said = Said::Eh(EhSay::Success);

const FAILED: Said = Said::Eh(EhSay::Failed);

const TAKEN: Said = Said::Queued(Queued::Taken);

// The second call for the first device finds the host busy, and the third is taken; the fourth finds the device busy.
const SENDING: [(Call, Said); 12] = [
    (Call::Work(0), Said::Nothing),
    (Call::Queue(1, FIRST, TEST_UNIT_READY, 0, 0), TAKEN),
    (
        Call::Queue(2, FIRST, TEST_UNIT_READY, 0, 0),
        Said::Queued(Queued::HostBusy),
    ),
    (Call::Queue(3, FIRST, TEST_UNIT_READY, 0, 0), TAKEN),
    (
        Call::Queue(4, FIRST, TEST_UNIT_READY, 0, 0),
        Said::Queued(Queued::DeviceBusy),
    ),
    (Call::Queue(5, SECOND, TEST_UNIT_READY, 0, 0), TAKEN),
    (Call::Queue(6, SECOND, TEST_UNIT_READY, 0, 0), TAKEN),
    (Call::Queue(7, THIRD, TEST_UNIT_READY, 0, 0), TAKEN),
    (Call::Queue(8, THIRD, TEST_UNIT_READY, 0, 0), TAKEN),
    (Call::Queue(9, THIRD, TEST_UNIT_READY, 0, 0), TAKEN),
    (Call::Queue(10, THIRD, TEST_UNIT_READY, 0, 0), TAKEN),
    (Call::Queue(11, FOURTH, WRITE_ONE_BLOCK, 2, 0), TAKEN),
];

// All but the attempts 5, which is due at the tick 3, and 6, which never is, are answered one tick later.
const ANSWERS: [(Call, Said); 10] = [
    (Call::Due(0), Said::Due(false)),
    (Call::Due(1), Said::Due(true)),
    (Call::Work(1), Said::Answered(1, READY)),
    (Call::Work(1), Said::Answered(3, READY)),
    (
        Call::Work(1),
        Said::Answered(7, (0, CHECK_CONDITION, [3, 0x11, 0], 0, 0)),
    ),
    (
        Call::Work(1),
        Said::Answered(8, (0, CHECK_CONDITION, NO_SENSE, 0, 0)),
    ),
    (
        Call::Work(1),
        Said::Answered(9, (0, CHECK_CONDITION, [6, 0x2a, 1], 0, 0)),
    ),
    (Call::Work(1), Said::Answered(10, (7, 8, NO_SENSE, 0, 0))),
    (
        Call::Work(1),
        Said::Answered(11, (0, GOOD, NO_SENSE, 512, 0)),
    ),
    (Call::Work(1), Said::Nothing),
];

// The sense that didn't come with its answer is fetched, once. The second probe of the first device is silent.
const FETCHES: [(Call, Said); 5] = [
    (
        Call::Probe(THIRD),
        Said::Fetched((0, GOOD, NO_SENSE, 18, 0x70 + 5 + 10 + 0x24 + 1), 0x70),
    ),
    (
        Call::Probe(THIRD),
        Said::Fetched((0, GOOD, NO_SENSE, 18, 0x70 + 10), 0x70),
    ),
    (
        Call::Probe(FIRST),
        Said::Fetched((0, GOOD, NO_SENSE, 18, 0x70 + 10), 0x70),
    ),
    (Call::Probe(FIRST), Said::Silent),
    (
        Call::Probe(FIRST),
        Said::Fetched((0, GOOD, NO_SENSE, 18, 0x70 + 10), 0x70),
    ),
];

// The attempt 6 is said to be done, and so due; the abort of 5 fails, so that it is answered at its tick; 12 is aborted.
const TIMEOUTS: [(Call, Said); 11] = [
    (
        Call::TimedOut(5, SECOND, 1),
        Said::Timer(TimerSay::ResetTimer),
    ),
    (Call::TimedOut(6, SECOND, 1), Said::Timer(TimerSay::Done)),
    (Call::Work(1), Said::Answered(6, READY)),
    (Call::Work(1), Said::Nothing),
    (
        Call::TimedOut(5, SECOND, 2),
        Said::Timer(TimerSay::NotHandled),
    ),
    (Call::Abort(5, SECOND), FAILED),
    (Call::Work(2), Said::Nothing),
    (Call::Work(3), Said::Answered(5, READY)),
    (Call::Queue(12, SECOND, TEST_UNIT_READY, 0, 3), TAKEN),
    (Call::Abort(12, SECOND), SUCCESS),
    (Call::Work(4), Said::Nothing),
];

// The first line of a table that comes out otherwise.
fn first_wrong(adapter: &mut DebugAdapter, table: &[(Call, Said)]) -> Option<(Call, Option<Said>)> {
    for (call, wanted) in table {
        let said = make(adapter, *call).ok();
        if said != Some(*wanted) {
            return Some((*call, said));
        }
    }
    None
}

#[test]
fn calls_come_out_as_planned(rt: HostRuntime) -> Result<(), Fail> {
    let mut adapter = adapter(rt.alloc())?;
    assert_eq!(rt; first_wrong(&mut adapter, &SENDING), None);
    assert_eq!(rt; first_wrong(&mut adapter, &ANSWERS), None);
    assert_eq!(rt; first_wrong(&mut adapter, &FETCHES), None);
    assert_eq!(rt; first_wrong(&mut adapter, &TIMEOUTS), None);
    Ok(())
}

// A reset, what its first call says and what its second, the attempts that are answered after it (the second device's is due
// later than the others), and which units tell that they were reset.
const RESETS: [(Scope, Said, Said, [u64; 4], [bool; 4]); 5] = [
    (
        Scope::Dev(SECOND),
        FAILED,
        SUCCESS,
        [1, 3, 4, 0],
        [false, true, false, false],
    ),
    (
        Scope::Target(0, 0),
        FAILED,
        SUCCESS,
        [3, 4, 0, 0],
        [true, true, false, false],
    ),
    (
        Scope::Bus(0),
        FAILED,
        SUCCESS,
        [4, 0, 0, 0],
        [true, true, true, false],
    ),
    (
        Scope::Bus(1),
        SUCCESS,
        SUCCESS,
        [1, 3, 2, 0],
        [false, false, false, true],
    ),
    (Scope::Host, FAILED, SUCCESS, [0, 0, 0, 0], [true; 4]),
];

const ALL_FOUR: [(Call, Said); 4] = [
    (Call::Queue(1, FIRST, TEST_UNIT_READY, 0, 0), TAKEN),
    (Call::Queue(2, SECOND, TEST_UNIT_READY, 0, 0), TAKEN),
    (Call::Queue(3, THIRD, TEST_UNIT_READY, 0, 0), TAKEN),
    (Call::Queue(4, FOURTH, TEST_UNIT_READY, 0, 0), TAKEN),
];

fn answered(adapter: &mut DebugAdapter) -> [u64; 4] {
    let mut numbers = [0; 4];
    for i in 0..4 {
        if let Ok(Said::Answered(n, _)) = make(adapter, Call::Work(3)) {
            numbers[i] = n;
        }
    }
    numbers
}

// 6/29/00: power on, reset, or bus device reset occurred (SPC-4, ASC and ASCQ assignments).
fn were_reset(adapter: &mut DebugAdapter) -> [bool; 4] {
    let wanted = (0, GOOD, NO_SENSE, 18, 0x70 + 6 + 10 + 0x29);
    let mut told = [false; 4];
    for (i, dev) in [FIRST, SECOND, THIRD, FOURTH].into_iter().enumerate() {
        told[i] = make(adapter, Call::Probe(dev)) == Ok(Said::Fetched(wanted, 0x70));
    }
    told
}

#[test]
fn resets_reach_their_scope(rt: HostRuntime) -> Result<(), Fail> {
    for (scope, first, second, left, reset) in RESETS {
        let mut adapter = adapter(rt.alloc())?;
        assert_eq!(rt; first_wrong(&mut adapter, &ALL_FOUR), None);
        assert_eq!(rt;
            make(&mut adapter, Call::Reset(scope)),
            Ok(first),
            "{scope:?}"
        );
        assert_eq!(rt;
            make(&mut adapter, Call::Reset(scope)),
            Ok(second),
            "{scope:?}"
        );
        assert_eq!(rt; answered(&mut adapter), left, "{scope:?}");
        assert_eq!(rt; were_reset(&mut adapter), reset, "{scope:?}");
    }
    Ok(())
}

// That want of memory changes nothing is proved for `queue`, `reserve` and `work`.
#[test]
fn room_beyond_all_memory_is_refused(rt: HostRuntime) -> Result<(), Fail> {
    let mut adapter = adapter(rt.alloc())?;
    assert!(rt; adapter.reserve(3).is_ok());
    assert_eq!(rt; first_wrong(&mut adapter, &ALL_FOUR), None);
    assert_eq!(rt; adapter.reserve(usize::MAX), Err(NoMemory));
    assert!(rt; adapter.due(Tick(1)));
    assert_eq!(rt; answered(&mut adapter), [1, 3, 4, 2]);
    Ok(())
}
