ghost use Rattle.std.specs.Prelude.{◌≡◌, ◌≤◌, ◌&&◌, length, true};
ghost use Rattle.std.specs.List.{list_all};
ghost use Rattle.mid_base.specs.Limits.{is_lun};

use crate::{
    CountTable, Held, PlanTable, UnitTable, answer_held, busy_answer, fault_at, first_due, hold,
    is_any_due, let_go, next_number, probe_unit, reset, sent_attempt, set_due, timer_answer,
};
use fault_plan::Class;
use host_template::{EhSay, Queued, TimerSay};
use mid_base::{
    Answer, Attempt, CHECK_CONDITION, CdbBytes, DID_OK, DevAddr, DeviceState, Fault, GOOD,
    HostByte, LunSpec, PlanEntry, ProbeSay, Scope, SenseBytes,
};
use slab::Slab;
use std::alloc::Global;

// The addresses of four units, of three targets on two channels.
const FIRST: DevAddr = DevAddr {
    channel: 0,
    target: 0,
    lun: 0,
};

const SECOND: DevAddr = DevAddr {
    channel: 0,
    target: 0,
    lun: 1,
};

const THIRD: DevAddr = DevAddr {
    channel: 0,
    target: 1,
    lun: 0,
};

const FOURTH: DevAddr = DevAddr {
    channel: 1,
    target: 0,
    lun: 0,
};

const DEVICES: [DevAddr; 4] = [FIRST, SECOND, THIRD, FOURTH];

// No unit has this address.
const NOWHERE: DevAddr = DevAddr {
    channel: 1,
    target: 1,
    lun: 0,
};

const LUNS: [LunSpec; 4] = [
    LunSpec {
        dev: FIRST,
        blocks: 64,
        depth: 1,
        read_only: false,
        stopped: false,
        start: DeviceState::Running,
    },
    LunSpec {
        dev: SECOND,
        blocks: 64,
        depth: 1,
        read_only: false,
        stopped: false,
        start: DeviceState::Running,
    },
    LunSpec {
        dev: THIRD,
        blocks: 64,
        depth: 1,
        read_only: false,
        stopped: false,
        start: DeviceState::Running,
    },
    LunSpec {
        dev: FOURTH,
        blocks: 64,
        depth: 1,
        read_only: false,
        stopped: false,
        start: DeviceState::Running,
    },
];

const TEST_UNIT_READY: [u8; 6] = [0, 0, 0, 0, 0, 0];

const REQUEST_SENSE: [u8; 6] = [0x03, 0, 0, 0, 252, 0];

const WRITE_ONE_BLOCK: [u8; 6] = [0x0a, 0, 0, 5, 1, 0];

const READ_ONE_BLOCK: [u8; 6] = [0x08, 0, 0, 5, 1, 0];

fn attempt(n: u64, dev: DevAddr, due: Option<u64>) -> Held {
    Held {
        n: Attempt(n),
        dev,
        cdb: CdbBytes::from_slice(&TEST_UNIT_READY),
        fill: 0,
        due,
        fault: None,
    }
}

fn put(held: &mut Slab<Held>, h: Held) -> bool {
    match held.reserve(1) {
        Ok(()) => {
            hold(held, h);
            true
        }
        Err(_) => false,
    }
}

// A table with attempts of these numbers on the first device, each due at its tick.
fn table(alloc: Global, attempts: &[(u64, Option<u64>)]) -> Option<Slab<Held>> {
    let mut held = Slab::new(alloc);
    for (n, due) in attempts {
        if !put(&mut held, attempt(*n, FIRST, *due)) {
            return None;
        }
    }
    Some(held)
}

fn first_number(held: &Slab<Held>, at: u64) -> Option<u64> {
    first_due(held, at).map(|h| h.n.0)
}

// The numbers of up to four attempts that are due, in the order in which they are answered.
fn answered(held: &mut Slab<Held>, at: u64) -> [u64; 4] {
    let mut numbers = [0; 4];
    for place in 0..4 {
        if let Some(h) = first_due(held, at) {
            numbers[place] = h.n.0;
            let_go(held, h.n);
        }
    }
    numbers
}

// The next attempt to be answered, and whether any is due.
fn next_at(alloc: Global, attempts: &[(u64, Option<u64>)], at: u64) -> Option<(Option<u64>, bool)> {
    let held = table(alloc, attempts)?;
    Some((first_number(&held, at), is_any_due(&held, at)))
}

// Attempts with their due ticks as they were held, a tick, and which is answered at it.
const NEXT: [(&[(u64, Option<u64>)], u64, Option<u64>); 10] = [
    (&[], 5, None),
    (&[(3, Some(7))], 6, None),
    (&[(3, Some(7))], 7, Some(3)),
    (&[(3, Some(7))], 9, Some(3)),
    (&[(3, None)], 9, None),
    (&[(5, Some(4)), (2, Some(4)), (9, Some(4))], 4, Some(2)),
    (&[(1, Some(6)), (8, Some(5)), (2, Some(6))], 6, Some(8)),
    (&[(8, Some(5)), (1, Some(9))], 5, Some(8)),
    (&[(4, None), (7, Some(0))], 0, Some(7)),
    (&[(2, Some(5)), (1, Some(6))], 4, None),
];

#[test]
fn the_least_due_tick_and_then_the_least_number_is_next(rt: HostRuntime) {
    for (attempts, at, wanted) in NEXT {
        let told = next_at(rt.alloc(), attempts, at);
        let wanted = Some((wanted, wanted.is_some()));
        assert_eq!(rt; told, wanted, "{attempts:?} at {at}");
    }
}

#[test]
fn what_is_let_go_is_not_answered(rt: HostRuntime) {
    let attempts = [(7, Some(3)), (2, Some(3)), (5, Some(1)), (4, Some(2))];
    let Some(mut held) = table(rt.alloc(), &attempts) else {
        assert!(rt; false, "memory");
        return;
    };
    let_go(&mut held, Attempt(4));
    let_go(&mut held, Attempt(6));
    assert_eq!(rt; answered(&mut held, 3), [5, 2, 7, 0]);
    assert!(rt; !is_any_due(&held, 3));
}

#[test]
fn an_attempt_is_due_from_another_tick_on(rt: HostRuntime) {
    let Some(mut held) = table(rt.alloc(), &[(1, None), (2, Some(9))]) else {
        assert!(rt; false, "memory");
        return;
    };
    set_due(&mut held, Attempt(3), 4);
    assert_eq!(rt; first_number(&held, 8), None);
    set_due(&mut held, Attempt(1), 8);
    assert_eq!(rt; first_number(&held, 7), None);
    assert_eq!(rt; answered(&mut held, 9), [1, 2, 0, 0]);
}

fn rows(alloc: Global) -> Option<CountTable> {
    CountTable::new(alloc, &LUNS).ok()
}

#[test]
fn calls_are_numbered_by_device_and_class(rt: HostRuntime) {
    let Some(mut rows) = rows(rt.alloc()) else {
        assert!(rt; false, "memory");
        return;
    };
    assert_eq!(rt; next_number(&mut rows, SECOND, Class::Queue), 1);
    assert_eq!(rt; next_number(&mut rows, SECOND, Class::Queue), 2);
    assert_eq!(rt; next_number(&mut rows, SECOND, Class::Abort), 1);
    assert_eq!(rt; next_number(&mut rows, THIRD, Class::Queue), 1);
    assert_eq!(rt; next_number(&mut rows, SECOND, Class::Timer), 1);
    assert_eq!(rt; next_number(&mut rows, SECOND, Class::Probe), 1);
    assert_eq!(rt; next_number(&mut rows, SECOND, Class::Queue), 3);
    assert_eq!(rt; next_number(&mut rows, NOWHERE, Class::Queue), 0);
}

fn planned(dev: DevAddr, fault: Fault, first: u32) -> PlanEntry {
    PlanEntry {
        dev,
        fault,
        first,
        every: 1,
        uses: 1,
    }
}

fn plan_of(alloc: Global, lines: &[PlanEntry]) -> Option<PlanTable> {
    PlanTable::new(alloc, &LUNS, lines).ok()
}

#[test]
fn a_call_meets_the_fault_of_its_number(rt: HostRuntime) {
    let Some(plan) = plan_of(rt.alloc(), &[planned(SECOND, Fault::Busy, 2)]) else {
        assert!(rt; false, "memory");
        return;
    };
    assert_eq!(rt; fault_at(&plan, SECOND, Class::Queue, 1), None);
    assert_eq!(rt; fault_at(&plan, SECOND, Class::Queue, 2), Some(Fault::Busy));
    assert_eq!(rt; fault_at(&plan, SECOND, Class::Timer, 2), None);
    assert_eq!(rt; fault_at(&plan, FIRST, Class::Queue, 2), None);
}

#[test]
fn of_lines_of_many_devices_and_classes_the_first_that_hits_counts(rt: HostRuntime) {
    let lines = [
        planned(THIRD, Fault::Latency(2), 1),
        planned(SECOND, Fault::Latency(3), 2),
        planned(SECOND, Fault::AbortFail, 1),
        planned(SECOND, Fault::Busy, 1),
        planned(SECOND, Fault::Never, 1),
        planned(NOWHERE, Fault::Busy, 1),
        planned(SECOND, Fault::Check(3, 0x11, 0), 1),
        planned(SECOND, Fault::Latency(4), 1),
        planned(SECOND, Fault::HostBusy, 1),
    ];
    let wanted = [
        (SECOND, Class::Queue, Some(Fault::Busy)),
        (SECOND, Class::Time, Some(Fault::Never)),
        (SECOND, Class::Answer, Some(Fault::Check(3, 0x11, 0))),
        (SECOND, Class::Abort, Some(Fault::AbortFail)),
        (SECOND, Class::Probe, None),
        (THIRD, Class::Time, Some(Fault::Latency(2))),
        (FIRST, Class::Time, None),
        (NOWHERE, Class::Queue, Some(Fault::Busy)),
    ];
    let Some(plan) = plan_of(rt.alloc(), &lines) else {
        assert!(rt; false, "memory");
        return;
    };
    for (dev, class, fault) in wanted {
        assert_eq!(rt; fault_at(&plan, dev, class, 1), fault, "{class:?}");
    }
}

#[test]
fn faults_make_the_answers_of_queue_and_of_timeouts(rt: HostRuntime) {
    assert_eq!(rt; busy_answer(Fault::HostBusy), Queued::HostBusy);
    assert_eq!(rt; busy_answer(Fault::Busy), Queued::DeviceBusy);
    assert_eq!(rt; timer_answer(None), TimerSay::NotHandled);
    assert_eq!(rt; timer_answer(Some(Fault::Longer)), TimerSay::ResetTimer);
    assert_eq!(rt; timer_answer(Some(Fault::TimerDone)), TimerSay::Done);
}

fn sent(plan: &PlanTable, number: u64) -> Held {
    let cdb = CdbBytes::from_slice(&TEST_UNIT_READY);
    sent_attempt(plan, Attempt(6), SECOND, &cdb, 3, 10, number)
}

#[test]
fn the_plan_says_when_an_attempt_is_due_and_by_which_fault(rt: HostRuntime) {
    let lines = [
        planned(SECOND, Fault::Latency(5), 1),
        planned(SECOND, Fault::Never, 2),
        planned(SECOND, Fault::Check(3, 0x11, 0), 3),
        planned(FIRST, Fault::Latency(9), 4),
    ];
    let wanted = [
        (1, Some(15), None),
        (2, None, None),
        (3, Some(11), Some(Fault::Check(3, 0x11, 0))),
        (4, Some(11), None),
    ];
    let Some(plan) = plan_of(rt.alloc(), &lines) else {
        assert!(rt; false, "memory");
        return;
    };
    for (number, due, fault) in wanted {
        let h = sent(&plan, number);
        assert_eq!(rt; h.due, due, "{number}");
        assert_eq!(rt; h.fault, fault, "{number}");
        assert_eq!(rt; (h.n, h.dev, h.fill), (Attempt(6), SECOND, 3), "{number}");
    }
}

fn units(alloc: Global) -> Option<UnitTable> {
    UnitTable::new(alloc, &LUNS).ok()
}

#[test]
fn a_unit_has_the_numbers_of_its_target(rt: HostRuntime) {
    let Some(units) = units(rt.alloc()) else {
        assert!(rt; false, "memory");
        return;
    };
    let wanted: [&[u16]; 4] = [&[0, 1], &[0, 1], &[0], &[0]];
    for (row, numbers) in units.units.iter().zip(wanted) {
        assert_eq!(rt; row.luns.as_slice(), numbers);
    }
}

// What comes of a REQUEST SENSE that recovery sends, and the first byte that came in.
fn fetch(alloc: Global, units: &mut UnitTable, dev: DevAddr) -> Option<(ProbeSay, u8)> {
    let mut buffer = vec![in alloc; 0u8; 131_072].ok()?;
    let mut into = [0u8; 2056];
    let cdb = CdbBytes::from_slice(&REQUEST_SENSE);
    let say = probe_unit(units, dev, &cdb, &mut buffer, &mut into);
    Some((say, into[0]))
}

#[test]
fn probes_reach_the_unit_of_their_device(rt: HostRuntime) {
    let Some(mut units) = units(rt.alloc()) else {
        assert!(rt; false, "memory");
        return;
    };
    let answer = Answer {
        host: DID_OK,
        status: GOOD,
        sense: SenseBytes::empty(),
        moved: 18,
        sum: 0x70 + 10,
    };
    let wanted = Some((ProbeSay::Answered(answer), 0x70));
    assert_eq!(rt; fetch(rt.alloc(), &mut units, THIRD), wanted);
    let silent = Some((ProbeSay::Silent, 0));
    assert_eq!(rt; fetch(rt.alloc(), &mut units, NOWHERE), silent);
}

fn ask(alloc: Global, units: &mut UnitTable, h: &Held) -> Option<Answer> {
    let mut buffer = vec![in alloc; 0u8; 131_072].ok()?;
    answer_held(units, h, &mut buffer).ok()
}

// The sense key, the additional sense code and its qualifier of fixed format sense data (SPC-4, 4.5.3).
fn code_of(sense: &SenseBytes) -> [u8; 3] {
    let bytes = sense.as_slice();
    match (bytes.get(2), bytes.get(12), bytes.get(13)) {
        (Some(key), Some(asc), Some(ascq)) => [*key % 16, *asc, *ascq],
        _ => [0, 0, 0],
    }
}

// What an attempt comes to: host byte, status, sense, how much was moved, and the sum of the data that came in.
type Outcome = (u8, u8, [u8; 3], u32, u32);

fn outcome(alloc: Global, units: &mut UnitTable, h: &Held) -> Option<Outcome> {
    let a = ask(alloc, units, h)?;
    Some((a.host.0, a.status, code_of(&a.sense), a.moved, a.sum))
}

// Fixed format sense data of a unit attention, 6/2a/01.
const PARAMETERS_CHANGED: [u8; 18] = [0x70, 0, 6, 0, 0, 0, 0, 10, 0, 0, 0, 0, 0x2a, 1, 0, 0, 0, 0];

fn commands() -> [([u8; 6], u8, Option<Fault>, Outcome); 9] {
    let none = [0, 0, 0];
    let raw = Fault::Raw(SenseBytes::from_slice(&PARAMETERS_CHANGED));
    let no_sense = Fault::NoSense(5, 0x24, 1);
    [
        (TEST_UNIT_READY, 0, None, (0, GOOD, none, 0, 0)),
        (WRITE_ONE_BLOCK, 2, None, (0, GOOD, none, 512, 0)),
        // 512 bytes, each a 2
        (READ_ONE_BLOCK, 0, None, (0, GOOD, none, 512, 1024)),
        (
            READ_ONE_BLOCK,
            0,
            Some(Fault::Check(3, 0x11, 0)),
            (0, CHECK_CONDITION, [3, 0x11, 0], 0, 0),
        ),
        (
            READ_ONE_BLOCK,
            0,
            Some(raw),
            (0, CHECK_CONDITION, [6, 0x2a, 1], 0, 0),
        ),
        (
            READ_ONE_BLOCK,
            0,
            Some(Fault::Status(HostByte(7), 8)),
            (7, 8, none, 0, 0),
        ),
        (
            READ_ONE_BLOCK,
            0,
            Some(no_sense),
            (0, CHECK_CONDITION, none, 0, 0),
        ),
        // 70, 5 and 0a at the front, 24 and 01 behind
        (
            REQUEST_SENSE,
            0,
            None,
            (0, GOOD, none, 18, 0x70 + 5 + 10 + 0x24 + 1),
        ),
        // no sense is pending any more
        (REQUEST_SENSE, 0, None, (0, GOOD, none, 18, 0x70 + 10)),
    ]
}

fn command(cdb: [u8; 6], fill: u8, fault: Option<Fault>) -> Held {
    Held {
        cdb: CdbBytes::from_slice(&cdb),
        fill,
        fault,
        ..attempt(1, SECOND, Some(1))
    }
}

#[test]
fn a_unit_or_a_fault_makes_the_answer(rt: HostRuntime) {
    let Some(mut units) = units(rt.alloc()) else {
        assert!(rt; false, "memory");
        return;
    };
    for (cdb, fill, fault, wanted) in commands() {
        let h = command(cdb, fill, fault);
        let told = outcome(rt.alloc(), &mut units, &h);
        assert_eq!(rt; told, Some(wanted), "{cdb:?} {fault:?}");
    }
}

#[test]
fn a_device_without_a_unit_answers_good(rt: HostRuntime) {
    let Some(mut units) = units(rt.alloc()) else {
        assert!(rt; false, "memory");
        return;
    };
    let told = outcome(rt.alloc(), &mut units, &attempt(1, NOWHERE, Some(1)));
    assert_eq!(rt; told, Some((DID_OK.0, GOOD, [0, 0, 0], 0, 0)));
}

// An adapter with an attempt on each device, 1 to 4, all due at the tick 1.
#[derive(Drop)]
struct Bench {
    held: Slab<Held>,
    rows: CountTable,
    units: UnitTable,
}

fn made(alloc: Global) -> Option<Bench> {
    let mut held = Slab::new(alloc);
    for (n, dev) in [(1, FIRST), (2, SECOND), (3, THIRD), (4, FOURTH)] {
        if !put(&mut held, attempt(n, dev, Some(1))) {
            return None;
        }
    }
    Some(Bench {
        held,
        rows: rows(alloc)?,
        units: units(alloc)?,
    })
}

// Which units tell that they were reset (SPC-4: 6/29/00, power on, reset, or bus device reset occurred).
fn were_reset(alloc: Global, units: &mut UnitTable) -> [bool; 4] {
    let mut told = [false; 4];
    for (place, dev) in DEVICES.iter().enumerate() {
        let said = outcome(alloc, units, &attempt(9, *dev, Some(1)));
        told[place] = said == Some((0, CHECK_CONDITION, [6, 0x29, 0], 0, 0));
    }
    told
}

fn reset_by(bench: &mut Bench, plan: &PlanTable, scope: Scope, class: Class) -> EhSay {
    reset(
        plan,
        &mut bench.held,
        &mut bench.rows,
        &mut bench.units,
        scope,
        class,
    )
}

// What a reset says where no fault is planned, the attempts that are answered after it, and which units it has reset.
fn after_reset(alloc: Global, scope: Scope, class: Class) -> Option<(EhSay, [u64; 4], [bool; 4])> {
    let mut bench = made(alloc)?;
    let plan = plan_of(alloc, &[])?;
    let said = reset_by(&mut bench, &plan, scope, class);
    let left = answered(&mut bench.held, 1);
    let told = were_reset(alloc, &mut bench.units);
    Some((said, left, told))
}

// A reset, the attempts that are answered after it, and which units it has reset.
const RESETS: [(Scope, Class, [u64; 4], [bool; 4]); 8] = [
    (
        Scope::Dev(SECOND),
        Class::ResetDevice,
        [1, 3, 4, 0],
        [false, true, false, false],
    ),
    (
        Scope::Target(0, 0),
        Class::ResetTarget,
        [3, 4, 0, 0],
        [true, true, false, false],
    ),
    (
        Scope::Target(0, 1),
        Class::ResetTarget,
        [1, 2, 4, 0],
        [false, false, true, false],
    ),
    (
        Scope::Target(1, 0),
        Class::ResetTarget,
        [1, 2, 3, 0],
        [false, false, false, true],
    ),
    (
        Scope::Target(1, 1),
        Class::ResetTarget,
        [1, 2, 3, 4],
        [false; 4],
    ),
    (
        Scope::Bus(0),
        Class::ResetBus,
        [4, 0, 0, 0],
        [true, true, true, false],
    ),
    (
        Scope::Bus(1),
        Class::ResetBus,
        [1, 2, 3, 0],
        [false, false, false, true],
    ),
    (Scope::Host, Class::ResetHost, [0; 4], [true; 4]),
];

#[test]
fn a_reset_is_of_its_scope_alone(rt: HostRuntime) {
    for (scope, class, left, told) in RESETS {
        let wanted = Some((EhSay::Success, left, told));
        assert_eq!(rt; after_reset(rt.alloc(), scope, class), wanted, "{scope:?}");
    }
}

#[test]
fn a_reset_that_meets_a_fault_is_counted_and_does_nothing(rt: HostRuntime) {
    let lines = [planned(SECOND, Fault::Rtgt, 1)];
    let scope = Scope::Target(0, 0);
    let (Some(mut bench), Some(plan)) = (made(rt.alloc()), plan_of(rt.alloc(), &lines)) else {
        assert!(rt; false, "memory");
        return;
    };
    assert_eq!(rt;
        reset_by(&mut bench, &plan, scope, Class::ResetTarget),
        EhSay::Failed
    );
    assert_eq!(rt; were_reset(rt.alloc(), &mut bench.units), [false; 4]);
    assert_eq!(rt; next_number(&mut bench.rows, FIRST, Class::ResetTarget), 2);
    assert_eq!(rt; next_number(&mut bench.rows, SECOND, Class::ResetTarget), 2);
    assert_eq!(rt; next_number(&mut bench.rows, THIRD, Class::ResetTarget), 1);
    assert_eq!(rt; answered(&mut bench.held, 1), [1, 2, 3, 4]);
}
