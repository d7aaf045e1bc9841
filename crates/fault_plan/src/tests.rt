use crate::{Class, Lines, class_of, same_class, take};
use mid_base::{DevAddr, Fault, HostByte, PlanEntry, SenseBytes};
use std::alloc::Global;
use std::test::Fail;

const HERE: DevAddr = DevAddr {
    channel: 1,
    target: 2,
    lun: 3,
};

// Devices that differ from `HERE` in one number.
const ELSEWHERE: [DevAddr; 3] = [
    DevAddr {
        channel: 0,
        target: 2,
        lun: 3,
    },
    DevAddr {
        channel: 1,
        target: 3,
        lun: 3,
    },
    DevAddr {
        channel: 1,
        target: 2,
        lun: 4,
    },
];

const CLASSES: [Class; 10] = [
    Class::Queue,
    Class::Time,
    Class::Answer,
    Class::Timer,
    Class::Abort,
    Class::ResetDevice,
    Class::ResetTarget,
    Class::ResetBus,
    Class::ResetHost,
    Class::Probe,
];

// First, every, uses and a number, and whether it is hit. The greatest 32-bit number is 4,294,967,295; its square is
// 18,446,744,065,119,617,025, and the greatest 64-bit number is 4,294,967,297 times it.
const NUMBERS: [(u32, u32, u32, u64, bool); 42] = [
    // the first number
    (0, 1, 1, 0, true),
    (0, 1, 1, 1, false),
    (0, 1, 1, u64::MAX, false),
    (1, 1, 1, 0, false),
    (1, 1, 1, 1, true),
    (1, 1, 1, 2, false),
    (65_535, 1, 65_535, 0, false),
    (65_535, 1, 65_535, 65_534, false),
    (65_535, 1, 65_535, 65_535, true),
    (4_294_967_295, 1, 1, 4_294_967_294, false),
    (4_294_967_295, 1, 1, 4_294_967_295, true),
    (4_294_967_295, 1, 1, 4_294_967_296, false),
    // every second or third number, and the ends of the uses
    (3, 2, 3, 1, false),
    (3, 2, 3, 2, false),
    (3, 2, 3, 3, true),
    (3, 2, 3, 4, false),
    (3, 2, 3, 5, true),
    (3, 2, 3, 6, false),
    (3, 2, 3, 7, true),
    (3, 2, 3, 8, false),
    (3, 2, 3, 9, false),
    (0, 3, 2, 0, true),
    (0, 3, 2, 2, false),
    (0, 3, 2, 3, true),
    (0, 3, 2, 6, false),
    (65_535, 1, 65_535, 131_069, true),
    (65_535, 1, 65_535, 131_070, false),
    (1, 65_535, 65_535, 4_294_770_690, false),
    (1, 65_535, 65_535, 4_294_770_691, true),
    (1, 65_535, 65_535, 4_294_836_226, false),
    (1, 1, 65_535, u64::MAX, false),
    (
        4_294_967_295,
        4_294_967_295,
        4_294_967_295,
        18_446_744_065_119_617_025,
        true,
    ),
    (
        4_294_967_295,
        4_294_967_295,
        4_294_967_295,
        18_446_744_069_414_584_320,
        false,
    ),
    (4_294_967_295, 4_294_967_295, 4_294_967_295, u64::MAX, false),
    // no use, and no step
    (1, 1, 0, 1, false),
    (0, 1, 0, 0, false),
    (5, 0, 2, 4, false),
    (5, 0, 2, 5, true),
    (5, 0, 2, 6, false),
    (5, 0, 2, 10, false),
    (5, 0, 2, u64::MAX, false),
    (5, 0, 0, 5, false),
];

fn planned(dev: DevAddr, fault: Fault, first: u32, every: u32, uses: u32) -> PlanEntry {
    PlanEntry {
        dev,
        fault,
        first,
        every,
        uses,
    }
}

// A fault of each kind, and its class.
fn faults() -> [(Fault, Class); 16] {
    [
        (Fault::HostBusy, Class::Queue),
        (Fault::Busy, Class::Queue),
        (Fault::Latency(7), Class::Time),
        (Fault::Never, Class::Time),
        (Fault::Check(3, 0x11, 0), Class::Answer),
        (Fault::NoSense(6, 0x29, 0), Class::Answer),
        (
            Fault::Raw(SenseBytes::from_slice(&[0x70, 0, 3])),
            Class::Answer,
        ),
        (Fault::Status(HostByte(0), 0x28), Class::Answer),
        (Fault::Longer, Class::Timer),
        (Fault::TimerDone, Class::Timer),
        (Fault::AbortFail, Class::Abort),
        (Fault::Rdev, Class::ResetDevice),
        (Fault::Rtgt, Class::ResetTarget),
        (Fault::Rbus, Class::ResetBus),
        (Fault::Rhost, Class::ResetHost),
        (Fault::Silent, Class::Probe),
    ]
}

#[test]
fn each_fault_is_met_in_its_class_alone(rt: HostRuntime) {
    for (fault, class) in &faults() {
        assert!(rt; same_class(class_of(fault), *class), "{fault:?}");
        let plan = [planned(HERE, *fault, 1, 1, 1)];
        for asked in CLASSES {
            let met = take(&plan, HERE, asked, 1).copied();
            let wanted = if asked == *class { Some(*fault) } else { None };
            assert_eq!(rt; met, wanted, "{fault:?} at a call of {asked:?}");
        }
    }
}

#[test]
fn an_entry_hits_its_numbers_alone(rt: HostRuntime) {
    for (first, every, uses, nth, is_hit) in NUMBERS {
        let plan = [planned(HERE, Fault::Never, first, every, uses)];
        let met = take(&plan, HERE, Class::Time, nth);
        assert_eq!(rt; met.is_some(), is_hit, "{nth} of {first} {every} {uses}");
    }
}

#[test]
fn the_first_entry_that_hits_is_taken(rt: HostRuntime) {
    let plan = [
        planned(HERE, Fault::AbortFail, 0, 1, 99),
        planned(HERE, Fault::Latency(7), 2, 2, 2),
        planned(HERE, Fault::Never, 1, 1, 9),
    ];
    let latency = Some(&Fault::Latency(7));
    let never = Some(&Fault::Never);
    let wanted = [
        (0, None),
        (1, never),
        (2, latency),
        (3, never),
        (4, latency),
        (5, never),
        (6, never),
        (9, never),
        (10, None),
    ];
    for (nth, fault) in wanted {
        assert_eq!(rt; take(&plan, HERE, Class::Time, nth), fault, "{nth}");
    }
}

#[test]
fn another_device_is_not_hit(rt: HostRuntime) {
    for dev in ELSEWHERE {
        let plan = [
            planned(dev, Fault::Busy, 1, 1, 1),
            planned(HERE, Fault::HostBusy, 1, 1, 2),
        ];
        assert_eq!(rt; take(&plan, HERE, Class::Queue, 1), Some(&Fault::HostBusy));
        assert_eq!(rt; take(&plan, dev, Class::Queue, 1), Some(&Fault::Busy));
        assert_eq!(rt; take(&plan, dev, Class::Queue, 2), None);
    }
}

#[test]
fn an_empty_plan_hits_nothing(rt: HostRuntime) {
    let plan: [PlanEntry; 0] = [];
    for class in CLASSES {
        for nth in [0, 1, u64::MAX] {
            let met = take(&plan, HERE, class, nth);
            assert_eq!(rt; met, None, "{nth}");
        }
    }
}

// A plan whose line number i, from 1 on, hits the call number i alone.
fn rising(alloc: Global, count: u32) -> Result<Vec<PlanEntry>, Fail> {
    let mut plan = Vec::new(alloc);
    for i in 0..count {
        plan.push(planned(HERE, Fault::Latency(i), i, 1, 1))?;
    }
    Ok(plan)
}

#[test]
fn a_plan_of_many_lines_is_met_line_by_line(rt: HostRuntime) -> Result<(), Fail> {
    let plan = rising(rt.alloc(), 300)?;
    let lines = Lines::new(rt.alloc(), &plan)?;
    for nth in [0, 1, 127, 128, 255, 256, 299] {
        let met = lines.meet(HERE, Class::Time, nth).copied();
        assert_eq!(rt; met, Some(Fault::Latency(nth as u32)), "{nth}");
    }
    Ok(())
}

#[test]
fn no_line_behind_the_last_one_is_met(rt: HostRuntime) -> Result<(), Fail> {
    let plan = rising(rt.alloc(), 300)?;
    let lines = Lines::new(rt.alloc(), &plan)?;
    assert_eq!(rt; lines.meet(HERE, Class::Time, 300), None);
    Ok(())
}

// The second block has a line that hits a number of the first block too.
#[test]
fn the_first_line_is_met_before_one_of_another_block(rt: HostRuntime) -> Result<(), Fail> {
    let mut plan = rising(rt.alloc(), 200)?;
    plan.push(planned(HERE, Fault::Never, 3, 1, 999))?;
    let lines = Lines::new(rt.alloc(), &plan)?;
    for (nth, fault) in [
        (3, Fault::Latency(3)),
        (199, Fault::Latency(199)),
        (200, Fault::Never),
    ] {
        assert_eq!(rt;
            lines.meet(HERE, Class::Time, nth).copied(),
            Some(fault),
            "{nth}"
        );
    }
    Ok(())
}
