use crate::commands::{FIRST, OTHER, SECOND, all_callbacks, cancelled, told};
use crate::rogue::Rogue;
use bitflags::Flags;
use escalation::{Acted, Ladder, Todo};
use mid_base::{
    Answer, BUSY, CHECK_CONDITION, CmdId, DID_NO_CONNECT, DID_OK, Entry, GOOD, Handlers, HostByte,
    ProbeSay, Scope, SenseBytes,
};
use std::alloc::Global;
use std::test::Fail;

fn answer(host: HostByte, status: u8, moved: u32) -> Answer {
    Answer {
        host,
        status,
        sense: SenseBytes::empty(),
        moved,
        sum: 7,
    }
}

// It tells of more bytes than any buffer has.
fn good() -> ProbeSay {
    ProbeSay::Answered(answer(DID_OK, GOOD, u32::MAX))
}

fn says() -> [ProbeSay; 4] {
    [
        good(),
        ProbeSay::Silent,
        ProbeSay::Answered(answer(DID_NO_CONNECT, GOOD, 0)),
        ProbeSay::Answered(answer(DID_OK, CHECK_CONDITION, 18)),
    ]
}

// A command that was answered CHECK CONDITION without sense data.
fn without_sense(id: u32) -> Todo {
    Todo {
        cancelled: false,
        answer: Some(answer(DID_OK, CHECK_CONDITION, 0)),
        ..cancelled(id, OTHER)
    }
}

fn commands() -> [Todo; 4] {
    [
        cancelled(4, SECOND),
        without_sense(3),
        cancelled(2, FIRST),
        cancelled(1, SECOND),
    ]
}

fn times_cleared(entries: &[Entry], id: u32) -> usize {
    entries
        .iter()
        .filter(|entry| matches!(entry, Entry::Cleared(c, _) if *c == CmdId(id)))
        .count()
}

fn each_is_cleared_once(entries: &[Entry]) -> bool {
    (1u32..5).all(|id| times_cleared(entries, id) == 1)
}

fn clears_each(alloc: Global, bits: u8, says: [ProbeSay; 3], aborts: bool) -> Result<bool, Fail> {
    let mut lower = Rogue {
        succeeds: Handlers::from_bits_retain(bits),
        says,
        calls: 0,
    };
    let entries = told(alloc, &mut lower, &commands(), all_callbacks(), aborts)?;
    Ok(each_is_cleared_once(&entries))
}

#[test]
fn each_command_is_cleared_once_whatever_is_answered(rt: HostRuntime) -> Result<(), Fail> {
    for bits in 0u8..32 {
        for first in says() {
            for second in says() {
                let says = [first, second, ProbeSay::Silent];
                assert!(rt;
                    clears_each(rt.alloc(), bits, says, bits % 3 == 0)?,
                    "{bits} {says:?}"
                );
            }
        }
    }
    Ok(())
}

// BUSY is not retried in a test: the unit is tested once, and isn't ready.
#[test]
fn a_busy_device_is_not_ready(rt: HostRuntime) -> Result<(), Fail> {
    let busy = ProbeSay::Answered(answer(DID_OK, BUSY, 0));
    let mut lower = Rogue {
        succeeds: Handlers::DEVICE,
        says: [busy, busy, busy],
        calls: 0,
    };
    let todo = [cancelled(1, FIRST)];
    let entries = told(rt.alloc(), &mut lower, &todo, Handlers::DEVICE, false)?;
    let wanted = [
        Entry::Act(4, Scope::Dev(FIRST), true),
        Entry::Probe(FIRST, 0, busy),
        Entry::Act(5, Scope::Target(0, 0), false),
        Entry::Act(6, Scope::Bus(0), false),
        Entry::Act(7, Scope::Host, false),
        Entry::Act(8, Scope::Dev(FIRST), true),
        Entry::Offline(FIRST),
        Entry::Cleared(CmdId(1), 8),
    ];
    assert!(rt; entries.as_slice() == wanted.as_slice());
    Ok(())
}

// How often a lower layer is called by three calls of a ladder, the first of which clears its only command.
fn calls_of_three(alloc: Global) -> Result<u32, Fail> {
    let mut lower = Rogue {
        succeeds: Handlers::DEVICE,
        says: [good(), good(), good()],
        calls: 0,
    };
    let mut into = [0u8; 2056];
    let todo = [cancelled(1, FIRST)].to_vec(alloc)?;
    let mut ladder = Ladder::begin(todo, all_callbacks(), false)?;
    let Acted::Act { .. } = ladder.next(&mut lower, &mut into)? else {
        return Err("an act".into());
    };
    for _ in 0..2 {
        let Acted::Finished = ladder.next(&mut lower, &mut into)? else {
            return Err("nothing is left".into());
        };
    }
    Ok(lower.calls)
}

#[test]
fn a_finished_ladder_calls_nothing(rt: HostRuntime) -> Result<(), Fail> {
    assert!(rt; calls_of_three(rt.alloc())? == 2, "a reset and a test");
    Ok(())
}
