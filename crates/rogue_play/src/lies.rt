ghost use Rattle.std.specs.Prelude.{◌<◌, length};

use crate::dice::Dice;
use host_template::{EhSay, Queued, TimerSay};
use mid_base::{Answer, Attempt, HostByte, LAST_NUMBER, NoMemory, ProbeSay, SenseBytes, Tick};
use rogue_lower::RogueLower;
use std::alloc::Global;

// What a liar picks from. What stands several times is said more often.

const QUEUES: [Queued; 6] = [
    Queued::Taken,
    Queued::Taken,
    Queued::Taken,
    Queued::Taken,
    Queued::HostBusy,
    Queued::DeviceBusy,
];

const TIMERS: [TimerSay; 4] = [
    TimerSay::NotHandled,
    TimerSay::NotHandled,
    TimerSay::ResetTimer,
    TimerSay::Done,
];

const SAYS: [EhSay; 2] = [EhSay::Success, EhSay::Failed];

// Attempts that are sent, and some that never are: a script names none from 2^60 on.
const ATTEMPTS: [u64; 12] = [
    1,
    1,
    2,
    2,
    3,
    3,
    4,
    5,
    0,
    LAST_NUMBER - 1,
    LAST_NUMBER,
    LAST_NUMBER + 1,
];

// The kernel's scsi_status.h, and one that it doesn't know.
const HOST_BYTES: [u8; 9] = [0, 0, 0, 0, 1, 2, 3, 12, 254];

// SAM-5, 5.3, and one that it doesn't know.
const STATUSES: [u8; 9] = [0x00, 0x00, 0x02, 0x02, 0x02, 0x08, 0x28, 0x40, 0x99];

// SPC-4, 4.5: fixed form with 3/11/00, 6/29/00, 2/04/02 and b/00/00, deferred, too short, of descriptor form, with a descriptor
// that is cut, and no sense data at all.
const SENSES: [&[u8]; 10] = [
    &[],
    &[0x70, 0, 3, 0, 0, 0, 0, 10, 0, 0, 0, 0, 0x11, 0, 0, 0, 0, 0],
    &[0x70, 0, 6, 0, 0, 0, 0, 10, 0, 0, 0, 0, 0x29, 0, 0, 0, 0, 0],
    &[0x70, 0, 2, 0, 0, 0, 0, 10, 0, 0, 0, 0, 0x04, 2, 0, 0, 0, 0],
    &[0x70, 0, 0x0b, 0, 0, 0, 0, 10, 0, 0, 0, 0, 0, 0, 0, 0, 0, 0],
    &[0x71, 0, 3, 0, 0, 0, 0, 10, 0, 0, 0, 0, 0x11, 0, 0, 0, 0, 0],
    &[0x70, 0, 3, 0, 0, 0, 0],
    &[0x72, 3, 0x14, 1, 0, 0, 0, 0],
    &[0x72, 3, 0x14, 1, 0, 0, 0, 6, 0, 10, 0x80, 0],
    &[0x12, 0x34],
];

fn answer(dice: &mut Dice) -> Answer {
    let sense = dice.one_of(&SENSES);
    Answer {
        host: HostByte(dice.one_of(&HOST_BYTES)),
        status: dice.one_of(&STATUSES),
        sense: SenseBytes::from_slice(&sense[..sense.len().min(252)]),
        moved: dice.below(600),
        sum: dice.below(70000),
    }
}

// The data-in of a probe: sense data, and at times more bytes than a probe may bring.
fn brought(alloc: Global, dice: &mut Dice) -> Result<Vec<u8>, NoMemory> {
    let filled = if dice.below(8) == 0 { 3000 } else { 0 };
    let Ok(mut bytes) = dice.one_of(&SENSES).to_vec(alloc) else {
        return Err(NoMemory);
    };
    match bytes.resize(filled.max(bytes.len()), 0x70) {
        Ok(()) => Ok(bytes),
        Err(_) => Err(NoMemory),
    }
}

fn probe(alloc: Global, dice: &mut Dice) -> Result<(ProbeSay, Vec<u8>), NoMemory> {
    if dice.below(6) == 0 {
        return Ok((ProbeSay::Silent, Vec::new(alloc)));
    }
    Ok((ProbeSay::Answered(answer(dice)), brought(alloc, dice)?))
}

// Up to twelve of these.
fn some_of<T: Copy>(alloc: Global, dice: &mut Dice, all: &[T]) -> Result<Vec<T>, NoMemory>
    requires some { 0 < length all.now }
    requires few { length all.now < 256 }
{
    let mut picked = Vec::new(alloc);
    for _ in 0..dice.below(13) {
        picked.push(dice.one_of(all)).map_err(|_| NoMemory)?;
    }
    Ok(picked)
}

// Which attempts are answered, each from a tick on, which may be long past.
fn answers(alloc: Global, dice: &mut Dice) -> Result<Vec<(Tick, Attempt, Answer)>, NoMemory> {
    let mut said = Vec::new(alloc);
    for _ in 0..dice.below(13) {
        let tick = Tick(u64::from(dice.below(6)));
        let said_of = Attempt(dice.one_of(&ATTEMPTS));
        said.push((tick, said_of, answer(dice)))
            .map_err(|_| NoMemory)?;
    }
    Ok(said)
}

fn probes(alloc: Global, dice: &mut Dice) -> Result<Vec<(ProbeSay, Vec<u8>)>, NoMemory> {
    let mut said = Vec::new(alloc);
    for _ in 0..dice.below(13) {
        let next = probe(alloc, dice)?;
        said.push(next).map_err(|_| NoMemory)?;
    }
    Ok(said)
}

/// The liar of this number: what it says in each call.
pub fn liar(alloc: Global, number: u64) -> Result<RogueLower, NoMemory> {
    let mut dice = Dice::of(number);
    let queues = some_of(alloc, &mut dice, &QUEUES)?;
    let answers = answers(alloc, &mut dice)?;
    let timers = some_of(alloc, &mut dice, &TIMERS)?;
    let says = some_of(alloc, &mut dice, &SAYS)?;
    let probes = probes(alloc, &mut dice)?;
    Ok(RogueLower::new(queues, answers, timers, says, probes))
}
