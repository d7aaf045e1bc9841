ghost use Rattle.std.specs.Prelude.{◌≡◌, ◌<◌, ◌+◌, OnOk};
ghost use Rattle.drain_rounds.specs.Rounds.{Exhausts, hand_in};
ghost use Rattle.play_sched.specs.Phases.{Continues, IsNext, phase_of};
ghost use Rattle.play_sched.specs.Rest.{GoesOn, IsHandedInBelow};

use crate::host::Host;
use mid_base::{By, DeviceState, LaneNo, NoMemory, Step};

/// A phase of a round, but for that of handing in.
#[derive(Clone, Copy, PartialEq, Eq, Debug)]
pub enum Phase {
    Wake,
    Send,
    Work,
    Ask,
    Claim(By),
    Settle,
    Drop,
    Abort,
    EhBegin,
    EhAct,
    EhFlush,
    EhEnd,
}

/// The step that the phase comes to next, if nothing bars it.
fn next_step(host: &Host, phase: Phase) -> Option<Step>
    ensures { IsNext (phase_of phase) host.now result }
{
    match phase {
        Phase::Wake => match host.first_stopped() {
            Some(device) => Some(Step::SetState(device, DeviceState::Running)),
            None => None,
        },
        Phase::Claim(by) => match host.first_claim(by) {
            Some(n) => Some(Step::Own(n, by)),
            None => None,
        },
        Phase::Settle => match host.next_owned() {
            Some(n) => Some(Step::Settle(n)),
            None => None,
        },
        Phase::Drop => match host.next_late() {
            Some(n) => Some(Step::Drop(n)),
            None => None,
        },
        Phase::Send => Some(Step::Send),
        Phase::Work => Some(Step::Work),
        Phase::Ask => Some(Step::Due),
        Phase::Abort => Some(Step::Abort),
        Phase::EhBegin => Some(Step::EhBegin),
        Phase::EhAct => Some(Step::EhAct),
        Phase::EhFlush => Some(Step::EhFlush),
        Phase::EhEnd => Some(Step::EhEnd),
    }
}

/// Makes the steps that a phase names, until it names none.
pub fn exhaust(host: &mut Host, phase: Phase) -> Result<(), NoMemory>
    ensures made { OnOk result (Exhausts (phase_of phase) host.old.spec host.old.before host.old.entries host.new.entries) }
    ensures goes { OnOk result (GoesOn host.old host.new) }
{
    loop {
        let Some(step) = next_step(host, phase) else {
            return Ok(());
        };
        if host.make(step)?.is_some() {
            return Ok(());
        }
        let _ = host.count();
    }
}

/// Hands each lane in, the lowest first.
pub fn hand_in(host: &mut Host) -> Result<(), NoMemory>
    ensures made { OnOk result (Exhausts hand_in host.old.spec host.old.before host.old.entries host.new.entries) }
    ensures done { OnOk result (IsHandedInBelow 64 host.new.spec host.new.entries) }
    ensures goes { OnOk result (GoesOn host.old host.new) }
{
    for lane in 0..64 {
        hand_in_lane(host, lane)?;
    }
    Ok(())
}

// Hands a lane in, behind those below it.
fn hand_in_lane(host: &mut Host, lane: u8) -> Result<(), NoMemory>
    requires lane { lane < 64 }
    requires below { IsHandedInBelow lane host.old.spec host.old.entries }
    ensures made { OnOk result (Continues hand_in host.old host.new) }
    ensures done { OnOk result (IsHandedInBelow (lane + 1) host.new.spec host.new.entries) }
    ensures goes { OnOk result (GoesOn host.old host.new) }
{
    loop {
        if host.make(Step::Submit(LaneNo(lane)))?.is_some() {
            return Ok(());
        }
        let _ = host.count();
    }
}
