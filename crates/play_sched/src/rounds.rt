ghost use Rattle.std.specs.Prelude.{◌≡◌, true, OnOk, IfOk};
ghost use Rattle.drain_rounds.specs.Rounds.{Exhausts, Passes, PassesTime, Round, hand_in, is_drained, wake};
ghost use Rattle.play_sched.specs.Phases.{IsAtRest, first_phases, middle_phases, last_phases};
ghost use Rattle.play_sched.specs.Rest.{GoesOn};

use crate::host::Host;
use crate::phases::{Phase, exhaust, hand_in};
use mid_base::{By, NoMemory, Step};

/// What needn't be looked for any more: that each lane is handed in, and that no device is stopped.
#[derive(Clone, Copy, PartialEq, Eq, Debug)]
pub struct Rest {
    pub handed_in: bool,
    pub awake: bool,
}

/// Makes one round.
pub fn round(host: &mut Host, rest: &mut Rest) -> Result<(), NoMemory>
    requires { IsAtRest rest.old host.old }
    ensures made { OnOk result (Round host.old.spec host.old.before host.old.entries host.new.entries) }
    ensures rest { OnOk result (IsAtRest rest.new host.new) }
    ensures goes { OnOk result (GoesOn host.old host.new) }
{
    take_up(host, rest)?;
    answer(host)?;
    recover(host)?;
    go_on(host)?;
    Ok(())
}

// Wakes the devices and hands the lanes in, where that isn't over.
fn take_up(host: &mut Host, rest: &mut Rest) -> Result<(), NoMemory>
    requires { IsAtRest rest.old host.old }
    ensures made { OnOk result (Passes first_phases host.old.spec host.old.before host.old.entries host.new.entries) }
    ensures rest { OnOk result (IsAtRest rest.new host.new) }
    ensures goes { OnOk result (GoesOn host.old host.new) }
{
    wake_up(host, rest)?;
    hand_over(host, rest)?;
    Ok(())
}

fn wake_up(host: &mut Host, rest: &mut Rest) -> Result<(), NoMemory>
    requires { IsAtRest rest.old host.old }
    ensures made { OnOk result (Exhausts wake host.old.spec host.old.before host.old.entries host.new.entries) }
    ensures rest { OnOk result (IsAtRest rest.new host.new) }
    ensures goes { OnOk result (GoesOn host.old host.new) }
{
    if rest.awake {
        return Ok(());
    }
    exhaust(host, Phase::Wake)?;
    rest.awake = host.first_stopped().is_none();
    Ok(())
}

fn hand_over(host: &mut Host, rest: &mut Rest) -> Result<(), NoMemory>
    requires { IsAtRest rest.old host.old }
    ensures made { OnOk result (Exhausts hand_in host.old.spec host.old.before host.old.entries host.new.entries) }
    ensures rest { OnOk result (IsAtRest rest.new host.new) }
    ensures goes { OnOk result (GoesOn host.old host.new) }
{
    if rest.handed_in {
        return Ok(());
    }
    hand_in(host)?;
    rest.handed_in = true;
    Ok(())
}

// Sends, and gives what is answered or due to its owner.
fn answer(host: &mut Host) -> Result<(), NoMemory>
    ensures made { OnOk result (Passes middle_phases host.old.spec host.old.before host.old.entries host.new.entries) }
    ensures goes { OnOk result (GoesOn host.old host.new) }
{
    exhaust(host, Phase::Send)?;
    exhaust(host, Phase::Work)?;
    exhaust(host, Phase::Claim(By::Answer))?;
    exhaust(host, Phase::Ask)?;
    exhaust(host, Phase::Work)?;
    exhaust(host, Phase::Claim(By::Answer))?;
    exhaust(host, Phase::Claim(By::Expiry))?;
    Ok(())
}

// Settles what is owned, and recovers.
fn recover(host: &mut Host) -> Result<(), NoMemory>
    ensures made { OnOk result (Passes last_phases host.old.spec host.old.before host.old.entries host.new.entries) }
    ensures goes { OnOk result (GoesOn host.old host.new) }
{
    exhaust(host, Phase::Settle)?;
    exhaust(host, Phase::Drop)?;
    exhaust(host, Phase::Abort)?;
    exhaust(host, Phase::EhBegin)?;
    exhaust(host, Phase::EhAct)?;
    exhaust(host, Phase::EhFlush)?;
    exhaust(host, Phase::EhEnd)?;
    Ok(())
}

// Lets time go on where the host isn't drained.
fn go_on(host: &mut Host) -> Result<(), NoMemory>
    ensures made { OnOk result (PassesTime (is_drained host.old.spec host.old.entries) host.old.spec host.old.before host.old.entries host.new.entries) }
    ensures goes { OnOk result (GoesOn host.old host.new) }
{
    if host.is_drained() {
        return Ok(());
    }
    let _ = host.make(Step::Tick)?;
    Ok(())
}
