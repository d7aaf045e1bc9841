ghost use Rattle.std.specs.Prelude.{◌≡◌, ◌<◌, ◌^◌};
ghost use Rattle.adapter_tables.specs.Answering.{busy_by, held_as, say_by};
ghost use Rattle.adapter_tables.specs.TablesOf.{plan_of};

use crate::held::due_after;
use crate::planned::fault_at;
use crate::{Held, PlanTable};
use fault_plan::Class;
use host_template::{Queued, TimerSay};
use mid_base::{Attempt, CdbBytes, DevAddr, Fault};

/// The busy answer that a planned fault makes: of the host, or of the device (`scsi_mid_low_api.rst`, `queuecommand`).
pub fn busy_answer(fault: Fault) -> Queued
    ensures { result ≡ busy_by fault }
{
    match fault {
        Fault::HostBusy => Queued::HostBusy,
        _ => Queued::DeviceBusy,
    }
}

/// What is said of a timeout (`scsi_mid_low_api.rst`, `eh_timed_out`): more time or done where a planned fault says so, and
/// else that recovery has to handle it.
pub fn timer_answer(fault: Option<Fault>) -> TimerSay
    ensures { result ≡ say_by fault }
{
    match fault {
        Some(Fault::Longer) => TimerSay::ResetTimer,
        Some(Fault::TimerDone) => TimerSay::Done,
        _ => TimerSay::NotHandled,
    }
}

/// An attempt as it is held from its sending on, at the tick `now`. `number` is that of its call of `queue` on the device: by
/// it the plan says when the attempt is due and which fault makes its answer. With no such faults it is due at the next
/// tick, and its unit makes the answer.
pub fn sent_attempt(
    plan: &PlanTable,
    n: Attempt,
    dev: DevAddr,
    cdb: &CdbBytes,
    fill: u8,
    now: u64,
    number: u64,
) -> Held
    requires { now < 2 ^ 60 }
    ensures { result ≡ held_as (plan_of plan.now) n dev cdb.now fill now number }
{
    let due = due_after(now, fault_at(plan, dev, Class::Time, number));
    let fault = fault_at(plan, dev, Class::Answer, number);
    Held {
        n,
        dev,
        cdb: *cdb,
        fill,
        due,
        fault,
    }
}
