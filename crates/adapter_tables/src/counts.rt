ghost use Rattle.std.specs.Prelude.{◌≡◌, ◌&&◌, is_some, map};
ghost use Rattle.mid_base.specs.Address.{in_scope};
ghost use Rattle.fault_plan.specs.Plan.{planned};
ghost use Rattle.adapter_tables.specs.TablesOf.{plan_of};
ghost use Rattle.adapter_tables.specs.Ties.{up, bump, count_in, counted_row, any_hit_in};

use crate::PlanTable;
use crate::addresses::covers;
use crate::planned::fault_at;
use fault_plan::Class;
use mid_base::{DevAddr, Scope};

/// How many calls of each class were made on a device. Calls of `queue` are one count for three classes.
#[derive(Clone, Copy, PartialEq, Eq, Debug)]
pub struct CallCounts {
    pub queue: u64,
    pub timer: u64,
    pub abort: u64,
    pub device: u64,
    pub target: u64,
    pub bus: u64,
    pub host: u64,
    pub probe: u64,
}

/// A device with its counts.
#[derive(Clone, Copy, PartialEq, Eq, Debug)]
pub struct CountRow {
    pub dev: DevAddr,
    pub counts: CallCounts,
}

// No plan within the limits has a number as high as this, so counts needn't go further.
const CAP: u64 = 1 << 40;

fn next(count: u64) -> u64
    ensures { result ≡ up count }
{
    if count >= CAP { count } else { count + 1 }
}

pub(crate) fn bumped(class: Class, c: CallCounts) -> CallCounts
    ensures { result ≡ bump class c }
{
    match class {
        Class::Queue | Class::Time | Class::Answer => CallCounts {
            queue: next(c.queue),
            ..c
        },
        Class::Timer => CallCounts {
            timer: next(c.timer),
            ..c
        },
        Class::Abort => CallCounts {
            abort: next(c.abort),
            ..c
        },
        Class::ResetDevice => CallCounts {
            device: next(c.device),
            ..c
        },
        Class::ResetTarget => CallCounts {
            target: next(c.target),
            ..c
        },
        Class::ResetBus => CallCounts {
            bus: next(c.bus),
            ..c
        },
        Class::ResetHost => CallCounts {
            host: next(c.host),
            ..c
        },
        Class::Probe => CallCounts {
            probe: next(c.probe),
            ..c
        },
    }
}

pub(crate) fn of_class(c: &CallCounts, class: Class) -> u64
    ensures { result ≡ count_in c.now class }
{
    match class {
        Class::Queue | Class::Time | Class::Answer => c.queue,
        Class::Timer => c.timer,
        Class::Abort => c.abort,
        Class::ResetDevice => c.device,
        Class::ResetTarget => c.target,
        Class::ResetBus => c.bus,
        Class::ResetHost => c.host,
        Class::Probe => c.probe,
    }
}

fn counted_in(r: CountRow, scope: Scope, class: Class) -> CountRow
    ensures { result ≡ counted_row scope class r }
{
    if !covers(scope, r.dev) {
        return r;
    }
    CountRow {
        counts: bumped(class, r.counts),
        ..r
    }
}

// One call more of the class on each device in the scope.
#[tactic(auto, using(std::proofs::lemmas::List::Edits::map_over_more))]
pub(crate) fn count(rows: &mut Vec<CountRow>, scope: Scope, class: Class)
    ensures { rows.new.items ≡ map (counted_row scope class) rows.old.items }
{
    for r in rows.iter_mut() {
        *r = counted_in(*r, scope, class);
    }
}

fn is_hit(plan: &PlanTable, r: &CountRow, scope: Scope, class: Class) -> bool
    ensures { result ≡ in_scope scope r.now.dev && is_some (planned (plan_of plan.now) r.now.dev class (count_in r.now.counts class)) }
{
    covers(scope, r.dev) && fault_at(plan, r.dev, class, of_class(&r.counts, class)).is_some()
}

// Whether a reset meets a fault of some device in its scope.
pub(crate) fn is_any_hit(plan: &PlanTable, rows: &[CountRow], scope: Scope, class: Class) -> bool
    ensures { result ≡ any_hit_in (plan_of plan.now) rows.now scope class }
{
    rows.iter().any(|r| is_hit(plan, r, scope, class))
}
