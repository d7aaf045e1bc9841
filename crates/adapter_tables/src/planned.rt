ghost use Rattle.std.specs.Prelude.{◌≡◌, ◌++◌, ◌∷◌, [], ℕ, true, filter, map, IfOk, OnOk};
ghost use Rattle.mid_base.specs.Limits.{differ_in_address};
ghost use Rattle.fault_plan.specs.Lines.{lines_in};
ghost use Rattle.fault_plan.specs.Plan.{planned};
ghost use Rattle.adapter_tables.specs.Addresses.{lun_devs};
ghost use Rattle.adapter_tables.specs.Plans.{is_for, is_in, is_queued, is_rest, parts_for, shown, HavePlans};
ghost use Rattle.adapter_tables.specs.TablesOf.{plan_of};

use crate::PlanTable;
use crate::addresses::Addresses;
use crate::device_rows::DevicePlan;
use fault_plan::{Class, Lines, class_of, same_class};
use mid_base::{DevAddr, Fault, LunSpec, NoMemory, PlanEntry, same_dev};
use std::alloc::Global;

fn lines_of(alloc: Global, plan: &[PlanEntry], dev: DevAddr) -> Result<Vec<PlanEntry>, NoMemory>
    ensures { IfOk result (λ v. v.items ≡ filter (is_for dev) plan.now) }
{
    let lines = plan.iter().copied().filter(|e| same_dev(e.dev, dev));
    lines.collect(alloc).map_err(|_| NoMemory)
}

fn class_lines(alloc: Global, plan: &[PlanEntry], class: Class) -> Result<Vec<PlanEntry>, NoMemory>
    ensures { IfOk result (λ v. v.items ≡ filter (is_in class) plan.now) }
{
    let lines = plan
        .iter()
        .copied()
        .filter(|e| same_class(class_of(&e.fault), class));
    lines.collect(alloc).map_err(|_| NoMemory)
}

fn is_queued(class: Class) -> bool
    ensures { result ≡ is_queued class }
{
    match class {
        Class::Queue | Class::Time | Class::Answer => true,
        _ => false,
    }
}

fn is_rest(entry: &PlanEntry) -> bool
    ensures { result ≡ is_rest entry.now }
{
    !is_queued(class_of(&entry.fault))
}

fn other_lines(alloc: Global, plan: &[PlanEntry]) -> Result<Vec<PlanEntry>, NoMemory>
    ensures { IfOk result (λ v. v.items ≡ filter is_rest plan.now) }
{
    let lines = plan.iter().copied().filter(|e| is_rest(e));
    lines.collect(alloc).map_err(|_| NoMemory)
}

fn lines_in(alloc: Global, plan: &[PlanEntry], class: Class) -> Result<Lines, NoMemory>
    ensures { IfOk result (λ l. lines_in l ≡ filter (is_in class) plan.now) }
{
    let lines = class_lines(alloc, plan, class)?;
    let lines = Lines::new(alloc, &lines)?;
    Ok(lines)
}

fn rest_of(alloc: Global, plan: &[PlanEntry]) -> Result<Lines, NoMemory>
    ensures { IfOk result (λ l. lines_in l ≡ filter is_rest plan.now) }
{
    let lines = other_lines(alloc, plan)?;
    let lines = Lines::new(alloc, &lines)?;
    Ok(lines)
}

impl DevicePlan {
    fn new(alloc: Global, plan: &[PlanEntry], dev: DevAddr) -> Result<DevicePlan, NoMemory>
        ensures { IfOk result (λ p. shown p ≡ parts_for plan.now dev) }
    {
        let all = lines_of(alloc, plan, dev)?;
        let queue = lines_in(alloc, &all, Class::Queue)?;
        let time = lines_in(alloc, &all, Class::Time)?;
        let answer = lines_in(alloc, &all, Class::Answer)?;
        let rest = rest_of(alloc, &all)?;
        Ok(DevicePlan {
            queue,
            time,
            answer,
            rest,
        })
    }

    // Lines among which are all of the class, in their order.
    fn lines(&self, class: Class) -> &Lines
        ensures { (plan : _) (d : _) (n : ℕ) → shown self.now ≡ parts_for plan d → planned (lines_in result.now) d class n ≡ planned plan d class n }
    {
        match class {
            Class::Queue => &self.queue,
            Class::Time => &self.time,
            Class::Answer => &self.answer,
            _ => &self.rest,
        }
    }
}

fn put_plan(plans: &mut Vec<DevicePlan>, x: DevicePlan) -> Result<(), NoMemory>
    ensures { OnOk result (plans.new.items ≡ plans.old.items ++ x ∷ []) }
{
    match plans.push(x) {
        Ok(()) => Ok(()),
        Err(_) => Err(NoMemory),
    }
}

fn device_plans(
    alloc: Global,
    plan: &[PlanEntry],
    luns: &[LunSpec],
) -> Result<Vec<DevicePlan>, NoMemory>
    ensures { IfOk result (λ v. HavePlans plan.now (lun_devs luns.now) v.items) }
{
    let mut plans = Vec::new(alloc);
    for l in luns {
        put_plan(&mut plans, DevicePlan::new(alloc, plan, l.dev)?)?;
    }
    Ok(plans)
}

impl PlanTable {
    /// The plan of a host with these units, whose addresses differ. NoMemory where there is no memory for it.
    pub fn new(alloc: Global, luns: &[LunSpec], plan: &[PlanEntry]) -> Result<PlanTable, NoMemory>
        requires { differ_in_address luns.now ≡ true }
        ensures { IfOk result (λ t. plan_of t ≡ plan.now) }
    {
        let devices = device_plans(alloc, plan, luns)?;
        let plan = Lines::new(alloc, plan)?;
        let at = Addresses::new(alloc, luns)?;
        Ok(PlanTable { plan, devices, at })
    }

    // Lines among which are all that a call of this class on the device can meet, in their order.
    fn lines_for(&self, dev: DevAddr, class: Class) -> &Lines
        ensures { (n : ℕ) → planned (lines_in result.now) dev class n ≡ planned (plan_of self.now) dev class n }
    {
        match self.at.find(dev) {
            Some(place) => self.devices[place].lines(class),
            None => &self.plan,
        }
    }
}

/// The planned fault that the call with this number meets, if any.
pub fn fault_at(plan: &PlanTable, dev: DevAddr, class: Class, number: u64) -> Option<Fault>
    ensures { result ≡ planned (plan_of plan.now) dev class number }
{
    plan.lines_for(dev, class).meet(dev, class, number).copied()
}
