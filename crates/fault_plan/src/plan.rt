ghost use Rattle.std.specs.Prelude.{◌≡◌, find, option_map};
ghost use Rattle.fault_plan.specs.Plan.{hits, is_hit, planned};

use crate::Class;
use crate::class::{class_of, same_class};
use mid_base::{DevAddr, Fault, PlanEntry, same_dev};

/// The planned fault that the call with the number `nth` of this class meets at this device, as a part of the plan: the
/// fault of the first entry of that device and class that hits the number.
///
/// The caller counts the calls of each class at each device, from 1 on; `take` itself is fine with every number. An entry
/// hits the numbers `first`, `first + every`, `first + 2 * every` and so on, `uses` of them. None comes exactly where no
/// entry of that device and class hits the number.
pub fn take<'p>(plan: &'p [PlanEntry], dev: DevAddr, class: Class, nth: u64) -> Option<&'p Fault>
    ensures { option_map (λ f. f.now) result ≡ planned plan.now dev class nth }
{
    let entry = first_hit(plan, dev, class, nth)?;
    Some(&entry.fault)
}

fn first_hit(plan: &[PlanEntry], dev: DevAddr, class: Class, nth: u64) -> Option<&PlanEntry>
    ensures { option_map (λ e. e.now) result ≡ find (is_hit dev class nth) plan.now }
{
    plan.iter().find(|entry| is_hit(entry, dev, class, nth))
}

fn is_hit(entry: &PlanEntry, dev: DevAddr, class: Class, nth: u64) -> bool
    ensures { result ≡ is_hit dev class nth entry.now }
{
    same_dev(entry.dev, dev) && same_class(class_of(&entry.fault), class) && hits(entry, nth)
}

fn hits(entry: &PlanEntry, nth: u64) -> bool
    ensures { result ≡ hits entry.now nth }
{
    let first = u64::from(entry.first);
    let every = u64::from(entry.every);
    let uses = u64::from(entry.uses);
    if nth < first {
        return false;
    }
    if every == 0 {
        return nth == first && uses > 0;
    }
    (nth - first) % every == 0 && (nth - first) / every < uses
}
