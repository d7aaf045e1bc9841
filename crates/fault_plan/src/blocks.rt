ghost use Rattle.std.specs.Prelude.{◌≡◌, true, option_map, IfOk};
ghost use Rattle.std.specs.List.{list_all};
ghost use Rattle.fault_plan.specs.Plan.{planned};
ghost use Rattle.fault_plan.specs.Bounds.{is_between, most_of};

use crate::Class;
use crate::plan::take;
use mid_base::{DevAddr, Fault, NoMemory, PlanEntry};
use std::alloc::Global;

// Lines that stand one behind the other in a plan. None of them hits a number below `least` or above `most`.
#[derive(Drop)]
pub(crate) struct Block {
    pub(crate) lines: Vec<PlanEntry>,
    least: u64,
    most: u64,
    ghost within: { list_all (is_between least most) lines.items ≡ true },
}

// A number above which the entry hits none.
#[tactic(auto, using(crate::proofs::Between::product_small))]
fn most_of(entry: &PlanEntry) -> u64
    ensures { result ≡ most_of entry.now }
{
    u64::from(entry.first) + u64::from(entry.uses) * u64::from(entry.every)
}

// Bounds of all numbers that these lines hit: the least and the greatest.
fn bounds_of(lines: &[PlanEntry]) -> (u64, u64)
    ensures { list_all (is_between result.0 result.1) lines.now ≡ true }
{
    let mut least = u64::MAX;
    let mut most = 0;
    for entry in lines {
        least = least.min(u64::from(entry.first));
        most = most.max(most_of(entry));
    }
    (least, most)
}

fn copy_of(alloc: Global, lines: &[PlanEntry]) -> Result<Vec<PlanEntry>, NoMemory>
    ensures { IfOk result (λ v. v.items ≡ lines.now) }
{
    lines.iter().copied().collect(alloc).map_err(|_| NoMemory)
}

impl Block {
    pub(crate) fn new(alloc: Global, lines: &[PlanEntry]) -> Result<Block, NoMemory>
        ensures { IfOk result (λ b. b.lines.items ≡ lines.now) }
    {
        let (least, most) = bounds_of(lines);
        let lines = copy_of(alloc, lines)?;
        Ok(Block { lines, least, most })
    }

    // The fault of the first of its lines that is hit. They aren't looked at where none of them can hit the number.
    pub(crate) fn meet(&self, dev: DevAddr, class: Class, nth: u64) -> Option<&Fault>
        ensures { option_map (λ f. f.now) result ≡ planned self.now.lines.items dev class nth }
    {
        if nth < self.least || self.most < nth {
            return None;
        }
        take(&self.lines, dev, class, nth)
    }
}
