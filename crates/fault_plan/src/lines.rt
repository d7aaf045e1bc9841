ghost use Rattle.std.specs.Prelude.{◌≡◌, option_map, IfOk};
ghost use Rattle.fault_plan.specs.Plan.{planned};
ghost use Rattle.fault_plan.specs.Lines.{lines_in};

use crate::Class;
use crate::blocks::Block;
use mid_base::{DevAddr, Fault, NoMemory, PlanEntry};
use std::alloc::Global;

/// How many lines of a plan are passed over at once.
const BLOCK: usize = 128;

/// A plan that is looked up often. Its lines lie in blocks, and a look-up passes over each block in which no line can hit the
/// number.
///
/// So a look-up takes a step for each 128 lines, and one for each line of the blocks that it looks into. Those are few where
/// lines that stand near each other hit numbers near each other, or none that is asked for. Lines that all hit from small
/// numbers on up to great ones are still looked at one by one.
#[derive(Drop)]
pub struct Lines {
    pub(crate) blocks: Vec<Block>,
}

impl Lines {
    /// The lines of a plan, in their order. NoMemory where there is no memory for them.
    pub fn new(alloc: Global, plan: &[PlanEntry]) -> Result<Lines, NoMemory>
        ensures { IfOk result (λ l. lines_in l ≡ plan.now) }
    {
        let mut blocks = Vec::new(alloc);
        let mut rest = plan;
        while !rest.is_empty() {
            let (lines, later) = rest.split_at(rest.len().min(BLOCK));
            let block = Block::new(alloc, lines)?;
            if blocks.push(block).is_err() {
                return Err(NoMemory);
            }
            rest = later;
        }
        Ok(Lines { blocks })
    }

    /// The planned fault that the call with the number `nth` of this class meets at this device: what `take` answers for the
    /// plan.
    pub fn meet(&self, dev: DevAddr, class: Class, nth: u64) -> Option<&Fault>
        ensures { option_map (λ f. f.now) result ≡ planned (lines_in self.now) dev class nth }
    {
        for block in &self.blocks {
            if let Some(fault) = block.meet(dev, class, nth) {
                return Some(fault);
            }
        }
        None
    }
}
