ghost use Rattle.std.specs.Prelude.{IfOk, []};
ghost use Rattle.mid_base.specs.Limits.{KeepsLimits};
ghost use Rattle.debug_adapter.specs.Adapter.{AdapterStands};

use crate::DebugAdapter;
use adapter_tables::{CountTable, PlanTable, UnitTable};
use mid_base::{HostSpec, NoMemory};
use slab::Slab;
use std::alloc::Global;

impl DebugAdapter {
    /// The adapter of a host whose spec keeps its limits, before any call: it holds no attempt, its units are new, and it stands
    /// where the empty journal leaves it, with no earlier probes. NoMemory where there is no memory for its tables.
    pub fn new(alloc: Global, spec: &HostSpec) -> Result<DebugAdapter, NoMemory>
        requires { KeepsLimits spec.now }
        ensures { IfOk result (λ x. AdapterStands x spec.now [] []) }
    {
        let lines = spec.plan.as_slice();
        let plan = PlanTable::new(alloc, spec.luns.as_slice(), lines)?;
        let rows = CountTable::new(alloc, spec.luns.as_slice())?;
        let units = UnitTable::new(alloc, spec.luns.as_slice())?;
        let buffer = vec![in alloc; 0u8; 131_072].map_err(|_| NoMemory)?;
        let held = Slab::new(alloc);
        Ok(DebugAdapter {
            plan,
            held,
            rows,
            units,
            buffer,
        })
    }
}
