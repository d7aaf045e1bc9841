ghost use Rattle.std.specs.Prelude.{◌≤◌, length, All};
ghost use Rattle.std.proofs.Props.{props};

use debug_lun::DebugLun;
use fault_plan::Lines;
use mid_base::DevAddr;

/// A unit with its address and the numbers of the units of its target, ascending.
#[derive(Drop)]
pub struct UnitRow {
    pub dev: DevAddr,
    pub luns: Vec<u16>,
    pub lun: DebugLun,
    pub ghost few: { length luns.items ≤ 256 },
    pub ghost small: { All (λ n. n ≤ 16383) luns.items } by { Prim.hlevel props },
}

// The lines of a plan that are for one device: those of each class that a call of `queue` can meet, and the rest.
#[derive(Drop)]
pub(crate) struct DevicePlan {
    pub(crate) queue: Lines,
    pub(crate) time: Lines,
    pub(crate) answer: Lines,
    pub(crate) rest: Lines,
}
