ghost use Rattle.std.specs.Prelude.{◌≡◌, length};

use adapter_tables::{CountTable, Held, PlanTable, UnitTable};
use slab::Slab;

/// A simulated host adapter with a unit at each address of its host's spec. It answers an attempt one tick after it was sent,
/// and its calls fail where the spec's plan says.
#[derive(Drop)]
pub struct DebugAdapter {
    pub(crate) plan: PlanTable,
    pub(crate) held: Slab<Held>,
    pub(crate) rows: CountTable,
    pub(crate) units: UnitTable,
    // The data of the command that is executed.
    pub(crate) buffer: Vec<u8>,
    pub(crate) ghost room: { length buffer.items ≡ 131072 },
}
