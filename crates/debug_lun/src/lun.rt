ghost use Rattle.std.specs.Prelude.{◌<◌, ◌^◌, IfSome};
ghost use Rattle.std.proofs.Props.{props};
ghost use Rattle.block_store.specs.Blocks.{size};

use crate::Sense;
use block_store::BlockStore;
use mid_base::DevAddr;

/// A logical unit. Contracts name what it is by `unit_of`.
#[derive(Drop)]
pub struct DebugLun {
    pub(crate) dev: DevAddr,
    pub(crate) store: BlockStore,
    pub(crate) write_protected: bool,
    pub(crate) started: bool,
    pub(crate) attention: bool,
    pub(crate) pending: Option<Sense>,
    pub(crate) ghost counted: { size store < 2 ^ 32 },
    pub(crate) ghost keyed: { IfSome pending (λ s. s.key < 16) } by { Prim.hlevel props },
}
