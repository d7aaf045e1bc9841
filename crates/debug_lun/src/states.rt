ghost use Rattle.std.specs.Prelude.{◌≡◌, ◌<◌, true};
ghost use Rattle.mid_base.specs.Limits.{is_lun};
ghost use Rattle.debug_lun.specs.Units.{unit_of, unit_for, after_reset, after_start, with_pending};
ghost use Rattle.debug_lun.specs.Commands.{sense};

use crate::{DebugLun, Sense};
use block_store::BlockStore;
use mid_base::LunSpec;
use std::alloc::Global;

impl DebugLun {
    /// The unit that a specification describes, whose numbers are within their limits: its blocks are zeros, and neither a
    /// unit attention nor sense data stands. Nothing is allocated; the allocator is kept for the blocks to be written.
    #[tactic(auto, unfolding(crate::specs::Units::unit_of))]
    pub fn new(alloc: Global, spec: &LunSpec) -> DebugLun
        requires { is_lun spec.now ≡ true }
        ensures { unit_of result ≡ unit_for spec.now }
    {
        DebugLun {
            dev: spec.dev,
            store: BlockStore::new(alloc, spec.blocks),
            write_protected: spec.read_only,
            started: !spec.stopped,
            attention: false,
            pending: None,
        }
    }

    /// What a reset does: the unit is started, its pending sense is forgotten, and a unit attention stands (SAM-5, unit
    /// attention conditions). Its blocks stay.
    #[tactic(auto, unfolding(crate::specs::Units::unit_of))]
    pub fn reset(&mut self)
        ensures { unit_of self.new ≡ after_reset (unit_of self.old) }
    {
        self.started = true;
        self.attention = true;
        self.pending = None;
    }

    /// Starts the unit.
    #[tactic(auto, unfolding(crate::specs::Units::unit_of))]
    pub fn start(&mut self)
        ensures { unit_of self.new ≡ after_start (unit_of self.old) }
    {
        self.started = true;
    }

    /// Leaves this sense, with a key below 16, for REQUEST SENSE to fetch, as a command does whose CHECK CONDITION came
    /// without sense data. What was pending is replaced.
    #[tactic(auto, unfolding(crate::specs::Units::unit_of))]
    pub fn pend(&mut self, key: u8, asc: u8, ascq: u8)
        requires { key < 16 }
        ensures { unit_of self.new ≡ with_pending (sense key (asc, ascq)) (unit_of self.old) }
    {
        self.pending = Some(Sense { key, asc, ascq });
    }
}
