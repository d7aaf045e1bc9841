ghost use Rattle.std.specs.Prelude.{⊤, [], ◌∷◌, codes};

use crate::{CdbBytes, CmdId, DevAddr, DeviceState, HostNo, LaneNo, PlanEntry, Rows};
use bitflags::{Flag, Flags, bitflag_items};

/// The callbacks of recovery that a lower layer has: abort, and reset of a device, a target, a bus and the host
/// (`scsi_eh.rst`, "How SCSI EH works"). An omitted callback is considered to fail always.
#[derive(Clone, Copy, PartialEq, Eq, Debug)]
pub struct Handlers(u8);

bitflag_items! {
    impl Handlers: u8 {
        const ABORT = 1;
        const DEVICE = 2;
        const TARGET = 4;
        const BUS = 8;
        const HOST = 16;
    }
}

// Written by hand, so that contracts know the bits.
impl Flags for Handlers {
    type Bits = u8;

    ghost exact = { ⊤ };

    ghost table = { (codes "ABORT", 1) ∷ (codes "DEVICE", 2) ∷ (codes "TARGET", 4) ∷ (codes "BUS", 8) ∷ (codes "HOST", 16) ∷ [] };

    ghost set_of = { λ h. h.0 };

    fn flags<'a>() -> &'a [Flag<Handlers>] {
        Handlers::FLAGS
    }

    fn bits(&self) -> u8 {
        self.0
    }

    fn from_bits_retain(bits: u8) -> Handlers {
        Handlers(bits)
    }
}

/// A command: its lane and device, its CDB, the byte that a write sends throughout, the timeout in ticks, how many
/// retries are allowed, and whether it is to fail at the first error.
#[derive(Clone, Copy, PartialEq, Eq, Debug)]
pub struct CmdSpec {
    pub id: CmdId,
    pub lane: LaneNo,
    pub dev: DevAddr,
    pub cdb: CdbBytes,
    pub fill: u8,
    pub timeout: u32,
    pub allowed: u8,
    pub failfast: bool,
}

/// A logical unit: its address, its number of blocks of 512 bytes, how many commands it takes at once, whether writes are
/// refused, whether it has to be started first, and the state of its device as the journal begins.
#[derive(Clone, Copy, PartialEq, Eq, Debug)]
pub struct LunSpec {
    pub dev: DevAddr,
    pub blocks: u32,
    pub depth: u16,
    pub read_only: bool,
    pub stopped: bool,
    pub start: DeviceState,
}

/// A host: its number, how many commands it takes at once, its callbacks, whether it makes no asynchronous aborts, and
/// its units, commands and planned faults, each in the order of their lines.
#[derive(Debug, Drop)]
pub struct HostSpec {
    pub no: HostNo,
    pub can_queue: u16,
    pub handlers: Handlers,
    pub no_async_abort: bool,
    pub luns: Rows<LunSpec>,
    pub cmds: Rows<CmdSpec>,
    pub plan: Rows<PlanEntry>,
}

#[cfg(test)]
mod tests {
    use super::*;

    #[test]
    fn handlers_have_a_bit_and_a_name_for_each_callback(rt: HostRuntime) {
        let table = [
            ("ABORT", 1, Handlers::ABORT),
            ("DEVICE", 2, Handlers::DEVICE),
            ("TARGET", 4, Handlers::TARGET),
            ("BUS", 8, Handlers::BUS),
            ("HOST", 16, Handlers::HOST),
        ];
        let mut all = Handlers::empty();
        for (name, bit, handler) in table {
            assert!(rt; Handlers::from_name(name) == Some(handler), "{name}");
            assert_eq!(rt; handler.bits(), bit, "{name}");
            assert!(rt; Handlers::from_bits_retain(bit) == handler, "{name}");
            assert!(rt; !all.contains(handler), "{name}");
            all.insert(handler);
            assert!(rt; all.contains(handler), "{name}");
        }
        assert!(rt; all == Handlers::all() && all.bits() == 31);
        assert!(rt; Handlers::from_bits(32) == None);
    }
}
