ghost use Rattle.std.specs.Prelude.{◌≡◌};
ghost use Rattle.mid_base.specs.Address.{same_dev as same_dev_seen};

// The names of things. Each is a number of its own kind, so that none is passed for another.

/// A command of a script, 1 to 4,294,967,295. No two commands of a script share one.
#[derive(Clone, Copy, PartialEq, Eq, PartialOrd, Ord, Debug)]
pub struct CmdId(pub u32);

/// A host of a script, 0 to 63.
#[derive(Clone, Copy, PartialEq, Eq, PartialOrd, Ord, Debug)]
pub struct HostNo(pub u8);

/// A lane of a host, 0 to 63. The commands of a lane are handed in one after the other.
#[derive(Clone, Copy, PartialEq, Eq, PartialOrd, Ord, Debug)]
pub struct LaneNo(pub u8);

/// A tag of a host, below its `can_queue`. A command holds one from its sending until its attempt is over.
#[derive(Clone, Copy, PartialEq, Eq, PartialOrd, Ord, Debug)]
pub struct Tag(pub u16);

/// One sending of a command. A host numbers its attempts from 1 on and never uses a number twice.
#[derive(Clone, Copy, PartialEq, Eq, PartialOrd, Ord, Debug)]
pub struct Attempt(pub u64);

/// A moment of virtual time, counted in ticks from 0.
#[derive(Clone, Copy, PartialEq, Eq, PartialOrd, Ord, Debug)]
pub struct Tick(pub u64);

/// The number at which a host stops sending and counting: no attempt gets it, and no tick passes it.
pub const LAST_NUMBER: u64 = (1 << 60) - 1;

/// The address of a logical unit: channel 0 to 15, target 0 to 255, logical unit number 0 to 16,383 (SAM-5, the flat
/// space addressing method).
#[derive(Clone, Copy, PartialEq, Eq, PartialOrd, Ord, Debug)]
pub struct DevAddr {
    pub channel: u8,
    pub target: u8,
    pub lun: u16,
}

/// Whether two addresses are the same.
pub fn same_dev(a: DevAddr, b: DevAddr) -> bool
    ensures { result ≡ same_dev_seen a b }
{
    a.channel == b.channel && a.target == b.target && a.lun == b.lun
}

/// The host byte of an answer, which the host adapter's driver fills: 00h DID_OK, 01h DID_NO_CONNECT, 03h DID_TIME_OUT
/// and so on, as the Linux kernel's `scsi_status.h` numbers them.
#[derive(Clone, Copy, PartialEq, Eq, Debug)]
pub struct HostByte(pub u8);

#[cfg(test)]
mod tests {
    use super::*;

    #[test]
    fn addresses_differ_in_each_of_their_numbers(rt: HostRuntime) {
        let here = DevAddr {
            channel: 1,
            target: 2,
            lun: 3,
        };
        let others = [
            DevAddr { channel: 0, ..here },
            DevAddr { target: 3, ..here },
            DevAddr { lun: 2, ..here },
        ];
        assert!(rt; same_dev(here, here));
        for other in others {
            assert!(rt;
                !same_dev(here, other) && !same_dev(other, here),
                "{}",
                other.lun
            );
        }
    }
}
