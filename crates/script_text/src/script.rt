use mid_base::{DevAddr, HostNo, HostSpec, Rows, Step};

/// What a good script says.
#[derive(Debug, Drop)]
pub struct Script {
    /// The hosts, in the order of their lines.
    pub hosts: Rows<HostSpec>,
    /// The devices that are found by scanning, in the order of their lines. In the hosts they start in Created, until they are
    /// looked for.
    pub scans: Rows<(HostNo, DevAddr)>,
    /// The steps, each with the number of its line, counted from 1, and its host.
    pub steps: Rows<(u64, HostNo, Step)>,
    /// How many rounds are run at most.
    pub budget: Option<u64>,
    /// Whether the hosts are run on behind the last step, until nothing is left to do.
    pub drain: bool,
}

/// The first bad line of a script.
#[derive(Clone, Copy, PartialEq, Eq, Debug)]
pub struct Bad {
    /// Its number, counted from 1. It is the number of lines plus 1 where the last line lacks.
    pub line: u64,
    /// Why it is bad, 1 to 10, by the table of kinds.
    pub kind: u8,
}

/// Why a script was not read: it is bad, or an allocation failed.
#[derive(Clone, Copy, PartialEq, Eq, Debug)]
pub enum ReadEnd {
    Bad(Bad),
    NoMemory,
}
