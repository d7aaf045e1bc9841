ghost use Rattle.std.specs.Prelude.{◌≡◌, ◌-◌, Some, IsSome, slice_set};
ghost use Rattle.attempt_table.specs.Rows.{row_of, sent_row};

use mid_base::{Attempt, By, CmdId, Tag};

/// What is kept of an attempt: its command, the command's place in the host's spec, the tag that it was sent with, and how
/// far it has come. The place is kept as it is given.
#[derive(Clone, Copy, PartialEq, Eq, Debug)]
pub struct Row {
    pub command: CmdId,
    pub place: usize,
    pub tag: Tag,
    /// It was neither turned away nor given to an owner.
    pub out: bool,
    /// It was answered while it was open.
    pub answered: bool,
    /// Its time was up, and the lower layer left it at that.
    pub due: bool,
    /// Whether it belongs to its answer or to its expired timer.
    pub owner: Option<By>,
    /// Since it has an owner it was judged, set for an abort, or put on the failed list.
    pub settled: bool,
}

impl Row {
    ghost use Rattle.attempt_table.specs.Rows.{owned_in};

    /// Whether the attempt has an owner and isn't settled.
    pub fn is_owned(&self) -> bool
        ensures { result ≡ owned_in (Some self.now) }
    {
        !self.out && !self.settled && self.owner.is_some()
    }
}

// The row of an attempt that is sent now.
pub fn sent_row(command: CmdId, place: usize, tag: Tag) -> Row
    ensures { result ≡ sent_row command place tag }
{
    Row {
        command,
        place,
        tag,
        out: true,
        answered: false,
        due: false,
        owner: None,
        settled: false,
    }
}

// Writes the row of an attempt that is there.
pub fn write(rows: &mut Vec<Row>, n: Attempt, row: Row)
    requires { IsSome (row_of n.0 rows.old.items) }
    ensures { rows.new.items ≡ slice_set rows.old.items (n.0 - 1) row }
{
    rows[(n.0 - 1) as usize] = row;
}
