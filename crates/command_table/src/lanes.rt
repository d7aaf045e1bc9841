ghost use Rattle.std.specs.Prelude.{◌≡◌, ◌<◌, ◌≤◌, ℕ, false, Some, IfOk, length, slice_get};
ghost use Rattle.command_table.specs.Rows.{is_left, first_left};
ghost use Rattle.command_table.specs.CommandsAgree.{ArePointed};

use crate::rows::CommandRow;
use mid_base::{LaneNo, NoMemory};
use std::alloc::Global;
use trace_model::Standing;

// So many lanes a host has at most, numbered from 0.
const LANES: u8 = 64;

// The place of the first command of each lane.
pub fn first_cursors(alloc: Global, rows: &Vec<CommandRow>) -> Result<Vec<usize>, NoMemory>
    ensures pointed { IfOk result (λ cursors. ArePointed rows.now.items cursors.items) }
    ensures count { IfOk result (λ cursors. length cursors.items ≡ 64) }
{
    let mut cursors = Vec::with_capacity(alloc, usize::from(LANES)).map_err(|_| NoMemory)?;
    for lane in 0..LANES {
        cursors.push_reserved(next_from(rows, 0, LaneNo(lane)));
    }
    Ok(cursors)
}

// The first place, from `from` on, of a command of the lane that isn't handed in; the number of rows where there is none.
pub fn next_from(rows: &[CommandRow], from: usize, lane: LaneNo) -> usize
    requires { from ≤ length rows.now }
    ensures { ((k : ℕ) (r : _) → k < from → slice_get rows.now k ≡ Some r → is_left lane.0 r ≡ false) → result ≡ first_left lane.0 rows.now }
{
    for place in from..rows.len() {
        if is_left(rows[place], lane) {
            return place;
        }
    }
    rows.len()
}

fn is_left(row: CommandRow, lane: LaneNo) -> bool
    ensures { result ≡ is_left lane.0 row }
{
    row.lane.0 == lane.0 && matches!(row.standing, Standing::New)
}
