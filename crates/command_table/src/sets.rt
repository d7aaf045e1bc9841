ghost use Rattle.std.specs.Prelude.{◌≡◌, ◌<◌, ◌+◌, ◌==◌, ◌&&◌, ◌||◌, ℕ, not, true, false, length, IfOk, OnOk, OnErr, MatchOption, if◌then◌else◌};
ghost use Rattle.trace_model.specs.Commands.{waits};
ghost use Rattle.command_table.specs.Sets.{has, out_of, IsLeast};

use crate::line::Line;
use crate::rows::CommandRow;
use mid_base::NoMemory;
use std::alloc::Global;
use trace_model::Standing;

// One empty line for each device.
pub fn empty_sets(alloc: Global, count: usize) -> Result<Vec<Line>, NoMemory>
    ensures none { IfOk result (λ lines. (d j : ℕ) → has lines.items d j ≡ false) }
    ensures out { IfOk result (λ lines. (d : ℕ) → out_of lines.items d ≡ 0) }
    ensures count { IfOk result (λ lines. length lines.items ≡ count) }
{
    let mut lines = Vec::with_capacity(alloc, count).map_err(|_| NoMemory)?;
    for i in 0..count {
        lines.push_reserved(Line::new(alloc));
    }
    Ok(lines)
}

// Puts a number into the line of a device.
pub fn put(lines: &mut Vec<Line>, device: usize, order: usize) -> Result<(), NoMemory>
    requires { device < length lines.old.items }
    ensures ok { OnOk result ((d j : ℕ) → has lines.new.items d j ≡ (((device == d) && (order == j)) || has lines.old.items d j)) }
    ensures err { OnErr result ((d j : ℕ) → has lines.new.items d j ≡ has lines.old.items d j) }
    ensures out { (d : ℕ) → out_of lines.new.items d ≡ out_of lines.old.items d }
    ensures count { length lines.new.items ≡ length lines.old.items }
{
    lines[device].join(order)
}

// A command that waited is busy: it may be put back.
pub fn send_from(lines: &mut Vec<Line>, device: usize, order: usize)
    requires { device < length lines.old.items }
    ensures dropped { (d j : ℕ) → has lines.new.items d j ≡ (not ((device == d) && (order == j)) && has lines.old.items d j) }
    ensures out { has lines.old.items device order ≡ true → (d : ℕ) → out_of lines.new.items d ≡ out_of lines.old.items d + (if device == d then 1 else 0) }
    ensures count { length lines.new.items ≡ length lines.old.items }
{
    lines[device].send(order);
}

// Puts a command back that was busy.
pub fn put_back(lines: &mut Vec<Line>, device: usize, order: usize)
    requires { device < length lines.old.items }
    ensures put { 0 < out_of lines.old.items device → (d j : ℕ) → has lines.new.items d j ≡ (((device == d) && (order == j)) || has lines.old.items d j) }
    ensures out { 0 < out_of lines.old.items device → (d : ℕ) → out_of lines.new.items d + (if device == d then 1 else 0) ≡ out_of lines.old.items d }
    ensures count { length lines.new.items ≡ length lines.old.items }
{
    lines[device].come_back(order);
}

// A command that waited or was busy goes for good.
pub fn drop_from(lines: &mut Vec<Line>, row: CommandRow)
    requires { row.device < length lines.old.items }
    ensures dropped { (d j : ℕ) → has lines.new.items d j ≡ (not (waits row.standing && ((row.device == d) && (row.order == j))) && has lines.old.items d j) }
    ensures waited { waits row.standing ≡ true → (d : ℕ) → out_of lines.new.items d ≡ out_of lines.old.items d }
    ensures busy { waits row.standing ≡ false → 0 < out_of lines.old.items row.device → (d : ℕ) → out_of lines.new.items d + (if row.device == d then 1 else 0) ≡ out_of lines.old.items d }
    ensures count { length lines.new.items ≡ length lines.old.items }
{
    if matches!(row.standing, Standing::Waits) {
        lines[row.device].leave(row.order);
    } else {
        lines[row.device].end_out();
    }
}

// The least number in the line of a device.
pub fn least_of(lines: &Vec<Line>, device: usize) -> Option<usize>
    ensures { MatchOption result ((j : ℕ) → has lines.now.items device j ≡ false) (IsLeast lines.now.items device) }
{
    if device >= lines.as_slice().len() {
        return None;
    }
    lines[device].first()
}
