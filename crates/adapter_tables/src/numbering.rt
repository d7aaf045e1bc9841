ghost use Rattle.std.specs.Prelude.{◌≡◌, ◌<◌, length, map};
ghost use Rattle.mid_base.specs.declared.answers.Scope.TheVariants.{Dev};
ghost use Rattle.adapter_tables.specs.Addresses.{CountedAt, bumped_row};
ghost use Rattle.adapter_tables.specs.Ties.{counted_row, count_of};
ghost use Rattle.adapter_tables.specs.TablesOf.{rows_of};

use crate::counts::{bumped, count, of_class};
use crate::{CountRow, CountTable};
use fault_plan::Class;
use mid_base::{DevAddr, Scope};

fn one_more(r: CountRow, class: Class) -> CountRow
    ensures { result ≡ bumped_row class r }
{
    CountRow {
        counts: bumped(class, r.counts),
        ..r
    }
}

// One call more of the class in the row at a place, and its count.
fn count_at(rows: &mut Vec<CountRow>, place: usize, class: Class) -> u64
    requires { place < length rows.old.items }
    ensures { CountedAt rows.old.items rows.new.items place class result }
{
    let r = one_more(rows[place], class);
    rows[place] = r;
    of_class(&r.counts, class)
}

/// Counts a call of the class on a device, and tells its number: the first call has the number 1. Counts of other devices and
/// classes stay, but that a call of `queue` is counted for its due tick and its answer too. A device without a row has the
/// number 0.
pub fn next_number(table: &mut CountTable, dev: DevAddr, class: Class) -> u64
    ensures rows { rows_of table.new ≡ map (counted_row (Dev dev) class) (rows_of table.old) }
    ensures number { result ≡ count_of (map (counted_row (Dev dev) class) (rows_of table.old)) dev class }
{
    match table.at.find(dev) {
        Some(place) => count_at(&mut table.rows, place, class),
        None => 0,
    }
}

// One call more of the class on each device in the scope.
pub(crate) fn count_in_scope(table: &mut CountTable, scope: Scope, class: Class)
    ensures { rows_of table.new ≡ map (counted_row scope class) (rows_of table.old) }
{
    count(&mut table.rows, scope, class);
}
