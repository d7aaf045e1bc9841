ghost use Rattle.adapter_tables.specs.Answering.{Resets};
ghost use Rattle.adapter_tables.specs.TablesOf.{plan_of, rows_of, units_of};

use crate::counts::is_any_hit;
use crate::held_table::let_go_in;
use crate::numbering::count_in_scope;
use crate::units::reset_all;
use crate::{CountTable, Held, PlanTable, UnitTable};
use fault_plan::Class;
use host_template::EhSay;
use mid_base::Scope;
use slab::Slab;

/// Resets a device, a target, a bus or the host (`scsi_eh.rst`, 2-1-2): counts the call on each device in the scope, and unless a
/// planned fault hits on some of them, lets the attempts in the scope go and resets its units (SAM-5, LOGICAL UNIT RESET).
/// Failed exactly where a fault hits; then nothing but the counts has changed.
pub fn reset(
    plan: &PlanTable,
    held: &mut Slab<Held>,
    rows: &mut CountTable,
    units: &mut UnitTable,
    scope: Scope,
    class: Class,
) -> EhSay
    ensures { Resets (plan_of plan.now) held.old held.new (rows_of rows.old) (rows_of rows.new) (units_of units.old) (units_of units.new) scope class result }
{
    count_in_scope(rows, scope, class);
    if is_any_hit(plan, &rows.rows, scope, class) {
        return EhSay::Failed;
    }
    let_go_in(held, scope);
    reset_all(units, scope);
    EhSay::Success
}
