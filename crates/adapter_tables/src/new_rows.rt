ghost use Rattle.std.specs.Prelude.{◌≡◌, ◌≤◌, ◌++◌, ◌∷◌, [], length, map, true, IfOk, OnOk};
ghost use Rattle.std.specs.List.{list_all};
ghost use Rattle.mid_base.specs.Limits.{differ_in_address, is_lun};
ghost use Rattle.adapter_tables.specs.TablesOf.{rows_of, units_of};
ghost use Rattle.debug_lun.specs.Units.{unit_of, unit_for};
ghost use Rattle.adapter_tables.specs.Ties.{NewUnits, new_row};
ghost use Rattle.adapter_tables.specs.Units.{target_luns};

use crate::addresses::Addresses;
use crate::lun_numbers::numbers_of;
use crate::{CallCounts, CountRow, CountTable, UnitRow, UnitTable};
use debug_lun::DebugLun;
use mid_base::{LunSpec, NoMemory};
use std::alloc::Global;

impl CountRow {
    /// The row of a device on which no call was made yet.
    pub fn new(spec: &LunSpec) -> CountRow
        ensures { result ≡ new_row spec.now }
    {
        let counts = CallCounts {
            queue: 0,
            timer: 0,
            abort: 0,
            device: 0,
            target: 0,
            bus: 0,
            host: 0,
            probe: 0,
        };
        CountRow {
            dev: spec.dev,
            counts,
        }
    }
}

impl UnitRow {
    /// The unit that a specification describes, among all units of its host, each within its limits: with zeros in its
    /// blocks, and with the numbers of the units of its target for REPORT LUNS to list (SPC-4, 6.33). NoMemory where there is
    /// no memory for these.
    pub fn new(alloc: Global, luns: &[LunSpec], spec: &LunSpec) -> Result<UnitRow, NoMemory>
        requires few { length luns.now ≤ 256 }
        requires luns { list_all is_lun luns.now ≡ true }
        requires spec { is_lun spec.now ≡ true }
        ensures dev { IfOk result (λ x. x.dev ≡ spec.now.dev) }
        ensures luns { IfOk result (λ x. x.luns.items ≡ target_luns luns.now spec.now.dev) }
        ensures unit { IfOk result (λ x. unit_of x.lun ≡ unit_for spec.now) }
    {
        let numbers = numbers_of(alloc, luns, spec.dev)?;
        let lun = DebugLun::new(alloc, spec);
        Ok(UnitRow {
            dev: spec.dev,
            luns: numbers,
            lun,
        })
    }
}

// A row for each unit, in their order.
fn count_rows(alloc: Global, luns: &[LunSpec]) -> Result<Vec<CountRow>, NoMemory>
    ensures { IfOk result (λ v. v.items ≡ map new_row luns.now) }
{
    match luns.iter().map(|l| CountRow::new(l)).collect(alloc) {
        Ok(rows) => Ok(rows),
        Err(_) => Err(NoMemory),
    }
}

fn put_unit(units: &mut Vec<UnitRow>, x: UnitRow) -> Result<(), NoMemory>
    ensures { OnOk result (units.new.items ≡ units.old.items ++ x ∷ []) }
{
    match units.push(x) {
        Ok(()) => Ok(()),
        Err(_) => Err(NoMemory),
    }
}

// The units, in their order.
fn unit_rows(alloc: Global, luns: &[LunSpec]) -> Result<Vec<UnitRow>, NoMemory>
    requires few { length luns.now ≤ 256 }
    requires luns { list_all is_lun luns.now ≡ true }
    ensures { IfOk result (λ v. NewUnits luns.now luns.now v.items) }
{
    let mut units = Vec::new(alloc);
    for l in luns {
        put_unit(&mut units, UnitRow::new(alloc, luns, l)?)?;
    }
    Ok(units)
}

impl CountTable {
    /// The counts of a host's devices, whose addresses differ, before any call was made. NoMemory where there is no memory for
    /// them.
    pub fn new(alloc: Global, luns: &[LunSpec]) -> Result<CountTable, NoMemory>
        requires { differ_in_address luns.now ≡ true }
        ensures { IfOk result (λ t. rows_of t ≡ map new_row luns.now) }
    {
        let rows = count_rows(alloc, luns)?;
        let at = Addresses::new(alloc, luns)?;
        Ok(CountTable { rows, at })
    }
}

impl UnitTable {
    /// The units of a host, at most 256, each within its limits and at an address of its own. NoMemory where there is no memory
    /// for them.
    pub fn new(alloc: Global, luns: &[LunSpec]) -> Result<UnitTable, NoMemory>
        requires few { length luns.now ≤ 256 }
        requires luns { list_all is_lun luns.now ≡ true }
        requires differ { differ_in_address luns.now ≡ true }
        ensures { IfOk result (λ t. NewUnits luns.now luns.now (units_of t)) }
    {
        let units = unit_rows(alloc, luns)?;
        let at = Addresses::new(alloc, luns)?;
        Ok(UnitTable { units, at })
    }
}
