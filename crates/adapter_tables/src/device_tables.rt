ghost use Rattle.std.specs.Prelude.{◌≡◌};
ghost use Rattle.fault_plan.specs.Lines.{lines_in};
ghost use Rattle.adapter_tables.specs.Addresses.{row_devs, unit_devs};
ghost use Rattle.adapter_tables.specs.Plans.{HavePlans};

use crate::addresses::Addresses;
use crate::device_rows::DevicePlan;
use crate::{CountRow, UnitRow};
use fault_plan::Lines;

/// The counts of all devices of a host, each found by its address.
#[derive(Drop)]
pub struct CountTable {
    pub(crate) rows: Vec<CountRow>,
    pub(crate) at: Addresses,
    pub(crate) ghost aligned: { row_devs rows.items ≡ at.devs.items },
}

/// The units of a host, each found by its address.
#[derive(Drop)]
pub struct UnitTable {
    pub(crate) units: Vec<UnitRow>,
    pub(crate) at: Addresses,
    pub(crate) ghost aligned: { unit_devs units.items ≡ at.devs.items },
}

/// The planned faults of a host, in the order of the plan. A call looks at the lines of its device, and of these at one class
/// at a time where an attempt is queued; it passes over most of those that can't hit its number (`fault_plan::Lines`).
#[derive(Drop)]
pub struct PlanTable {
    pub(crate) plan: Lines,
    pub(crate) devices: Vec<DevicePlan>,
    pub(crate) at: Addresses,
    pub(crate) ghost parted: { HavePlans (lines_in plan) at.devs.items devices.items },
}
