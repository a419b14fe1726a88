// The sheets that a year is reconciled with, and their checks.
ghost use Rattle.std.specs.Prelude.{◌≡◌, true, OnOk};
ghost use Rattle.reconciling.specs.Outcomes.{unless_fault, area_sheet_fault, cost_sheet_fault};
ghost use Rattle.reconciling.specs.Sheets.{row_in_range, cost_in_range, AreaSheet, DeliveryCosts};

use crate::fault::ReconcileFault;
use crate::in_range::{InRange, RangeTest, Ranged};
use crate::rows::CheckedRows;
use amounts::price_in_range;

// What was supplied to an area, and how its volume is reconciled.
#[derive(Clone, Copy, Default)]
pub struct AreaRow {
    // In kWh.
    pub supplied: u64,
    // The infrastructure manager's share, in ten-thousandths.
    pub share: u16,
    // The settlement prices, in thousandths of a penny per kWh.
    pub energy: u32,
    pub delivery: u32,
}

// What the costs of a year came to, in pence.
#[derive(Clone, Copy)]
pub struct CostSheet<'s> {
    // Each area's, for delivery.
    pub delivery: &'s [u64],
    // The network's, for energy.
    pub energy: u64,
}

// The most that is supplied to an area, in kWh.
const MAX_SUPPLIED: u64 = 3_000_000_000;

// A whole, in ten-thousandths, of the type of a share.
const WHOLE: u16 = 10_000;

// The highest cost, in pence.
const MAX_COST: u64 = 1_000_000_000_000;

impl Ranged for AreaRow {
    ghost in_range = { row_in_range };
}

impl RangeTest for AreaRow {
    #[tactic(auto, unfolding(crate::specs::Sheets::row_in_range))]
    fn in_range(&self) -> bool {
        self.supplied <= MAX_SUPPLIED
            && self.share <= WHOLE
            && price_in_range(self.energy)
            && price_in_range(self.delivery)
    }
}

// A cost in pence. On u64 itself, since the sheet lends plain numbers.
impl Ranged for u64 {
    ghost in_range = { cost_in_range };
}

impl RangeTest for u64 {
    #[tactic(auto, unfolding(crate::specs::Sheets::cost_in_range))]
    fn in_range(&self) -> bool {
        *self <= MAX_COST
    }
}

// A row for each area, and every figure in its range.
pub(crate) fn check_area_sheet(
    sheet: &[AreaRow],
) -> Result<CheckedRows<'_, AreaRow>, ReconcileFault>
    ensures answer { result ≡ unless_fault (area_sheet_fault sheet.now) sheet.now }
    ensures ranged { OnOk result (AreaSheet sheet.now) }
{
    CheckedRows::check(sheet)
}

// The costs of a year, each in its range.
#[derive(Drop)]
pub(crate) struct CheckedCosts<'s> {
    pub(crate) delivery: CheckedRows<'s, u64>,
    pub(crate) energy: InRange<u64>,
}

// A delivery cost for each area, and every cost in its range.
pub(crate) fn check_cost_sheet<'s>(
    sheet: &CostSheet<'s>,
) -> Result<CheckedCosts<'s>, ReconcileFault>
    ensures answer { result ≡ unless_fault (cost_sheet_fault sheet.now.delivery.now sheet.now.energy) (record { delivery = sheet.now.delivery.now; energy = sheet.now.energy }) }
    ensures delivery { OnOk result (DeliveryCosts sheet.now.delivery.now) }
    ensures energy { OnOk result (cost_in_range sheet.now.energy ≡ true) }
{
    let delivery = CheckedRows::check(sheet.delivery)?;
    let energy = InRange::check(sheet.energy).ok_or(ReconcileFault::EnergyFigure)?;
    Ok(CheckedCosts { delivery, energy })
}
