// The cost reconciliation: what each cost is above or below what was billed, shared over all accounts.
ghost use Rattle.std.specs.Prelude.{◌≡◌, ◌<◌, map, IfOk, if◌then◌else◌, Some, None};
ghost use Rattle.std.specs.List.{range_with_len};
ghost use Rattle.amounts.specs.Ranges.{accounts, areas};
ghost use Rattle.ledger.specs.Blocks.{block};
ghost use Rattle.reconciling.specs.Costs.{delivery_adjustment, delivery_adjustments, energy_adjustments};
ghost use Rattle.reconciling.specs.Laws.{FairCosts};
ghost use Rattle.reconciling.specs.Outcomes.{sums_in, volumes_in, unless_fault, delivery_in_limit, delivery_limit_fault, energy_limit_fault, cost_outcome};

use crate::billed::Billed;
use crate::cells::CheckedCells;
use crate::columns::write_columns;
use crate::cost_lines::share_over_all;
use crate::fault::ReconcileFault;
use crate::in_range::InRange;
use crate::places::{ACCOUNT_COUNT, Area};
use crate::rows::CheckedRows;
use crate::sheets::{CostSheet, check_cost_sheet};
use ledger::{AccountRecord, CELLS, Cell};

// The delivery cost adjustment of each cell, and the energy cost adjustment of each account, in pence.
#[derive(Clone, Copy)]
pub struct CostAdjustments {
    pub delivery: [i64; CELLS],
    pub energy: [i64; ACCOUNT_COUNT],
}

// The adjustment of each account in the area, or none where a figure is beyond its limit.
fn area_delivery(
    cells: &CheckedCells<'_>,
    costs: &CheckedRows<'_, u64>,
    area: Area,
) -> Option<[i64; ACCOUNT_COUNT]>
    ensures { result ≡ (if delivery_in_limit cells.now costs.now area.index then Some (map (λ account. delivery_adjustment (sums_in cells.now) (volumes_in cells.now) costs.now account area.index) (range_with_len 0 accounts)) else None) }
{
    let billed = Billed::for_delivery(cells, area);
    share_over_all(billed.shortfall(&costs.at(area)), billed.pence())
}

// The adjustments of every cell.
fn delivery_adjustments(
    cells: &CheckedCells<'_>,
    costs: &CheckedRows<'_, u64>,
) -> Result<[i64; CELLS], ReconcileFault>
    ensures { result ≡ unless_fault (delivery_limit_fault cells.now costs.now) (delivery_adjustments (sums_in cells.now) (volumes_in cells.now) costs.now) }
{
    let mut table = [0; CELLS];
    if let Some(area) = write_columns(&mut table, |area| area_delivery(cells, costs, area)) {
        return Err(ReconcileFault::AreaBeyondLimits { area });
    }
    Ok(table)
}

// The adjustments of every account, for energy over the network.
fn energy_adjustments(
    cells: &CheckedCells<'_>,
    cost: &InRange<u64>,
) -> Result<[i64; ACCOUNT_COUNT], ReconcileFault>
    ensures { result ≡ unless_fault (energy_limit_fault cells.now cost.now) (energy_adjustments (sums_in cells.now) (volumes_in cells.now) cost.now) }
{
    let billed = Billed::for_energy(cells);
    share_over_all(billed.shortfall(cost), billed.pence()).ok_or(ReconcileFault::EnergyBeyondLimits)
}

// The cost adjustments of every cell and account, by the sheet of costs.
pub fn cost_adjustments(
    cells: &[Cell],
    accounts: &[AccountRecord],
    sheet: &CostSheet<'_>,
) -> Result<CostAdjustments, ReconcileFault>
    ensures answer { result ≡ cost_outcome (block cells.now accounts.now) sheet.now.delivery.now sheet.now.energy }
    ensures fair { IfOk result (λ c. FairCosts cells.now sheet.now.delivery.now sheet.now.energy c) }
{
    let cells = CheckedCells::check(cells, accounts)?;
    let costs = check_cost_sheet(sheet)?;
    let delivery = delivery_adjustments(&cells, &costs.delivery)?;
    let energy = energy_adjustments(&cells, &costs.energy)?;
    Ok(CostAdjustments { delivery, energy })
}
