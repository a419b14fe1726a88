// The volume reconciliation: what each area was supplied above or below what was billed, shared over its accounts.
ghost use Rattle.std.specs.Prelude.{◌≡◌, ◌<◌, ◌≤◌, map, IfOk, if◌then◌else◌, Some, None, unsigned_abs};
ghost use Rattle.std.specs.List.{range_with_len};
ghost use Rattle.amounts.specs.Quotients.{quotient_cut};
ghost use Rattle.amounts.specs.Ranges.{accounts, within};
ghost use Rattle.ledger.specs.Blocks.{block};
ghost use Rattle.ledger.specs.Limits.{max_kwh};
ghost use Rattle.reconciling.specs.Laws.{FairVolumes};
ghost use Rattle.reconciling.specs.Limits.{max_billed_kwh};
ghost use Rattle.reconciling.specs.Outcomes.{sums_in, unless_fault, discrepancy_in_limit, volume_limit_fault, volume_outcome};
ghost use Rattle.reconciling.specs.Sheets.{row_at, whole};
ghost use Rattle.reconciling.specs.Volumes.{billed_kwh, discrepancy, managers_kwh, volume_kwh, volume_adjustment, volume_adjustments};

use crate::cells::CheckedCells;
use crate::columns::write_columns;
use crate::fault::ReconcileFault;
use crate::in_range::InRange;
use crate::places::{ACCOUNT_COUNT, Area};
use crate::pricing::price_adjustments;
use crate::rows::CheckedRows;
use crate::sheets::{AreaRow, check_area_sheet};
use crate::signed::total;
use crate::volume_lines::share_over_operators;
use amounts::{Divisor, cut, within};
use ledger::{AccountRecord, CELLS, Cell, MAX_KWH, VolumeAdjustment, kwh_of};
use std::array;

// Metered and modelled, each rounded.
fn billed_kwh(cell: &InRange<Cell>) -> i64
    ensures answer { result ≡ billed_kwh cell.now.sums }
    ensures bound { unsigned_abs result ≤ max_billed_kwh }
{
    let sums = cell.get().sums;
    kwh_of(sums.metered) + kwh_of(sums.modelled)
}

// What was supplied to the area above or below all that was billed there.
fn discrepancy_of(cells: &CheckedCells<'_>, row: &InRange<AreaRow>, area: Area) -> i64
    ensures { result ≡ discrepancy (sums_in cells.now) row.now area.index }
{
    let kwh: [i64; ACCOUNT_COUNT] = array::from_fn(|i| billed_kwh(&cells.at(i, area)));
    // `as`, since a u64 has no From to i64. What was supplied is in its range.
    row.get().supplied as i64 - total(&kwh)
}

// Ten-thousandths as kWh, cut towards zero. Apart, so that the proof of a share says nothing of how it is cut.
#[tactic(auto, using(crate::proofs::Machine::as_given))]
fn whole_kwh(ten_thousandths: i64) -> i64
    ensures { result ≡ quotient_cut ten_thousandths whole }
{
    cut(ten_thousandths, Divisor::TEN_THOUSANDTHS)
}

// The infrastructure manager's share of a discrepancy.
fn managers_kwh(discrepancy: i64, row: &InRange<AreaRow>) -> i64
    requires { unsigned_abs discrepancy ≤ max_kwh }
    ensures answer { result ≡ managers_kwh discrepancy row.now }
    ensures bound { unsigned_abs result ≤ max_kwh }
{
    whole_kwh(discrepancy * i64::from(row.get().share))
}

// The adjustment of each account in the area, or none where the discrepancy is beyond its limit.
fn area_kwh(
    cells: &CheckedCells<'_>,
    row: &InRange<AreaRow>,
    area: Area,
) -> Option<[i64; ACCOUNT_COUNT]>
    ensures { result ≡ (if within (discrepancy (sums_in cells.now) row.now area.index) max_kwh then Some (map (λ account. volume_kwh (sums_in cells.now) row.now account area.index) (range_with_len 0 accounts)) else None) }
{
    let discrepancy = discrepancy_of(cells, row, area);
    if !within(discrepancy, MAX_KWH) {
        return None;
    }
    cells.known();
    row.known();
    let managers = managers_kwh(discrepancy, row);
    share_over_operators(managers, discrepancy - managers, cells, area)
}

// The same, priced by the area's row of the sheet.
fn area_adjustments(
    cells: &CheckedCells<'_>,
    sheet: &CheckedRows<'_, AreaRow>,
    area: Area,
) -> Option<[VolumeAdjustment; ACCOUNT_COUNT]>
    ensures { result ≡ (if discrepancy_in_limit cells.now sheet.now area.index then Some (map (λ account. volume_adjustment (sums_in cells.now) sheet.now account area.index) (range_with_len 0 accounts)) else None) }
{
    let row = sheet.at(area);
    row.known();
    let kwh = area_kwh(cells, &row, area)?;
    Some(price_adjustments(&kwh, &row))
}

// The adjustments of every cell.
fn priced_areas(
    cells: &CheckedCells<'_>,
    sheet: &CheckedRows<'_, AreaRow>,
) -> Result<[VolumeAdjustment; CELLS], ReconcileFault>
    ensures { result ≡ unless_fault (volume_limit_fault cells.now sheet.now) (volume_adjustments (sums_in cells.now) sheet.now) }
{
    let mut table = [VolumeAdjustment::default(); CELLS];
    if let Some(area) = write_columns(&mut table, |area| area_adjustments(cells, sheet, area)) {
        return Err(ReconcileFault::AreaBeyondLimits { area });
    }
    Ok(table)
}

// The volume adjustment of every cell, by the sheet's row of its area.
pub fn volume_adjustments(
    cells: &[Cell],
    accounts: &[AccountRecord],
    sheet: &[AreaRow],
) -> Result<[VolumeAdjustment; CELLS], ReconcileFault>
    ensures answer { result ≡ volume_outcome (block cells.now accounts.now) sheet.now }
    ensures fair { IfOk result (λ table. FairVolumes cells.now sheet.now table) }
{
    let cells = CheckedCells::check(cells, accounts)?;
    let sheet = check_area_sheet(sheet)?;
    priced_areas(&cells, &sheet)
}
