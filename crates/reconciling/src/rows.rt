// A sheet that was checked: a row for each area, and each row in range. A clause sees the list of the rows.
ghost use Rattle.std.specs.Prelude.{◌≡◌, ℕ, ◌<◌, not, position, OnOk, slice_index_or};
ghost use Rattle.amounts.specs.Ranges.{areas};
ghost use Rattle.reconciling.specs.Outcomes.{unless_fault, rows_fault};
ghost use Rattle.reconciling.specs.Rows.{RangedRows};

use crate::fault::ReconcileFault;
use crate::in_range::{InRange, RangeTest, Ranged};
use crate::places::{AREA_COUNT, Area};
use std::marker::Model;

#[derive(Drop)]
pub(crate) struct CheckedRows<'s, R: Ranged> {
    rows: &'s [R],
}

impl<'s, R: Ranged> Model for CheckedRows<'s, R> {
    ghost use Rattle.std.specs.Prelude.{List};
    ghost use Rattle.reconciling.specs.Rows.{RangedRows};

    ghost Value = { List R };

    ghost view = { λ c. c.rows.now };

    ghost invariant = { λ c. RangedRows R.in_range c.rows.now };
}

// The first row that is out of its range.
fn first_out<R: RangeTest>(rows: &[R]) -> Option<usize>
    ensures { result ≡ position (λ r. not (R.in_range r)) rows.now }
{
    rows.iter().position(|row| !row.in_range())
}

impl<'s, R: Ranged> CheckedRows<'s, R> {
    pub(crate) fn check(rows: &'s [R]) -> Result<CheckedRows<'s, R>, ReconcileFault>
    where
        R: RangeTest,
        ensures answer { (d : R) → result ≡ unless_fault (rows_fault R.in_range d rows.now) rows.now }
        ensures ranged { OnOk result (RangedRows R.in_range rows.now) }
    {
        if rows.len() != AREA_COUNT {
            return Err(ReconcileFault::SheetLength);
        }
        match first_out(rows) {
            Some(area) => Err(ReconcileFault::AreaFigure { area }),
            None => Ok(CheckedRows { rows }),
        }
    }

    // The area's row.
    pub(crate) fn at(&self, area: Area) -> InRange<R>
        ensures { (d : R) → result ≡ slice_index_or self.now area.index d }
    {
        let rows = self.rows;
        InRange::of(rows[area.index])
    }
}
