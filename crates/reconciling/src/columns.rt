// A table with an entry for each account and area, written area by area.
ghost use Rattle.std.specs.Prelude.{◌≡◌, ℕ, ◌/◌, ◌%◌, ◌<◌, Bool, not, map, length, ◌≢◌, None, slice_index_or};
ghost use Rattle.std.specs.List.{range_with_len};
ghost use Rattle.amounts.specs.Lowest.{lowest};
ghost use Rattle.amounts.specs.Ranges.{accounts, areas};
ghost use Rattle.ledger.specs.Blocks.{cell_count, cell_number};
ghost use Rattle.reconciling.specs.Columns.{ColumnsBy};
ghost use Rattle.reconciling.specs.declared.places.Area.{Area};

use crate::places::{ACCOUNT_COUNT, AREA_COUNT, Area, cell_index};
use ledger::CELLS;

// Writes an area's entries, one for each account. The entries are apart in the table, and of what is written through
// `chunks_exact_mut` a proof knows nothing.
fn write_column<T: Copy>(table: &mut [T], area: Area, column: &[T])
    requires table { length table.old ≡ cell_count }
    requires column { length column.now ≡ accounts }
    ensures written { (account : ℕ) (d : T) → account < accounts → slice_index_or table.new (cell_number account area.index) d ≡ slice_index_or column.now account d }
    ensures kept { (account other : ℕ) (d : T) → account < accounts → other < areas → (other ≢ area.index) → slice_index_or table.new (cell_number account other) d ≡ slice_index_or table.old (cell_number account other) d }
    ensures count { length table.new ≡ cell_count }
{
    for (account, entry) in column.iter().enumerate() {
        table[cell_index(account, area)] = *entry;
    }
}

// Writes each area's column, and answers the lowest area that has none, if there is one. The caller lends the table:
// one that is handed back is copied by every function that hands it on.
pub(crate) fn write_columns<T: Copy, F: Fn(Area) -> Option<[T; ACCOUNT_COUNT]>>(
    table: &mut [T; CELLS],
    column_of: F,
) -> Option<usize>
    requires { (area : Area) → F.pre column_of area }
    ensures answer { (passes : ℕ → Bool) (entry : ℕ → ℕ → T) → ColumnsBy (F.post column_of) passes entry → result ≡ lowest (λ area. not (passes area)) areas }
    ensures written { (passes : ℕ → Bool) (entry : ℕ → ℕ → T) → ColumnsBy (F.post column_of) passes entry → result ≡ None → table.new ≡ map (λ i. entry (i / areas) (i % areas)) (range_with_len 0 cell_count) }
{
    // A loop: of `try_from_fn` a proof knows that some area failed, and the lowest is answered.
    for index in 0..AREA_COUNT {
        let area = Area { index };
        let Some(column) = &column_of(area) else {
            return Some(index);
        };
        write_column(table, area, column);
    }
    None
}
