// Adjustments are written into a block once all of them are known.
ghost use Rattle.std.specs.Prelude.{◌≡◌, length};
ghost use Rattle.amounts.specs.Ranges.{accounts as account_count};
ghost use Rattle.ledger.specs.Blocks.{cell_count};
ghost use Rattle.year.specs.Outcomes.{with_volumes, with_costs, account_with_cost, accounts_with_costs};

use amounts::ACCOUNTS;
use ledger::{AccountRecord, CELLS, Cell, VolumeAdjustment};
use std::array;

// The counts are a `requires`: `as_mut_array` would bring a None that cannot come, since the block was tested before.
// The table is read by an index: after a `zip` with `iter_mut`, a proof knows the length of the cells and no cell.
pub(crate) fn set_volumes(cells: &mut [Cell], table: &[VolumeAdjustment; CELLS])
    requires { length cells.old ≡ cell_count }
    ensures { cells.new ≡ with_volumes cells.old table.now }
{
    for (i, cell) in cells.iter_mut().enumerate() {
        cell.volume = table[i];
    }
}

// One loop for each figure: a closure that names the figure is no plainer, and the contract would have to speak of it.
pub(crate) fn set_costs(cells: &mut [Cell], table: &[i64; CELLS])
    requires { length cells.old ≡ cell_count }
    ensures { cells.new ≡ with_costs cells.old table.now }
{
    for (i, cell) in cells.iter_mut().enumerate() {
        cell.cost = table[i];
    }
}

// The record of an account, of which the adjustment is all.
fn account_with_cost(cost: i64) -> AccountRecord
    ensures { result ≡ account_with_cost cost }
{
    AccountRecord { cost }
}

// `as` in the array's length, where a type calls no function.
pub(crate) fn set_accounts(accounts: &mut [AccountRecord], table: &[i64; ACCOUNTS as usize])
    requires { length accounts.old ≡ account_count }
    ensures { accounts.new ≡ accounts_with_costs table.now }
{
    let records: [_; ACCOUNTS as usize] = array::from_fn(|i| account_with_cost(table[i]));
    accounts.copy_from_slice(&records);
}
