// A block with every figure at 0.
ghost use Rattle.std.specs.Prelude.{◌≡◌, length, replicate};
ghost use Rattle.ledger.specs.Blocks.{zero_cell, zero_account};

use crate::block::{AccountRecord, Cell};

// Sets every figure to 0, whatever was there.
pub fn clear(cells: &mut [Cell], accounts: &mut [AccountRecord])
    ensures cells { cells.new ≡ replicate (length cells.old) zero_cell }
    ensures accounts { accounts.new ≡ replicate (length accounts.old) zero_account }
{
    cells.fill(Cell::default());
    accounts.fill(AccountRecord::default());
}
