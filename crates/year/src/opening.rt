// Opening a year over a block, which is two slices that the caller lends: the cells, and the account records.
ghost use Rattle.ledger.specs.Blocks.{block};
ghost use Rattle.year.specs.Promises.{Opens};
ghost use Rattle.year.specs.Steps.{OpenBegins};

use crate::states::OpenYear;
use billing::LedgerFault;
use ledger::{AccountRecord, Cell, clear, counts_are_right};

impl OpenYear {
    // Clears the block, whatever it held, and opens a year over it.
    pub fn open(cells: &mut [Cell], accounts: &mut [AccountRecord]) -> Result<OpenYear, LedgerFault>
        ensures promise { Opens (block cells.old accounts.old) result (block cells.new accounts.new) }
        ensures run { OpenBegins result (block cells.new accounts.new) }
    {
        if !counts_are_right(cells, accounts) {
            return Err(LedgerFault::Block);
        }
        clear(cells, accounts);
        Ok(OpenYear { accepted: 0 })
    }
}
