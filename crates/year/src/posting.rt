// Posting a record to an open year.
ghost use Rattle.std.specs.Prelude.{◌≡◌, length};
ghost use Rattle.billing.specs.Tables.{sources_of};
ghost use Rattle.ledger.specs.Blocks.{block};
ghost use Rattle.year.specs.Forward.{PostGoesForward};
ghost use Rattle.year.specs.Outcomes.{post_outcome, next_of, cells_after};
ghost use Rattle.year.specs.Promises.{Posts};
ghost use Rattle.year.specs.Steps.{PostExtends};

use crate::entering::enter;
use crate::states::OpenYear;
use billing::{LedgerFault, PostFault, Tables, bill_record};
use books::{InfillBook, TariffBook};
use ledger::{AccountRecord, Cell, block_is_sound};

// Bills the record at `place` into its cell, if the block is sound, and answers where the next record begins.
fn post_bill<T: TariffBook, I: InfillBook>(
    cells: &mut [Cell],
    accounts: &[AccountRecord],
    tables: &Tables<T, I>,
    batch: &[u8],
    place: usize,
) -> Result<usize, PostFault>
    ensures answer { result ≡ next_of (post_outcome (sources_of T.prices I.values tables.now) (block cells.old accounts.now) batch.now place) }
    ensures after { cells.new ≡ cells_after cells.old (post_outcome (sources_of T.prices I.values tables.now) (block cells.old accounts.now) batch.now place) }
{
    if !block_is_sound(cells, accounts) {
        return Err(PostFault::from(LedgerFault::Block));
    }
    let bill = bill_record(tables, batch, place)?;
    enter(cells, place, bill)?;
    Ok(bill.next)
}

impl OpenYear {
    // Bills the record at `place` of the batch into the cell of its account and area, and answers where the next record
    // begins. A refusal hands the year back, and leaves the block as it was.
    pub fn post<T: TariffBook, I: InfillBook>(
        self,
        cells: &mut [Cell],
        accounts: &[AccountRecord],
        tables: &Tables<T, I>,
        batch: &[u8],
        place: usize,
    ) -> Result<(OpenYear, usize), (OpenYear, PostFault)>
        ensures promise { Posts (sources_of T.prices I.values tables.now) self (block cells.old accounts.now) batch.now place result (block cells.new accounts.now) }
        ensures run { PostExtends (sources_of T.prices I.values tables.now) self (block cells.old accounts.now) batch.now place result (block cells.new accounts.now) }
        ensures forward { PostGoesForward (length batch.now) place result }
    {
        let accepted = self.accepted.saturating_add(1);
        let next = post_bill(cells, accounts, tables, batch, place).map_err(|fault| (self, fault))?;
        Ok((OpenYear { accepted }, next))
    }
}
