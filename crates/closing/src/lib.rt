// Closing a year over one batch: opening, posting every record, and both reconciliations.
#![tactic(auto)]

ghost use Rattle.std.specs.Prelude.{◌≡◌};
ghost use Rattle.billing.specs.Tables.{sources_of};
ghost use Rattle.ledger.specs.Blocks.{block};
ghost use Rattle.closing.specs.Closings.{Closes};

mod fault;
mod posting;
mod watch;

use billing::Tables;
use books::{InfillBook, TariffBook};
pub use fault::CloseFault;
use ledger::{AccountRecord, Cell};
use posting::post_all;
use reconciling::{AreaRow, CostSheet};
pub use watch::Watch;
use year::{OpenYear, SettledYear};

// Opens a year over the block, posts every record of the batch, going on after refusals, and reconciles volume by the
// area sheet and cost by the delivery costs of the areas and the network's energy cost.
pub fn close<T: TariffBook, I: InfillBook, W: Watch>(
    cells: &mut [Cell],
    accounts: &mut [AccountRecord],
    tables: &Tables<T, I>,
    batch: &[u8],
    sheet: &[AreaRow],
    costs: &CostSheet<'_>,
    watch: &mut W,
) -> Result<SettledYear, CloseFault>
    ensures { Closes (sources_of T.prices I.values tables.now) batch.now sheet.now costs.now.delivery.now costs.now.energy (block cells.old accounts.old) result (block cells.new accounts.new) }
{
    let year = OpenYear::open(cells, accounts).map_err(|_| CloseFault::Counts)?;
    let year = post_all(year, cells, accounts, tables, batch, watch);
    let year = year
        .reconcile_volume(cells, accounts, sheet)
        .map_err(|(_, fault)| CloseFault::Volume(fault))?;
    year.reconcile_cost(cells, accounts, costs)
        .map_err(|(_, fault)| CloseFault::Cost(fault))
}
