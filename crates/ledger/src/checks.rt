// Whether a block has its counts, and every figure its limit.
ghost use Rattle.std.specs.Prelude.{◌≡◌, true};
ghost use Rattle.ledger.specs.Blocks.{block};
ghost use Rattle.ledger.specs.Limits.{sums_within, volume_within, cell_within, cells_within, account_within, accounts_within, counts_right, sound, Sound};

use crate::block::{AccountRecord, CELLS, Cell, Sums, VolumeAdjustment};
use amounts::{ACCOUNTS, within};

// The largest sum of Wh.
const MAX_WH: u64 = 3_000_000_000_000;

// The largest sum of charges, in millionths of a penny.
const MAX_CHARGE: u64 = 3_000_000_000_000_000;

// The largest volume adjustment, and the largest discrepancy of an area, in kWh; and what an adjustment comes to in pence.
pub const MAX_KWH: u64 = 3_000_000_000;

const MAX_VOLUME_PENCE: u64 = 300_000_000_000;

// The largest cost adjustment, in pence.
const MAX_COST: u64 = 3_000_000_000;

#[tactic(auto, unfolding(crate::specs::Limits::sums_within))]
pub(crate) fn sums_within(sums: Sums) -> bool
    ensures { result ≡ sums_within sums }
{
    within(sums.metered, MAX_WH)
        && within(sums.modelled, MAX_WH)
        && within(sums.energy, MAX_CHARGE)
        && within(sums.delivery, MAX_CHARGE)
}

#[tactic(auto, unfolding(crate::specs::Limits::volume_within))]
fn volume_within(volume: VolumeAdjustment) -> bool
    ensures { result ≡ volume_within volume }
{
    within(volume.kwh, MAX_KWH)
        && within(volume.energy, MAX_VOLUME_PENCE)
        && within(volume.delivery, MAX_VOLUME_PENCE)
}

#[tactic(auto, unfolding(crate::specs::Limits::cell_within))]
fn cell_within(cell: Cell) -> bool
    ensures { result ≡ cell_within cell }
{
    sums_within(cell.sums) && volume_within(cell.volume) && within(cell.cost, MAX_COST)
}

fn cells_within(cells: &[Cell]) -> bool
    ensures { result ≡ cells_within cells.now }
{
    cells.iter().all(|cell| cell_within(*cell))
}

#[tactic(auto, unfolding(crate::specs::Limits::account_within))]
fn account_within(account: AccountRecord) -> bool
    ensures { result ≡ account_within account }
{
    within(account.cost, MAX_COST)
}

fn accounts_within(accounts: &[AccountRecord]) -> bool
    ensures { result ≡ accounts_within accounts.now }
{
    accounts.iter().all(|account| account_within(*account))
}

// Whether there is a cell for each account and area, and a record for each account.
#[tactic(auto, unfolding(crate::specs::Limits::counts_right))]
pub fn counts_are_right(cells: &[Cell], accounts: &[AccountRecord]) -> bool
    ensures { result ≡ counts_right (block cells.now accounts.now) }
{
    cells.len() == CELLS && accounts.len() == usize::from(ACCOUNTS)
}

// Whether the counts are right and no figure is beyond its limit.
pub fn block_is_sound(cells: &[Cell], accounts: &[AccountRecord]) -> bool
    ensures answer { result ≡ sound (block cells.now accounts.now) }
    ensures facts { result ≡ true → Sound (block cells.now accounts.now) }
{
    counts_are_right(cells, accounts) && cells_within(cells) && accounts_within(accounts)
}
