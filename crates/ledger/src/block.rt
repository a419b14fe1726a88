// The cells and account records of a year: plain numbers, in memory that the caller lends.
// They stay two slices: a post may write cells alone, so it borrows the account records as they are, and each call
// says by its two borrows which of the two it may change.
ghost use Rattle.std.specs.Prelude.{◌≡◌};
ghost use Rattle.ledger.specs.Blocks.{cell_number};

use amounts::{ACCOUNTS, AREAS};

// How many cells a year has: one for each account and area. `as`, since a constant calls no function.
pub const CELLS: usize = ACCOUNTS as usize * AREAS as usize;

// What the posts of a year have added up.
#[derive(Clone, Copy, Default, PartialEq, Eq, Debug)]
pub struct Sums {
    // In Wh.
    pub metered: i64,
    pub modelled: i64,
    // In millionths of a penny.
    pub energy: i64,
    pub delivery: i64,
}

// What a volume reconciliation adjusts.
#[derive(Clone, Copy, Default, PartialEq, Eq, Debug)]
pub struct VolumeAdjustment {
    pub kwh: i64,
    // In pence.
    pub energy: i64,
    pub delivery: i64,
}

// One account in one area.
#[derive(Clone, Copy, Default, PartialEq, Eq, Debug)]
pub struct Cell {
    pub sums: Sums,
    pub volume: VolumeAdjustment,
    // The delivery cost adjustment, in pence.
    pub cost: i64,
}

// One account over all areas.
#[derive(Clone, Copy, Default, PartialEq, Eq, Debug)]
pub struct AccountRecord {
    // The energy cost adjustment, in pence.
    pub cost: i64,
}

// The cells of an account lie side by side, in the order of the areas.
pub fn cell_number(account: u8, area: u8) -> usize
    ensures { result ≡ cell_number account area }
{
    usize::from(account) * usize::from(AREAS) + usize::from(area)
}
