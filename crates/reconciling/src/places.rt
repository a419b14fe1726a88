// How many accounts and areas there are, an area by its number, and the place of a cell.
ghost use Rattle.std.specs.Prelude.{◌≡◌, ◌<◌};
ghost use Rattle.amounts.specs.Ranges.{accounts, areas};
ghost use Rattle.ledger.specs.Blocks.{cell_number};

use amounts::{ACCOUNTS, AREAS};

// `as`, since a constant calls no function.
pub(crate) const ACCOUNT_COUNT: usize = ACCOUNTS as usize;

// `statements` has a number of areas of its own: neither crate rests on the other.
pub(crate) const AREA_COUNT: usize = AREAS as usize;

// An area by its number, made where the areas are gone through. An account is still an index, which four functions ask to
// be below 64: a type like this one was not tried for it.
#[derive(Clone, Copy)]
pub(crate) struct Area {
    pub(crate) index: usize,
    ghost exists: { index < areas },
}

impl Area {
    // For a closure, which hands on what a call in it asks, and not what a literal asks.
    pub(crate) fn at(index: usize) -> Area
        requires { index < areas }
        ensures { result.index ≡ index }
    {
        Area { index }
    }
}

// The cells of an account lie side by side, in the order of the areas. Of indices, where the ledger's is of a record's
// account and area.
pub(crate) fn cell_index(account: usize, area: Area) -> usize
    requires { account < accounts }
    ensures { result ≡ cell_number account area.index }
{
    account * AREA_COUNT + area.index
}
