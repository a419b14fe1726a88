// The cells of a block that was checked: each figure is within its limit. A clause sees the list of the cells.
ghost use Rattle.std.specs.Prelude.{◌≡◌, ◌<◌};
ghost use Rattle.amounts.specs.Ranges.{accounts, areas};
ghost use Rattle.ledger.specs.Blocks.{block, cell_at};
ghost use Rattle.ledger.specs.Limits.{sound, cell_within, SoundCells};
ghost use Rattle.reconciling.specs.Outcomes.{fault_unless, unless_fault};
ghost use Rattle.reconciling.specs.declared.fault.ReconcileFault.TheVariants as fault;

use crate::fault::ReconcileFault;
use crate::in_range::{InRange, Ranged};
use crate::places::{Area, cell_index};
use ledger::{AccountRecord, Cell, block_is_sound};
use std::marker::Model;

// A cell of a sound block is within its limits, and is not tested again.
impl Ranged for Cell {
    ghost in_range = { cell_within };
}

#[derive(Drop)]
pub(crate) struct CheckedCells<'c> {
    cells: &'c [Cell],
}

impl<'c> Model for CheckedCells<'c> {
    ghost use Rattle.std.specs.Prelude.{List};
    ghost use Rattle.ledger.specs.declared.block.Cell.{Cell};
    ghost use Rattle.ledger.specs.Limits.{SoundCells};

    ghost Value = { List Cell };

    ghost view = { λ c. c.cells.now };

    ghost invariant = { λ c. SoundCells c.cells.now };
}

impl<'c> CheckedCells<'c> {
    pub(crate) fn check(
        cells: &'c [Cell],
        accounts: &[AccountRecord],
    ) -> Result<CheckedCells<'c>, ReconcileFault>
        ensures { result ≡ unless_fault (fault_unless (sound (block cells.now accounts.now)) fault.Block) cells.now }
    {
        // No `then`: the value is made only where the test held.
        if block_is_sound(cells, accounts) {
            Ok(CheckedCells { cells })
        } else {
            Err(ReconcileFault::Block)
        }
    }

    // Tells a proof that the cells are within their limits. Nothing runs.
    pub(crate) fn known(&self)
        ensures { SoundCells self.now }
    {
        let _ = &self.cells;
    }

    // The cell of the account in the area.
    pub(crate) fn at(&self, account: usize, area: Area) -> InRange<Cell>
        requires { account < accounts }
        ensures { result ≡ cell_at self.now account area.index }
    {
        InRange::of(self.cells[cell_index(account, area)])
    }
}
