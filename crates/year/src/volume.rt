// Reconciling the volumes of an open year.
ghost use Rattle.std.specs.Prelude.{◌≡◌, OnOk};
ghost use Rattle.ledger.specs.Blocks.{block};
ghost use Rattle.reconciling.specs.Outcomes.{sums_in};
ghost use Rattle.year.specs.Fairness.{FairVolumes};
ghost use Rattle.year.specs.Promises.{ReconcilesVolume};
ghost use Rattle.year.specs.Steps.{VolumeExtends};

use crate::states::{OpenYear, VolumeSettledYear};
use crate::writing::set_volumes;
use ledger::{AccountRecord, Cell};
use reconciling::{AreaRow, ReconcileFault, volume_adjustments};

impl OpenYear {
    // Shares what each area was supplied above or below its bills, and sets every volume adjustment. A refusal hands the
    // year back, and leaves the block as it was.
    pub fn reconcile_volume(
        self,
        cells: &mut [Cell],
        accounts: &[AccountRecord],
        sheet: &[AreaRow],
    ) -> Result<VolumeSettledYear, (OpenYear, ReconcileFault)>
        ensures promise { ReconcilesVolume self (block cells.old accounts.now) sheet.now result (block cells.new accounts.now) }
        ensures fair { OnOk result (FairVolumes (sums_in cells.old) sheet.now cells.new) }
        ensures run { VolumeExtends self (block cells.old accounts.now) sheet.now result (block cells.new accounts.now) }
    {
        let accepted = self.accepted;
        let table = volume_adjustments(cells, accounts, sheet).map_err(|fault| (self, fault))?;
        set_volumes(cells, &table);
        Ok(VolumeSettledYear { accepted })
    }
}
