// Reconciling the costs of a volume-settled year.
ghost use Rattle.std.specs.Prelude.{◌≡◌, OnOk};
ghost use Rattle.ledger.specs.Blocks.{block};
ghost use Rattle.reconciling.specs.Outcomes.{sums_in, volumes_in};
ghost use Rattle.year.specs.Fairness.{FairCosts};
ghost use Rattle.year.specs.Promises.{ReconcilesCost};
ghost use Rattle.year.specs.Settlements.{YearSettles};
ghost use Rattle.year.specs.Steps.{CostExtends};

use crate::states::{SettledYear, VolumeSettledYear};
use crate::writing::{set_accounts, set_costs};
use ledger::{AccountRecord, Cell};
use reconciling::{CostSheet, ReconcileFault, cost_adjustments};

impl VolumeSettledYear {
    // Shares what each area's delivery cost, and the network's energy cost, is above or below the bills, and sets every
    // cost adjustment. A refusal hands the year back, and leaves the block as it was.
    pub fn reconcile_cost(
        self,
        cells: &mut [Cell],
        accounts: &mut [AccountRecord],
        costs: &CostSheet<'_>,
    ) -> Result<SettledYear, (VolumeSettledYear, ReconcileFault)>
        ensures promise { ReconcilesCost self (block cells.old accounts.old) costs.now.delivery.now costs.now.energy result (block cells.new accounts.new) }
        ensures fair { OnOk result (FairCosts (sums_in cells.old) (volumes_in cells.old) costs.now.delivery.now costs.now.energy (block cells.new accounts.new)) }
        ensures run { CostExtends self (block cells.old accounts.old) costs.now.delivery.now costs.now.energy result (block cells.new accounts.new) }
        ensures year_settles { YearSettles self (block cells.old accounts.old) costs.now.delivery.now costs.now.energy result (block cells.new accounts.new) }
    {
        let accepted = self.accepted;
        let table = cost_adjustments(cells, accounts, costs).map_err(|fault| (self, fault))?;
        set_costs(cells, &table.delivery);
        set_accounts(accounts, &table.energy);
        Ok(SettledYear { accepted })
    }
}
