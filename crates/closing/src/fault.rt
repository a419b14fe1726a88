// Why a year cannot be closed.
ghost use Rattle.std.specs.Prelude.{◌≡◌};
ghost use Rattle.closing.specs.Faults.{refusal_of};

use amounts::{Fault, Refusal};
use reconciling::ReconcileFault;

#[derive(Clone, Copy, PartialEq, Eq, Debug)]
pub enum CloseFault {
    // The block has a wrong count of cells or account records.
    Counts,
    // The volumes are not reconciled.
    Volume(ReconcileFault),
    // The costs are not reconciled.
    Cost(ReconcileFault),
}

impl Fault for CloseFault {
    ghost described = { refusal_of };

    fn refusal(&self) -> Refusal {
        match self {
            CloseFault::Counts => Refusal::new(1, 0),
            CloseFault::Volume(fault) => fault.refusal(),
            CloseFault::Cost(fault) => fault.refusal(),
        }
    }
}
