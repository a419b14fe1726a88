// Why a reconciliation is refused.
ghost use Rattle.reconciling.specs.Faults.{refusal_of};

use crate::places::AREA_COUNT;
use amounts::{Fault, Refusal};

#[derive(Clone, Copy, PartialEq, Eq, Debug)]
pub enum ReconcileFault {
    // The block has a wrong count, or a figure beyond its limit.
    Block,
    // The sheet has not a row for each area.
    SheetLength,
    // A figure of the area's row is out of range.
    AreaFigure { area: usize },
    // The network's energy cost is out of range.
    EnergyFigure,
    // What is to be shared in the area, or a weight, is beyond its limit.
    AreaBeyondLimits { area: usize },
    // The same, of the network's energy.
    EnergyBeyondLimits,
}

impl Fault for ReconcileFault {
    ghost described = { refusal_of };

    fn refusal(&self) -> Refusal {
        match *self {
            ReconcileFault::Block => Refusal::new(1, 0),
            ReconcileFault::SheetLength => Refusal::new(17, 0),
            ReconcileFault::AreaFigure { area } => Refusal::new(17, area),
            ReconcileFault::EnergyFigure => Refusal::new(17, AREA_COUNT),
            ReconcileFault::AreaBeyondLimits { area } => Refusal::new(18, area),
            ReconcileFault::EnergyBeyondLimits => Refusal::new(18, AREA_COUNT),
        }
    }
}
