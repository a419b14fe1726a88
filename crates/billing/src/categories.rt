// Whether the unit of a category's line fits the record.
ghost use Rattle.std.specs.Prelude.{◌≡◌};
ghost use Rattle.billing.specs.Bills.{unit_fits_leg, unit_fits_quantity};

use lines::UnitKind;
use records::{MeteredLeg, ModelledQuantity};

pub(crate) fn unit_fits_leg(leg: MeteredLeg, unit: UnitKind) -> bool
    ensures { result ≡ unit_fits_leg leg unit }
{
    match leg {
        MeteredLeg::MultipleUnit => unit == UnitKind::MultipleUnit,
        MeteredLeg::Hauled { .. } => unit == UnitKind::Hauled,
        MeteredLeg::NonJourney => true,
    }
}

pub(crate) fn unit_fits_quantity(quantity: ModelledQuantity, unit: UnitKind) -> bool
    ensures { result ≡ unit_fits_quantity quantity unit }
{
    match quantity {
        ModelledQuantity::TrainMiles(_) => unit == UnitKind::MultipleUnit,
        ModelledQuantity::GrossTonneMiles(_) => unit == UnitKind::Hauled,
    }
}
