// The billed Wh of a metered record.
ghost use Rattle.std.specs.Prelude.{◌≡◌, IfOk};
ghost use Rattle.books.specs.Answers.{ValuesInRange};
ghost use Rattle.lines.specs.Contents.{contents};
ghost use Rattle.billing.specs.Bills.{fill_values, metered_volume};
ghost use Rattle.billing.specs.Filling.{kind_of, first_needing};

use crate::bill::{Span, Volume};
use crate::categories::unit_fits_leg;
use crate::checked::CheckedMetered;
use crate::fault::BookFault;
use crate::filling::kind_of;
use crate::tables::Tables;
use crate::volume::metered_wh;
use books::{InfillBook, SlotValues, TariffBook};
use lines::{find_category, find_loss};

// The values to fill with. A record with no missing reading asks no book.
fn fill_values<I: InfillBook>(
    infill: &I,
    metered: &CheckedMetered,
    span: Span,
) -> Result<SlotValues, BookFault>
    ensures answer { result ≡ fill_values (first_needing metered.now) (I.values infill.now (kind_of metered.now.leg) metered.now.billing.category metered.now.billing.area metered.now.billing.band) span.place span.next }
    ensures range { IfOk result ValuesInRange }
{
    let Some(slot) = metered.first_needing() else {
        return Ok(SlotValues::default());
    };
    let billing = metered.billing();
    let kind = kind_of(metered.leg());
    // `let else`, as the project asks where an infill book may have no pair.
    let Some(values) = infill.values(kind, billing.category, billing.area, billing.band) else {
        return Err(BookFault::MissingReading {
            place: span.place,
            next: span.next,
            slot,
        });
    };
    Ok(values)
}

// The net and billed Wh, or the fault of the table or the book that lacks something.
#[tactic(auto, unfolding(crate::specs::Bills::metered_volume))]
pub(crate) fn metered_volume<T: TariffBook, I: InfillBook>(
    tables: &Tables<T, I>,
    metered: &CheckedMetered,
    span: Span,
) -> Result<Volume, BookFault>
    ensures { result ≡ metered_volume (contents tables.now.categories.now) (contents tables.now.losses.now) (I.values tables.now.infill.now) metered.now span.place span.next }
{
    let Span { place, next } = span;
    let billing = metered.billing();
    let leg = metered.leg();
    let line = find_category(tables.categories, billing.category)
        .filter(|line| unit_fits_leg(leg, line.unit()))
        .ok_or(BookFault::Category { place, next })?;
    let loss = find_loss(tables.losses, billing.area, line.electricity()).ok_or(BookFault::Loss {
        place,
        next,
    })?;
    let values = fill_values(tables.infill, metered, span)?;
    let net = metered.net(values);
    let wh = metered_wh(net, &line, &loss);
    Ok(Volume::Metered { net, wh })
}
