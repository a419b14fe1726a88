// The rate infill book: values from the rates of categories, at one speed.
ghost use Rattle.std.specs.Prelude.{◌≡◌, ◌≤◌};
ghost use Rattle.lines.specs.Contents.{contents};
ghost use Rattle.books.specs.Figures.{max_rate_consumption, rate_consumption, rate_regeneration};
ghost use Rattle.books.specs.InfillBooks.{journey_fits, rate_of, RateTable};

use crate::answers::SlotValues;
use crate::book::InfillBook;
use crate::quotient::rounded_quotient;
use crate::speed::Speed;
use amounts::Divisor;
use lines::{CategoryLine, MeteredKind, OrderedList, UnitKind, find_category};

#[derive(Clone, Copy)]
pub struct RateInfill<'t, 'm> {
    categories: &'t OrderedList<'m, CategoryLine>,
    speed: Speed,
}

// Whether the kind of journey is one that trains of such a unit make. A non-journey is none.
fn journey_fits(kind: MeteredKind, unit: UnitKind) -> bool
    ensures { result ≡ journey_fits kind unit }
{
    matches!(
        (kind, unit),
        (MeteredKind::MultipleUnitJourney, UnitKind::MultipleUnit)
            | (MeteredKind::HauledJourney, UnitKind::Hauled)
    )
}

// What a slot at that speed consumes. Here and below `as` loses nothing, and a `try_from` would add a case that never comes.
fn consumption_at(line: &CategoryLine, speed: Speed) -> u32
    ensures value { result ≡ rate_consumption line.now.rate speed.value }
    ensures range { result ≤ max_rate_consumption }
{
    let product = u64::from(line.rate()) * u64::from(speed.get());
    rounded_quotient(product, Divisor::HUNDREDTHS) as u32
}

// What of it is regenerated.
fn regeneration_of(consumption: u32, line: &CategoryLine) -> u32
    requires { consumption ≤ max_rate_consumption }
    ensures value { result ≡ rate_regeneration consumption line.now.discount }
    ensures range { result ≤ max_rate_consumption }
{
    let discounted = u64::from(consumption) * u64::from(line.discount());
    rounded_quotient(discounted, Divisor::TEN_THOUSANDTHS) as u32
}

impl<'t, 'm> RateInfill<'t, 'm> {
    pub fn new(categories: &'t OrderedList<'m, CategoryLine>, speed: Speed) -> Self
        ensures categories { result.categories.now ≡ categories.now }
        ensures speed { result.speed.value ≡ speed.value }
        ensures law { RateTable (contents categories.now) speed.value }
    {
        RateInfill { categories, speed }
    }
}

impl<'t, 'm> InfillBook for RateInfill<'t, 'm> {
    ghost values = { λ b kind category area band. rate_of (contents b.categories.now) b.speed.value kind category area band };

    fn values(&self, kind: MeteredKind, category: u16, _area: u8, _band: u8) -> Option<SlotValues> {
        let line = find_category(self.categories, category).filter(|line| journey_fits(
            kind,
            line.unit(),
        ))?;
        let consumption = consumption_at(&line, self.speed);
        Some(SlotValues {
            consumption,
            regeneration: regeneration_of(consumption, &line),
        })
    }
}
