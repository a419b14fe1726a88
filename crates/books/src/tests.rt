// Examples of books.
use crate::answers::{Prices, SlotValues};
use crate::blended::BlendedTariff;
use crate::book::{InfillBook, TariffBook};
use crate::rate::RateInfill;
use crate::speed::Speed;
use crate::table::TableTariff;
use lines::{CategoryLine, Electricity, MeteredKind, OrderedList, TariffLine, UnitKind};
use std::test::Fail;

#[test]
fn the_table_book_answers_from_its_lines(rt: HostRuntime) -> Result<(), Fail> {
    let mut memory = [TariffLine::new(3, 7, 2, 9_734, 1_208)?; 2];
    let mut list = OrderedList::new(&mut memory);
    list.add(TariffLine::new(3, 7, 2, 9_734, 1_208)?)?;
    let book = TableTariff::new(&list);
    let prices = Prices {
        energy: 9_734,
        delivery: 1_208,
    };
    assert_eq!(rt; book.prices(3, 7, 2), Some(prices));
    assert_eq!(rt; book.prices(7, 3, 2), None);
    Ok(())
}

#[test]
fn the_blended_book_recovers_the_expected_cost(rt: HostRuntime) -> Result<(), Fail> {
    let book = BlendedTariff::new(9_734, 2_550, 2_000)?;
    let prices = Prices {
        energy: 9_734,
        delivery: 1_275,
    };
    assert_eq!(rt; book.prices(99, 99, 99), Some(prices));
    assert!(rt; BlendedTariff::new(9_734, 1, 0).is_err());
    assert!(rt; BlendedTariff::new(9_734, 101, 1).is_err());
    Ok(())
}

#[test]
fn the_rate_book_answers_for_journeys_of_the_unit(rt: HostRuntime) -> Result<(), Fail> {
    let line = CategoryLine::new(
        390,
        Electricity::Ac,
        UnitKind::MultipleUnit,
        9_500,
        20_000,
        1_500,
    )?;
    let mut memory = [line; 1];
    let mut list = OrderedList::new(&mut memory);
    list.add(line)?;
    let book = RateInfill::new(&list, Speed::new(250)?);
    let values = SlotValues {
        consumption: 50_000,
        regeneration: 7_500,
    };
    assert_eq!(rt;
        book.values(MeteredKind::MultipleUnitJourney, 390, 7, 2),
        Some(values)
    );
    assert_eq!(rt; book.values(MeteredKind::HauledJourney, 390, 7, 2), None);
    assert_eq!(rt; book.values(MeteredKind::NonJourney, 390, 7, 2), None);
    Ok(())
}
