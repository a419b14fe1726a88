// The tables and the books of every example.
use billing::{Bill, PostFault, Tables, bill_record};
use books::{TableInfill, TableTariff};
use lines::{
    CategoryLine, Electricity, InfillLine, ListFault, LossLine, MeteredKind, OrderedList,
    TariffLine, UnitKind,
};
use std::test::Fail;

// Category 7: multiple units. Category 9: hauled trains, at 12.5 Wh a gross tonne mile after the discount.
fn fill_categories(list: &mut OrderedList<CategoryLine>) -> Result<(), ListFault> {
    list.add(CategoryLine::new(
        7,
        Electricity::Ac,
        UnitKind::MultipleUnit,
        9_500,
        12_345,
        1_000,
    )?)?;
    list.add(CategoryLine::new(9, Electricity::Dc, UnitKind::Hauled, 11_950, 25_000, 5_000)?)
}

fn fill_losses(list: &mut OrderedList<LossLine>) -> Result<(), ListFault> {
    list.add(LossLine::new(0, Electricity::Ac, 400)?)?;
    list.add(LossLine::new(1, Electricity::Dc, 600)?)?;
    list.add(LossLine::new(2, Electricity::Ac, 0)?)
}

fn fill_prices(list: &mut OrderedList<TariffLine>) -> Result<(), ListFault> {
    list.add(TariffLine::new(1, 0, 1, 9_734, 1_208)?)?;
    list.add(TariffLine::new(1, 0, 2, 9_734, 1_208)?)?;
    list.add(TariffLine::new(1, 3, 1, 5_000, 600)?)?;
    list.add(TariffLine::new(2, 1, 3, 9_800, 1_150)?)?;
    list.add(TariffLine::new(63, 2, 7, 9_000, 1_000)?)
}

// There are none for band 2.
fn fill_values(list: &mut OrderedList<InfillLine>) -> Result<(), ListFault> {
    list.add(InfillLine::new(MeteredKind::MultipleUnitJourney, 7, 0, 1, 240, 15)?)?;
    list.add(InfillLine::new(MeteredKind::HauledJourney, 9, 1, 3, 602, 50)?)?;
    list.add(InfillLine::new(MeteredKind::NonJourney, 7, 0, 1, 900, 0)?)
}

// What the record at the place of the batch bills, or why it is refused.
pub(crate) fn billed(batch: &[u8], place: usize) -> Result<Result<Bill, PostFault>, Fail> {
    let mut category_memory = [CategoryLine::default(); 2];
    let mut loss_memory = [LossLine::default(); 3];
    let mut price_memory = [TariffLine::default(); 5];
    let mut value_memory = [InfillLine::default(); 3];
    let mut categories = OrderedList::new(&mut category_memory);
    let mut losses = OrderedList::new(&mut loss_memory);
    let mut prices = OrderedList::new(&mut price_memory);
    let mut values = OrderedList::new(&mut value_memory);
    fill_categories(&mut categories)?;
    fill_losses(&mut losses)?;
    fill_prices(&mut prices)?;
    fill_values(&mut values)?;
    let tariff = TableTariff::new(&prices);
    let infill = TableInfill::new(&values);
    let tables = Tables::new(&categories, &losses, &tariff, &infill);
    Ok(bill_record(&tables, batch, place))
}
