// Literal tables for the batch: two categories, losses, prices and infill values.
use crate::bills::report_bills;
use amounts::Fault;
use billing::Tables;
use books::{TableInfill, TableTariff};
use lines::{
    CategoryLine, Electricity, InfillLine, ListFault, LossLine, MeteredKind, OrderedList,
    TariffLine, UnitKind,
};
use std::io;

fn fill_categories(list: &mut OrderedList<CategoryLine>) -> Result<(), ListFault> {
    let unit = CategoryLine::new(
        7,
        Electricity::Ac,
        UnitKind::MultipleUnit,
        9_500,
        20_000,
        1_500,
    )?;
    list.add(unit)?;
    let train = CategoryLine::new(9, Electricity::Dc, UnitKind::Hauled, 10_000, 15_000, 0)?;
    list.add(train)
}

fn fill_losses(list: &mut OrderedList<LossLine>) -> Result<(), ListFault> {
    list.add(LossLine::new(0, Electricity::Ac, 400)?)?;
    list.add(LossLine::new(1, Electricity::Dc, 600)?)
}

fn fill_prices(list: &mut OrderedList<TariffLine>) -> Result<(), ListFault> {
    list.add(TariffLine::new(1, 0, 1, 9_734, 1_208)?)?;
    list.add(TariffLine::new(2, 1, 3, 9_800, 1_150)?)?;
    list.add(TariffLine::new(3, 3, 3, 5_000, 600)?)?;
    list.add(TariffLine::new(63, 4, 2, 9_000, 1_000)?)
}

fn fill_values(list: &mut OrderedList<InfillLine>) -> Result<(), ListFault> {
    list.add(InfillLine::new(MeteredKind::MultipleUnitJourney, 7, 0, 1, 240, 15)?)?;
    list.add(InfillLine::new(MeteredKind::HauledJourney, 9, 1, 3, 600, 50)?)?;
    list.add(InfillLine::new(MeteredKind::NonJourney, 7, 0, 1, 900, 0)?)
}

// Bills the batch by these tables.
pub(crate) fn report_sample(rt: &impl Print, batch: &[u8]) -> io::Result<()> {
    let mut category_memory = [CategoryLine::default(); 4];
    let mut loss_memory = [LossLine::default(); 4];
    let mut price_memory = [TariffLine::default(); 4];
    let mut value_memory = [InfillLine::default(); 4];
    let mut categories = OrderedList::new(&mut category_memory);
    let mut losses = OrderedList::new(&mut loss_memory);
    let mut prices = OrderedList::new(&mut price_memory);
    let mut values = OrderedList::new(&mut value_memory);
    let filled = [
        ("categories", fill_categories(&mut categories)),
        ("losses", fill_losses(&mut losses)),
        ("prices", fill_prices(&mut prices)),
        ("values", fill_values(&mut values)),
    ];
    for (what, filled) in filled {
        if let Err(fault) = filled {
            return println!(rt; "{what}: {}", fault.refusal());
        }
    }
    let tariff = TableTariff::new(&prices);
    let infill = TableInfill::new(&values);
    let tables = Tables::new(&categories, &losses, &tariff, &infill);
    report_bills(rt, &tables, batch)
}
