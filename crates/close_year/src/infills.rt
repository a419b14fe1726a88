// Infill books: a table of literal lines, and rates at one speed.
use amounts::Fault;
use books::{InfillBook, RateInfill, Speed, TableInfill};
use lines::{CategoryLine, Electricity, InfillLine, ListFault, MeteredKind, OrderedList, UnitKind};
use std::io;

// The kinds of metered record, in words.
const KINDS: [(&str, MeteredKind); 3] = [
    ("multiple-unit journey", MeteredKind::MultipleUnitJourney),
    ("hauled journey", MeteredKind::HauledJourney),
    ("non-journey", MeteredKind::NonJourney),
];

// What a book answers for category 7 in area 0 and band 1.
fn report_kinds<I: InfillBook>(rt: &impl Print, book: &I) -> io::Result<()> {
    for (what, kind) in KINDS {
        match book.values(kind, 7, 0, 1) {
            Some(values) => println!(rt;
                "    {what}: consumption {}, regeneration {}",
                values.consumption, values.regeneration
            )?,
            None => println!(rt; "    {what}: none")?,
        }
    }
    Ok(())
}

fn fill_values(list: &mut OrderedList<InfillLine>) -> Result<(), ListFault> {
    list.add(InfillLine::new(MeteredKind::NonJourney, 7, 0, 1, 900, 0)?)?;
    list.add(InfillLine::new(MeteredKind::MultipleUnitJourney, 7, 0, 1, 41_000, 6_200)?)?;
    list.add(InfillLine::new(MeteredKind::NonJourney, 8, 0, 1, 900, 1)?)
}

fn report_table(rt: &impl Print) -> io::Result<()> {
    let mut memory = [InfillLine::default(); 2];
    let mut list = OrderedList::new(&mut memory);
    let filled = fill_values(&mut list);
    println!(rt; "  a table of {} infill lines answers", list.count())?;
    report_kinds(rt, &TableInfill::new(&list))?;
    filled.or_else(|fault| println!(rt; "    a non-journey that regenerates: {}", fault.refusal()))
}

fn fill_categories(list: &mut OrderedList<CategoryLine>) -> Result<(), ListFault> {
    let unit = CategoryLine::new(
        7,
        Electricity::Ac,
        UnitKind::MultipleUnit,
        9_500,
        20_000,
        1_500,
    )?;
    list.add(unit)
}

fn report_rates(rt: &impl Print) -> io::Result<()> {
    let mut memory = [CategoryLine::default(); 1];
    let mut list = OrderedList::new(&mut memory);
    if let Err(fault) = fill_categories(&mut list) {
        return println!(rt; "  the category: {}", fault.refusal());
    }
    println!(rt; "  rates at 250 hundredths of a mile per slot answer")?;
    match Speed::new(250) {
        Ok(speed) => report_kinds(rt, &RateInfill::new(&list, speed)),
        Err(fault) => println!(rt; "    the speed: {}", fault.refusal()),
    }
}

pub(crate) fn report_infills(rt: &impl Print) -> io::Result<()> {
    println!(rt; "Values for a missing reading of category 7 in area 0 and band 1")?;
    report_table(rt)?;
    report_rates(rt)?;
    println!(rt)
}
