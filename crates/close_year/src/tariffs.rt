// Tariff books: a table of literal lines, and a blended price.
use amounts::Fault;
use books::{BlendedTariff, TableTariff, TariffBook};
use lines::{ListFault, OrderedList, TariffLine};
use std::io;

// What a book answers for an account in area 0 and band 1.
fn print_prices<T: TariffBook>(rt: &impl Print, book: &T, account: u8) -> io::Result<()> {
    match book.prices(account, 0, 1) {
        Some(prices) => println!(rt;
            "    account {account}: energy {}, delivery {}",
            prices.energy, prices.delivery
        ),
        None => println!(rt; "    account {account}: none"),
    }
}

// Two lines, and one whose key is there already.
fn fill(list: &mut OrderedList<TariffLine>) -> Result<(), ListFault> {
    list.add(TariffLine::new(2, 0, 1, 9_800, 1_150)?)?;
    list.add(TariffLine::new(1, 0, 1, 9_734, 1_208)?)?;
    list.add(TariffLine::new(2, 0, 1, 9_900, 1_100)?)
}

fn report_table(rt: &impl Print) -> io::Result<()> {
    let mut memory = [TariffLine::default(); 4];
    let mut list = OrderedList::new(&mut memory);
    let filled = fill(&mut list);
    println!(rt; "  a table of {} tariff lines answers", list.count())?;
    let book = TableTariff::new(&list);
    for account in 1..=3 {
        print_prices(rt, &book, account)?;
    }
    filled.or_else(|fault| println!(rt; "    account 2 again: {}", fault.refusal()))
}

fn report_blended(rt: &impl Print) -> io::Result<()> {
    println!(rt; "  a blended tariff of 2550 pence over 2000 kWh answers")?;
    match BlendedTariff::new(9_734, 2_550, 2_000) {
        Ok(book) => print_prices(rt, &book, 3),
        Err(fault) => println!(rt; "    the tariff: {}", fault.refusal()),
    }
}

pub(crate) fn report_tariffs(rt: &impl Print) -> io::Result<()> {
    println!(rt; "Prices in area 0 and band 1, in thousandths of a penny per kWh")?;
    report_table(rt)?;
    report_blended(rt)?;
    println!(rt)
}
