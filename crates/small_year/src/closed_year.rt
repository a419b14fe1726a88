// A small year, closed from opening to statements.
use crate::log::PostLog;
use crate::statements_report::report_statements;
use crate::year_data::{
    BATCH, ENERGY_COST, area_sheet, delivery_costs, fill_categories, fill_losses, fill_prices,
};
use amounts::Fault;
use billing::Tables;
use books::{InfillBook, TableInfill, TableTariff, TariffBook};
use closing::close;
use ledger::{AccountRecord, CELLS, Cell};
use lines::{CategoryLine, InfillLine, LossLine, OrderedList, TariffLine};
use reconciling::CostSheet;
use std::io;

fn print_log(rt: &impl Print, log: &PostLog) -> io::Result<()> {
    for refusal in log.refusals.iter().flatten() {
        println!(rt; "  the record at byte {}: {refusal}", refusal.place)?;
    }
    println!(rt;
        "  {} records accepted, {} refused",
        log.accepted, log.refused
    )
}

// Closes the year over the tables, and prints its log and its statements.
fn close_over<T: TariffBook, I: InfillBook>(
    rt: &impl Print,
    tables: &Tables<T, I>,
) -> io::Result<()> {
    let mut cells = [Cell::default(); CELLS];
    let mut accounts = [AccountRecord::default(); 64];
    let mut log = PostLog::default();
    let costs = CostSheet {
        delivery: &delivery_costs(),
        energy: ENERGY_COST,
    };
    let closed = close(
        &mut cells,
        &mut accounts,
        tables,
        &BATCH,
        &area_sheet(),
        &costs,
        &mut log,
    );
    print_log(rt, &log)?;
    match closed {
        Ok(year) => report_statements(rt, &year, &cells, &accounts),
        Err(fault) => println!(rt; "  the year: {}", fault.refusal()),
    }
}

// Fills the tables and closes the year over them. No reading is missing, so the infill table is empty.
pub(crate) fn report_year(rt: &impl Print) -> io::Result<()> {
    println!(rt; "A year over a batch of {} bytes, area 0", BATCH.len())?;
    let mut category_memory = [CategoryLine::default(); 1];
    let mut loss_memory = [LossLine::default(); 1];
    let mut price_memory = [TariffLine::default(); 3];
    let mut value_memory = [InfillLine::default(); 1];
    let mut categories = OrderedList::new(&mut category_memory);
    let mut losses = OrderedList::new(&mut loss_memory);
    let mut prices = OrderedList::new(&mut price_memory);
    let values = OrderedList::new(&mut value_memory);
    let filled = [
        ("categories", fill_categories(&mut categories)),
        ("losses", fill_losses(&mut losses)),
        ("prices", fill_prices(&mut prices)),
    ];
    for (what, filled) in filled {
        if let Err(fault) = filled {
            return println!(rt; "{what}: {}", fault.refusal());
        }
    }
    let tariff = TableTariff::new(&prices);
    let infill = TableInfill::new(&values);
    close_over(rt, &Tables::new(&categories, &losses, &tariff, &infill))
}
