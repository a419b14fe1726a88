// The statements of a settled year, read back and printed.
use amounts::Fault;
use ledger::{AccountRecord, Cell};
use statements::{STATEMENT_SIZE, Statement, read_statement};
use std::io;
use year::SettledYear;

// One account's year in area 0, from its statement.
fn print_statement(rt: &impl Print, statement: &Statement) -> io::Result<()> {
    let area = statement.areas[0];
    println!(rt;
        "{:>9}{:>9}{:>10}{:>10}{:>9}{:>10}{:>6}{:>10}{:>10}{:>6}",
        statement.account,
        area.metered,
        area.modelled,
        area.volume,
        area.energy,
        area.volume_energy,
        statement.cost,
        area.delivery,
        area.volume_delivery,
        area.cost
    )
}

// Writes the statement of each of the first accounts, reads it back and prints it.
pub(crate) fn report_statements(
    rt: &impl Print,
    year: &SettledYear,
    cells: &[Cell],
    accounts: &[AccountRecord],
) -> io::Result<()> {
    println!(rt;
        "  account  metered  modelled  adjusted   energy  adjusted  cost  delivery  adjusted  cost"
    )?;
    for account in 0..4 {
        let mut buffer = [0; STATEMENT_SIZE];
        if let Err(fault) = year.write_statement(cells, accounts, account, &mut buffer, 0) {
            return println!(rt; "  the statement: {}", fault.refusal());
        }
        if let Ok(statement) = read_statement(&buffer, 0) {
            print_statement(rt, &statement)?;
        }
    }
    Ok(())
}
