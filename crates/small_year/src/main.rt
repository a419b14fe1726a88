// A program that closes a small year, from opening to statements.
// A function prints a line or a table of its report; what is printed in several places has a Display.
#![tactic(auto)]

mod closed_year;
mod log;
mod statements_report;
mod year_data;

use closed_year::report_year;
use std::io;

fn main(rt: HostRuntime) -> io::Result<()> {
    report_year(&rt)
}
