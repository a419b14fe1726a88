// The bills of a batch, over tables of literal lines.
ghost use Rattle.std.specs.Prelude.{length, IfOk};
ghost use Rattle.records.specs.Laws.{Ahead};

use amounts::{Divisor, Fault, rounded};
use billing::{Bill, Tables, Volume, bill_record};
use books::{InfillBook, TariffBook};
use std::{fmt, io};

// A volume in words: net and billed Wh.
#[derive(Clone, Copy)]
struct Billed(Volume);

impl fmt::Display for Billed {
    fn fmt<W: fmt::Write>(&self, f: &mut fmt::Formatter<W>) -> fmt::Result {
        match self.0 {
            Volume::Metered { net, wh } => write!(f, "metered, net {net} Wh, billed {wh} Wh"),
            Volume::Modelled { wh } => write!(f, "modelled, billed {wh} Wh"),
        }
    }
}

// The volume, and the charges in pence.
fn print_bill(rt: &impl Print, place: usize, bill: Bill) -> io::Result<()> {
    println!(rt;
        "  byte {place}: account {}, area {}, {}, energy {}, delivery {} pence",
        bill.account,
        bill.area,
        Billed(bill.volume),
        rounded(bill.energy, Divisor::MILLIONTHS),
        rounded(bill.delivery, Divisor::MILLIONTHS)
    )
}

// Bills the record at the place, and answers where the next one begins, if it can be found.
fn report_bill<T: TariffBook, I: InfillBook>(
    rt: &impl Print,
    tables: &Tables<T, I>,
    batch: &[u8],
    place: usize,
) -> io::Result<Option<usize>>
    ensures { IfOk result (λ next. Ahead (length batch.now) place next) }
{
    match bill_record(tables, batch, place) {
        Ok(bill) => {
            print_bill(rt, place, bill)?;
            Ok(Some(bill.next))
        }
        Err(fault) => {
            let refusal = fault.refusal();
            println!(rt; "  byte {place}: {refusal}")?;
            Ok(refusal.next)
        }
    }
}

// Bills every record, and goes on after a refusal as the reader says.
pub(crate) fn report_bills<T: TariffBook, I: InfillBook>(
    rt: &impl Print,
    tables: &Tables<T, I>,
    batch: &[u8],
) -> io::Result<()> {
    println!(rt; "The bills of the batch")?;
    let mut place = 0;
    while place < batch.len() {
        let Some(next) = report_bill(rt, tables, batch, place)? else {
            break;
        };
        place = next;
    }
    Ok(())
}
