// The report on one supplier's bill: what was billed, shared and paid, account by account.
use crate::exact::ExactShare;
use crate::reconcile::{Reconciled, reconcile};
use amounts::{Divisor, Fault};
use sharing::{AccountQuantity, Pence};
use std::io;

pub(crate) struct SupplierBill {
    pub(crate) title: &'static str,
    pub(crate) cost: i64,
    pub(crate) billed: [AccountQuantity<Pence>; 2],
}

// One operator's line.
fn print_line(
    rt: &impl Print,
    sums: &Reconciled,
    bill: &AccountQuantity<Pence>,
    part: i64,
) -> io::Result<()> {
    let account = bill.account;
    let Pence(pence) = bill.quantity;
    let Some(divisor) = Divisor::new(sums.billed.unsigned_abs()) else {
        return println!(rt; "{account:>9}{pence:>9}   no bill takes part");
    };
    let Some(exact) = ExactShare::of(sums.discrepancy, pence.unsigned_abs(), divisor) else {
        return println!(rt; "{account:>9}{pence:>9}   beyond the limits of a share");
    };
    let odd = if exact.is_exceeded_by(part) {
        "yes"
    } else {
        "no"
    };
    let pays = pence.saturating_add(part);
    println!(rt; "{account:>9}{pence:>9}{part:>8}{odd:>11}{pays:>13}  {exact}")
}

// The head of the table.
fn print_head(rt: &impl Print, bill: &SupplierBill, sums: &Reconciled) -> io::Result<()> {
    let size = sums.discrepancy.unsigned_abs();
    let side = if sums.discrepancy < 0 {
        "over"
    } else {
        "short"
    };
    println!(rt; "{}", bill.title)?;
    println!(rt;
        "  supplier's bill {}, billed {}: {size} {side}",
        bill.cost, sums.billed
    )?;
    println!(rt; "  account   billed    part  odd penny  pays in all  exact proportion")
}

// Shares the discrepancy of one supplier's bill over two operators, and prints how.
pub(crate) fn report(rt: &impl Print, bill: &SupplierBill) -> io::Result<()> {
    let mut parts = [0; 2];
    let sums = match reconcile(bill.cost, &bill.billed, &mut parts) {
        Ok(sums) => sums,
        Err(fault) => return println!(rt; "{}: {}", bill.title, fault.refusal()),
    };
    print_head(rt, bill, &sums)?;
    for (line, part) in bill.billed.iter().zip(parts) {
        print_line(rt, &sums, line, part)?;
    }
    print_sum(rt, bill.cost, &sums, &parts)
}

// What all operators pay, held against the supplier's bill.
fn print_sum(rt: &impl Print, cost: i64, sums: &Reconciled, parts: &[i64]) -> io::Result<()> {
    let billed = sums.billed;
    let shared = parts
        .iter()
        .fold(0i64, |sum, part| sum.saturating_add(*part));
    let paid = billed.saturating_add(shared);
    let verdict = if paid == cost {
        "meets the supplier's bill to the penny"
    } else {
        "DOES NOT MEET the supplier's bill"
    };
    println!(rt; "  in all {billed} billed and {shared} adjusted: {paid} {verdict}")?;
    println!(rt)
}
