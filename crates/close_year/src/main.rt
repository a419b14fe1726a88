// The cost reconciliation of two operators in two areas, what books answer, and the records of a batch with their bills.
// A function prints a line or a table of its report; what is printed in several places has a Display.
#![tactic(auto)]

mod batch;
mod bills;
mod exact;
mod infills;
mod reconcile;
mod report;
mod sample;
mod tariffs;

use batch::report_batch;
use infills::report_infills;
use report::{SupplierBill, report};
use sample::report_sample;
use sharing::{AccountQuantity, Pence};
use std::{env, fs, io};
use tariffs::report_tariffs;

// What suppliers ask, and what the two operators were billed.
const SUPPLIER_BILLS: [SupplierBill; 3] = [
    SupplierBill {
        title: "Energy, over the network",
        cost: 27_500,
        billed: [
            AccountQuantity {
                account: 1,
                quantity: Pence(6_000),
            },
            AccountQuantity {
                account: 2,
                quantity: Pence(20_000),
            },
        ],
    },
    SupplierBill {
        title: "Delivery in area 0",
        cost: 5_950,
        billed: [
            AccountQuantity {
                account: 1,
                quantity: Pence(2_800),
            },
            AccountQuantity {
                account: 2,
                quantity: Pence(1_400),
            },
        ],
    },
    SupplierBill {
        title: "Delivery in area 1",
        cost: 1_750,
        billed: [
            AccountQuantity {
                account: 1,
                quantity: Pence(2_200),
            },
            AccountQuantity {
                account: 2,
                quantity: Pence(1_600),
            },
        ],
    },
];

// The batch in the file that the first argument names.
fn report_file(rt: &HostRuntime) -> io::Result<()> {
    let Some(path) = env::args(rt)?.nth(1) else {
        return println!(rt; "No batch: name a file of records.");
    };
    let batch = fs::read(rt, path.as_str())?;
    report_batch(rt, &batch)?;
    report_sample(rt, &batch)
}

fn main(rt: HostRuntime) -> io::Result<()> {
    for bill in &SUPPLIER_BILLS {
        report(&rt, bill)?;
    }
    report_tariffs(&rt)?;
    report_infills(&rt)?;
    report_file(&rt)
}
