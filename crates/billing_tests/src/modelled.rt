// Modelled records, and the most that a record may bill.
use crate::expected::{check_billed, check_refused};
use amounts::{Layer, Refusal};
use billing::{Bill, Volume};
use std::test::Fail;

// 1.50 train miles in area 3, which has no loss line: 12,345 × 150 × 9,000 ÷ 10^6 is 16,665.75.
#[test]
fn train_miles(rt: HostRuntime) -> Result<(), Fail> {
    let record = b"\x0d\x00\x04\x00\x01\x03\x01\x07\x00\x96\x00\x00\x00";
    let bill = Bill {
        account: 1,
        area: 3,
        volume: Volume::Modelled { wh: 16_666 },
        energy: 83_330_000,
        delivery: 9_999_600,
        next: 13,
    };
    check_billed(&rt, record, 0, bill)
}

// 1,003 gross tonne miles: 25,000 × 1,003 × 5,000 ÷ 10^7 is 12,537.5.
#[test]
fn gross_tonne_miles(rt: HostRuntime) -> Result<(), Fail> {
    let record = b"\x0d\x00\x05\x00\x02\x01\x03\x09\x00\xeb\x03\x00\x00";
    let bill = Bill {
        account: 2,
        area: 1,
        volume: Volume::Modelled { wh: 12_538 },
        energy: 122_872_400,
        delivery: 14_418_700,
        next: 13,
    };
    check_billed(&rt, record, 0, bill)
}

// 160,000,000 gross tonne miles bill 2 × 10^9 Wh, and one more is too many.
#[test]
fn the_limit_itself_is_billed(rt: HostRuntime) -> Result<(), Fail> {
    let mut record = *b"\x0d\x00\x05\x00\x02\x01\x03\x09\x00\x00\x68\x89\x09";
    let bill = Bill {
        account: 2,
        area: 1,
        volume: Volume::Modelled { wh: 2_000_000_000 },
        energy: 19_600_000_000_000,
        delivery: 2_300_000_000_000,
        next: 13,
    };
    check_billed(&rt, &record, 0, bill)?;
    record[9] = 1;
    let refusal = Refusal {
        number: 15,
        layer: Layer::Ledger,
        place: 0,
        slot: None,
        next: Some(13),
    };
    check_refused(&rt, &record, 0, refusal)
}
