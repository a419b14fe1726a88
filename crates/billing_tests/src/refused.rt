// A batch of records that are refused, each by another fault, and one that is billed.
use crate::expected::{check_billed, check_refused};
use crate::tables::billed;
use amounts::{Fault, Layer, Refusal};
use billing::{Bill, LedgerFault, PostFault, Volume};
use records::RecordFault;
use std::test::Fail;

// In order: train miles of a category that has no line; train miles of hauled trains; a non-journey on DC in area 0, which has no such loss line;
// a journey of three slots in band 2, for which there are no infill values, with consumption in slots 0 and 1 and regeneration in slot 0;
// train miles of account 5, which has no prices; 10^9 gross tonne miles, which bill 12.5 × 10^9 Wh; and 1.50 train miles of account 1.
const BATCH: [u8; 119] = *b"\x0d\x00\x04\x00\x01\x03\x01\x63\x00\x96\x00\x00\x00\
    \x0d\x00\x04\x00\x01\x03\x01\x09\x00\x96\x00\x00\x00\
    \x0d\x00\x03\x00\x01\x00\x02\x09\x00\x01\x00\x00\x00\
    \x29\x00\x01\x03\x01\x00\x02\x07\x00\x03\x00\x00\x00\
    \x03\x00\x00\x00\x00\x00\x00\x00\x0a\x00\x00\x00\x0a\x00\x00\x00\
    \x01\x00\x00\x00\x00\x00\x00\x00\x0a\x00\x00\x00\
    \x0d\x00\x04\x00\x05\x03\x01\x07\x00\x96\x00\x00\x00\
    \x0d\x00\x05\x00\x02\x01\x03\x09\x00\x00\xca\x9a\x3b\
    \x0d\x00\x04\x00\x01\x03\x01\x07\x00\x96\x00\x00\x00";

fn refusal(number: u8, layer: Layer, place: usize, slot: Option<u8>, next: usize) -> Refusal {
    Refusal {
        number,
        layer,
        place,
        slot,
        next: Some(next),
    }
}

#[test]
fn by_a_book(rt: HostRuntime) -> Result<(), Fail> {
    check_refused(&rt, &BATCH, 0, refusal(11, Layer::Book, 0, None, 13))?;
    check_refused(&rt, &BATCH, 13, refusal(11, Layer::Book, 13, None, 26))?;
    check_refused(&rt, &BATCH, 26, refusal(12, Layer::Book, 26, None, 39))?;
    check_refused(&rt, &BATCH, 39, refusal(13, Layer::Book, 39, Some(1), 80))?;
    check_refused(&rt, &BATCH, 80, refusal(14, Layer::Book, 80, None, 93))
}

#[test]
fn by_the_ledger(rt: HostRuntime) -> Result<(), Fail> {
    check_refused(&rt, &BATCH, 93, refusal(15, Layer::Ledger, 93, None, 106))?;
    let sum = LedgerFault::SumBeyondLimit {
        place: 93,
        next: 106,
    };
    assert_eq!(rt; sum.refusal(), refusal(16, Layer::Ledger, 93, None, 106));
    let block = Refusal {
        number: 1,
        layer: Layer::Ledger,
        place: 0,
        slot: None,
        next: None,
    };
    assert_eq!(rt; LedgerFault::Block.refusal(), block);
    Ok(())
}

#[test]
fn after_refused_records(rt: HostRuntime) -> Result<(), Fail> {
    let bill = Bill {
        account: 1,
        area: 3,
        volume: Volume::Modelled { wh: 16_666 },
        energy: 83_330_000,
        delivery: 9_999_600,
        next: 119,
    };
    check_billed(&rt, &BATCH, 106, bill)?;
    let end = PostFault::Record(RecordFault::Incomplete { place: 119 });
    assert_eq!(rt; billed(&BATCH, 119)?, Err(end));
    assert_eq!(rt; end.refusal().number, 2);
    Ok(())
}
