// Records that are accepted, and what they say. A `let else` takes a record out of three layers at once.
use crate::samples::{HAULED, MULTIPLE_UNIT, TRAIN_MILES};
use records::{Billing, MeteredLeg, Modelled, ModelledQuantity, Record, read_record};
use std::test::Fail;

#[test]
fn hauled_journey(rt: HostRuntime) -> Result<(), Fail> {
    let Ok(Some((Record::Metered(record), next))) = read_record(&HAULED, 0) else {
        return Err(Fail::new("not metered"));
    };
    assert_eq!(rt; next, 32);
    let billing = Billing {
        account: 5,
        area: 7,
        band: 3,
        category: 300,
    };
    assert_eq!(rt; record.billing, billing);
    let leg = MeteredLeg::Hauled {
        weight: 500,
        locomotives: 2,
    };
    assert_eq!(rt; record.leg, leg);
    assert_eq!(rt; record.slots, 4);
    assert_eq!(rt; record.regeneration, None);
    let block = record
        .consumption
        .ok_or_else(|| Fail::new("no consumption"))?;
    assert_eq!(rt; block.place(), 13);
    assert_eq!(rt; block.count(), 2);
    assert_eq!(rt; block.total(), 3_000);
    assert_eq!(rt; block.reading(0), None);
    assert_eq!(rt; block.reading(1), Some(1_000));
    assert_eq!(rt; block.reading(3), Some(2_000));
    assert!(rt; !block.has_reading(2) && block.has_reading(3));
    Ok(())
}

#[test]
fn two_blocks_with_the_largest_reading(rt: HostRuntime) -> Result<(), Fail> {
    let Ok(Some((Record::Metered(record), _))) = read_record(&MULTIPLE_UNIT, 0) else {
        return Err(Fail::new("not metered"));
    };
    let block = record
        .regeneration
        .ok_or_else(|| Fail::new("no regeneration"))?;
    assert_eq!(rt; block.place(), 25);
    assert_eq!(rt; block.reading(1), Some(2_000_000));
    Ok(())
}

#[test]
fn train_miles(rt: HostRuntime) {
    let billing = Billing {
        account: 1,
        area: 0,
        band: 1,
        category: 7,
    };
    let record = Record::Modelled(Modelled {
        billing,
        quantity: ModelledQuantity::TrainMiles(150),
    });
    assert_eq!(rt; read_record(&TRAIN_MILES, 0), Ok(Some((record, 13))));
}
