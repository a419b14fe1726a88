// Metered records: readings, missing readings filled, and a net below zero.
use crate::expected::check_billed;
use billing::{Bill, Volume};
use std::test::Fail;

// A multiple-unit journey of two slots in band 2, for which the infill book has no values: consumption of 0 and 1,245, regeneration of 0 and 12.
// 1,233 × 9,500 × 10,400 ÷ 10^8 is 1,218.204.
#[test]
fn a_reading_of_0_is_a_reading(rt: HostRuntime) -> Result<(), Fail> {
    let record = b"\x2d\x00\x01\x03\x01\x00\x02\x07\x00\x02\x00\x00\x00\
        \x03\x00\x00\x00\x00\x00\x00\x00\x00\x00\x00\x00\xdd\x04\x00\x00\
        \x03\x00\x00\x00\x00\x00\x00\x00\x00\x00\x00\x00\x0c\x00\x00\x00";
    let bill = Bill {
        account: 1,
        area: 0,
        volume: Volume::Metered {
            net: 1_233,
            wh: 1_218,
        },
        energy: 11_856_012,
        delivery: 1_471_344,
        next: 45,
    };
    check_billed(&rt, record, 0, bill)
}

// Three slots, of which slot 1 has a reading of 1,000 and none has regeneration: 1,000 + 2 × 240 − 3 × 15.
// 1,435 × 9,500 × 10,400 ÷ 10^8 is 1,417.78.
#[test]
fn a_multiple_unit_journey_filled(rt: HostRuntime) -> Result<(), Fail> {
    let record = b"\x19\x00\x01\x01\x01\x00\x01\x07\x00\x03\x00\x00\x00\
        \x02\x00\x00\x00\x00\x00\x00\x00\xe8\x03\x00\x00";
    let bill = Bill {
        account: 1,
        area: 0,
        volume: Volume::Metered {
            net: 1_435,
            wh: 1_418,
        },
        energy: 13_802_812,
        delivery: 1_712_944,
        next: 25,
    };
    check_billed(&rt, record, 0, bill)
}

// Four slots, 500 tonnes and two locomotives, readings of 1,000 and 2,000 in slots 1 and 3.
// A slot's values are 602 × 500 ÷ 2,000 = 150.5, so 151, and 50 × 500 ÷ 2,000 = 12.5, so 13: 3,000 + 2 × 151 − 4 × 13.
// 3,250 × 11,950 × 10,600 ÷ 10^8 is 4,116.775.
#[test]
fn a_hauled_journey_filled(rt: HostRuntime) -> Result<(), Fail> {
    let record = b"\x20\x00\x02\x0d\x02\x01\x03\x09\x00\x04\x00\x00\x00\
        \x0a\x00\x00\x00\x00\x00\x00\x00\xe8\x03\x00\x00\xd0\x07\x00\x00\
        \xf4\x01\x02";
    let bill = Bill {
        account: 2,
        area: 1,
        volume: Volume::Metered {
            net: 3_250,
            wh: 4_117,
        },
        energy: 40_346_600,
        delivery: 4_734_550,
        next: 32,
    };
    check_billed(&rt, record, 0, bill)
}

// 1,000 × 9,500 × 10,400 ÷ 10^8 is 988.
fn bill_of_1_000(next: usize) -> Bill {
    Bill {
        account: 1,
        area: 0,
        volume: Volume::Metered {
            net: 1_000,
            wh: 988,
        },
        energy: 9_617_192,
        delivery: 1_193_504,
        next,
    }
}

// Two slots with a reading of 100 in slot 0: 100 + 900.
// Then one slot of 1,000 in band 2, whose missing regeneration asks no book.
#[test]
fn non_journeys(rt: HostRuntime) -> Result<(), Fail> {
    let filled = b"\x19\x00\x03\x01\x01\x00\x01\x07\x00\x02\x00\x00\x00\
        \x01\x00\x00\x00\x00\x00\x00\x00\x64\x00\x00\x00";
    check_billed(&rt, filled, 0, bill_of_1_000(25))?;
    let not_asked = b"\x19\x00\x03\x01\x01\x00\x02\x07\x00\x01\x00\x00\x00\
        \x01\x00\x00\x00\x00\x00\x00\x00\xe8\x03\x00\x00";
    check_billed(&rt, not_asked, 0, bill_of_1_000(25))
}

// Consumption of 20 and regeneration of 30 in one slot: −10 × 9,500 × 10,000 ÷ 10^8 is −9.5, rounded away from zero.
#[test]
fn a_net_below_zero(rt: HostRuntime) -> Result<(), Fail> {
    let record = b"\x25\x00\x01\x03\x3f\x02\x07\x07\x00\x01\x00\x00\x00\
        \x01\x00\x00\x00\x00\x00\x00\x00\x14\x00\x00\x00\
        \x01\x00\x00\x00\x00\x00\x00\x00\x1e\x00\x00\x00";
    let bill = Bill {
        account: 63,
        area: 2,
        volume: Volume::Metered { net: -10, wh: -10 },
        energy: -90_000,
        delivery: -10_000,
        next: 37,
    };
    check_billed(&rt, record, 0, bill)
}
