// Halves and quotients below zero.
use amounts::{Divisor, cut, rounded};
use std::test::Fail;

// amount, divisor, cut, rounded
const CASES: [(i64, u64, i64, i64); 10] = [
    (7, 2, 3, 4),
    (-7, 2, -3, -4),
    (5, 3, 1, 2),
    (-5, 3, -1, -2),
    (4, 3, 1, 1),
    (-4, 3, -1, -1),
    (0, 9, 0, 0),
    (-500_000, 1_000_000, 0, -1),
    (499_999, 1_000_000, 0, 0),
    (i64::MIN, 1, i64::MIN, i64::MIN),
];

#[test]
fn quotients_by_hand(rt: HostRuntime) -> Result<(), Fail> {
    for (amount, divisor, towards_zero, nearest) in CASES {
        let by = Divisor::new(divisor).ok_or_else(|| Fail::new("no divisor"))?;
        assert_eq!(rt; cut(amount, by), towards_zero);
        assert_eq!(rt; rounded(amount, by), nearest);
    }
    Ok(())
}

#[test]
fn divisors_have_a_range(rt: HostRuntime) {
    assert!(rt; Divisor::new(0).is_none());
    assert!(rt; Divisor::new(1_000_000_000_000).is_some());
    assert!(rt; Divisor::new(1_000_000_000_001).is_none());
}
