// Sharings worked out by hand, into places that held something.
use crate::line::line;
use crate::own_line::Line;
use sharing::{Kwh, share};

#[test]
fn by_weight(rt: HostRuntime) {
    let mut parts = [9; 3];
    assert_eq!(rt;
        share(1500, &[line(Kwh(6000), 1), line(Kwh(20000), 2)], &mut parts),
        Ok(0)
    );
    assert_eq!(rt; parts, [346, 1154, 9]);
    assert_eq!(rt;
        share(
            -2050,
            &[line(Kwh(2200), 0), line(Kwh(1600), 63)],
            &mut parts
        ),
        Ok(0)
    );
    assert_eq!(rt; parts, [-1187, -863, 9]);
}

#[test]
fn lines_of_another_type(rt: HostRuntime) {
    let mut parts = [9; 3];
    assert_eq!(rt;
        share(1500, &[Line(6000, 1), Line(20000, 2)], &mut parts),
        Ok(0)
    );
    assert_eq!(rt; parts, [346, 1154, 9]);
    assert_eq!(rt; share(7, &[Line(-3, 3), Line(0, 5)], &mut parts), Ok(7));
    assert_eq!(rt; parts, [0, 0, 9]);
}

#[test]
fn the_smaller_account_gets_the_odd_unit(rt: HostRuntime) {
    let mut parts = [9; 3];
    assert_eq!(rt;
        share(
            2,
            &[line(Kwh(1), 3), line(Kwh(1), 5), line(Kwh(1), 7)],
            &mut parts
        ),
        Ok(0)
    );
    assert_eq!(rt; parts, [1, 1, 0]);
    assert_eq!(rt;
        share(
            -1,
            &[line(Kwh(-5), 3), line(Kwh(1), 5), line(Kwh(1), 7)],
            &mut parts
        ),
        Ok(0)
    );
    assert_eq!(rt; parts, [0, -1, 0]);
}

#[test]
fn the_larger_remainder_comes_before_the_smaller_account(rt: HostRuntime) {
    let mut parts = [9; 3];
    assert_eq!(rt;
        share(
            10,
            &[line(Kwh(1), 1), line(Kwh(2), 2), line(Kwh(4), 3)],
            &mut parts
        ),
        Ok(0)
    );
    assert_eq!(rt; parts, [1, 3, 6]);
}

#[test]
fn nobody_takes_part(rt: HostRuntime) {
    let mut parts = [9; 3];
    assert_eq!(rt;
        share(7, &[line(Kwh(-3), 3), line(Kwh(0), 5)], &mut parts),
        Ok(7)
    );
    assert_eq!(rt; parts, [0, 0, 9]);
}
