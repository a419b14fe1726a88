// Records with one byte or several changed, and the fault that the table has for each.
use crate::samples::{HAULED, MULTIPLE_UNIT, TRAIN_MILES, check_refused};
use records::read_record;

// A byte of a record that is changed, and the fault that follows.
#[derive(Clone, Copy)]
struct Change {
    offset: usize,
    byte: u8,
    number: u8,
    slot: Option<u8>,
}

const fn changed(offset: usize, byte: u8, number: u8, slot: Option<u8>) -> Change {
    Change {
        offset,
        byte,
        number,
        slot,
    }
}

fn next_after(number: u8) -> Option<usize> {
    (number != 2).then_some(32)
}

#[test]
fn one_byte_changed(rt: HostRuntime) {
    let changes = [
        changed(0, 12, 2, None),
        changed(0, 33, 2, None),
        changed(2, 0, 3, None),
        changed(2, 6, 3, None),
        changed(3, 9, 4, None),
        changed(3, 29, 4, None),
        changed(3, 15, 5, None),
        changed(13, 11, 5, None),
        changed(9, 0, 6, None),
        changed(9, 65, 6, None),
        changed(4, 64, 7, None),
        changed(5, 20, 7, None),
        changed(6, 0, 7, None),
        changed(6, 8, 7, None),
        changed(9, 3, 8, Some(3)),
        changed(9, 1, 8, Some(1)),
        changed(23, 31, 9, Some(1)),
        changed(27, 31, 9, Some(3)),
        changed(30, 40, 10, None),
        changed(31, 0, 10, None),
        changed(31, 5, 10, None),
    ];
    for change in &changes {
        let mut record = HAULED;
        assert!(rt; change.offset < 32);
        record[change.offset] = change.byte;
        check_refused(
            &rt,
            &record,
            change.number,
            change.slot,
            next_after(change.number),
        );
    }
}

// All is wrong at first: length, kind, map, a third bit in the slot map, quantity, account, slot 5 of four, the reading of slot 1, weight.
// It is mended in this order, which is the table's.
#[test]
fn the_first_fault_of_the_table(rt: HostRuntime) {
    let mut record: [u8; 32] = *b"\x0c\x00\x00\x1d\x40\x07\x03\x2c\x01\x00\x00\x00\x00\
        \x22\x01\x00\x00\x00\x00\x00\x00\
        \xe8\x03\x1f\x00\xd0\x07\x00\x00\
        \xf4\x28\x02";
    check_refused(&rt, &record, 2, None, None);
    let mended = [
        changed(0, 32, 3, None),
        changed(2, 2, 4, None),
        changed(3, 13, 5, None),
        changed(14, 0, 6, None),
        changed(9, 4, 7, None),
        changed(4, 5, 8, Some(5)),
        changed(13, 10, 9, Some(1)),
        changed(23, 0, 10, None),
    ];
    for change in &mended {
        assert!(rt; change.offset < 32);
        record[change.offset] = change.byte;
        check_refused(&rt, &record, change.number, change.slot, Some(32));
    }
    record[30] = 1;
    assert!(rt; read_record(&record, 0).is_ok());
}

// The lowest slot of either block, and slots out of range before readings too large.
#[test]
fn two_blocks(rt: HostRuntime) {
    let mut record = MULTIPLE_UNIT;
    record[21] = 129;
    check_refused(&rt, &record, 9, Some(2), Some(37));
    record[33] = 129;
    check_refused(&rt, &record, 9, Some(1), Some(37));
    record[9] = 2;
    check_refused(&rt, &record, 8, Some(2), Some(37));
    record[9] = 1;
    check_refused(&rt, &record, 8, Some(1), Some(37));
}

#[test]
fn largest_figures(rt: HostRuntime) {
    let mut hauled = HAULED;
    hauled[9] = 64;
    hauled[29] = 16;
    hauled[30] = 39;
    hauled[31] = 4;
    assert!(rt; read_record(&hauled, 0).is_ok());
    hauled[29] = 17;
    check_refused(&rt, &hauled, 10, None, Some(32));
    let mut modelled = TRAIN_MILES;
    modelled[9] = 128;
    modelled[10] = 150;
    modelled[11] = 152;
    assert!(rt; read_record(&modelled, 0).is_ok());
    modelled[9] = 129;
    check_refused(&rt, &modelled, 6, None, Some(13));
    modelled[2] = 5;
    assert!(rt; read_record(&modelled, 0).is_ok());
    modelled[3] = 1;
    check_refused(&rt, &modelled, 4, None, Some(13));
}
