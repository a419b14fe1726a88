// Batches of several records, and places at and beyond their end.
use crate::samples::TRAIN_MILES;
use amounts::Fault;
use records::{RecordFault, read_record, records};

// Train miles, a record of the unknown kind 9, gross tonne miles, and a byte that is left over.
const BATCH: [u8; 40] = *b"\x0d\x00\x04\x00\x01\x00\x01\x07\x00\x96\x00\x00\x00\
    \x0d\x00\x09\x00\x01\x00\x01\x07\x00\x96\x00\x00\x00\
    \x0d\x00\x05\x00\x01\x00\x01\x07\x00\x96\x00\x00\x00\
    \x0d";

#[test]
fn goes_on_after_a_refused_record(rt: HostRuntime) {
    let accepted = records(&BATCH).filter(|record| record.is_ok()).count();
    let refused = records(&BATCH).filter(|record| record.is_err()).count();
    assert_eq!(rt; accepted, 2);
    assert_eq!(rt; refused, 2);
}

#[test]
fn places(rt: HostRuntime) {
    assert_eq!(rt; read_record(&TRAIN_MILES, 13), Ok(None));
    let beyond = RecordFault::Incomplete { place: 14 };
    assert_eq!(rt; read_record(&TRAIN_MILES, 14), Err(beyond));
    let unknown = RecordFault::UnknownKind {
        place: 13,
        next: 26,
    };
    assert_eq!(rt; read_record(&BATCH, 13), Err(unknown));
    let cut = RecordFault::Incomplete { place: 39 };
    assert_eq!(rt; read_record(&BATCH, 39), Err(cut));
    assert_eq!(rt; cut.refusal().next, None);
}
