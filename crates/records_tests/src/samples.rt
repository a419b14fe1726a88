// Records written out by hand, and what a test expects of a refused one.
use amounts::{Fault, Layer, Refusal};
use records::read_record;
use std::process::Abort;

// A hauled journey of four slots: the head, a slot map with slots 1 and 3, their readings of 1,000 and 2,000 Wh, 500 tonnes and two locomotives.
pub(crate) const HAULED: [u8; 32] = *b"\x20\x00\x02\x0d\x05\x07\x03\x2c\x01\x04\x00\x00\x00\
    \x0a\x00\x00\x00\x00\x00\x00\x00\
    \xe8\x03\x00\x00\xd0\x07\x00\x00\
    \xf4\x01\x02";

// A multiple-unit journey of three slots: the head, consumption with the largest reading in slot 2, and regeneration with it in slot 1.
pub(crate) const MULTIPLE_UNIT: [u8; 37] = *b"\x25\x00\x01\x03\x3f\x13\x07\xff\xff\x03\x00\x00\x00\
    \x04\x00\x00\x00\x00\x00\x00\x00\x80\x84\x1e\x00\
    \x02\x00\x00\x00\x00\x00\x00\x00\x80\x84\x1e\x00";

// 1.50 train miles.
pub(crate) const TRAIN_MILES: [u8; 13] = *b"\x0d\x00\x04\x00\x01\x00\x01\x07\x00\x96\x00\x00\x00";

// The record at place 0 is refused by the fault with that number, slot and next place.
pub(crate) fn check_refused(
    rt: &impl Abort,
    batch: &[u8],
    number: u8,
    slot: Option<u8>,
    next: Option<usize>,
) {
    let expected = Refusal {
        number,
        layer: Layer::Record,
        place: 0,
        slot,
        next,
    };
    let refusal = read_record(batch, 0).err().map(|fault| fault.refusal());
    assert_eq!(rt; refusal, Some(expected));
}
