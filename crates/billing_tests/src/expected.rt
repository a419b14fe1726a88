// What an example expects of a bill or of a refusal.
use crate::tables::billed;
use amounts::{Fault, Refusal};
use billing::Bill;
use std::process::Abort;
use std::test::Fail;

// The record at the place bills this.
pub(crate) fn check_billed(
    rt: &impl Abort,
    batch: &[u8],
    place: usize,
    expected: Bill,
) -> Result<(), Fail> {
    assert_eq!(rt; billed(batch, place)?, Ok(expected));
    Ok(())
}

// The record at the place is refused by this.
pub(crate) fn check_refused(
    rt: &impl Abort,
    batch: &[u8],
    place: usize,
    expected: Refusal,
) -> Result<(), Fail> {
    let answer = billed(batch, place)?.map_err(|fault| fault.refusal());
    assert_eq!(rt; answer, Err(expected));
    Ok(())
}
