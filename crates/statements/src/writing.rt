// Writing a statement into a lent buffer. A tail is what is left of the buffer from some place on.
// Tails are passed on, since the buffer is lent: each function says how long its tail is.
ghost use Rattle.std.specs.Prelude.{◌≡◌, ◌<◌, ◌≤◌, false, pos, slice_index_or, ◌∷◌, ◌++◌, map, length, drop, is_ok, Ok, OnOk};
ghost use Rattle.std.specs.List.{flat_map, AllByRecursion};
ghost use Rattle.amounts.specs.Ranges.{areas as area_count};
ghost use Rattle.statements.specs.Amounts.{amount_bytes};
ghost use Rattle.statements.specs.Layout.{amounts_of, no_amounts, area_bytes, statement_bytes, statement_size};
ghost use Rattle.statements.specs.Outcomes.{write_outcome, buffer_after, SameOutside, statement_read};
ghost use Rattle.statements.specs.Fits.{AreaFits, StatementFits};

use crate::fault::StatementFault;
use crate::statement::{
    AMOUNT_SIZE, AREA_AMOUNTS, AREA_COUNT, AREAS_OFFSET, AREAS_SIZE, AreaAmounts, COST_OFFSET,
    Statement, has_room,
};
use amounts::account_exists;
use std::array;

// The bytes of the amount.
fn bytes_of(amount: i64) -> [u8; AMOUNT_SIZE]
    ensures { result ≡ amount_bytes amount }
{
    amount.to_le_bytes()
}

// The bytes of each amount of the area. By index, since `map` moves each item of an array through an Option; and the
// closure has clauses, since a proof knows nothing else of one that gives an array.
fn area_bytes_of(area: &AreaAmounts) -> [[u8; AMOUNT_SIZE]; AREA_AMOUNTS]
    ensures bytes { result ≡ map amount_bytes (amounts_of area.now) }
    ensures fits { AreaFits area.now }
{
    let amounts = <[i64; AREA_AMOUNTS]>::from(*area);
    array::from_fn(
        |i|
            requires { i < 8 }
            ensures { result ≡ amount_bytes (slice_index_or amounts i (pos 0)) }
        { bytes_of(amounts[i]) },
    )
}

// Writes the areas one after another, from the front of the tail on.
fn write_areas(tail: &mut [u8], areas: &[AreaAmounts; AREA_COUNT])
    requires { 1280 ≤ length tail.old }
    ensures after { tail.new ≡ flat_map area_bytes areas.now ++ drop 1280 tail.old }
    ensures fits { AllByRecursion AreaFits areas.now }
{
    let bytes: [_; AREA_COUNT] = array::from_fn(
        |i|
            requires { i < area_count }
            ensures bytes { result ≡ map amount_bytes (amounts_of (slice_index_or areas.entry.now i no_amounts)) }
            ensures fits { AreaFits (slice_index_or areas.entry.now i no_amounts) }
        { area_bytes_of(&areas[i]) },
    );
    tail[0..AREAS_SIZE].copy_from_slice(bytes.as_flattened().as_flattened());
}

// Writes the account, which heads a statement, into the first byte of the tail.
fn write_account(tail: &mut [u8], account: u8)
    requires { 1 ≤ length tail.old }
    ensures { tail.new ≡ account ∷ drop 1 tail.old }
{
    tail[0] = account;
}

// Writes the amount into the first 8 bytes of the tail.
fn write_amount(tail: &mut [u8], amount: i64)
    requires { 8 ≤ length tail.old }
    ensures { tail.new ≡ amount_bytes amount ++ drop 8 tail.old }
{
    tail[0..AMOUNT_SIZE].copy_from_slice(&bytes_of(amount));
}

// Writes account, areas and energy cost adjustment, each into the tail that begins at its offset.
fn write_parts(tail: &mut [u8], statement: &Statement)
    requires { statement_size ≤ length tail.old }
    ensures after { tail.new ≡ statement_bytes statement.now ++ drop statement_size tail.old }
    ensures fits { StatementFits statement.now }
{
    write_account(tail, statement.account);
    write_areas(&mut tail[AREAS_OFFSET..], &statement.areas);
    write_amount(&mut tail[COST_OFFSET..], statement.cost);
}

// Writes the statement into the 1,289 bytes of the buffer from the place on.
pub fn write_statement(
    buffer: &mut [u8],
    place: usize,
    statement: &Statement,
) -> Result<(), StatementFault>
    ensures answer { result ≡ write_outcome statement.now (length buffer.old) place }
    ensures after { buffer.new ≡ buffer_after statement.now buffer.old place }
    ensures read_back { OnOk result (statement_read buffer.new place ≡ Ok statement.now) }
    ensures outside { SameOutside place buffer.old buffer.new }
    ensures refused { is_ok result ≡ false → buffer.new ≡ buffer.old }
{
    if !account_exists(statement.account) {
        return Err(StatementFault::NoSuchAccount);
    }
    if !has_room(buffer.len(), place) {
        return Err(StatementFault::TooFewBytes);
    }
    write_parts(&mut buffer[place..], statement);
    Ok(())
}
