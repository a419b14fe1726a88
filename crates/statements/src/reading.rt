// Reading a statement from a buffer.
ghost use Rattle.std.specs.Prelude.{◌≡◌, length, is_some, IfSome};
ghost use Rattle.amounts.specs.Ranges.{areas as area_count};
ghost use Rattle.statements.specs.Amounts.{amount_at};
ghost use Rattle.statements.specs.Layout.{area_at, areas_at, statement_at};
ghost use Rattle.statements.specs.Outcomes.{has_room, statement_read};

use crate::fault::ReadStatementFault;
use crate::statement::{AMOUNT_SIZE, AREA_COUNT, AREA_SIZE, AREAS_SIZE, AreaAmounts, Statement};
use amounts::account_exists;
use std::array;

// The amount of the 8 bytes.
fn read_amount(bytes: &[u8; AMOUNT_SIZE]) -> i64
    ensures { result ≡ amount_at bytes.now 0 }
{
    i64::from_le_bytes(*bytes)
}

// The area of the 64 bytes.
fn read_area(bytes: &[u8; AREA_SIZE]) -> AreaAmounts
    ensures { result ≡ area_at bytes.now 0 }
{
    let (amounts, _) = bytes.as_chunks::<AMOUNT_SIZE>();
    AreaAmounts::from(array::from_fn(|i| read_amount(&amounts[i])))
}

// The areas, one after another.
fn read_areas(bytes: &[u8; AREAS_SIZE]) -> [AreaAmounts; AREA_COUNT]
    ensures { result ≡ areas_at area_count bytes.now 0 }
{
    let (areas, _) = bytes.as_chunks::<AREA_SIZE>();
    array::from_fn(|i| read_area(&areas[i]))
}

// The account, the areas' bytes and the cost's bytes of the statement from the place on, unless the bytes are too few.
fn read_parts(buffer: &[u8], place: usize) -> Option<(u8, &[u8; AREAS_SIZE], &[u8; AMOUNT_SIZE])>
    ensures room { is_some result ≡ has_room (length buffer.now) place }
    ensures parts { IfSome result (λ p. record { account = p.0; areas = areas_at area_count p.1.now 0; cost = amount_at p.2.now 0 } ≡ statement_at buffer.now place) }
{
    let (account, rest) = buffer.get(place..)?.split_first()?;
    let (areas, rest) = rest.split_first_chunk::<AREAS_SIZE>()?;
    let cost = rest.first_chunk::<AMOUNT_SIZE>()?;
    Some((*account, areas, cost))
}

// Reads the statement of the 1,289 bytes from the place on. Amounts are read once the account is known to exist.
#[tactic(auto, unfolding(crate::specs::Outcomes::statement_read))]
pub fn read_statement(buffer: &[u8], place: usize) -> Result<Statement, ReadStatementFault>
    ensures answer { result ≡ statement_read buffer.now place }
{
    let (account, areas, cost) = read_parts(buffer, place).ok_or(ReadStatementFault::Incomplete)?;
    if !account_exists(account) {
        return Err(ReadStatementFault::NoSuchAccount);
    }
    Ok(Statement {
        account,
        areas: read_areas(areas),
        cost: read_amount(cost),
    })
}
