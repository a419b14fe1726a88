// Rounded quotients of numbers that are not negative.
ghost use Rattle.std.specs.Prelude.{◌≡◌, ◌≤◌};
ghost use Rattle.books.specs.Figures.{rounded_quotient, max_dividend};

use amounts::{Divisor, rounded};

// `as` loses nothing at these amounts; a `try_from` would have to say what an amount that never comes gives.
pub(crate) fn rounded_quotient(amount: u64, divisor: Divisor) -> u64
    requires { amount ≤ max_dividend }
    ensures { result ≡ rounded_quotient amount divisor.value }
{
    rounded(amount as i64, divisor).unsigned_abs()
}
