// The exact proportion of an amount, to be printed: whole units, and what remains over the total weight.
ghost use Rattle.std.specs.Prelude.{◌≡◌, ◌+◌, ◌*◌, ◌<◌, pos, IfSome, Some, int_lt, nat_lt, unsigned_abs};
ghost use Rattle.close_year.specs.Exact.{exact_text};

use amounts::Divisor;
use std::fmt;

// The amount gives the sign, which a quotient of zero has not.
#[derive(Clone, Copy)]
pub(crate) struct ExactShare {
    pub(crate) amount: i64,
    pub(crate) quotient: u64,
    pub(crate) remainder: u64,
    pub(crate) total: u64,
}

impl ExactShare {
    // `amount` times `weight` over `total`, if the product fits.
    pub(crate) fn of(amount: i64, weight: u64, total: Divisor) -> Option<ExactShare>
        ensures { IfSome result (λ s. (s.quotient * total.value + s.remainder ≡ unsigned_abs amount * weight) × (s.remainder < total.value) × (s.total ≡ total.value) × (s.amount ≡ amount)) }
    {
        let product = amount.unsigned_abs().checked_mul(weight)?;
        let divisor = total.get();
        Some(ExactShare {
            amount,
            quotient: product / divisor,
            remainder: product % divisor,
            total: divisor,
        })
    }

    fn is_negative(&self) -> bool
        ensures { result ≡ int_lt self.now.amount (pos 0) }
    {
        self.amount < 0
    }

    // Whether a part has more than the whole units.
    pub(crate) fn is_exceeded_by(&self, part: i64) -> bool
        ensures { result ≡ nat_lt self.now.quotient (unsigned_abs part) }
    {
        part.unsigned_abs() > self.quotient
    }
}

impl fmt::Display for ExactShare {
    ghost output = { λ share. Some (exact_text share) };

    fn fmt<W: fmt::Write>(&self, f: &mut fmt::Formatter<W>) -> fmt::Result {
        let sign = if self.is_negative() { "-" } else { "" };
        write!(
            f,
            "{sign}{} {}/{}",
            self.quotient, self.remainder, self.total
        )
    }
}
