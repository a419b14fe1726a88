// The parts of one sharing whose figures are within their limits.
ghost use Rattle.std.specs.Prelude.{◌≡◌, ◌≤◌, length, unsigned_abs};
ghost use Rattle.amounts.specs.Quotients.{with_sign};
ghost use Rattle.sharing.specs.Claims.{units};
ghost use Rattle.sharing.specs.Limits.{WithinLimits, max_amount};
ghost use Rattle.sharing.specs.Shares.{part, unshared, written};

use crate::checks::MAX_LINES;
use crate::claims::{Claim, NO_CLAIM, gets_extra};
use crate::shared::Shared;
use crate::weights::total_of;
use amounts::Divisor;

// `size` with the sign of `amount`. `as` loses nothing: the size is at most the largest amount.
fn with_sign(amount: i64, size: u64) -> i64
    requires { size ≤ max_amount }
    ensures { result ≡ with_sign amount size }
{
    if amount < 0 {
        -(size as i64)
    } else {
        size as i64
    }
}

// The part of the amount that the claim gets.
fn part_of(amount: i64, own: &Claim, claims: &[Claim], leftover: u64) -> i64
    requires { units own.now claims.now leftover ≤ max_amount }
    ensures { result ≡ with_sign amount (units own.now claims.now leftover) }
{
    let extra = u64::from(gets_extra(own, claims, leftover));
    with_sign(amount, own.quotient + extra)
}

// Shares `amount` into the first places, and answers what is not shared.
pub(crate) fn spread(amount: i64, weights: &[u64], parts: &mut [i64]) -> i64
    requires limits { WithinLimits weights.now }
    requires small { unsigned_abs amount ≤ max_amount }
    requires room { length weights.now ≤ length parts.old }
    ensures answer { result ≡ unshared amount weights.now }
    ensures after { parts.new ≡ written (part amount weights.now) (length weights.now) parts.old }
{
    let Some(total) = Divisor::new(total_of(weights)) else {
        parts[..weights.len()].fill(0);
        return amount;
    };
    let shared = Shared {
        size: amount.unsigned_abs(),
        weights,
        total,
    };
    // No heap: an array of the most lines, of which the first are used.
    let mut claims = [NO_CLAIM; MAX_LINES];
    shared.write_claims(&mut claims);
    let claims = &claims[..weights.len()];
    let leftover = shared.leftover(claims);
    // By its index: after a `zip` with `iter_mut` a proof knows nothing of what was written.
    for claim in claims {
        parts[claim.index] = part_of(amount, claim, claims, leftover);
    }
    0
}
