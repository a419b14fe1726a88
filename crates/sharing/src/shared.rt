// What is shared: the size of an amount, among weights within their limits that have a total.
ghost use Rattle.std.specs.Prelude.{◌≡◌, ◌≤◌, length, take};
ghost use Rattle.sharing.specs.Claims.{claim_at, claims_of};
ghost use Rattle.sharing.specs.Limits.{WithinLimits, max_amount};
ghost use Rattle.sharing.specs.Shares.{leftover, total_weight};

use crate::claims::{Claim, claimed};
use amounts::Divisor;

#[derive(Clone, Copy)]
pub(crate) struct Shared<'w> {
    pub(crate) size: u64,
    pub(crate) weights: &'w [u64],
    pub(crate) total: Divisor,
    ghost limits: { WithinLimits weights.now },
    ghost small: { size ≤ max_amount },
    ghost whole: { total.value ≡ total_weight weights.now },
}

impl<'w> Shared<'w> {
    // The claim of the line at `index`; past the lines it has no weight.
    fn claim_at(&self, index: usize) -> Claim
        ensures { result ≡ claim_at self.now.size self.now.weights.now index }
    {
        let weight = self.weights.get(index).copied().unwrap_or(0);
        let product = self.size * weight;
        Claim {
            index,
            weight,
            quotient: product / self.total.get(),
            remainder: product % self.total.get(),
        }
    }

    // Writes the claim of each line into the first places.
    pub(crate) fn write_claims(&self, claims: &mut [Claim])
        requires { length self.now.weights.now ≤ length claims.old }
        ensures { take (length self.now.weights.now) claims.new ≡ claims_of self.now.size self.now.weights.now (length self.now.weights.now) }
    {
        let count = self.weights.len();
        for (index, claim) in claims[..count].iter_mut().enumerate() {
            *claim = self.claim_at(index);
        }
    }

    // The units left over when each line has the quotient that it claims.
    pub(crate) fn leftover(&self, claims: &[Claim]) -> u64
        requires { claims.now ≡ claims_of self.now.size self.now.weights.now (length self.now.weights.now) }
        ensures { result ≡ leftover self.now.size self.now.weights.now }
    {
        self.size - claimed(claims)
    }
}
