// What each line claims of an amount, and which claims get one of the units left over.
ghost use Rattle.std.specs.Prelude.{◌≡◌, ◌≤◌, sum_by};
ghost use Rattle.sharing.specs.Claims.{comes_before, before, has_extra};
ghost use Rattle.sharing.specs.Limits.{max_amount};

// The exact share of the line at `index`: the whole units, and what remains by which it is ranked.
#[derive(Clone, Copy)]
pub(crate) struct Claim {
    pub(crate) index: usize,
    pub(crate) weight: u64,
    pub(crate) quotient: u64,
    pub(crate) remainder: u64,
}

// What stands where no claim is written.
pub(crate) const NO_CLAIM: Claim = Claim {
    index: 0,
    weight: 0,
    quotient: 0,
    remainder: 0,
};

// What the claims have as quotients in all.
pub(crate) fn claimed(claims: &[Claim]) -> u64
    requires { sum_by (λ (c : Claim). c.quotient) claims.now ≤ max_amount }
    ensures { result ≡ sum_by (λ (c : Claim). c.quotient) claims.now }
{
    claims.iter().map(|claim| claim.quotient).sum()
}

// Whether `other` takes part and has the larger remainder, or an equal one and comes earlier. By `&` and `|`: all is tested,
// since which test decides cannot be foreseen, and a branch that is foreseen wrongly costs more than the tests.
fn comes_before(other: &Claim, own: &Claim) -> bool
    ensures { result ≡ comes_before other.now own.now }
{
    (other.weight > 0)
        & ((other.remainder > own.remainder)
            | ((other.remainder == own.remainder) & (other.index < own.index)))
}

// How many claims come before this one.
fn before(own: &Claim, claims: &[Claim]) -> u64
    ensures { result ≡ before claims.now own.now }
{
    claims
        .iter()
        .map(|other| u64::from(comes_before(other, own)))
        .sum()
}

// Whether the claim gets one of the units left over. One without weight gets none, so it is not ranked.
pub(crate) fn gets_extra(own: &Claim, claims: &[Claim], leftover: u64) -> bool
    ensures { result ≡ has_extra own.now claims.now leftover }
{
    own.weight > 0 && before(own, claims) < leftover
}
