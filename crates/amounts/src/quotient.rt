// Whole numbers from a signed quotient.
ghost use Rattle.std.specs.Prelude.{◌≡◌, ◌*◌, ◌≤◌, ℤ, pos, ◌≤ℤ◌, ◌<ℤ◌, int_div, nat_le};
ghost use Rattle.amounts.specs.Quotients.{Rounded, Cut, quotient_rounded, quotient_cut};

use crate::divisor::Divisor;

// The machine's quotient, which drops the fraction.
fn truncated(amount: i64, divisor: i64) -> i64
    requires { pos 0 <ℤ divisor }
    ensures { result ≡ int_div amount divisor }
{
    amount / divisor
}

// Whether a remainder reaches half of its divisor.
fn reaches_half(remainder: u64, divisor: u64) -> bool
    requires { remainder ≤ divisor }
    ensures { result ≡ nat_le divisor (2 * remainder) }
{
    remainder >= divisor - remainder
}

// The quotient, cut towards zero.
pub fn cut(amount: i64, divisor: Divisor) -> i64
    ensures cut { Cut amount divisor.value result }
    ensures only { (s : ℤ) → Cut amount divisor.value s → s ≡ result }
    ensures value { result ≡ quotient_cut amount divisor.value }
{
    // `as` loses nothing: a divisor is at most 10^12.
    truncated(amount, divisor.get() as i64)
}

// The quotient, rounded to the nearest whole number, halves away from zero.
pub fn rounded(amount: i64, divisor: Divisor) -> i64
    ensures rounded { Rounded amount divisor.value result }
    ensures only { (s : ℤ) → Rounded amount divisor.value s → s ≡ result }
    ensures value { result ≡ quotient_rounded amount divisor.value }
    ensures rising { (y : ℤ) → amount ≤ℤ y → result ≤ℤ quotient_rounded y divisor.value }
{
    let quotient = cut(amount, divisor);
    let remainder = amount.unsigned_abs() % divisor.get();
    if reaches_half(remainder, divisor.get()) {
        quotient + amount.signum()
    } else {
        quotient
    }
}
