// Sharing an amount among lines by the largest remainders.
#![tactic(auto)]

ghost use Rattle.std.specs.Prelude.{◌≡◌, false, map, length, drop, pos, is_ok, IfOk, slice_index_or};
ghost use Rattle.sharing.specs.Shares.{counting_weight};
ghost use Rattle.sharing.specs.Outcomes.{outcome, parts_after};
ghost use Rattle.sharing.specs.Laws.{FairShare};

mod checks;
mod claims;
mod fault;
mod line;
mod quantity;
mod shared;
mod spreading;
mod weights;

use checks::{MAX_LINES, accounts_rise, figures_in_limit};
pub use fault::ShareFault;
pub use line::{AccountLine, AccountQuantity, Weighted};
pub use quantity::{Kwh, Pence};
use spreading::spread;
use weights::copy_weights;

// Shares `amount` among the lines by their weights, into the first places of `parts`, and answers what is not shared:
// nothing, unless no line takes part.
pub fn share<L: AccountLine>(amount: i64, lines: &[L], parts: &mut [i64]) -> Result<i64, ShareFault>
    ensures answer { result ≡ outcome amount (map L.Weighted.weight lines.now) (map L.account lines.now) (length parts.old) }
    ensures after { parts.new ≡ parts_after amount (map L.Weighted.weight lines.now) (map L.account lines.now) parts.old }
    ensures fair { IfOk result (λ u. FairShare amount (map counting_weight (map L.Weighted.weight lines.now)) (map L.account lines.now) u (λ i. slice_index_or parts.new i (pos 0))) }
    ensures refused { is_ok result ≡ false → parts.new ≡ parts.old }
    ensures beyond { drop (length lines.now) parts.new ≡ drop (length lines.now) parts.old }
{
    let count = lines.len();
    if !figures_in_limit(amount, lines) {
        return Err(ShareFault::BeyondLimits);
    }
    if !accounts_rise(lines) {
        return Err(ShareFault::Accounts);
    }
    if parts.len() < count {
        return Err(ShareFault::TooFewPlaces);
    }
    // No heap: an array of the most lines, of which the first are used.
    let mut weights = [0; MAX_LINES];
    copy_weights(lines, &mut weights);
    Ok(spread(amount, &weights[..count], parts))
}
