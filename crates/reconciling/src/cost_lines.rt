// The accounts, each by what it was billed in pence: the lines over which a cost is shared.
ghost use Rattle.std.specs.Prelude.{◌≡◌, map, if◌then◌else◌, Some, None};
ghost use Rattle.std.specs.List.{range_with_len};
ghost use Rattle.amounts.specs.Ranges.{accounts};
ghost use Rattle.sharing.specs.Limits.{figures_in_limit};
ghost use Rattle.reconciling.specs.Sharing.{that_count, over_all};

use crate::places::ACCOUNT_COUNT;
use sharing::{AccountQuantity, Pence, share};
use std::array;

// The line of each account.
fn cost_lines(weights: &[i64; ACCOUNT_COUNT]) -> [AccountQuantity<Pence>; ACCOUNT_COUNT]
    ensures weights { map (λ l. l.quantity.0) result ≡ weights.now }
    ensures accounts { map (λ l. l.account) result ≡ range_with_len 0 accounts }
{
    // `as`, since the account is below 64: `try_from` would bring a failure that cannot come.
    array::from_fn(|account| AccountQuantity {
        account: account as u8,
        quantity: Pence(weights[account]),
    })
}

// Shares the amount over all accounts. The infrastructure manager has what is not shared besides its part.
// Not one with `share_over_operators`: other lines, and another part for account 0.
pub(crate) fn share_over_all(
    amount: i64,
    weights: &[i64; ACCOUNT_COUNT],
) -> Option<[i64; ACCOUNT_COUNT]>
    ensures { result ≡ (if figures_in_limit amount weights.now then Some (map (over_all amount (that_count weights.now)) (range_with_len 0 accounts)) else None) }
{
    let lines = cost_lines(weights);
    let mut adjustments = [0; ACCOUNT_COUNT];
    let unshared = share(amount, &lines, &mut adjustments).ok()?;
    adjustments[0] += unshared;
    Some(adjustments)
}
