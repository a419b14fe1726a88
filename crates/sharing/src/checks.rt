// What a sharing refuses: figures beyond their limits, and accounts that do not rise.
ghost use Rattle.std.specs.Prelude.{◌≡◌, ◌+◌, ◌&&◌, cond, map, pos, Some, None, nat_le, int_le};
ghost use Rattle.std.specs.List.{list_all};
ghost use Rattle.amounts.specs.Ranges.{account_exists};
ghost use Rattle.sharing.specs.Limits.{max_weight, figures_in_limit, rising};

use crate::line::{AccountLine, Weighted};
use amounts::{account_exists, within};

// The largest amount.
const MAX_AMOUNT: u64 = 3_000_000_000;

// The largest weight.
const MAX_WEIGHT: i64 = 3_000_000_000;

// The most lines.
pub(crate) const MAX_LINES: usize = 64;

fn weights_in_limit<L: Weighted>(lines: &[L]) -> bool
    ensures { result ≡ list_all (λ line. int_le (L.weight line) (pos max_weight)) lines.now }
{
    lines.iter().all(|line| line.weight() <= MAX_WEIGHT)
}

// Whether the amount, the number of the lines and their weights are within their limits.
pub(crate) fn figures_in_limit<L: Weighted>(amount: i64, lines: &[L]) -> bool
    ensures { result ≡ figures_in_limit amount (map L.weight lines.now) }
{
    within(amount, MAX_AMOUNT) && lines.len() <= MAX_LINES && weights_in_limit(lines)
}

// Whether the account exists and is at least `low`.
fn may_follow(low: u8, account: u8) -> bool
    ensures { result ≡ (nat_le low account && account_exists account) }
{
    low <= account && account_exists(account)
}

// The lowest account that may come next, after an account that may follow.
fn lowest_next(low: u8, account: u8) -> Option<u8>
    ensures { result ≡ cond (nat_le low account && account_exists account) (Some (account + 1)) None }
{
    may_follow(low, account).then(|| account + 1)
}

// Whether the accounts exist and rise.
pub(crate) fn accounts_rise<L: AccountLine>(lines: &[L]) -> bool
    ensures { result ≡ rising 0 (map L.account lines.now) }
{
    lines
        .iter()
        .try_fold(0, |low, line| lowest_next(low, line.account()))
        .is_some()
}
