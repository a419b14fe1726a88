// The operators of an area, each by its modelled kWh: the lines over which a volume is shared.
ghost use Rattle.std.specs.Prelude.{◌≡◌, ◌-◌, ◌<◌, ◌≤◌, map, if◌then◌else◌, Some, None, unsigned_abs};
ghost use Rattle.std.specs.List.{range_with_len};
ghost use Rattle.amounts.specs.Ranges.{accounts, areas};
ghost use Rattle.ledger.specs.Limits.{max_kwh};
ghost use Rattle.sharing.specs.Limits.{figures_in_limit};
ghost use Rattle.reconciling.specs.Outcomes.{sums_in};
ghost use Rattle.reconciling.specs.Sharing.{that_count, over_operators};
ghost use Rattle.reconciling.specs.Volumes.{volume_weight, operator_weights};

use crate::cells::CheckedCells;
use crate::places::{ACCOUNT_COUNT, Area};
use ledger::kwh_of;
use sharing::{AccountQuantity, Kwh, share};
use std::array;

// How many accounts are operators': all but the infrastructure manager's.
const OPERATORS: usize = ACCOUNT_COUNT - 1;

// The account's line.
fn volume_line(cells: &CheckedCells<'_>, account: usize, area: Area) -> AccountQuantity<Kwh>
    requires { account < accounts }
    ensures account { result.account ≡ account }
    ensures weight { result.quantity.0 ≡ volume_weight (sums_in cells.now account area.index) }
{
    // `as`, since the account is below 64: `try_from` would bring a failure that cannot come.
    AccountQuantity {
        account: account as u8,
        quantity: Kwh(kwh_of(cells.at(account, area).get().sums.modelled)),
    }
}

// The line of each operator in the area.
fn volume_lines(cells: &CheckedCells<'_>, area: Area) -> [AccountQuantity<Kwh>; OPERATORS]
    ensures weights { map (λ l. l.quantity.0) result ≡ operator_weights (sums_in cells.now) area.index }
    ensures accounts { map (λ l. l.account) result ≡ range_with_len 1 (accounts - 1) }
{
    array::from_fn(|i| volume_line(cells, i + 1, area))
}

// Shares the amount over the area's operators. The infrastructure manager has `before`, and what is not shared.
pub(crate) fn share_over_operators(
    before: i64,
    amount: i64,
    cells: &CheckedCells<'_>,
    area: Area,
) -> Option<[i64; ACCOUNT_COUNT]>
    requires { unsigned_abs before ≤ max_kwh }
    ensures { result ≡ (if figures_in_limit amount (operator_weights (sums_in cells.now) area.index) then Some (map (over_operators before amount (that_count (operator_weights (sums_in cells.now) area.index))) (range_with_len 0 accounts)) else None) }
{
    let lines = volume_lines(cells, area);
    let mut adjustments = [0; ACCOUNT_COUNT];
    let unshared = share(amount, &lines, &mut adjustments[1..]).ok()?;
    adjustments[0] = before + unshared;
    Some(adjustments)
}
