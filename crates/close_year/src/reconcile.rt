// Meeting a supplier's bill: the discrepancy is shared over what was billed.
ghost use Rattle.std.specs.Prelude.{◌≡◌, false, map, length, pos, ◌+ℤ◌, ◌-ℤ◌, IfSome, is_ok, IfOk, slice_index_or};
ghost use Rattle.sharing.specs.Laws.{FairShare};
ghost use Rattle.sharing.specs.Shares.{counting_weight};
ghost use Rattle.close_year.specs.Bills.{billed, adjusted, pence_of, account_of};

use sharing::{AccountQuantity, Pence, ShareFault, share};

// What was short (above zero) or over (below zero), and what of it no operator takes.
#[derive(Clone, Copy)]
pub(crate) struct Reconciled {
    pub(crate) billed: i64,
    pub(crate) discrepancy: i64,
    pub(crate) unshared: i64,
}

// The sum of what was billed, if it fits. After `try_fold` no proof found that it is the sum, so this is a loop.
fn total_billed(bills: &[AccountQuantity<Pence>]) -> Option<i64>
    ensures { IfSome result (λ s. s ≡ billed bills.now (length bills.now)) }
{
    let mut total = 0i64;
    for bill in bills {
        total = total.checked_add(bill.quantity.0)?;
    }
    Some(total)
}

// Shares what `cost` is above or below the sum of the bills into `adjustments`. Bills and adjustments then come to
// the cost, apart from what no operator takes.
pub(crate) fn reconcile(
    cost: i64,
    bills: &[AccountQuantity<Pence>],
    adjustments: &mut [i64],
) -> Result<Reconciled, ShareFault>
    ensures meets { IfOk result (λ x. billed bills.now (length bills.now) +ℤ (x.unshared +ℤ adjusted adjustments.new (length bills.now)) ≡ cost) }
    ensures figures { IfOk result (λ x. (x.billed ≡ billed bills.now (length bills.now)) × (x.discrepancy ≡ cost -ℤ x.billed)) }
    ensures fair { IfOk result (λ x. FairShare x.discrepancy (map counting_weight (map pence_of bills.now)) (map account_of bills.now) x.unshared (λ i. slice_index_or adjustments.new i (pos 0))) }
    ensures refused { is_ok result ≡ false → adjustments.new ≡ adjustments.old }
{
    let billed = total_billed(bills).ok_or(ShareFault::BeyondLimits)?;
    let discrepancy = cost.checked_sub(billed).ok_or(ShareFault::BeyondLimits)?;
    let unshared = share(discrepancy, bills, adjustments)?;
    Ok(Reconciled {
        billed,
        discrepancy,
        unshared,
    })
}
