// The total of signed figures.
ghost use Rattle.std.specs.Prelude.{◌≡◌, ◌≤◌, length, pos, slice_index_or};
ghost use Rattle.amounts.specs.Ranges.{accounts};
ghost use Rattle.amounts.specs.Sums.{int_sum_to};
ghost use Rattle.reconciling.specs.Limits.{EachWithin, max_network};

// A loop, since the library's `sum` does not know that a sum of signed figures fits.
pub(crate) fn total(figures: &[i64]) -> i64
    requires count { length figures.now ≤ accounts }
    requires within { EachWithin max_network figures.now }
    ensures { result ≡ int_sum_to (λ i. slice_index_or figures.now i (pos 0)) (length figures.now) }
{
    let mut total = 0;
    for figure in figures {
        total += *figure;
    }
    total
}
