// The weights that count, and their total.
ghost use Rattle.std.specs.Prelude.{◌≡◌, ◌≤◌, map, length, take, sum};
ghost use Rattle.amounts.specs.Ranges.{max_divisor};
ghost use Rattle.sharing.specs.Shares.{counting_weight, weight_at};

use crate::line::Weighted;

// What of a weight counts: nothing of one below zero.
fn counting_weight(weight: i64) -> u64
    ensures { result ≡ counting_weight weight }
{
    u64::try_from(weight).unwrap_or(0)
}

// What counts of the weight of the line at `index`: nothing past the lines.
fn weight_at<L: Weighted>(lines: &[L], index: usize) -> u64
    ensures { result ≡ weight_at (map counting_weight (map L.weight lines.now)) index }
{
    lines
        .get(index)
        .map_or(0, |line| counting_weight(line.weight()))
}

// Writes what counts of each line's weight into the first places.
pub(crate) fn copy_weights<L: Weighted>(lines: &[L], weights: &mut [u64])
    requires { length lines.now ≤ length weights.old }
    ensures { take (length lines.now) weights.new ≡ map counting_weight (map L.weight lines.now) }
{
    for (index, weight) in weights[..lines.len()].iter_mut().enumerate() {
        *weight = weight_at(lines, index);
    }
}

pub(crate) fn total_of(weights: &[u64]) -> u64
    requires { sum weights.now ≤ max_divisor }
    ensures { result ≡ sum weights.now }
{
    weights.iter().sum()
}
