// Lines in a slice: where a key belongs, the line that has it, and how a line is inserted.
ghost use Rattle.std.specs.Prelude.{◌≡◌, ◌+◌, ◌<◌, ◌≤◌, length, take, drop};
ghost use Rattle.std.specs.List.{insert};
ghost use Rattle.lines.specs.Lookups.{insertion_point, lookup};

use crate::line::Line;

// How many lines come before the first whose key is not below the wanted one. The answer is that of every list, also one whose
// keys do not rise: their order is kept by contracts and not by an invariant, so there is no binary search.
pub(crate) fn position<L: Line>(lines: &[L], wanted: u64) -> usize
    ensures point { result ≡ insertion_point L.key wanted lines.now }
    ensures within { result ≤ length lines.now }
{
    lines
        .iter()
        .position(|line| line.key() >= wanted)
        .unwrap_or(lines.len())
}

// The line that has the wanted key. The lines are read from the first, as far as the first whose key is not below it.
pub(crate) fn line_with_key<L: Line>(lines: &[L], wanted: u64) -> Option<L>
    ensures { result ≡ lookup L.key wanted lines.now }
{
    lines
        .iter()
        .find(|line| line.key() >= wanted)
        .copied()
        .filter(|line| line.key() == wanted)
}

// Puts the line at the position `to`, and moves the lines from there to the count up by one.
pub(crate) fn insert<L: Copy>(lines: &mut [L], count: usize, to: usize, line: L)
    requires among { to ≤ count }
    requires room { count < length lines.old }
    ensures front { take (count + 1) lines.new ≡ insert (take count lines.old) to line }
    ensures past { drop (count + 1) lines.new ≡ drop 1 (drop count lines.old) }
{
    lines.copy_within(to..count, to + 1);
    lines[to] = line;
}
