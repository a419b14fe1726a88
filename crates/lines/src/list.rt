// An ordered list: the memory that the caller lends, and how many lines of it are in use.
ghost use Rattle.std.specs.Prelude.{◌≤◌, length};

use crate::fault::ListFault;
use crate::line::Line;
use crate::position::{insert, line_with_key, position};

// The calls keep the keys rising, each once. Their contracts say so, and no invariant does: what a call answers and leaves is
// defined for every list, also one whose keys do not rise.
#[derive(Drop)]
pub struct OrderedList<'a, L> {
    lines: &'a mut [L],
    count: usize,
    ghost fits: { count ≤ length lines.now },
}

impl<'a, L: Line> OrderedList<'a, L> {
    ghost use Rattle.std.specs.Prelude.{◌≡◌, ℕ, false, ◌&&◌, [], drop, is_ok, if◌then◌else◌, Some, ◌==◌};
    ghost use Rattle.lines.specs.Contents.{contents, memory, spare};
    ghost use Rattle.lines.specs.Lookups.{Rising, lookup, with_line, with_replaced};
    ghost use Rattle.lines.specs.Outcomes.{to_add, to_replace};
    ghost use Rattle.lines.specs.Laws.{LineOf, OneLinePerKey};

    // An empty list over the memory.
    pub fn new(lines: &'a mut [L]) -> Self
        ensures empty { contents result ≡ [] }
        ensures unused { spare result ≡ lines.old }
        ensures rising { Rising L.key (contents result) }
        ensures lent { result.lines.ghost_name ≡ lines.entry.ghost_name }
    {
        OrderedList { lines, count: 0 }
    }

    // The lines in use.
    fn used(&self) -> &[L]
        ensures { result.now ≡ contents self.now }
    {
        &self.lines[..self.count]
    }

    // How many lines the list has.
    pub fn count(&self) -> usize
        ensures count { result ≡ length (contents self.now) }
        ensures keys { Rising L.key (contents self.now) → OneLinePerKey L.key (contents self.now) }
    {
        self.used().len()
    }

    // The line that has the wanted key.
    pub fn find(&self, wanted: u64) -> Option<L>
        ensures answer { result ≡ lookup L.key wanted (contents self.now) }
        ensures law { LineOf L.key wanted (Rising L.key (contents self.now)) (contents self.now) result }
    {
        line_with_key(self.used(), wanted)
    }

    // Adds the line at the position of its key.
    pub fn add(&mut self, line: L) -> Result<(), ListFault>
        ensures answer { result ≡ to_add L.key (length (memory self.old)) (contents self.old) line }
        ensures after { contents self.new ≡ (if is_ok result then with_line L.key line (contents self.old) else contents self.old) }
        ensures finds { (k : ℕ) → lookup L.key k (contents self.new) ≡ (if is_ok result && (L.key line) == k then Some line else lookup L.key k (contents self.old)) }
        ensures rising { Rising L.key (contents self.old) → Rising L.key (contents self.new) }
        ensures unused { spare self.new ≡ drop (if is_ok result then 1 else 0) (spare self.old) }
        ensures room { length (memory self.new) ≡ length (memory self.old) }
        ensures refused { is_ok result ≡ false → memory self.new ≡ memory self.old }
        ensures lent { self.new.lines.ghost_name ≡ self.old.lines.ghost_name }
    {
        let key = line.key();
        if self.find(key).is_some() {
            return Err(ListFault::KeyPresent);
        }
        let count = self.count();
        if count == self.lines.len() {
            return Err(ListFault::Full);
        }
        let to = position(self.used(), key);
        insert(self.lines, count, to, line);
        self.count = count + 1;
        Ok(())
    }

    // Puts the line in place of the one that has its key.
    pub fn replace(&mut self, line: L) -> Result<(), ListFault>
        ensures answer { result ≡ to_replace L.key (contents self.old) line }
        ensures after { contents self.new ≡ (if is_ok result then with_replaced L.key line (contents self.old) else contents self.old) }
        ensures finds { (k : ℕ) → lookup L.key k (contents self.new) ≡ (if is_ok result && (L.key line) == k then Some line else lookup L.key k (contents self.old)) }
        ensures rising { Rising L.key (contents self.old) → Rising L.key (contents self.new) }
        ensures unused { spare self.new ≡ spare self.old }
        ensures room { length (memory self.new) ≡ length (memory self.old) }
        ensures refused { is_ok result ≡ false → memory self.new ≡ memory self.old }
        ensures lent { self.new.lines.ghost_name ≡ self.old.lines.ghost_name }
    {
        let key = line.key();
        if self.find(key).is_none() {
            return Err(ListFault::KeyAbsent);
        }
        let at = position(self.used(), key);
        self.lines[at] = line;
        Ok(())
    }
}
