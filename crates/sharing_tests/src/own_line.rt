// A line of a type of its own, as a caller may have: a weight and an account.
ghost use Rattle.std.specs.Prelude.{◌≡◌};

use sharing::{AccountLine, Weighted};

#[derive(Clone, Copy)]
pub struct Line(pub i64, pub u8);

impl Weighted for Line {
    ghost weight = { λ l. l.0 };

    fn weight(&self) -> i64 {
        self.0
    }
}

impl AccountLine for Line {
    ghost account = { λ l. l.1 };

    fn account(&self) -> u8 {
        self.1
    }
}
