// The two kinds of book. A book is what it means: a function of the question. Asking answers that, and changes nothing.
ghost use Rattle.std.specs.Prelude.{◌≡◌, ℕ, IfSome, Option};
ghost use Rattle.lines.specs.declared.kinds.MeteredKind.{MeteredKind};
ghost use Rattle.books.specs.declared.answers.Prices.{Prices};
ghost use Rattle.books.specs.declared.answers.SlotValues.{SlotValues};
ghost use Rattle.books.specs.Answers.{PricesInRange, ValuesInRange};

use crate::answers::{Prices, SlotValues};
use lines::MeteredKind;

// What is asked stays apart: the meaning of a book is a function of it.
pub trait TariffBook {
    // What the book means: the prices of an account, in an area and a band.
    ghost prices: { Self → ℕ → ℕ → ℕ → Option Prices };

    fn prices(&self, account: u8, area: u8, band: u8) -> Option<Prices>
        ensures answer { result ≡ prices self.now account area band }
        ensures range { IfSome result PricesInRange };
}

pub trait InfillBook {
    // What the book means: the values for a slot of a kind of record and a category, in an area and a band.
    ghost values: { Self → MeteredKind → ℕ → ℕ → ℕ → Option SlotValues };

    fn values(&self, kind: MeteredKind, category: u16, area: u8, band: u8) -> Option<SlotValues>
        ensures answer { result ≡ values self.now kind category area band }
        ensures range { IfSome result ValuesInRange };
}
