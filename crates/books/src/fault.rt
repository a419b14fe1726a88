// Why a book is not made.
ghost use Rattle.std.specs.Prelude.{◌≡◌};
ghost use Rattle.books.specs.Faults.{refusal_of};

use amounts::{Fault, Refusal};

#[derive(Clone, Copy, PartialEq, Eq, Debug)]
pub enum FigureFault {
    // A figure of the book, or one that follows from them, is out of range.
    OutOfRange,
}

impl Fault for FigureFault {
    ghost described = { refusal_of };

    fn refusal(&self) -> Refusal {
        match self {
            FigureFault::OutOfRange => Refusal::new(19, 0),
        }
    }
}
