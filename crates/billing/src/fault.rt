// Why a record is not billed or posted: a fault of the reader, of a book or of the ledger.
ghost use Rattle.std.specs.Prelude.{◌≡◌};
ghost use Rattle.billing.specs.Faults.{book_refusal_of, ledger_refusal_of, refusal_of};
ghost use Rattle.billing.specs.declared.fault.PostFault.TheVariants as post;

use amounts::{Fault, Refusal};
use records::RecordFault;

// `place` is the record's first byte, and `next` is where the next record begins: both stand in each case, as the fault table has them.
#[derive(Clone, Copy, PartialEq, Eq, Debug)]
pub enum BookFault {
    // There is no line of the category, or its unit does not fit the kind.
    Category { place: usize, next: usize },
    // There is no loss line of the area and the category's electricity.
    Loss { place: usize, next: usize },
    // A missing reading of the slot needs a value, and the infill book has none.
    MissingReading { place: usize, next: usize, slot: u8 },
    // The tariff book has no prices.
    Tariff { place: usize, next: usize },
}

// What the ledger refuses a post by. A bill alone is refused by `BilledBeyondLimit` only.
#[derive(Clone, Copy, PartialEq, Eq, Debug)]
pub enum LedgerFault {
    // The block has a wrong count of cells or account records, or a figure beyond its limit.
    Block,
    // The record bills too many Wh.
    BilledBeyondLimit { place: usize, next: usize },
    // A sum of the record's cell would go beyond its limit.
    SumBeyondLimit { place: usize, next: usize },
}

#[derive(Clone, Copy, PartialEq, Eq, Debug)]
pub enum PostFault {
    Record(RecordFault),
    Book(BookFault),
    Ledger(LedgerFault),
}

impl Fault for BookFault {
    ghost described = { book_refusal_of };

    fn refusal(&self) -> Refusal {
        match *self {
            BookFault::Category { place, next } => Refusal::new(11, place).with_next(next),
            BookFault::Loss { place, next } => Refusal::new(12, place).with_next(next),
            BookFault::MissingReading { place, next, slot } => {
                Refusal::new(13, place).with_slot(slot).with_next(next)
            }
            BookFault::Tariff { place, next } => Refusal::new(14, place).with_next(next),
        }
    }
}

impl Fault for LedgerFault {
    ghost described = { ledger_refusal_of };

    fn refusal(&self) -> Refusal {
        match *self {
            LedgerFault::Block => Refusal::new(1, 0),
            LedgerFault::BilledBeyondLimit { place, next } => {
                Refusal::new(15, place).with_next(next)
            }
            LedgerFault::SumBeyondLimit { place, next } => {
                Refusal::new(16, place).with_next(next)
            }
        }
    }
}

impl Fault for PostFault {
    ghost described = { refusal_of };

    fn refusal(&self) -> Refusal {
        match self {
            PostFault::Record(fault) => fault.refusal(),
            PostFault::Book(fault) => fault.refusal(),
            PostFault::Ledger(fault) => fault.refusal(),
        }
    }
}

// Here and below by hand, so that a clause can say which fault a `?` hands on. A fault of the reader is handed on whole.
impl From<RecordFault> for PostFault {
    ghost from_gives = { λ f p. p ≡ post.Record f };

    fn from(fault: RecordFault) -> PostFault {
        PostFault::Record(fault)
    }
}

// And so is one of a book.
impl From<BookFault> for PostFault {
    ghost from_gives = { λ f p. p ≡ post.Book f };

    fn from(fault: BookFault) -> PostFault {
        PostFault::Book(fault)
    }
}

impl From<LedgerFault> for PostFault {
    ghost from_gives = { λ f p. p ≡ post.Ledger f };

    fn from(fault: LedgerFault) -> PostFault {
        PostFault::Ledger(fault)
    }
}
