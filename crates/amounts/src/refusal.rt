// Why a call refuses: the fault's number in the table, its layer, and what it concerns.
ghost use Rattle.std.specs.Prelude.{◌≡◌};
ghost use Rattle.amounts.specs.Refusals.{layer_of, refusal_at, at_slot, before_next};

// The layer of the library that refuses.
#[derive(Clone, Copy, PartialEq, Eq, Debug)]
pub enum Layer {
    Record,
    Book,
    Ledger,
    List,
    Statement,
}

#[derive(Clone, Copy, PartialEq, Eq, Debug)]
pub struct Refusal {
    // The number in the fault table. It stays a number: staff look it up, files hold it, and `new` takes any.
    pub number: u8,
    pub layer: Layer,
    // The record's first byte, or the area of a reconciliation's figure, or 0.
    pub place: usize,
    // The lowest slot concerned.
    pub slot: Option<u8>,
    // Where the next record begins.
    pub next: Option<usize>,
}

// The layer of a fault, by its number.
fn layer_of(number: u8) -> Layer
    ensures { result ≡ layer_of number }
{
    match number {
        0..=1 | 15..=18 => Layer::Ledger,
        2..=10 => Layer::Record,
        11..=14 => Layer::Book,
        19..=21 => Layer::List,
        _ => Layer::Statement,
    }
}

impl Refusal {
    // The refusal of that number at a place, with no slot and no next record.
    pub fn new(number: u8, place: usize) -> Refusal
        ensures { result ≡ refusal_at number place }
    {
        Refusal {
            number,
            layer: layer_of(number),
            place,
            slot: None,
            next: None,
        }
    }

    // The same, concerning a slot.
    pub fn with_slot(self, slot: u8) -> Refusal
        ensures { result ≡ at_slot self slot }
    {
        Refusal {
            slot: Some(slot),
            ..self
        }
    }

    // The same, with the place where the next record begins.
    pub fn with_next(self, next: usize) -> Refusal
        ensures { result ≡ before_next self next }
    {
        Refusal {
            next: Some(next),
            ..self
        }
    }
}
