// Why a line is not made, or a list refuses it.
ghost use Rattle.std.specs.Prelude.{◌≡◌};
ghost use Rattle.lines.specs.Faults.{refusal_of};

use amounts::{Fault, Refusal};

#[derive(Clone, Copy, PartialEq, Eq, Debug)]
pub enum ListFault {
    // A field of the line is out of range.
    OutOfRange,
    // The key is new, and the list is full.
    Full,
    // A line with the key to add is present.
    KeyPresent,
    // No line has the key to replace.
    KeyAbsent,
}

impl Fault for ListFault {
    ghost described = { refusal_of };

    fn refusal(&self) -> Refusal {
        match self {
            ListFault::OutOfRange => Refusal::new(19, 0),
            ListFault::Full => Refusal::new(20, 0),
            ListFault::KeyPresent | ListFault::KeyAbsent => Refusal::new(21, 0),
        }
    }
}
