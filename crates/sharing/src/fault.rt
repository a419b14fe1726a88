// Why a sharing is refused.
ghost use Rattle.std.specs.Prelude.{◌≡◌};
ghost use Rattle.sharing.specs.Faults.{refusal_of};

use amounts::{Fault, Refusal};

#[derive(Clone, Copy, PartialEq, Eq, Debug)]
pub enum ShareFault {
    // The amount, a weight or the number of lines is beyond its limit.
    BeyondLimits,
    // The accounts do not rise, or one does not exist.
    Accounts,
    // There are fewer places for parts than lines.
    TooFewPlaces,
}

impl Fault for ShareFault {
    ghost described = { refusal_of };

    fn refusal(&self) -> Refusal {
        match self {
            ShareFault::BeyondLimits => Refusal::new(18, 0),
            ShareFault::Accounts => Refusal::new(22, 0),
            ShareFault::TooFewPlaces => Refusal::new(23, 0),
        }
    }
}
