// Why a statement is not written, or not read.
ghost use Rattle.std.specs.Prelude.{◌≡◌};
ghost use Rattle.statements.specs.Faults.{refusal_of_writing, refusal_of_reading};

use amounts::{Fault, Refusal};

#[derive(Clone, Copy, PartialEq, Eq, Debug)]
pub enum StatementFault {
    // The year's block has a wrong count or a figure beyond its limit; reported by the year.
    Block,
    NoSuchAccount,
    // Fewer bytes from the place to the end of the buffer than a statement has.
    TooFewBytes,
}

#[derive(Clone, Copy, PartialEq, Eq, Debug)]
pub enum ReadStatementFault {
    // Fewer bytes from the place to the end of the buffer than a statement has.
    Incomplete,
    NoSuchAccount,
}

impl Fault for StatementFault {
    ghost described = { refusal_of_writing };

    fn refusal(&self) -> Refusal {
        match self {
            StatementFault::Block => Refusal::new(1, 0),
            StatementFault::NoSuchAccount => Refusal::new(22, 0),
            StatementFault::TooFewBytes => Refusal::new(23, 0),
        }
    }
}

impl Fault for ReadStatementFault {
    ghost described = { refusal_of_reading };

    fn refusal(&self) -> Refusal {
        match self {
            ReadStatementFault::Incomplete | ReadStatementFault::NoSuchAccount => {
                Refusal::new(24, 0)
            }
        }
    }
}
