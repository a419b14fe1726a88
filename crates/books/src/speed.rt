// A speed: 0 to 1,000 hundredths of a mile per slot.
ghost use Rattle.std.specs.Prelude.{◌≡◌, ◌≤◌, is_ok, MatchResult, nat_le};
ghost use Rattle.books.specs.Figures.{max_speed};
ghost use Rattle.books.specs.declared.fault.FigureFault.TheVariants.{OutOfRange};

use crate::fault::FigureFault;

#[derive(Clone, Copy, PartialEq, Eq, Debug)]
pub struct Speed {
    value: u16,
    ghost in_range: { value ≤ max_speed },
}

impl Speed {
    // The highest speed, in hundredths of a mile per slot.
    pub const MAX: u16 = 1_000;

    pub fn new(value: u16) -> Result<Self, FigureFault>
        ensures accepted { is_ok result ≡ nat_le value max_speed }
        ensures value { MatchResult result (λ s. s.value ≡ value) (λ e. e ≡ OutOfRange) }
    {
        if value > Self::MAX {
            return Err(FigureFault::OutOfRange);
        }
        Ok(Speed { value })
    }

    pub fn get(self) -> u16
        ensures value { result ≡ self.value }
        ensures range { result ≤ max_speed }
    {
        self.value
    }
}
