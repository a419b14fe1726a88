// The quantities by which amounts are shared, each a number of its unit.
ghost use Rattle.std.specs.Prelude.{◌≡◌};

use crate::line::Weighted;

// Two types, so that a kWh is never shared as a penny.
#[derive(Clone, Copy, PartialEq, Eq, Debug)]
pub struct Kwh(pub i64);

#[derive(Clone, Copy, PartialEq, Eq, Debug)]
pub struct Pence(pub i64);

// Each number is taken out by its pattern, which names the unit.
impl Weighted for Kwh {
    ghost weight = { λ q. q.0 };

    fn weight(&self) -> i64 {
        let Kwh(kwh) = *self;
        kwh
    }
}

impl Weighted for Pence {
    ghost weight = { λ q. q.0 };

    fn weight(&self) -> i64 {
        let Pence(pence) = *self;
        pence
    }
}
