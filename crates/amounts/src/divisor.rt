// A divisor: a number from 1 to 10^12.
ghost use Rattle.std.specs.Prelude.{◌≡◌, ◌<◌, ◌≤◌, ◌&&◌, is_some, IfSome, nat_le};
ghost use Rattle.amounts.specs.Ranges.{max_divisor};

#[derive(Clone, Copy)]
pub struct Divisor {
    value: u64,
    ghost positive: { 0 < value },
    ghost bounded: { value ≤ max_divisor },
}

impl Divisor {
    // The highest divisor, which is also the highest expected kWh.
    pub const MAX: u64 = 1_000_000_000_000;

    // Watt-hours in a kilowatt-hour.
    pub const WH_PER_KWH: Divisor = Divisor { value: 1_000 };

    // Thousandths of a penny in a penny.
    pub const THOUSANDTHS: Divisor = Divisor { value: 1_000 };

    pub const HUNDREDTHS: Divisor = Divisor { value: 100 };

    pub const TEN_THOUSANDTHS: Divisor = Divisor { value: 10_000 };

    pub const MILLIONTHS: Divisor = Divisor { value: 1_000_000 };

    pub const TEN_MILLIONTHS: Divisor = Divisor { value: 10_000_000 };

    pub const HUNDRED_MILLIONTHS: Divisor = Divisor { value: 100_000_000 };

    pub fn new(value: u64) -> Option<Divisor>
        ensures range { is_some result ≡ (nat_le 1 value && nat_le value max_divisor) }
        ensures value { IfSome result (λ d. d.value ≡ value) }
    {
        if !(1..=Self::MAX).contains(&value) {
            return None;
        }
        Some(Divisor { value })
    }

    pub fn get(self) -> u64
        ensures { result ≡ self.value }
    {
        self.value
    }
}
