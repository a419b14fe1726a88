// The blended tariff book: one pair of prices, whatever is asked.
ghost use Rattle.std.specs.Prelude.{◌≡◌, ◌≤◌, is_ok, MatchResult};
ghost use Rattle.amounts.specs.Ranges.{max_price};
ghost use Rattle.books.specs.Figures.{blended_delivery, blended_in_range};
ghost use Rattle.books.specs.TariffBooks.{blended_prices};
ghost use Rattle.books.specs.declared.fault.FigureFault.TheVariants.{OutOfRange};

use crate::answers::Prices;
use crate::book::TariffBook;
use crate::fault::FigureFault;
use crate::quotient::rounded_quotient;
use amounts::{Divisor, price_in_range};

// The highest expected delivery cost, in pence.
const MAX_EXPECTED_COST: u64 = 1_000_000_000_000;

#[derive(Clone, Copy, PartialEq, Eq, Debug)]
pub struct BlendedTariff {
    energy: u32,
    delivery: u32,
    ghost energy_in_range: { energy ≤ max_price },
    ghost delivery_in_range: { delivery ≤ max_price },
}

impl BlendedTariff {
    // From an energy price, the expected delivery cost in pence and the expected volume in kWh.
    pub fn new(energy: u32, expected_cost: u64, expected_kwh: u64) -> Result<Self, FigureFault>
        ensures accepted { is_ok result ≡ blended_in_range energy expected_cost expected_kwh }
        ensures prices { MatchResult result (λ b. (b.energy ≡ energy) × (b.delivery ≡ blended_delivery expected_cost expected_kwh)) (λ e. e ≡ OutOfRange) }
    {
        if !price_in_range(energy) || expected_cost > MAX_EXPECTED_COST {
            return Err(FigureFault::OutOfRange);
        }
        let kwh = Divisor::new(expected_kwh).ok_or(FigureFault::OutOfRange)?;
        let thousandths = Divisor::THOUSANDTHS.get() * expected_cost;
        let delivery = u32::try_from(rounded_quotient(thousandths, kwh)).map_err(
            |_| FigureFault::OutOfRange,
        )?;
        if !price_in_range(delivery) {
            return Err(FigureFault::OutOfRange);
        }
        Ok(BlendedTariff { energy, delivery })
    }
}

impl TariffBook for BlendedTariff {
    ghost prices = { λ b account area band. blended_prices b.energy b.delivery account area band };

    fn prices(&self, _account: u8, _area: u8, _band: u8) -> Option<Prices> {
        Some(Prices {
            energy: self.energy,
            delivery: self.delivery,
        })
    }
}
