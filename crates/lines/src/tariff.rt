// A tariff line: the prices of an account in an area and a band.
ghost use Rattle.std.specs.Prelude.{◌≡◌, ◌≤◌, true, is_ok, MatchResult};
ghost use Rattle.amounts.specs.Ranges.{max_price};
ghost use Rattle.lines.specs.Limits.{tariff_in_range};
ghost use Rattle.lines.specs.Keys.{tariff_key, tariff_widths, KeysFollowFields};
ghost use Rattle.lines.specs.declared.fault.ListFault.TheVariants.{OutOfRange};

use crate::fault::ListFault;
use crate::line::{BYTE_VALUES, Line};
use amounts::{
    FIRST_BAND, INFRASTRUCTURE_MANAGER, account_exists, area_exists, band_exists, price_in_range,
};

#[derive(Clone, Copy, PartialEq, Eq, Debug)]
pub struct TariffLine {
    account: u8,
    area: u8,
    band: u8,
    // Prices are in thousandths of a penny per kWh.
    energy: u32,
    delivery: u32,
    ghost in_range: { tariff_in_range account area band energy delivery ≡ true },
}

fn fields_in_range(account: u8, area: u8, band: u8, energy: u32, delivery: u32) -> bool
    ensures { result ≡ tariff_in_range account area band energy delivery }
{
    account_exists(account)
        && area_exists(area)
        && band_exists(band)
        && price_in_range(energy)
        && price_in_range(delivery)
}

impl TariffLine {
    pub fn new(
        account: u8,
        area: u8,
        band: u8,
        energy: u32,
        delivery: u32,
    ) -> Result<Self, ListFault>
        ensures accepted { is_ok result ≡ tariff_in_range account area band energy delivery }
        ensures fields { MatchResult result (λ l. (l.account ≡ account) × (l.area ≡ area) × (l.band ≡ band) × (l.energy ≡ energy) × (l.delivery ≡ delivery)) (λ e. e ≡ OutOfRange) }
    {
        if !fields_in_range(account, area, band, energy, delivery) {
            return Err(ListFault::OutOfRange);
        }
        Ok(TariffLine {
            account,
            area,
            band,
            energy,
            delivery,
        })
    }

    // The key of the line of an account, an area and a band.
    pub fn key_at(account: u8, area: u8, band: u8) -> u64
        ensures key { result ≡ tariff_key account area band }
        ensures law { KeysFollowFields tariff_widths }
    {
        (u64::from(account) * BYTE_VALUES + u64::from(area)) * BYTE_VALUES + u64::from(band)
    }

    pub fn energy(&self) -> u32
        ensures value { result ≡ self.now.energy }
        ensures range { result ≤ max_price }
    {
        self.energy
    }

    pub fn delivery(&self) -> u32
        ensures value { result ≡ self.now.delivery }
        ensures range { result ≤ max_price }
    {
        self.delivery
    }
}

// A blank line, to fill memory with before it is lent: of the infrastructure manager, without prices.
// By hand: a struct with a ghost field derives no Default.
impl Default for TariffLine {
    ghost use Rattle.amounts.specs.Ranges.{first_band};

    ghost is_default = { λ l. (l.account ≡ 0) × (l.area ≡ 0) × (l.band ≡ first_band) × (l.energy ≡ 0) × (l.delivery ≡ 0) };

    fn default() -> Self {
        TariffLine {
            account: INFRASTRUCTURE_MANAGER,
            area: 0,
            band: FIRST_BAND,
            energy: 0,
            delivery: 0,
        }
    }
}

impl Line for TariffLine {
    ghost key = { λ l. tariff_key l.account l.area l.band };

    fn key(&self) -> u64 {
        Self::key_at(self.account, self.area, self.band)
    }
}
