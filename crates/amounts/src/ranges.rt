// The ranges that every layer shares, each a constant and a test.
ghost use Rattle.std.specs.Prelude.{◌≡◌};
ghost use Rattle.amounts.specs.Ranges.{account_exists, area_exists, band_exists, price_in_range};
ghost use Rattle.amounts.specs.Ranges.{within as in_limit};

// Accounts are numbered from 0.
pub const ACCOUNTS: u8 = 64;

// The account of the infrastructure manager.
pub const INFRASTRUCTURE_MANAGER: u8 = 0;

// Areas are numbered from 0.
pub const AREAS: u8 = 20;

// Time bands are numbered from the first to the last.
pub const FIRST_BAND: u8 = 1;

pub const LAST_BAND: u8 = 7;

// The highest price, in thousandths of a penny per kWh.
pub const MAX_PRICE: u32 = 100_000;

pub fn account_exists(account: u8) -> bool
    ensures { result ≡ account_exists account }
{
    account < ACCOUNTS
}

pub fn area_exists(area: u8) -> bool
    ensures { result ≡ area_exists area }
{
    area < AREAS
}

pub fn band_exists(band: u8) -> bool
    ensures { result ≡ band_exists band }
{
    (FIRST_BAND..=LAST_BAND).contains(&band)
}

pub fn price_in_range(price: u32) -> bool
    ensures { result ≡ price_in_range price }
{
    price <= MAX_PRICE
}

// Whether the amount is at most the limit, up or down.
pub fn within(amount: i64, limit: u64) -> bool
    ensures { result ≡ in_limit amount limit }
{
    amount.unsigned_abs() <= limit
}
