// Units, ranges, rounding and the shape of a refusal: what every layer above speaks of.
#![tactic(auto)]

mod divisor;
mod fault;
mod printed;
mod quotient;
mod ranges;
mod refusal;

pub use divisor::Divisor;
pub use fault::Fault;
pub use quotient::{cut, rounded};
pub use ranges::{
    ACCOUNTS, AREAS, FIRST_BAND, INFRASTRUCTURE_MANAGER, LAST_BAND, MAX_PRICE, account_exists,
    area_exists, band_exists, price_in_range, within,
};
pub use refusal::{Layer, Refusal};
