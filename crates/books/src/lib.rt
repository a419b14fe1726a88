// Books: what prices an account pays, and what stands in for a missing reading.
#![tactic(auto)]

mod answers;
mod blended;
mod book;
mod fault;
mod quotient;
mod rate;
mod speed;
mod table;
#[cfg(test)]
mod tests;

pub use answers::{Prices, SlotValues};
pub use blended::BlendedTariff;
pub use book::{InfillBook, TariffBook};
pub use fault::FigureFault;
pub use rate::RateInfill;
pub use speed::Speed;
pub use table::{TableBook, TableInfill, TableTariff};
