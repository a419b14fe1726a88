// Ordered lists of the lines that tables of rates and prices are made of.
#![tactic(auto)]

mod category;
mod fault;
mod infill;
mod kinds;
mod line;
mod list;
mod loss;
mod position;
mod tables;
mod tariff;
#[cfg(test)]
mod tests;

pub use category::CategoryLine;
pub use fault::ListFault;
pub use infill::InfillLine;
pub use kinds::{Electricity, MeteredKind, UnitKind};
pub use line::Line;
pub use list::OrderedList;
pub use loss::LossLine;
pub use tables::{find_category, find_infill, find_loss, find_tariff};
pub use tariff::TariffLine;
