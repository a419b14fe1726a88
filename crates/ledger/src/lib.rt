// The block of a year: cells and account records, their limits, and what a bill adds to a cell.
#![tactic(auto)]

mod adding;
mod block;
mod checks;
mod clearing;
mod units;

pub use adding::add_bill;
pub use block::{AccountRecord, CELLS, Cell, Sums, VolumeAdjustment, cell_number};
pub use checks::{MAX_KWH, block_is_sound, counts_are_right};
pub use clearing::clear;
pub use units::{kwh_of, pence_of};
