// The adjustments of a year's two reconciliations, worked out from its block and a sheet. Nothing is written here.
#![tactic(auto)]

mod billed;
mod cells;
mod columns;
mod cost_lines;
mod costs;
mod fault;
mod in_range;
mod places;
mod pricing;
mod rows;
mod sheets;
mod signed;
mod volume_lines;
mod volumes;

pub use costs::{CostAdjustments, cost_adjustments};
pub use fault::ReconcileFault;
pub use sheets::{AreaRow, CostSheet};
pub use volumes::volume_adjustments;
