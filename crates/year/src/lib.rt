// A year from opening to statements.
#![tactic(auto)]

mod cost;
mod entering;
mod opening;
mod posting;
mod statement;
mod states;
mod volume;
mod writing;

pub use states::{OpenYear, SettledYear, VolumeSettledYear};
