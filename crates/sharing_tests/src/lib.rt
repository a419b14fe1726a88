// Examples of rounding, sharing and refusals, run against figures worked out by hand.
#![tactic(auto)]

mod line;
mod own_line;
#[cfg(test)]
mod quotients;
#[cfg(test)]
mod refusals;
#[cfg(test)]
mod shares;
