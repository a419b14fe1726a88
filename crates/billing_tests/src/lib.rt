// Examples of bills: tables, books and records written out by hand, and figures worked out by hand from the rules.
#![tactic(auto)]

#[cfg(test)]
mod expected;
#[cfg(test)]
mod metered;
#[cfg(test)]
mod modelled;
#[cfg(test)]
mod refused;
#[cfg(test)]
mod tables;
