// Tests of reading: records written out by hand, damaged in one place or several.
#![tactic(auto)]

#[cfg(test)]
mod accepted;
#[cfg(test)]
mod batches;
#[cfg(test)]
mod damaged;
#[cfg(test)]
mod samples;
