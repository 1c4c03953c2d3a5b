//! Trials of what no command reaches of the crates on tables, thematic indexes, darts and features: no function but tests. They stand apart, since a crate
//! with tests is proved once more with them.
#![tactic(auto)]

mod dart_trials;
mod feature_trials;
#[cfg(test)]
mod lists;
#[cfg(test)]
mod same;
#[cfg(test)]
mod tables;
