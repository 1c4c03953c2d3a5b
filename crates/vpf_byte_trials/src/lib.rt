//! Trials of the crates on files, numbers, indexes of rows, printed text and findings, values and headers: no function but tests. They stand
//! apart, since a crate with tests is proved once more with them.
#![tactic(auto)]

mod cell_trials;
#[cfg(test)]
mod row_indexes;
#[cfg(test)]
mod same;
#[cfg(test)]
mod seen_findings;
#[cfg(test)]
mod sources;
#[cfg(test)]
mod words;
