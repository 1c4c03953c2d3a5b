//! Trials of `run` that words and files can't say: each call of its tree and its sink fails in turn, tables of some megabytes, and the worked tables.
//! What a run answers
//! over files is told by the cases of vpf_cases.
#![tactic(auto)]

#[cfg(test)]
mod bytes;
#[cfg(test)]
mod faults;
#[cfg(test)]
mod same;
#[cfg(test)]
mod sizes;
#[cfg(test)]
mod testing;
#[cfg(test)]
mod worked;
