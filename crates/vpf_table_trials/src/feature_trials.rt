//! Trials of feature classes, over tables in memory.

#[cfg(test)]
mod feature_files;
#[cfg(test)]
mod keys;
#[cfg(test)]
mod same;
