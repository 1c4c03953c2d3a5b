//! Trials of darts, copies and the files of the grid.

#[cfg(test)]
mod copies;
#[cfg(test)]
mod darts;
#[cfg(test)]
mod grid_files;
#[cfg(test)]
mod same;
