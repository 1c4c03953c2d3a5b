//! Trials of values and headers.

#[cfg(test)]
mod headers;
#[cfg(test)]
mod values;
