//! How a run ends where nothing stops it.

/// How a run ends where nothing stops it.
#[derive(Clone, Copy, Debug, PartialEq, Eq)]
pub enum Verdict {
    /// What was asked is done.
    Done,
    /// The files don't allow it.
    Refused,
    /// The words are no command.
    Usage,
    /// A bound is passed.
    Limit,
}
