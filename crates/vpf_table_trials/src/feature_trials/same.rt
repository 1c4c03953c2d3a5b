//! What the trials compare values with.

use std::fmt::Debug;
use std::process::Abort;

/// Ends the trial unless both values are the same, and tells them with the case. A trial that calls it is proved in a fraction of the time that it takes
/// with `assert_eq!` in its place.
pub fn same<T: PartialEq + Debug + Drop, C: Debug + Drop>(
    rt: &impl Abort,
    got: T,
    want: T,
    case: C,
) {
    assert_eq!(rt; got, want, "{case:?}");
}
