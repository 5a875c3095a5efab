//! Assertions that are functions: what calls them has no branch for each, and so a shorter proof.

use std::fmt::Debug;
use std::process::Abort;

/// Aborts with both values where they differ.
pub(crate) fn assert_equal<T: PartialEq + Debug + Drop>(rt: &impl Abort, got: T, want: T) {
    assert_eq!(rt; got, want);
}

/// The same, which also prints what they were tried at.
pub(crate) fn assert_equal_at<T: PartialEq + Debug + Drop, C: Debug + Drop>(
    rt: &impl Abort,
    got: T,
    want: T,
    case: C,
) {
    assert_eq!(rt; got, want, "at {case:?}");
}
