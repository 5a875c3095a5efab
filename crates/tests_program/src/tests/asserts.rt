//! Assertions that are functions: what calls them has no branch for each, and so a shorter proof.

use std::fmt::Debug;
use std::process::Abort;
use std::str;

/// Aborts with both values where they differ.
pub(crate) fn assert_equal<T: PartialEq + Debug + Drop>(rt: &impl Abort, got: T, want: T) {
    assert_eq!(rt; got, want);
}

/// The same, which also prints what they were tried at.
pub(crate) fn assert_equal_at<T: PartialEq + Debug + Drop, C: Debug + Drop>(
    rt: &impl Abort,
    got: T,
    want: T,
    case: C,
) {
    assert_eq!(rt; got, want, "at {case:?}");
}

/// Aborts with both outputs where they differ: as text, where they are text.
pub(crate) fn assert_output(rt: &impl Abort, got: &[u8], want: &[u8]) {
    match (str::from_utf8(got), str::from_utf8(want)) {
        (Ok(got), Ok(want)) => assert_eq!(rt; got, want),
        _ => assert_eq!(rt; got, want),
    }
}
