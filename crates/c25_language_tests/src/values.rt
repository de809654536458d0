//! The comparison of what a test finds with what it wants.

use std::fmt::Debug;
use std::process::Abort;

/// Asserts that two values are equal. In a function of its own the assertion is proved once for all tests.
pub(crate) fn equal<T: PartialEq + Debug + Drop>(rt: &impl Abort, found: T, wanted: T) {
    assert_eq!(rt; found, wanted);
}
