//! Comparison of values in tests.

use std::fmt::Debug;
use std::process::Abort;

/// Fails unless what was found is what is wanted. In a function of its own the assertion is proved once for
/// all tests.
pub(crate) fn equal<T: PartialEq + Debug + Drop>(rt: &impl Abort, found: T, wanted: T) {
    assert_eq!(rt; found, wanted);
}
