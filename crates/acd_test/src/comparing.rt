//! Comparing two values.

use std::fmt::Debug;
use std::process::Abort;

/// The two are the same. Where it is asked in many places, a proof of each takes less than with `assert_eq!`.
pub fn same<T: PartialEq + Debug>(rt: &impl Abort, left: &T, right: &T) {
    assert_eq!(rt; *left, *right);
}
