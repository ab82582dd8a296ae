// What tests expect of a value: one call each, so that what is shown of a failure is proved once.

use std::fmt::Debug;
use std::process::Abort;

/// The test fails here unless the two are equal.
pub fn expect<T: PartialEq + Debug>(rt: &impl Abort, found: &T, wanted: &T) {
    assert_eq!(rt; found, wanted);
}

/// The same of a case of a table, which is told by what names it.
pub fn expect_at<T: PartialEq + Debug>(rt: &impl Abort, found: &T, wanted: &T, case: &impl Debug) {
    assert_eq!(rt; found, wanted, "{case:?}");
}
