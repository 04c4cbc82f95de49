//! Comparisons over many cases, as functions: a test's proof then has a call where `assert_eq!` would write its comparison
//! and its message out. One that fails names the line of the call, the case, and both values.

use std::fmt::Debug;
use std::process::Abort;

/// Both values are the same in this case.
pub(crate) fn same<T: PartialEq + Debug, C: Debug>(rt: &impl Abort, got: &T, want: &T, case: &C) {
    assert_eq!(rt; *got, *want, "{case:?}");
}

/// It holds in this case.
pub(crate) fn holds<C: Debug>(rt: &impl Abort, held: bool, case: &C) {
    assert!(rt; held, "{case:?}");
}
