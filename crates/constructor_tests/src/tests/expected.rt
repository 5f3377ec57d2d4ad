//! What tests assert. Each kind of assertion is proved once, here, and no test proves the printing of its values.

use std::fmt::Debug;
use std::process::Abort;

/// That something holds in a case.
pub(super) fn assert_holds(rt: &impl Abort, case: impl Debug + Copy, holds: bool) {
    assert!(rt; holds, "at {case:?}");
}
