//! What tests assert. Each kind of assertion is proved once, here, and no test proves the printing of its values.

ghost use Rattle.cal_days.specs.Day.{IsValidDay};

use std::fmt::{Debug, Display};
use std::process::Abort;

/// That what was found is as expected.
pub(super) fn assert_same<T: PartialEq + Debug + Copy>(rt: &impl Abort, found: T, expected: T) {
    assert_eq!(rt; found, expected);
}

/// That what was found in a case is as expected.
pub(super) fn assert_at<T: PartialEq + Debug + Copy>(
    rt: &impl Abort,
    case: impl Debug + Copy,
    found: T,
    expected: T,
) {
    assert_eq!(rt; found, expected, "at {case:?}");
}

/// That something holds in a case.
pub(super) fn assert_holds(rt: &impl Abort, case: impl Debug + Copy, holds: bool) {
    assert!(rt; holds, "at {case:?}");
}

/// Fails a year where there is a fault in place of a date.
pub(super) fn refuse_fault(rt: &impl Abort, year: i32, cause: &impl Display) {
    assert!(rt; false, "{cause} at {year}");
}

/// That a day is valid.
pub(super) fn assert_day(rt: &impl Abort, number: i64)
    ensures { IsValidDay number }
{
    assert!(rt; -365242499 <= number && number <= 365242134);
}
