//! The assertions of the tests. Each kind is proved once, here, so no test proves how its values are printed.

ghost use Rattle.cal_days.specs.Day.{IsRuleYear, IsValidDay};

use std::fmt::Debug;
use std::process::Abort;

/// Asserts that a value is as expected.
pub(super) fn assert_same<T: PartialEq + Debug + Copy>(rt: &impl Abort, found: T, expected: T) {
    assert_eq!(rt; found, expected);
}

/// Asserts that a value is as expected, and names the case.
pub(super) fn assert_at<T: PartialEq + Debug + Copy>(
    rt: &impl Abort,
    case: impl Debug + Copy,
    found: T,
    expected: T,
) {
    assert_eq!(rt; found, expected, "at {case:?}");
}

/// Asserts that something holds, and names the case.
pub(super) fn assert_holds(rt: &impl Abort, case: impl Debug + Copy, holds: bool) {
    assert!(rt; holds, "at {case:?}");
}

/// Asserts that a day is valid.
pub(super) fn assert_day(rt: &impl Abort, number: i64)
    ensures { IsValidDay number }
{
    assert!(rt; -365242499 <= number && number <= 365242134);
}

/// Asserts that a year is in the range of the rules.
pub(super) fn assert_year(rt: &impl Abort, year: i32)
    ensures { IsRuleYear year }
{
    assert!(rt; -8000000 <= year && year <= 8000000);
}
