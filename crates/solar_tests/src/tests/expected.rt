//! What tests assert. Each kind of assertion is proved once, here, and no test proves the printing of its values.

ghost use Rattle.std.specs.Prelude.{◌≤◌};
ghost use Rattle.cal_days.specs.Day.{IsFieldYear, IsValidDay};

use std::fmt::{Debug, Display};
use std::process::Abort;

/// That what was found is as expected.
pub(super) fn assert_same<T: PartialEq + Debug + Copy>(rt: &impl Abort, found: T, expected: T) {
    assert_eq!(rt; found, expected);
}

/// That what was found in a case is as expected.
pub(super) fn assert_at<T: PartialEq + Debug + Copy>(
    rt: &impl Abort,
    case: impl Debug + Copy,
    found: T,
    expected: T,
) {
    assert_eq!(rt; found, expected, "at {case:?}");
}

/// That something holds in a case.
pub(super) fn assert_holds(rt: &impl Abort, case: impl Debug + Copy, holds: bool) {
    assert!(rt; holds, "at {case:?}");
}

/// Fails a year where there is a fault in place of a date.
pub(super) fn refuse_fault(rt: &impl Abort, year: i32, cause: &impl Display) {
    assert!(rt; false, "{cause} at {year}");
}

/// That a day is valid.
pub(super) fn assert_day(rt: &impl Abort, number: i64)
    ensures { IsValidDay number }
{
    assert!(rt; -365242499 <= number && number <= 365242134);
}

/// That a date may be packed: its year is one from -1040000 to 1040000, its month has a place from 1 to 13, and its
/// day a number from 1 to 31.
pub(super) fn assert_packable(rt: &impl Abort, year: i32, month: u8, day: u8)
    ensures year { IsFieldYear year }
    ensures month { (1 ≤ month) × (month ≤ 13) }
    ensures day { (1 ≤ day) × (day ≤ 31) }
{
    assert!(rt; -1040000 <= year && year <= 1040000);
    assert!(rt; 1 <= month && month <= 13);
    assert!(rt; 1 <= day && day <= 31);
}
