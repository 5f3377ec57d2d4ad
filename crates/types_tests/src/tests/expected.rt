//! What tests assert. Each kind of assertion is proved once, here, and no test proves the printing of its values.

ghost use Rattle.cal_days.specs.Day.{IsRuleYear, IsValidDay};

use std::alloc::{AllocError, Global};
use std::fmt::{Debug, Display};
use std::process::Abort;

/// That what was found is as expected.
pub(super) fn assert_same<T: PartialEq + Debug + Copy>(rt: &impl Abort, found: T, expected: T) {
    assert_eq!(rt; found, expected);
}

/// That what was found in a case is as expected.
pub(super) fn assert_at<T: PartialEq + Debug + Copy>(
    rt: &impl Abort,
    case: impl Debug + Copy,
    found: T,
    expected: T,
) {
    assert_eq!(rt; found, expected, "at {case:?}");
}

/// That something holds in a case.
pub(super) fn assert_holds(rt: &impl Abort, case: impl Debug + Copy, holds: bool) {
    assert!(rt; holds, "at {case:?}");
}

/// That a value prints a text.
pub(super) fn assert_prints(
    rt: &impl Abort,
    alloc: Global,
    value: &impl Display,
    expected: &str,
) -> Result<(), AllocError> {
    let text = format!(in alloc; "{value}")?;
    assert_same(rt, text.as_str(), expected);
    Ok(())
}

/// That each value prints the text beside it.
pub(super) fn assert_each_prints<T: Display>(
    rt: &impl Abort,
    alloc: Global,
    cases: &[(T, &str)],
) -> Result<(), AllocError> {
    for (value, expected) in cases {
        assert_prints(rt, alloc, value, expected)?;
    }
    Ok(())
}

/// That the rules have a year.
pub(super) fn assert_year(rt: &impl Abort, year: i32)
    ensures { IsRuleYear year }
{
    assert!(rt; -8000000 <= year && year <= 8000000);
}

/// That a day is valid.
pub(super) fn assert_day(rt: &impl Abort, number: i64)
    ensures { IsValidDay number }
{
    assert!(rt; -365242499 <= number && number <= 365242134);
}
