//! What tests assert. Each kind of assertion is proved once, here.

use cal_kinds::AnyCalendarKind;
use cal_rule::{RecurrenceRule, RuleError};
use std::alloc::{AllocError, Global};
use std::fmt::Debug;
use std::process::Abort;

/// That what was found in a case is as expected.
pub(super) fn assert_at<T: PartialEq + Debug + Copy>(
    rt: &impl Abort,
    case: &str,
    found: T,
    expected: T,
) {
    assert_eq!(rt; found, expected, "at {case}");
}

/// That two texts are the same rule.
pub(super) fn assert_same_rule(rt: &impl Abort, kind: AnyCalendarKind, text: &str, other: &str) {
    let found = RecurrenceRule::try_from_str(text, kind);
    assert_at(rt, text, found.is_ok(), true);
    let is_same = found == RecurrenceRule::try_from_str(other, kind);
    assert_at(rt, text, is_same, true);
}

/// That a text is no rule, and why.
pub(super) fn assert_error(
    rt: &impl Abort,
    kind: AnyCalendarKind,
    text: &str,
    expected: RuleError,
) {
    let found = RecurrenceRule::try_from_str(text, kind).err();
    assert_at(rt, text, found, Some(expected));
}

/// That a rule writes a text, which is read as the same rule.
pub(super) fn assert_writes(
    rt: &impl Abort,
    alloc: Global,
    kind: AnyCalendarKind,
    text: &str,
    expected: &str,
) -> Result<(), AllocError> {
    let found = RecurrenceRule::try_from_str(text, kind);
    assert_at(rt, text, found.is_ok(), true);
    if let Ok(rule) = found {
        let written = format!(in alloc; "{rule}")?;
        assert_at(rt, text, written.as_str(), expected);
        let again = RecurrenceRule::try_from_str(written.as_str(), kind);
        assert_at(rt, text, again == Ok(rule), true);
    }
    Ok(())
}
