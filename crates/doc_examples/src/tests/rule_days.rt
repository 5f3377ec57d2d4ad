//! The examples of the docs: recurrence rules.

use super::over_any::hebrew::show_leap_month_forward;
use super::over_any::iso::show_last_fridays;
use icu_calendar::rules::RecurrenceRule;
use icu_calendar::{AnyCalendarKind, Hebrew, Iso};
use std::process::Abort;

/// The examples of [`last_fridays`].
fn show_fridays(rt: &impl Abort) -> Option<()> {
    let rule = RecurrenceRule::try_from_str("FREQ=MONTHLY;BYDAY=-1FR", AnyCalendarKind::Iso).ok()?;
    show_last_fridays(rt, Iso, rule)
}

#[test]
fn last_fridays(rt: HostRuntime) {
    assert!(rt; show_fridays(&rt).is_some());
}

/// The examples of [`leap_month_forward`].
fn show_leap_month(rt: &impl Abort) -> Option<()> {
    let rule = RecurrenceRule::try_from_str(
        "FREQ=YEARLY;BYMONTH=5L;SKIP=FORWARD",
        AnyCalendarKind::Hebrew,
    )
    .ok()?;
    show_leap_month_forward(rt, Hebrew, rule)
}

#[test]
fn leap_month_forward(rt: HostRuntime) {
    assert!(rt; show_leap_month(&rt).is_some());
}
