//! Which dates are equal, and which are ordered.

use crate::tests::expected::assert_holds;
use icu_calendar::{AnyCalendarKind, AnyDateInner, Calendar};
use std::process::Abort;
use test_dates::{GREGORIAN, ISO, JULIAN, calendar_of, day};

/// The date of a day number as the calendar of a kind keeps it.
fn kept_on(number: i64, kind: AnyCalendarKind) -> AnyDateInner<'static> {
    calendar_of(kind).from_rata_die(day(number))
}

/// That the dates of two days are equal and ordered as the days are, where they are of one calendar, and
/// otherwise neither equal nor ordered.
fn assert_order(
    rt: &impl Abort,
    days: (i64, i64),
    calendars: (AnyCalendarKind, AnyCalendarKind),
    is_same: bool,
) {
    let first = kept_on(days.0, calendars.0);
    let second = kept_on(days.1, calendars.1);
    let order = if is_same {
        Some(days.0.cmp(&days.1))
    } else {
        None
    };
    let is_equal = is_same && days.0 == days.1;
    assert_holds(rt, days, first.partial_cmp(&second) == order);
    assert_holds(rt, days, (first == second) == is_equal);
}

#[test]
fn dates_are_compared_in_one_calendar_alone(rt: HostRuntime) {
    let calendars = [(0, GREGORIAN), (1, ISO), (2, JULIAN)];
    for &(place, calendar) in &calendars {
        for &(other_place, other) in &calendars {
            for &days in &[
                (1, 1),
                (1, 2),
                (2, 1),
                (-368, -365242499),
                (738156, 365242134),
            ] {
                assert_order(&rt, days, (calendar, other), place == other_place);
            }
        }
    }
}
