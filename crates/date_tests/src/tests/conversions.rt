//! Days of known dates, there and back.

use crate::tests::expected::assert_holds;
use icu_calendar::{
    AnyCalendar, AnyCalendarKind, AsCalendar, Calendar, Date, DateDuration, DateFromFieldsError,
    Iso, Julian, RataDie, Ref,
};
use std::process::Abort;
use test_dates::{
    GREGORIAN, IN_DAYS, ISO, JULIAN, calendar_of, date_named, date_on, duration, has_parts,
    has_parts_in, is_in_year, is_named, number_in, number_of, parts_of, shown_in,
};

/// That a date is February 29, 2020 of the ISO calendar, and says so.
fn assert_leap_day<A: AsCalendar>(rt: &impl Abort, date: &Date<A>)
where
    A::Calendar: Calendar,
{
    let code = date.month().standard_code;
    assert_holds(rt, "the parts", has_parts_in(date, 737484, 2020, 2, 29));
    assert_holds(rt, "the year", is_in_year(date, 2020, "default", 2020));
    assert_holds(rt, "the month", code.0.as_str() == "M02");
}

/// What is wrong with a year, a plain month and a day in a calendar.
fn fault_of<A: AsCalendar>(
    year: i32,
    month: u8,
    day: u8,
    calendar: A,
) -> Option<DateFromFieldsError>
where
    A::Calendar: Calendar,
{
    match date_named(year, month, day, calendar) {
        Ok(_) => None,
        Err(cause) => Some(cause),
    }
}

/// The day of an ISO date in the calendar of a kind.
fn iso_shown_in(date: &Date<Iso>, kind: AnyCalendarKind) -> Date<AnyCalendar<'static>> {
    date.to_calendar(calendar_of(kind))
}

#[test]
fn date_says_its_year_month_and_day(rt: HostRuntime) {
    match date_named(2020, 2, 29, Iso) {
        Ok(date) => {
            assert_leap_day(&rt, &date);
            assert!(rt; has_parts(&iso_shown_in(&date, ISO), 737484, 2020, 2, 29));
        }
        Err(cause) => assert_holds(&rt, cause, false),
    }
    let fault = fault_of(2021, 2, 29, Iso);
    assert!(rt; fault == Some(DateFromFieldsError::InvalidDay { max: 28 }));
}

/// That a date is of this day, has this extended year, ordinal month and day, and is in this year of an era.
fn assert_known(
    rt: &impl Abort,
    date: &Date<AnyCalendar<'_>>,
    number: i64,
    (extended_year, month, day_of_month): (i32, u8, u8),
    (era, year): (&str, i32),
) {
    let has_parts = has_parts(date, number, extended_year, month, day_of_month);
    assert_holds(rt, number, has_parts);
    assert_holds(rt, number, is_named(date, extended_year, era, year));
}

#[test]
fn known_days_have_known_dates(rt: HostRuntime) {
    for &(calendar, number, parts, named) in &[
        (ISO, 738156, (2022, 1, 1), ("default", 2022)),
        (JULIAN, 738156, (2021, 12, 19), ("ce", 2021)),
        (GREGORIAN, 1155, (4, 2, 29), ("ce", 4)),
        (JULIAN, -368, (-1, 12, 31), ("bce", 2)),
    ] {
        assert_known(&rt, &date_on(number, calendar), number, parts, named);
    }
}

/// That a date is of this day, and has the parts of another one.
fn assert_parts_of(
    rt: &impl Abort,
    date: &Date<AnyCalendar<'_>>,
    number: i64,
    other: &Date<AnyCalendar<'_>>,
) {
    let (extended_year, month, day_of_month) = parts_of(other);
    let has_parts = has_parts(date, number, extended_year, month, day_of_month);
    assert_holds(rt, number, has_parts);
}

/// That a date of the first calendar is the same once it was shown in the second.
fn assert_there_and_back(
    rt: &impl Abort,
    number: i64,
    first: AnyCalendarKind,
    second: AnyCalendarKind,
) {
    let date = date_on(number, first);
    let there = shown_in(&date, second);
    assert_holds(rt, number, number_of(&there) == number);
    let back = shown_in(&there, first);
    assert_parts_of(rt, &back, number, &date);
}

#[test]
fn dates_come_back_from_each_calendar(rt: HostRuntime) {
    for &number in &[-365242499, -368, -1, 0, 1, 1155, 577735, 738156, 365242134] {
        for &first in &[GREGORIAN, ISO, JULIAN] {
            for &second in &[GREGORIAN, ISO, JULIAN] {
                assert_there_and_back(&rt, number, first, second);
            }
        }
    }
}

/// The day number of the date that a calendar has for a day.
fn number_from<A: AsCalendar>(rt: &impl Abort, number: i64, calendar: A) -> i64
where
    A::Calendar: Calendar,
{
    assert!(rt; -400000000 <= number && number <= 400000000);
    number_in(&Date::from_rata_die(RataDie::new(number), calendar))
}

#[test]
fn days_out_of_range_are_clamped(rt: HostRuntime) {
    for &(number, want) in &[
        (365242135, 365242134),
        (-365342499, -365242499),
        (365242134, 365242134),
        (-365242499, -365242499),
    ] {
        assert_holds(&rt, number, number_from(&rt, number, Iso) == want);
    }
}

/// The difference of two days in turn, of which the first is December 19, 2021 of the Julian calendar, which its date
/// borrows.
fn difference_of_days<A: AsCalendar>(
    rt: &impl Abort,
    calendar: &A,
    owned: A,
) -> Option<DateDuration>
where
    A::Calendar: Calendar,
{
    let date = Date::from_rata_die(RataDie::new(738156), Ref(calendar));
    let next = Date::from_rata_die(RataDie::new(738157), owned);
    assert_holds(rt, "the first", has_parts_in(&date, 738156, 2021, 12, 19));
    date.try_until_with_options(&next, IN_DAYS).ok()
}

#[test]
fn a_date_may_borrow_its_calendar(rt: HostRuntime) {
    let calendar = Julian;
    let between = difference_of_days(&rt, &calendar, Julian);
    assert!(rt; between == Some(duration(false, 0, 0, 0, 1)));
}
