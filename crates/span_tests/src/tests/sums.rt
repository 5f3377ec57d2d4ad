//! Sums of known days, and dates that a refused addition leaves as they are.

use icu_calendar::{
    AnyCalendarKind, AsCalendar, Calendar, Date, DateAddError, DateAddOptions, DateDuration,
    Overflow,
};
use std::process::Abort;
use test_dates::{GREGORIAN, ISO, JULIAN, date_on, duration, number_in, parts_in};

/// The day number of the sum of a date and a duration, or why there is none.
fn day_of_sum<A: AsCalendar>(
    date: Date<A>,
    added: DateDuration,
    options: DateAddOptions,
) -> Result<i64, DateAddError>
where
    A::Calendar: Calendar,
{
    match date.try_added_with_options(added, options) {
        Ok(sum) => Ok(number_in(&sum)),
        Err(cause) => Err(cause),
    }
}

/// A date after a duration was added to it in place, and why it was not.
fn moved<A: AsCalendar>(
    mut date: Date<A>,
    added: DateDuration,
    options: DateAddOptions,
) -> (Date<A>, Option<DateAddError>)
where
    A::Calendar: Calendar,
{
    let refusal = date.try_add_with_options(added, options).err();
    (date, refusal)
}

/// A day number in the calendar of a kind.
pub(super) type Day = (AnyCalendarKind, i64);

/// What the sum of a date and a duration is, why it was refused in place, and the day number and the parts that are
/// left.
#[derive(Clone, Copy)]
pub(super) struct Added {
    pub(super) sum: Result<i64, DateAddError>,
    refusal: Option<DateAddError>,
    left: i64,
    parts: (i32, u8, u8),
}

/// What comes of a duration that is added to a date, and to the same date in place.
fn added_to<A: AsCalendar>(
    date: Date<A>,
    same: Date<A>,
    added: DateDuration,
    options: DateAddOptions,
) -> Added
where
    A::Calendar: Calendar,
{
    let sum = day_of_sum(date, added, options);
    let (left, refusal) = moved(same, added, options);
    Added {
        sum,
        refusal,
        left: number_in(&left),
        parts: parts_in(&left),
    }
}

/// What comes of a duration that is added to a day.
pub(super) fn added_on(
    (calendar, number): Day,
    added: DateDuration,
    options: DateAddOptions,
) -> Added {
    let date = date_on(number, calendar);
    let same = date_on(number, calendar);
    added_to(date, same, added, options)
}

/// Whether an addition has this sum, or is refused and leaves the day of this number.
fn comes_to(found: &Added, number: i64, want: Result<i64, DateAddError>) -> bool {
    found.sum == want && found.refusal == want.err() && found.left == want.unwrap_or(number)
}

/// That a day and a duration have this sum, or are refused and leave the day as it is; answers the parts that are left.
fn assert_sum(
    rt: &impl Abort,
    day: Day,
    added: DateDuration,
    overflow: Option<Overflow>,
    want: Result<i64, DateAddError>,
) -> (i32, u8, u8) {
    let found = added_on(day, added, DateAddOptions { overflow });
    assert!(rt; comes_to(&found, day.1, want), "from {}", day.1);
    found.parts
}

#[test]
fn sums_past_the_last_day_are_refused(rt: HostRuntime) {
    for &added in &[
        duration(false, 0, 0, 0, 1),
        duration(false, 2080001, 0, 0, 0),
        duration(false, 0, 0, 4294967295, 0),
    ] {
        let past = Err(DateAddError::Overflow);
        let parts = assert_sum(&rt, (ISO, 365242134), added, None, past);
        assert!(rt; parts == (999999, 12, 31));
    }
}

#[test]
fn sums_are_known_days(rt: HostRuntime) {
    let (year, month) = (duration(false, 1, 0, 0, 0), duration(false, 0, 1, 0, 0));
    let no_leap_day = DateAddError::InvalidDay { max: 28 };
    for &(calendar, number, added, overflow, want) in &[
        // 2020-02-29 and a year: 2021-02-28.
        (ISO, 737484, year, None, Ok(737849)),
        (
            GREGORIAN,
            737484,
            year,
            Some(Overflow::Constrain),
            Ok(737849),
        ),
        (ISO, 737484, year, Some(Overflow::Reject), Err(no_leap_day)),
        // 2021-01-31 and a month: 2021-02-28.
        (JULIAN, 737834, month, None, Ok(737862)),
        (
            JULIAN,
            737834,
            month,
            Some(Overflow::Reject),
            Err(no_leap_day),
        ),
    ] {
        assert_sum(&rt, (calendar, number), added, overflow, want);
    }
}
