//! What dates say of their year, month and day, and how they are written.

use crate::tests::expected::assert_holds;
use icu_calendar::{AsCalendar, Calendar, Date, Iso, RataDie, Weekday};
use std::alloc::{AllocError, Global};
use std::process::Abort;
use test_dates::{GREGORIAN, ISO, JULIAN, date_on};

/// That a date is on this day of the week and of the year, has these days in its month and in its year, and is in
/// a leap year or not; the year has twelve months.
fn assert_placed<A: AsCalendar>(
    rt: &impl Abort,
    date: &Date<A>,
    (weekday, day_of_year): (Weekday, u16),
    (days_in_month, days_in_year): (u8, u16),
    is_leap: bool,
)
where
    A::Calendar: Calendar,
{
    assert_holds(rt, "the day of the week", date.weekday() == weekday);
    assert_holds(
        rt,
        "the day of the year",
        date.day_of_year().0 == day_of_year,
    );
    assert_holds(
        rt,
        "the days of the month",
        date.days_in_month() == days_in_month,
    );
    assert_holds(
        rt,
        "the days of the year",
        date.days_in_year() == days_in_year,
    );
    assert_holds(rt, "the leap year", date.is_in_leap_year() == is_leap);
    assert_holds(rt, "the months of the year", date.months_in_year() == 12);
}

#[test]
fn dates_say_their_place_in_year_month_and_week(rt: HostRuntime) {
    use Weekday::{Friday, Saturday, Tuesday, Wednesday};
    for &(calendar, number, weekday, day_of_year, days_in_month, days_in_year, is_leap) in &[
        // 1992-09-02, 2020-02-29, 2021-12-31 and -0001-12-31.
        (ISO, 727443, Wednesday, 246, 30, 366, true),
        (GREGORIAN, 737484, Saturday, 60, 29, 366, true),
        (ISO, 738155, Friday, 365, 31, 365, false),
        (GREGORIAN, -366, Friday, 365, 31, 365, false),
        // 1900-02-29 and 1752-09-02.
        (JULIAN, 693667, Tuesday, 60, 29, 366, true),
        (JULIAN, 639796, Wednesday, 246, 30, 366, true),
    ] {
        let date = date_on(number, calendar);
        let place = (weekday, day_of_year);
        let lengths = (days_in_month, days_in_year);
        assert_placed(&rt, &date, place, lengths, is_leap);
    }
}

/// That a date is written like this by its Debug.
fn assert_written<A: AsCalendar>(
    rt: &impl Abort,
    alloc: Global,
    date: &Date<A>,
    want: &str,
) -> Result<(), AllocError>
where
    A::Calendar: Calendar,
{
    let text = format!(in alloc; "{date:?}")?;
    assert_holds(rt, want, text.as_str() == want);
    Ok(())
}

#[test]
fn dates_are_written_with_era_and_calendar(rt: HostRuntime) -> Result<(), AllocError> {
    for &(calendar, number, want) in &[
        (
            ISO,
            737484,
            "Date(2020-2-29, default era, for calendar AnyCalendar (Iso))",
        ),
        (
            GREGORIAN,
            -366,
            "Date(2-12-31, bce era, for calendar AnyCalendar (Gregorian))",
        ),
        (
            JULIAN,
            639796,
            "Date(1752-9-2, ce era, for calendar AnyCalendar (Julian))",
        ),
    ] {
        assert_written(&rt, rt.alloc(), &date_on(number, calendar), want)?;
    }
    assert_written(
        &rt,
        rt.alloc(),
        &Date::from_rata_die(RataDie::new(737484), Iso),
        "Date(2020-2-29, default era, for calendar ISO)",
    )
}
