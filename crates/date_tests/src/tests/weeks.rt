//! Weeks of years, and Easter.

use crate::tests::expected::assert_holds;
use icu_calendar::{Date, Iso, easter_gregorian, easter_julian};
use test_dates::{day, number_in};

/// Whether the ISO date of a day is in this week of this year.
fn is_in_week(number: i64, year: i32, week: u8) -> bool {
    let found = Date::from_rata_die(day(number), Iso).week_of_year();
    found.iso_year == year && found.week_number == week
}

/// The weeks are those of the examples that ISO 8601 and its Wikipedia article give, and those of Python's isocalendar.
#[test]
fn weeks_are_numbered_by_their_thursdays(rt: HostRuntime) {
    for &(day, year, week) in &[
        (737791, 2020, 53),
        (737794, 2021, 1),
        (738946, 2024, 9),
        (733041, 2008, 1),
        (733040, 2007, 52),
        (733772, 2009, 53),
        (733775, 2009, 53),
        (733776, 2010, 1),
        (1, 1, 1),
        (0, 0, 52),
        (-365242499, -999999, 1),
        (365242134, 999999, 52),
    ] {
        assert_holds(&rt, day, is_in_week(day, year, week));
    }
}

#[test]
fn easter_is_on_known_days(rt: HostRuntime) {
    assert!(rt; number_in(&easter_gregorian(2024)) == 738976);
    assert!(rt; number_in(&easter_julian(2024)) == 739011);
    assert!(rt; number_in(&easter_gregorian(i32::MIN)) == -365242499);
    assert!(rt; number_in(&easter_julian(i32::MAX)) == 365242134);
}
