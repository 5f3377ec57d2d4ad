//! Differences of known days, that lead back.

ghost use Rattle.std.specs.Prelude.{◌≡◌, ◌<◌};

use crate::tests::sums::{Day, added_on};
use icu_calendar::{
    AnyCalendar, AnyCalendarKind, Date, DateAddOptions, DateDifferenceOptions, DateDuration,
    DateDurationUnit, Overflow, Steps,
};
use std::marker::Brand;
use std::process::Abort;
use std::sync::ledger::{Blank, Ledger};
use test_dates::{GREGORIAN, IN_DAYS, ISO, JULIAN, date_on, difference, duration};

/// The difference of two days; none where their calendars can't be compared.
fn between(from: Day, to: Day, largest_unit: Option<DateDurationUnit>) -> Option<DateDuration> {
    let from = date_on(from.1, from.0);
    let to = date_on(to.1, to.0);
    difference(&from, &to, DateDifferenceOptions { largest_unit })
}

#[test]
fn dates_of_two_calendars_have_no_difference(rt: HostRuntime) {
    let day = Some(duration(false, 0, 0, 0, 1));
    for &(first, second, want) in &[
        (ISO, GREGORIAN, None),
        (GREGORIAN, ISO, None),
        (JULIAN, GREGORIAN, None),
        (ISO, JULIAN, None),
        (ISO, ISO, day),
        (GREGORIAN, GREGORIAN, day),
        (JULIAN, JULIAN, day),
    ] {
        let found = between((first, 738156), (second, 738157), IN_DAYS.largest_unit);
        assert!(rt; found == want);
    }
}

#[test]
fn differences_are_known_durations(rt: HostRuntime) {
    use DateDurationUnit::{Months, Years};
    for &(calendar, first, second, unit, want) in &[
        // 2020-02-29 to 2021-02-28, and back.
        (ISO, 737484, 737849, Years, duration(false, 0, 11, 0, 30)),
        (
            GREGORIAN,
            737849,
            737484,
            Years,
            duration(true, 0, 11, 0, 28),
        ),
        (
            JULIAN,
            737497,
            737862,
            Months,
            duration(false, 0, 11, 0, 30),
        ),
    ] {
        let found = between((calendar, first), (calendar, second), Some(unit));
        assert!(rt; found == Some(want), "from {first}");
    }
}

/// The day number of a day with a difference to another added.
fn led_to(day: Day, difference: Option<DateDuration>) -> Option<i64> {
    let constrain = DateAddOptions {
        overflow: Some(Overflow::Constrain),
    };
    added_on(day, difference?, constrain).sum.ok()
}

/// That the difference of two days, added to the first, gives the second.
fn assert_leads_back(
    rt: &impl Abort,
    calendar: AnyCalendarKind,
    first: i64,
    second: i64,
    largest_unit: Option<DateDurationUnit>,
) {
    let length = between((calendar, first), (calendar, second), largest_unit);
    assert!(rt;
        led_to((calendar, first), length) == Some(second),
        "from {first} to {second}"
    );
}

/// That the differences lead back in each unit and calendar.
fn assert_all_lead_back(rt: &impl Abort, first: i64, second: i64) {
    use DateDurationUnit::{Days, Months, Weeks, Years};
    for &calendar in &[GREGORIAN, ISO, JULIAN] {
        for &unit in &[None, Some(Years), Some(Months), Some(Weeks), Some(Days)] {
            assert_leads_back(rt, calendar, first, second, unit);
        }
    }
}

#[test]
fn differences_lead_back(rt: HostRuntime) {
    for &(first, second) in &[
        (-365242499, 365242134),
        (365242134, -365242499),
        (-368, 300000000),
    ] {
        assert_all_lead_back(&rt, first, second);
    }
    for place in 0u8..100 {
        let place = i64::from(place);
        // Over the whole range, and within some centuries of one another.
        let first = place * 7300000 - 365142499;
        assert_all_lead_back(&rt, first, first + place * 7919 % 200000 - 100000);
        assert_all_lead_back(&rt, 737000 + place * 31, 738700 - place * 17);
    }
}

/// The difference of two dates by a counter that starts at 0.
fn counted<L: Ledger>(
    from: &Date<AnyCalendar<'static>>,
    to: &Date<AnyCalendar<'static>>,
    options: DateDifferenceOptions,
    blank: Blank,
) -> Option<DateDuration>
    requires name { blank.name ≡ L.name }
    requires parts { blank.parts ≡ L.parts }
    requires some { 0 < blank.parts }
{
    let mut steps = Steps::<L>::new(blank);
    from.until_counted(to, options, &mut steps).ok()
}

#[test]
fn counted_differences_are_the_same(rt: HostRuntime) {
    use DateDurationUnit::{Days, Months, Weeks, Years};
    for &(unit, want) in &[
        (None, duration(false, 0, 0, 0, 365)),
        (Some(Years), duration(false, 0, 11, 0, 30)),
        (Some(Months), duration(false, 0, 11, 0, 30)),
        (Some(Weeks), duration(false, 0, 0, 52, 1)),
        (Some(Days), duration(false, 0, 0, 0, 365)),
    ] {
        let from = date_on(737484, ISO);
        let to = date_on(737849, ISO);
        let options = DateDifferenceOptions { largest_unit: unit };
        let found = counted::<Brand>(&from, &to, options, Blank::new(1));
        assert!(rt; found == Some(want));
    }
}
