//! Days of the week, sets of them, weekends and weeks of a month.

use crate::tests::expected::{assert_at, assert_day, assert_same};
use cal_days::RataDie;
use cal_types::{DayOfMonth, DayOfWeekInMonth, WeekInformation, Weekday, WeekdaySet};

#[test]
fn known_days_have_known_weekdays(rt: HostRuntime) {
    for &(number, want) in &[
        // 1992-09-02, 2000-01-01, 1969-12-31 and 0001-01-01.
        (727443, Weekday::Wednesday),
        (730120, Weekday::Saturday),
        (719162, Weekday::Wednesday),
        (1, Weekday::Monday),
        (0, Weekday::Sunday),
        (-1, Weekday::Saturday),
        (-6, Weekday::Monday),
    ] {
        assert_day(&rt, number);
        assert_at(&rt, number, Weekday::from(RataDie::new(number)), want);
        assert_at(
            &rt,
            number,
            Weekday::from_days_since_sunday(number as isize),
            want,
        );
    }
    assert_same(&rt, (Weekday::Monday as u8, Weekday::Sunday as u8), (1, 7));
}

#[test]
fn weekdays_are_numbered_from_monday_on(rt: HostRuntime) {
    for &(number, day) in &[
        (1, Weekday::Monday),
        (2, Weekday::Tuesday),
        (3, Weekday::Wednesday),
        (4, Weekday::Thursday),
        (5, Weekday::Friday),
        (6, Weekday::Saturday),
        (7, Weekday::Sunday),
    ] {
        assert_at(&rt, number, day.number(), number);
    }
}

#[test]
fn a_set_has_its_days_in_any_order(rt: HostRuntime) {
    let weekend = WeekdaySet::new(&[Weekday::Saturday, Weekday::Sunday]);
    let turned = WeekdaySet::new(&[Weekday::Sunday, Weekday::Saturday, Weekday::Sunday]);
    assert_same(&rt, weekend, turned);
    assert_same(&rt, weekend == WeekdaySet::new(&[Weekday::Saturday]), false);
    for &(name, day, is_in_it) in &[
        ("Monday", Weekday::Monday, false),
        ("Friday", Weekday::Friday, false),
        ("Saturday", Weekday::Saturday, true),
        ("Sunday", Weekday::Sunday, true),
    ] {
        assert_at(&rt, name, weekend.contains(day), is_in_it);
    }
    assert_same(&rt, WeekdaySet::new(&[]).contains(Weekday::Sunday), false);
}

#[test]
fn a_weekend_begins_with_the_first_of_its_days_in_the_week(rt: HostRuntime) {
    let weekend = WeekdaySet::new(&[Weekday::Saturday, Weekday::Sunday]);
    for &(first, days) in &[
        (Weekday::Sunday, [Weekday::Sunday, Weekday::Saturday]),
        (Weekday::Monday, [Weekday::Saturday, Weekday::Sunday]),
        (Weekday::Saturday, [Weekday::Saturday, Weekday::Sunday]),
    ] {
        let mut left = WeekInformation::new(first, weekend).weekend();
        assert_same(&rt, left.next(), Some(days[0]));
        assert_same(&rt, left.next(), Some(days[1]));
        assert_same(&rt, left.next(), None);
        assert_same(&rt, left.next(), None);
    }
}

#[test]
fn a_week_without_a_weekend_has_no_days_of_it(rt: HostRuntime) {
    let none = WeekdaySet::new(&[]);
    let mut left = WeekInformation::new(Weekday::Monday, none).weekend();
    assert_same(&rt, left.next(), None);
}

#[test]
fn a_weekday_comes_again_after_seven_days(rt: HostRuntime) {
    for &(day, want) in &[(0, 1), (1, 1), (7, 1), (8, 2), (31, 5), (255, 37)] {
        assert_at(
            &rt,
            day,
            DayOfWeekInMonth::from(DayOfMonth(day)),
            DayOfWeekInMonth(want),
        );
    }
}
