//! Recurrences with known days.

ghost use Rattle.std.specs.Prelude.{◌≡◌, ◌<◌, IsTrue};
ghost use Rattle.cal_days.specs.Day.{IsValidDay};

mod expected;
mod published;

use cal_arith::Steps;
use cal_base::{Calendar, Iso};
use cal_days::RataDie;
use cal_hebrew::Hebrew;
use cal_recur::{
    Missing, Occurrence, Recurrence, Rule, first_index_counted, occurrence_counted, recur,
};
use cal_types::{DateDurationUnit, Window};
use expected::{assert_at, assert_day, assert_same};
use std::marker::Brand;
use std::process::Abort;
use std::sync::ledger::{Blank, Ledger};

/// Creates a rule.
fn rule_of(rt: &impl Abort, unit: DateDurationUnit, every: u32, missing: Missing) -> Rule {
    let found = Rule::try_new(unit, every, missing);
    assert!(rt; found.is_some());
    match found {
        Some(rule) => rule,
        None => unreachable!(),
    }
}

/// Creates the window from one day to another.
fn window_of(rt: &impl Abort, first: i64, last: i64) -> Window {
    assert_day(rt, first);
    assert_day(rt, last);
    let found = Window::try_new(RataDie::new(first), RataDie::new(last));
    assert!(rt; found.is_some());
    match found {
        Some(window) => window,
        None => unreachable!(),
    }
}

/// Returns the index and the day number of an item.
fn parts(item: Option<Occurrence>) -> Option<(u32, i64)> {
    let it = item?;
    Some((it.index, it.day.to_i64_date()))
}

/// Asserts that a recurrence has exactly these items.
fn assert_items<C: Calendar + Copy>(
    rt: &impl Abort,
    mut items: Recurrence<C>,
    expected: &[(u32, i64)],
) {
    for (index, day) in expected {
        assert_same(rt, parts(items.next()), Some((*index, *day)));
    }
    assert_same(rt, items.next(), None);
    assert_same(rt, items.rest(), None);
}

/// Asserts that a rule has exactly these items in a window, in one calendar.
fn assert_listed<C: Calendar + Copy>(
    rt: &impl Abort,
    calendar: C,
    start: i64,
    rule: Rule,
    ends: (i64, i64),
    expected: &[(u32, i64)],
) {
    assert_day(rt, start);
    let date = calendar.from_rata_die(RataDie::new(start));
    let window = window_of(rt, ends.0, ends.1);
    assert_items(rt, recur(calendar, date, rule, window), expected);
}

#[test]
fn the_last_days_of_months(rt: HostRuntime) {
    let rule = rule_of(&rt, DateDurationUnit::Months, 1, Missing::Constrain);
    let all = [(0, 737821), (1, 737849), (2, 737880), (3, 737910)];
    assert_listed(&rt, Iso, 737821, rule, (737821, 737910), &all);
    let skip = rule_of(&rt, DateDurationUnit::Months, 1, Missing::Skip);
    assert_listed(
        &rt,
        Iso,
        737821,
        skip,
        (737821, 737910),
        &[(0, 737821), (2, 737880)],
    );
}

#[test]
fn a_day_in_a_leap_month(rt: HostRuntime) {
    let skip = rule_of(&rt, DateDurationUnit::Years, 1, Missing::Skip);
    let all = [(0, 738197), (2, 738935), (5, 740029)];
    assert_listed(&rt, Hebrew, 738197, skip, (738000, 740029), &all);
    let rule = rule_of(&rt, DateDurationUnit::Years, 1, Missing::Constrain);
    let later = [(1, 738582), (2, 738935)];
    assert_listed(&rt, Hebrew, 738197, rule, (738198, 738935), &later);
}

#[test]
fn what_makes_no_rule_and_no_window(rt: HostRuntime) {
    assert_same(
        &rt,
        Rule::try_new(DateDurationUnit::Days, 0, Missing::Skip),
        None,
    );
    assert_same(&rt, Window::try_new(RataDie::new(2), RataDie::new(1)), None);
    assert_same(
        &rt,
        Window::try_new(RataDie::new(-365242500), RataDie::new(1)),
        None,
    );
    assert_same(
        &rt,
        Window::try_new(RataDie::new(1), RataDie::new(365242135)),
        None,
    );
}

/// Returns the first index on or after a day, and the day of the occurrence with an index.
fn found<C: Calendar, L: Ledger>(
    calendar: &C,
    start: i64,
    rule: Rule,
    day: i64,
    index: u32,
    blank: Blank,
) -> (Option<u32>, Option<i64>)
    requires from { IsValidDay start }
    requires to { IsValidDay day }
    requires name { blank.name ≡ L.name }
    requires parts { blank.parts ≡ L.parts }
    requires some { 0 < blank.parts }
{
    let start = calendar.from_rata_die(RataDie::new(start));
    let mut steps = Steps::<L>::new(blank);
    let first = first_index_counted(calendar, &start, rule, RataDie::new(day), &mut steps);
    let on = occurrence_counted(calendar, &start, rule, index, &mut steps);
    (first, on.map(|it| it.to_i64_date()))
}

/// Asserts the first index on or after a day, and the day of the occurrence with an index.
fn assert_found<C: Calendar>(
    rt: &impl Abort,
    calendar: &C,
    start: i64,
    rule: Rule,
    at: (i64, u32),
    expected: (Option<u32>, Option<i64>),
) {
    assert_day(rt, start);
    assert_day(rt, at.0);
    let answer = found::<C, Brand>(calendar, start, rule, at.0, at.1, Blank::new(1));
    assert_same(rt, answer, expected);
}

#[test]
fn the_first_index(rt: HostRuntime) {
    let months = rule_of(&rt, DateDurationUnit::Months, 1, Missing::Constrain);
    for &(day, first) in &[(737850, 2), (737849, 1), (737821, 0), (-365242499, 0)] {
        let expected = (Some(first), Some(737849));
        assert_found(&rt, &Iso, 737821, months, (day, 1), expected);
    }
}

/// Asserts that a rule has no occurrence after a start ten days before the last valid day.
fn assert_alone(rt: &impl Abort, unit: DateDurationUnit, every: u32) {
    let rule = rule_of(rt, unit, every, Missing::Constrain);
    assert_found(rt, &Iso, 365242124, rule, (365242125, 1), (None, None));
    assert_found(rt, &Iso, 365242124, rule, (365242124, 2), (Some(0), None));
}

#[test]
fn past_the_last_valid_day(rt: HostRuntime) {
    assert_alone(&rt, DateDurationUnit::Days, 11);
    assert_alone(&rt, DateDurationUnit::Weeks, 2);
    assert_alone(&rt, DateDurationUnit::Months, 1);
    assert_alone(&rt, DateDurationUnit::Years, 1);
    for &unit in &[
        DateDurationUnit::Days,
        DateDurationUnit::Weeks,
        DateDurationUnit::Months,
        DateDurationUnit::Years,
    ] {
        assert_alone(&rt, unit, u32::MAX);
    }
}

/// Asserts how many items a rule has from a start to the last valid day.
fn assert_counted(rt: &impl Abort, start: i64, rule: Rule, expected: (u32, i64)) {
    assert_day(rt, start);
    let date = Iso.from_rata_die(RataDie::new(start));
    let whole = window_of(rt, -365242499, 365242134);
    let mut count: u32 = 0;
    let mut last = 0;
    for item in recur(Iso, date, rule, whole) {
        count = count.saturating_add(1);
        last = item.day.to_i64_date();
    }
    assert_same(rt, (count, last), expected);
}

#[test]
fn each_february_29(rt: HostRuntime) {
    let skip = rule_of(&rt, DateDurationUnit::Years, 4, Missing::Skip);
    assert_counted(&rt, -365241345, skip, (484999, 365240733));
}

#[test]
fn february_29_or_28_of_each_fifth_year(rt: HostRuntime) {
    let rule = rule_of(&rt, DateDurationUnit::Years, 5, Missing::Constrain);
    assert_counted(&rt, -365241345, rule, (400000, 365241828));
}

/// Returns the first item in the rest after some items.
fn first_left<C: Calendar + Copy>(
    calendar: C,
    start: C::DateInner,
    rule: Rule,
    items: &Recurrence<C>,
) -> Option<Occurrence>
    requires { IsTrue (C.belongs calendar start) }
{
    let window = items.rest()?;
    recur(calendar, start, rule, window).next()
}

/// Asserts that the items in a window are those of the whole range that lie in it, even if resumed after each item.
fn assert_part<C: Calendar + Copy>(
    rt: &impl Abort,
    calendar: C,
    start: i64,
    rule: Rule,
    first: i64,
    last: i64,
) {
    assert_day(rt, start);
    let date = calendar.from_rata_die(RataDie::new(start));
    let mut items = recur(calendar, date, rule, window_of(rt, first, last));
    for item in recur(calendar, date, rule, window_of(rt, -365242499, 365242134)) {
        let day = item.day.to_i64_date();
        if day > last {
            break;
        }
        if day >= first {
            let resumed = first_left(calendar, date, rule, &items);
            let expected = Some((item.index, day));
            assert_at(rt, (start, first, last), parts(resumed), expected);
            assert_at(rt, (start, first, last), parts(items.next()), expected);
        }
    }
    assert_at(rt, (start, first, last), parts(items.next()), None);
}

/// Does the same for windows of 800 days, beginning before the start.
fn assert_parts(rt: &impl Abort, start: i64, rule: Rule) {
    assert_day(rt, start);
    for from in 0..12u8 {
        let first = start - 40 + 61 * i64::from(from);
        assert_part(rt, Hebrew, start, rule, first, first + 800);
        assert_part(rt, Iso, start, rule, first, first + 800);
    }
}

#[test]
fn windows_of_the_whole(rt: HostRuntime) {
    use DateDurationUnit::{Days, Months, Weeks, Years};
    for &start in &[738197, 737821, 738580, 738550] {
        for &(unit, every) in &[
            (Years, 1),
            (Years, 3),
            (Months, 1),
            (Months, 7),
            (Weeks, 5),
            (Days, 11),
        ] {
            assert_parts(&rt, start, rule_of(&rt, unit, every, Missing::Skip));
            assert_parts(&rt, start, rule_of(&rt, unit, every, Missing::Constrain));
        }
    }
}
