//! Recurrence sets with known days.

mod expected;

ghost use Rattle.std.specs.Prelude.{◌≡◌};

use crate::hundreds::Hundreds;
use cal_days::RataDie;
use cal_kinds::AnyCalendarKind;
use cal_rule::RecurrenceRule;
use cal_types::Window;
use expected::{assert_day, assert_same};
use recurrence_sets::{Bounds, Listing, Occurrence, PeriodDays, keep_places};
use std::process::Abort;

/// Creates the window from one day to another.
fn window_of(rt: &impl Abort, first: i64, last: i64) -> Window {
    assert_day(rt, first);
    assert_day(rt, last);
    let found = Window::try_new(RataDie::new(first), RataDie::new(last));
    assert!(rt; found.is_some());
    match found {
        Some(window) => window,
        None => unreachable!(),
    }
}

/// Returns the index and the day number of an item.
fn parts(item: Option<Occurrence>) -> Option<(u32, i64)> {
    let it = item?;
    Some((it.index, it.day.to_i64_date()))
}

/// Returns bounds: a start, a last day and a count. A count of 0 means none.
fn bounds_of(rt: &impl Abort, start: i64, until: i64, count: u32) -> Bounds {
    assert_day(rt, start);
    assert_day(rt, until);
    Bounds {
        start: RataDie::new(start),
        until: if until == 0 {
            None
        } else {
            Some(RataDie::new(until))
        },
        count: if count == 0 { None } else { Some(count) },
    }
}

/// Asserts that the periods from day 1000 on have exactly these items within bounds and in a window.
fn assert_listed(
    rt: &impl Abort,
    bounds: (i64, i64, u32),
    ends: (i64, i64),
    expected: &[(u32, i64)],
) {
    let window = window_of(rt, ends.0, ends.1);
    let bounds = bounds_of(rt, bounds.0, bounds.1, bounds.2);
    let mut items = Listing::new(Hundreds::new(1000), bounds, window);
    for (index, day) in expected {
        assert_same(rt, parts(items.next()), Some((*index, *day)));
    }
    assert_same(rt, items.next(), None);
    assert_same(rt, items.rest(), None);
}

#[test]
fn days_of_periods_in_order_and_each_once(rt: HostRuntime) {
    let all = (1000, 0, 0);
    let first = [
        (0, 1000),
        (1, 1100),
        (2, 1150),
        (3, 1200),
        (4, 1250),
        (5, 1300),
    ];
    assert_listed(&rt, all, (900, 1300), &first);
    assert_listed(&rt, all, (1101, 1249), &[(2, 1150), (3, 1200)]);
    assert_listed(&rt, all, (1250, 1250), &[(4, 1250)]);
    assert_listed(&rt, all, (1251, 1299), &[]);
}

#[test]
fn bounds_of_a_set(rt: HostRuntime) {
    let late = [(0, 1150), (1, 1200), (2, 1250)];
    assert_listed(&rt, (1101, 0, 0), (900, 1250), &late);
    let until = [(1, 1100), (2, 1150)];
    assert_listed(&rt, (1000, 1150, 0), (1050, 2000), &until);
    let fourth = [(2, 1150), (3, 1200)];
    assert_listed(&rt, (1000, 0, 4), (1150, 2000), &fourth);
    assert_listed(&rt, (1000, 0, 4), (1201, 2000), &[]);
    assert_listed(&rt, (1301, 1300, 0), (900, 2000), &[]);
}

#[test]
fn the_first_and_the_last_valid_days(rt: HostRuntime) {
    let start = RataDie::new(-365242499);
    let bounds = Bounds {
        start,
        until: None,
        count: None,
    };
    let window = window_of(&rt, -365242499, -365242349);
    let mut items = Listing::new(Hundreds::new(-365242499), bounds, window);
    assert_same(&rt, parts(items.next()), Some((0, -365242499)));
    assert_same(&rt, parts(items.next()), Some((1, -365242399)));
    assert_same(&rt, parts(items.next()), Some((2, -365242349)));
    assert_same(&rt, items.next(), None);
}

/// Returns the next item of a listing that goes on where another one was left.
fn resumed_item(
    items: &Listing<Hundreds>,
    periods: &Hundreds,
    bounds: &Bounds,
) -> Option<Occurrence>
    requires periods { items.now.periods ≡ periods.now }
    requires bounds { items.now.bounds ≡ bounds.now }
{
    let rest = items.rest()?;
    let mut resumed = Listing::resume(*periods, *bounds, rest, items.next_index());
    resumed.next()
}

/// Returns the first item in a window, of a listing that goes on where another one was left at once.
fn first_resumed(periods: &Hundreds, bounds: &Bounds, window: Window) -> Option<Occurrence> {
    let items = Listing::new(*periods, *bounds, window);
    resumed_item(&items, periods, bounds)
}

/// Asserts what the first item of a resumed listing is.
fn assert_resumed(rt: &impl Abort, bounds: &Bounds, ends: (i64, i64), expected: (u32, i64)) {
    let window = window_of(rt, ends.0, ends.1);
    let item = first_resumed(&Hundreds::new(1000), bounds, window);
    assert_same(rt, parts(item), Some(expected));
}

#[test]
fn resumed_far_from_the_start(rt: HostRuntime) {
    let bounds = bounds_of(&rt, 1000, 0, 0);
    assert_resumed(&rt, &bounds, (100001, 100300), (1980, 100050));
    assert_resumed(&rt, &bounds, (100101, 100300), (1982, 100150));
}

/// Returns the days of a set from 1000 on, counted from 1000.
fn set_of(offsets: &[i64]) -> PeriodDays {
    let first = RataDie::new(1000);
    let mut days = PeriodDays::new(first);
    for offset in offsets {
        if 0 <= *offset && *offset < 448 {
            days.insert_run(RataDie::new(1000 + *offset), RataDie::new(1001 + *offset));
        }
    }
    days
}

/// Asserts that the places of a rule's BYSETPOS keep these days of a set.
fn assert_kept(rt: &impl Abort, rule: &[u8], offsets: &[i64], expected: &[i64]) {
    let read = RecurrenceRule::try_from_utf8(rule, AnyCalendarKind::Iso);
    assert!(rt; read.is_ok());
    if let Ok(rule) = read {
        let kept = keep_places(&set_of(offsets), rule.positions());
        assert_same(rt, kept, set_of(expected));
    }
}

#[test]
fn places_from_the_front_and_from_the_back(rt: HostRuntime) {
    let days = [3, 63, 64, 127, 200, 447];
    assert_kept(&rt, b"FREQ=YEARLY;BYMONTH=1;BYSETPOS=1", &days, &[3]);
    assert_kept(
        &rt,
        b"FREQ=YEARLY;BYMONTH=1;BYSETPOS=2,-1",
        &days,
        &[63, 447],
    );
    assert_kept(&rt, b"FREQ=YEARLY;BYMONTH=1;BYSETPOS=-6,7", &days, &[3]);
    assert_kept(
        &rt,
        b"FREQ=YEARLY;BYMONTH=1;BYSETPOS=4,-3,10",
        &days,
        &[127],
    );
    assert_kept(&rt, b"FREQ=YEARLY;BYMONTH=1;BYSETPOS=1,-1", &[], &[]);
}
