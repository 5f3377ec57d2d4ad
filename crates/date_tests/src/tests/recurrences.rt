//! Recurrences from a date on.

use crate::tests::expected::assert_holds;
use icu_calendar::{Date, DateDurationUnit, Iso, Missing, Occurrence, Rule, Window};
use test_dates::day;

/// The index and the day's number of an item.
fn parts(item: Option<Occurrence>) -> Option<(u32, i64)> {
    let item = item?;
    Some((item.index, item.day.to_i64_date()))
}

#[test]
fn the_last_days_of_months(rt: HostRuntime) {
    let rule = Rule::try_new(DateDurationUnit::Months, 1, Missing::Constrain);
    let window = Window::try_new(day(737821), day(737910));
    assert!(rt; rule.is_some() && window.is_some());
    if let (Some(rule), Some(window)) = (rule, window) {
        let mut items = Date::from_rata_die(day(737821), Iso).recur(rule, window);
        for &(index, number) in &[(0, 737821), (1, 737849), (2, 737880), (3, 737910)] {
            assert_holds(&rt, index, parts(items.next()) == Some((index, number)));
        }
        assert!(rt; items.next().is_none());
    }
}
