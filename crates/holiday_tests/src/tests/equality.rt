//! The derived equality of rules and rests: they differ if any part does.

use super::window_of;
use cal_holidays::{HolidayRule, Rest};
use cal_kinds::AnyCalendarKind;
use cal_types::{Leaping, Month, Weekday};

/// The rule of a month and a day.
fn fixed(calendar: AnyCalendarKind, month: u8, day: u8, leaping: Leaping) -> HolidayRule {
    HolidayRule::Fixed {
        calendar,
        month: Month::new(month),
        day,
        leaping,
    }
}

/// The rule of a weekday.
fn weekday(calendar: AnyCalendarKind, month: u8, nth: i8, weekday: Weekday) -> HolidayRule {
    HolidayRule::Nth {
        calendar,
        month: Month::new(month),
        nth,
        weekday,
    }
}

/// The rule of a number of days from Easter.
fn easter(julian: bool, offset: i32) -> HolidayRule {
    HolidayRule::Easter { julian, offset }
}

#[test]
fn rules_differ_if_a_part_does(rt: HostRuntime) {
    let iso = AnyCalendarKind::Iso;
    let day = fixed(iso, 1, 1, Leaping::Exact);
    assert!(rt; day == fixed(iso, 1, 1, Leaping::Exact));
    assert!(rt; day != fixed(AnyCalendarKind::Roc, 1, 1, Leaping::Exact));
    assert!(rt; day != fixed(iso, 2, 1, Leaping::Exact));
    assert!(rt; day != fixed(iso, 1, 2, Leaping::Exact));
    assert!(rt; day != fixed(iso, 1, 1, Leaping::Constrain));
    let first = weekday(iso, 1, 1, Weekday::Monday);
    assert!(rt; first == weekday(iso, 1, 1, Weekday::Monday));
    assert!(rt; first != weekday(AnyCalendarKind::Roc, 1, 1, Weekday::Monday));
    assert!(rt; first != weekday(iso, 2, 1, Weekday::Monday));
    assert!(rt; first != weekday(iso, 1, -1, Weekday::Monday));
    assert!(rt; first != weekday(iso, 1, 1, Weekday::Sunday));
    assert!(rt; first != day);
    assert!(rt; easter(true, 1) == easter(true, 1));
    assert!(rt; easter(true, 1) != easter(false, 1));
    assert!(rt; easter(true, 1) != easter(true, 2));
    assert!(rt; easter(true, 1) != day);
}

#[test]
fn rests_differ_if_the_window_or_the_first_rule_does(rt: HostRuntime) {
    let rest = Rest {
        window: window_of(&rt, 1, 3),
        first_rule: 1,
    };
    let later = Rest {
        window: window_of(&rt, 2, 3),
        first_rule: 1,
    };
    let longer = Rest {
        window: window_of(&rt, 1, 4),
        first_rule: 1,
    };
    let behind = Rest {
        window: window_of(&rt, 1, 3),
        first_rule: 2,
    };
    assert!(rt; rest == rest);
    assert!(rt; rest != later);
    assert!(rt; rest != longer);
    assert!(rt; rest != behind);
}
