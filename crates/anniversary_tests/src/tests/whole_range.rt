//! All anniversaries in the valid range.

use crate::tests::expected::{Asked, listed};
use cal_anniversary::Anniversaries;
use cal_base::{Calendar, Iso};
use cal_days::ranges::{FIRST_VALID_DAY, LAST_VALID_DAY};
use cal_hebrew::Hebrew;
use cal_types::{Leaping, Month};

/// Counts the listed days, and returns the first and the last of them.
fn summary<C: Calendar>(list: Anniversaries<C>) -> (u32, Option<i64>, Option<i64>) {
    let mut count: u32 = 0;
    let mut first = None;
    let mut last = None;
    for day in list {
        last = Some(day.to_i64_date());
        if count == 0 {
            first = last;
        }
        count = count.saturating_add(1);
    }
    (count, first, last)
}

/// Does the same for the whole valid range.
fn whole<C: Calendar>(
    calendar: C,
    month: Month,
    day: u8,
    leaping: Leaping,
) -> (u32, Option<i64>, Option<i64>) {
    let asked = Asked {
        month,
        day,
        leaping,
        first: FIRST_VALID_DAY,
        last: LAST_VALID_DAY,
    };
    match listed(calendar, asked) {
        Ok(list) => summary(list),
        Err(_) => (4000000, None, None),
    }
}

#[test]
fn leap_days_of_all_years(rt: HostRuntime) {
    let leap_day = Month::new(2);
    assert_eq!(rt;
        whole(Iso::new(), leap_day, 29, Leaping::Exact),
        (484999, Some(-365241345), Some(365240733))
    );
    assert_eq!(rt;
        whole(Iso::new(), leap_day, 29, Leaping::Constrain).0,
        1999999
    );
}

#[test]
fn a_day_that_never_comes_ends_too(rt: HostRuntime) {
    assert_eq!(rt;
        whole(Iso::new(), Month::new(2), 30, Leaping::Exact),
        (0, None, None)
    );
}

#[test]
fn each_hebrew_year_has_a_stand_in(rt: HostRuntime) {
    let exact = whole(Hebrew::new(), Month::leap(5), 30, Leaping::Exact).0;
    let each = whole(Hebrew::new(), Month::leap(5), 30, Leaping::Constrain).0;
    assert!(rt; 736000 < exact && exact < 737000);
    assert!(rt; 1999900 < each && each < 2000100);
}
