//! Dates of the small calendar.

use crate::alternating_months::AlternatingMonths;
use crate::tests::expected::{assert_at, assert_day, assert_same};
use cal_arith::ArithmeticDate;
use cal_arith::laws::{are_same_day, order_of_days};
use cal_days::RataDie;
use cal_types::{
    DateAddError, DateAddOptions, DateDifferenceOptions, DateDuration, DateDurationUnit, Overflow,
};
use std::cmp::Ordering;

/// Returns a duration forward.
fn forward(years: u32, months: u32, weeks: u32, days: u32) -> DateDuration {
    DateDuration {
        is_negative: false,
        years,
        months,
        weeks,
        days,
    }
}

#[test]
fn days_have_dates(rt: HostRuntime) {
    let cal = AlternatingMonths;
    for &(number, year, month, day) in &[
        (1, 1, 1, 1),
        (30, 1, 1, 30),
        (31, 1, 2, 1),
        (354, 1, 12, 29),
        (355, 2, 1, 1),
        (0, 0, 12, 29),
        (-353, 0, 1, 1),
        (-354, -1, 12, 29),
    ] {
        assert_day(&rt, number);
        let date = ArithmeticDate::from_rata_die(RataDie::new(number), &cal);
        assert_at(&rt, number, date.year().number, year);
        assert_at(&rt, number, date.month(), month);
        assert_at(&rt, number, date.day(), day);
        assert_at(&rt, number, date.to_rata_die(&cal).to_i64_date(), number);
    }
}

#[test]
fn a_day_is_clamped_after_the_months(rt: HostRuntime) {
    let cal = AlternatingMonths;
    let last = ArithmeticDate::from_rata_die(RataDie::new(30), &cal);
    let constrain = DateAddOptions::default();
    let reject = DateAddOptions {
        overflow: Some(Overflow::Reject),
    };
    let Ok(two_months) = last.added(forward(0, 2, 0, 0), &cal, constrain) else {
        return;
    };
    assert_same(&rt, two_months.day(), 30);
    let Ok(one_month) = last.added(forward(0, 1, 0, 1), &cal, constrain) else {
        return;
    };
    assert_same(&rt, one_month.month(), 3);
    assert_same(&rt, one_month.day(), 1);
    let fault = last.added(forward(0, 1, 0, 1), &cal, reject);
    assert_same(&rt, fault, Err(DateAddError::InvalidDay { max: 29 }));
    let fault = last.added(forward(2080001, 0, 0, 0), &cal, reject);
    assert_same(&rt, fault, Err(DateAddError::Overflow));
}

#[test]
fn each_unit_has_its_difference(rt: HostRuntime) {
    let cal = AlternatingMonths;
    let first = ArithmeticDate::from_rata_die(RataDie::new(30), &cal);
    let second = ArithmeticDate::from_rata_die(RataDie::new(354 + 59 + 29), &cal);
    for &(largest_unit, want) in &[
        (Some(DateDurationUnit::Years), forward(1, 1, 0, 29)),
        (Some(DateDurationUnit::Months), forward(0, 13, 0, 29)),
        (Some(DateDurationUnit::Weeks), forward(0, 0, 58, 6)),
        (Some(DateDurationUnit::Days), forward(0, 0, 0, 412)),
        (None, forward(0, 0, 0, 412)),
    ] {
        let options = DateDifferenceOptions { largest_unit };
        assert_at(&rt, largest_unit, first.until(&second, &cal, options), want);
    }
}

#[test]
fn dates_have_the_order_of_their_days(rt: HostRuntime) {
    let cal = AlternatingMonths;
    let first = ArithmeticDate::from_rata_die(RataDie::new(30), &cal);
    for &(number, order) in &[
        (29, Ordering::Greater),
        (30, Ordering::Equal),
        (31, Ordering::Less),
    ] {
        assert_day(&rt, number);
        let second = ArithmeticDate::from_rata_die(RataDie::new(number), &cal);
        assert_at(&rt, number, order_of_days(&first, &second, &cal), order);
        assert_at(
            &rt,
            number,
            are_same_day(&first, &second, &cal),
            number == 30,
        );
    }
}
