//! What dates of the small calendar show.

use crate::alternating_months::AlternatingMonths;
use crate::tests::expected::{assert_day, assert_holds, assert_same};
use cal_arith::ArithmeticDate;
use cal_days::RataDie;
use cal_types::Month;

#[test]
fn a_date_shows_its_parts(rt: HostRuntime) {
    let cal = AlternatingMonths;
    let date = ArithmeticDate::from_rata_die(RataDie::new(354 + 59 + 5), &cal);
    assert_same(&rt, date.extended_year(&cal), 2);
    assert_same(&rt, date.months_in_year(&cal), 12);
    assert_same(&rt, date.days_in_year(&cal), 354);
    assert_same(&rt, date.days_in_month(&cal), 30);
    assert_same(&rt, date.day_of_year(&cal), 64);
    assert_same(&rt, date.month_in_calendar(&cal), Month::new(3));
}

#[test]
fn a_date_is_one_of_its_calendar(rt: HostRuntime) {
    let cal = AlternatingMonths;
    for &number in &[-365242499, 0, 418, 365242134] {
        assert_day(&rt, number);
        let date = ArithmeticDate::from_rata_die(RataDie::new(number), &cal);
        assert_holds(&rt, number, date.is_date_of(&cal));
    }
}
