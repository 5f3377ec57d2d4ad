//! The order, the equality and the hash of lunisolar dates, and the equality of the two sides.

use crate::tests::expected::{assert_day, assert_holds, hash_of};
use cal_base::Calendar;
use cal_days::RataDie;
use cal_east_asian::{ChineseTraditional, EastAsianTable, KoreanTraditional, Side};
use cal_hebrew::Hebrew;
use std::hash::Hash;
use std::process::Abort;

/// Returns the date of a day.
fn date_of_day<C: Calendar>(rt: &impl Abort, calendar: &C, number: i64) -> C::DateInner {
    assert_day(rt, number);
    calendar.from_rata_die(RataDie::new(number))
}

/// That the dates of two days are in the order of the days, and each has a hash of its own.
fn assert_ordered<C: Calendar>(rt: &impl Abort, calendar: &C, first: i64, second: i64)
where
    C::DateInner: Ord + Hash,
{
    let again = date_of_day(rt, calendar, first);
    let (one, other) = (
        date_of_day(rt, calendar, first),
        date_of_day(rt, calendar, second),
    );
    assert_holds(rt, first, one < other && !(other < one));
    assert_holds(rt, first, one == again && one != other);
    assert_holds(
        rt,
        first,
        hash_of(&one) == hash_of(&again) && hash_of(&one) != hash_of(&other),
    );
}

/// That the dates of days are in the order of the days.
fn assert_ordered_by_time<C: Calendar>(rt: &impl Abort, calendar: &C)
where
    C::DateInner: Ord + Hash,
{
    for &(first, second) in &[
        (-365242499, -1),
        (738946, 738947),
        (738947, 738976),
        (-1, 365242134),
    ] {
        assert_ordered(rt, calendar, first, second);
    }
}

#[test]
fn hebrew_dates_are_ordered_and_hashed_by_time(rt: HostRuntime) {
    assert_ordered_by_time(&rt, &Hebrew);
}

#[test]
fn chinese_dates_are_ordered_and_hashed_by_time(rt: HostRuntime) {
    let china = ChineseTraditional::new(EastAsianTable::none(Side::China));
    assert_ordered_by_time(&rt, &china);
}

#[test]
fn korean_dates_are_ordered_and_hashed_by_time(rt: HostRuntime) {
    let korea = KoreanTraditional::new(EastAsianTable::none(Side::Korea));
    assert_ordered_by_time(&rt, &korea);
}

#[test]
fn china_is_not_korea(rt: HostRuntime) {
    let (china, korea) = (Side::China, Side::Korea);
    assert_holds(&rt, "China", china == Side::China && china != korea);
    assert_holds(&rt, "Korea", korea == Side::Korea && korea != china);
}
