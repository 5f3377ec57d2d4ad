//! Known days and years, from published conversion tables.

use crate::tests::expected::{assert_at, assert_day, assert_same, assert_year};
use cal_days::gregorian::{is_leap_year, year_from_fixed, year_start};
use cal_days::{RataDie, islamic, julian};

#[test]
fn years_start_on_known_days(rt: HostRuntime) {
    for &(year, day) in &[
        (1, 1),
        (0, -365),
        (-1, -730),
        (1970, 719163),
        (2000, 730120),
        (2024, 738886),
        (-999999, -365242499),
    ] {
        assert_year(&rt, year);
        assert_at(&rt, year, year_start(year).to_i64_date(), day);
    }
}

#[test]
fn centuries_are_leap_every_400_years(rt: HostRuntime) {
    for &(year, is_leap) in &[
        (2024, true),
        (2023, false),
        (1900, false),
        (2000, true),
        (0, true),
        (-4, true),
        (-100, false),
    ] {
        assert_year(&rt, year);
        assert_at(&rt, year, is_leap_year(year), is_leap);
    }
}

#[test]
fn days_lie_in_known_years(rt: HostRuntime) {
    for &(day, year) in &[
        (1, 1),
        (0, 0),
        (365, 1),
        (366, 2),
        (719162, 1969),
        (719163, 1970),
        (738885, 2023),
        (738886, 2024),
        (739251, 2024),
        (739252, 2025),
        (-365242499, -999999),
        (365242134, 999999),
    ] {
        assert_day(&rt, day);
        assert_at(&rt, day, year_from_fixed(RataDie::new(day)), year);
    }
}

#[test]
fn sums_stop_at_both_ends(rt: HostRuntime) {
    let first = RataDie::new(-36028797018963968);
    let last = RataDie::new(36028797018963967);
    assert_same(&rt, first.checked_add(-1), None);
    assert_same(&rt, last.checked_add(1), None);
    assert_same(&rt, first.checked_add(i64::MIN), None);
    assert_same(&rt, last.checked_add(i64::MAX), None);
    assert_same(&rt, first.checked_add(72057594037927935), Some(last));
    assert_same(&rt, last.checked_add(-72057594037927935), Some(first));
    assert_same(&rt, last.since(first), 72057594037927935);
}

#[test]
fn julian_years_start_on_known_days(rt: HostRuntime) {
    for &(year, day) in &[
        (1, -1),
        (0, -367),
        (-1, -732),
        (1582, 577459),
        (2000, 730133),
        (2022, 738169),
        (-4712, -1721425),
    ] {
        assert_year(&rt, year);
        assert_at(&rt, year, julian::year_start(year).to_i64_date(), day);
    }
}

#[test]
fn julian_centuries_are_leap(rt: HostRuntime) {
    for &(year, is_leap) in &[
        (1900, true),
        (2000, true),
        (2023, false),
        (0, true),
        (-1, false),
        (-4, true),
        (-100, true),
    ] {
        assert_year(&rt, year);
        assert_at(&rt, year, julian::is_leap_year(year), is_leap);
    }
}

#[test]
fn days_lie_in_known_julian_years(rt: HostRuntime) {
    for &(day, year) in &[
        (-1, 1),
        (-2, 0),
        (-367, 0),
        (-368, -1),
        (363, 1),
        (364, 2),
        (738156, 2021),
        (738168, 2021),
        (738169, 2022),
        (-365242499, -999979),
        (365242134, 999979),
    ] {
        assert_day(&rt, day);
        assert_at(&rt, day, julian::year_from_fixed(RataDie::new(day)), year);
    }
}

#[test]
fn tabular_islamic_years_start_on_known_days(rt: HostRuntime) {
    for &(year, day, is_leap) in &[
        (1, 227015, false),
        (0, 226661, false),
        (2, 227369, true),
        (3, 227724, false),
        (1445, 738720, true),
        (1446, 739075, false),
    ] {
        assert_year(&rt, year);
        let friday = islamic::year_start(year, islamic::FRIDAY_EPOCH);
        let thursday = islamic::year_start(year, islamic::THURSDAY_EPOCH);
        assert_at(&rt, year, friday.to_i64_date(), day);
        assert_at(&rt, year, thursday.to_i64_date(), day - 1);
        assert_at(&rt, year, islamic::is_leap_year(year), is_leap);
    }
}

#[test]
fn mean_islamic_years_are_rounded_toward_year_1(rt: HostRuntime) {
    for &(year, eve, day) in &[
        (1, 227014, 227015),
        (2, 227368, 227369),
        (31, 237645, 237646),
        (0, 226660, 226661),
        (-1, 226306, 226307),
        (-2, 225951, 225952),
        (-29, 216383, 216384),
    ] {
        assert_year(&rt, year);
        assert_at(&rt, year, islamic::mean_start(year).to_i64_date(), day);
        assert_day(&rt, eve);
        assert_day(&rt, day);
        assert_at(
            &rt,
            day,
            islamic::mean_year_from_fixed(RataDie::new(day)),
            year,
        );
        assert_at(
            &rt,
            eve,
            islamic::mean_year_from_fixed(RataDie::new(eve)),
            year - 1,
        );
    }
}
