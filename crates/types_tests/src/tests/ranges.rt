//! The ranges that calls speak of: both ends of each, and one beyond.

use crate::tests::expected::assert_at;
use cal_days::ranges::{
    are_addable_days, are_addable_months, are_addable_years, is_constructor_year, is_covered_year,
    is_field_year, is_rule_year, is_valid_day,
};

#[test]
fn valid_days_go_to_the_years_999999(rt: HostRuntime) {
    for &(day, is_valid) in &[
        // -1000000-12-31, -999999-01-01, 999999-12-31 and 1000000-01-01.
        (-365242500, false),
        (-365242499, true),
        (365242134, true),
        (365242135, false),
    ] {
        assert_at(&rt, day, is_valid_day(day), is_valid);
    }
}

#[test]
fn years_have_their_ranges(rt: HostRuntime) {
    for &(year, is_field, is_rule, is_constructor, is_covered) in &[
        (-8000001, false, false, false, false),
        (-8000000, false, true, false, false),
        (-1040001, false, true, false, false),
        (-1040000, true, true, false, false),
        (-980001, true, true, false, false),
        (-980000, true, true, false, true),
        (-10000, true, true, false, true),
        (-9999, true, true, true, true),
        (9999, true, true, true, true),
        (10000, true, true, false, true),
        (980000, true, true, false, true),
        (980001, true, true, false, false),
        (1040000, true, true, false, false),
        (1040001, false, true, false, false),
        (8000000, false, true, false, false),
        (8000001, false, false, false, false),
    ] {
        assert_at(&rt, year, is_field_year(year), is_field);
        assert_at(&rt, year, is_rule_year(year), is_rule);
        assert_at(&rt, year, is_constructor_year(year), is_constructor);
        assert_at(&rt, year, is_covered_year(year), is_covered);
    }
}

#[test]
fn more_is_added_to_no_date(rt: HostRuntime) {
    for &(years, are_added) in &[(0, true), (2080000, true), (2080001, false)] {
        assert_at(&rt, years, are_addable_years(years), are_added);
    }
    for &(months, are_added) in &[(0, true), (27040000, true), (27040001, false)] {
        assert_at(&rt, months, are_addable_months(months), are_added);
    }
    for &(days, are_added) in &[(0, true), (838240000, true), (838240001, false)] {
        assert_at(&rt, days, are_addable_days(days), are_added);
    }
}
