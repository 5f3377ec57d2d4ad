//! Known Hebrew years, and how often each length comes.
//!
//! The counts are those of a program in Python by the formulas of Reingold and Dershowitz, Calendrical Calculations,
//! chapter 8: elapsed days, and the corrections for years of 356 and 382 days.

use crate::tests::expected::{assert_at, assert_day, assert_year};
use cal_days::RataDie;
use cal_days::hebrew::{
    DayInYear, day_in_year_from_fixed, is_leap_year, year_from_fixed, year_length, year_start,
};

#[test]
fn years_have_known_starts_and_lengths(rt: HostRuntime) {
    for &(year, first, length, is_leap) in &[
        (1, -1373427, 355, false),
        (5782, 738040, 384, true),
        (5783, 738424, 355, false),
        (5787, 739871, 385, true),
        (5788, 740256, 355, false),
        (5789, 740611, 354, false),
        (88369, 30902687, 383, true),
    ] {
        assert_year(&rt, year);
        assert_at(&rt, year, year_start(year).to_i64_date(), first);
        assert_at(&rt, year, year_length(year), length);
        assert_at(&rt, year, is_leap_year(year), is_leap);
    }
}

#[test]
fn days_lie_in_known_years(rt: HostRuntime) {
    for &(day, year, day_of_year, length) in &[
        (740255, 5787, 384, 385),
        (740256, 5788, 0, 355),
        (740610, 5788, 354, 355),
        (740611, 5789, 0, 354),
        (-365242499, -996227, 58, 385),
        (365242134, 1003748, 174, 355),
    ] {
        assert_day(&rt, day);
        let found = day_in_year_from_fixed(RataDie::new(day));
        let expected = DayInYear {
            year,
            day: day_of_year,
            year_length: length,
        };
        assert_at(&rt, day, found, expected);
        assert_at(&rt, day, year_from_fixed(RataDie::new(day)), year);
    }
}

#[test]
fn lengths_come_as_often_as_another_program_counts(rt: HostRuntime) {
    for &(length, count) in &[
        (353, 49),
        (354, 123),
        (355, 144),
        (383, 78),
        (384, 25),
        (385, 81),
    ] {
        let mut found: u32 = 0;
        for year in 5500..6000 {
            assert_year(&rt, year);
            if year_length(year) == length {
                found = found.saturating_add(1);
            }
        }
        assert_at(&rt, length, found, count);
    }
}
