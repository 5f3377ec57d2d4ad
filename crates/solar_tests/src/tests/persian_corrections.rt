//! Years that a Persian calendar may correct, and those that it may not.

use crate::tests::expected::{assert_at, assert_holds};
use cal_base::Calendar;
use cal_julian::{Persian, PersianCorrections};
use cal_types::{Month, TableFault, TablePart, YearInput};
use std::process::Abort;

/// The years to 3000 that the 33-year rule makes leap and the astronomical calendar does not, as ICU 78 lists them.
const CORRECTED_YEARS: [i32; 78] = [
    1502, 1601, 1634, 1667, 1700, 1733, 1766, 1799, 1832, 1865, 1898, 1931, 1964, 1997, 2030, 2059,
    2063, 2096, 2129, 2158, 2162, 2191, 2195, 2224, 2228, 2257, 2261, 2290, 2294, 2323, 2327, 2356,
    2360, 2389, 2393, 2422, 2426, 2455, 2459, 2488, 2492, 2521, 2525, 2554, 2558, 2587, 2591, 2620,
    2624, 2653, 2657, 2686, 2690, 2719, 2723, 2748, 2752, 2756, 2781, 2785, 2789, 2818, 2822, 2847,
    2851, 2855, 2880, 2884, 2888, 2913, 2917, 2921, 2946, 2950, 2954, 2979, 2983, 2987,
];

#[test]
fn leap_years_of_the_rule_that_rise_are_accepted(rt: HostRuntime) {
    assert_holds(&rt, "no year", PersianCorrections::try_new(&[]).is_ok());
    assert_holds(&rt, "1502", PersianCorrections::try_new(&[1502]).is_ok());
    assert_holds(
        &rt,
        "the years to 3000",
        PersianCorrections::try_new(&CORRECTED_YEARS).is_ok(),
    );
}

/// 1403 is a leap year by the rule and 1404 isn't.
#[test]
fn years_are_refused_for_their_first_fault(rt: HostRuntime) {
    for &(years, row, part) in &[
        ([1404].as_slice(), 1, TablePart::Rule),
        ([0].as_slice(), 1, TablePart::Year),
        ([10000].as_slice(), 1, TablePart::Year),
        ([1502, 1502].as_slice(), 2, TablePart::Year),
        ([1601, 1502].as_slice(), 2, TablePart::Year),
        ([1502, 1601, 1602].as_slice(), 3, TablePart::Rule),
    ] {
        let fault = PersianCorrections::try_new(years).err();
        assert_at(&rt, years, fault, Some(TableFault { row, part }));
    }
}

/// That the last month of 1502 has so many days, and 1503 starts on a day.
fn assert_end_of_1502(rt: &impl Abort, calendar: &Persian<'_>, days: u8, start: i64) {
    let made = calendar.new_date(YearInput::Extended(1502), Month::new(12), 1);
    let date = made.expect(rt, "the date is there");
    assert_at(rt, days, calendar.days_in_month(&date), days);
    let made = calendar.new_date(YearInput::Extended(1503), Month::new(1), 1);
    let date = made.expect(rt, "the date is there");
    assert_at(rt, days, calendar.to_rata_die(&date).to_i64_date(), start);
}

/// By the rule 1502 is a leap year, and 1503 starts on day 775490.
#[test]
fn a_corrected_year_leaves_its_last_day_to_the_next_year(rt: HostRuntime) {
    let corrections = PersianCorrections::try_new(&[1502]).expect(&rt, "the year is accepted");
    let corrected = Persian::new(corrections);
    assert_end_of_1502(&rt, &corrected, 29, 775489);
    let plain = Persian::new(PersianCorrections::none());
    assert_end_of_1502(&rt, &plain, 30, 775490);
}
