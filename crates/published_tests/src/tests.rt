//! Known dates of the published years, each in both directions, and the yearly days that are listed over them.

ghost use Rattle.cal_days.specs.Day.{IsValidDay};

mod anniversaries;
mod new_years;
mod recurrences;

use cal_base::Calendar;
use cal_days::RataDie;
use cal_types::{Month, Window, YearInput};
use new_years::{CHINESE_NEW_YEARS, KOREAN_NEW_YEARS, PERSIAN_NEW_YEARS, UMM_AL_QURA_NEW_YEARS};
use published_years::{chinese, korean, persian, tables, umm_al_qura};
use std::process::Abort;

/// That a day is valid.
fn assert_day(rt: &impl Abort, number: i64)
    ensures { IsValidDay number }
{
    assert!(rt; -365242499 <= number && number <= 365242134);
}

/// The days from one to another.
fn window_of(rt: &impl Abort, first: i64, last: i64) -> Window {
    assert_day(rt, first);
    assert_day(rt, last);
    let found = Window::try_new(RataDie::new(first), RataDie::new(last));
    found.expect(rt, "the days are in order")
}

/// That what was found in a year is as expected.
fn assert_same(rt: &impl Abort, year: i32, found: i64, expected: i64) {
    assert_eq!(rt; found, expected, "in {year}");
}

/// That a day was found as expected, or none.
fn assert_found(rt: &impl Abort, found: Option<RataDie>, expected: Option<i64>) {
    let number = found.map(|day| day.to_i64_date());
    assert_eq!(rt; number, expected);
}

/// That a date of a calendar is made on this day, and that the day is shown as this date.
fn assert_known<C: Calendar>(
    rt: &impl Abort,
    calendar: C,
    year: i32,
    month: Month,
    day: u8,
    number: i64,
) {
    assert_day(rt, number);
    let made = calendar.new_date(YearInput::Extended(year), month, day);
    let made = made.expect(rt, "the date is there");
    assert_same(rt, year, calendar.to_rata_die(&made).to_i64_date(), number);
    let shown = calendar.from_rata_die(RataDie::new(number));
    assert_same(
        rt,
        year,
        i64::from(calendar.extended_year(&shown)),
        i64::from(year),
    );
    assert!(rt;
        calendar.month(&shown).to_input() == month,
        "the month of day {number}"
    );
    assert_same(
        rt,
        year,
        i64::from(calendar.day_of_month(&shown).0),
        i64::from(day),
    );
}

/// That years of a calendar begin on these days.
fn assert_new_years<C: Calendar + Copy>(rt: &impl Abort, calendar: C, years: &[(i32, i64)]) {
    for &(year, number) in years {
        assert_known(rt, calendar, year, Month::new(1), 1, number);
    }
}

#[test]
fn chinese_years_begin_on_known_days(rt: HostRuntime) {
    assert_new_years(&rt, chinese(), &CHINESE_NEW_YEARS);
}

#[test]
fn korean_years_begin_on_known_days(rt: HostRuntime) {
    assert_new_years(&rt, korean(), &KOREAN_NEW_YEARS);
}

#[test]
fn umm_al_qura_years_begin_on_known_days(rt: HostRuntime) {
    assert_new_years(&rt, umm_al_qura(), &UMM_AL_QURA_NEW_YEARS);
}

#[test]
fn persian_years_begin_on_known_days(rt: HostRuntime) {
    assert_new_years(&rt, persian(), &PERSIAN_NEW_YEARS);
}

/// The calendars that the tables hand out are the same.
#[test]
fn calendars_of_all_tables_are_the_same(rt: HostRuntime) {
    let tables = tables();
    assert!(&rt;
        tables
            .chinese()
            .check_date_compatibility(&chinese())
            .is_ok()
    );
    assert!(&rt; tables.korean().check_date_compatibility(&korean()).is_ok());
    assert!(&rt;
        tables
            .umm_al_qura()
            .check_date_compatibility(&umm_al_qura())
            .is_ok()
    );
    assert!(&rt;
        tables
            .persian()
            .check_date_compatibility(&persian())
            .is_ok()
    );
}

/// A leap month of 2033, Ramadan, and the leap day that 1502 gives to 1503.
#[test]
fn months_begin_on_known_days(rt: HostRuntime) {
    // 2033-12-22, as ICU 78.2 has it
    assert_known(&rt, chinese(), 2033, Month::leap(11), 1, 742529);
    // 2025-03-01
    assert_known(&rt, umm_al_qura(), 1446, Month::new(9), 1, 739311);
    // 2025-03-20
    assert_known(&rt, persian(), 1403, Month::new(12), 30, 739330);
    let without = persian().new_date(YearInput::Extended(1502), Month::new(12), 30);
    assert!(&rt; without.is_err(), "1502 has a leap day");
    let with = persian().new_date(YearInput::Extended(1503), Month::new(12), 30);
    assert!(&rt; with.is_ok(), "1503 has no leap day");
}
