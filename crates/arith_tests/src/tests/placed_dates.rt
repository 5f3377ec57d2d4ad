//! Dates of the small calendar, made of a year, the place of a month and a day, and of an extended year and a month.

use crate::alternating_months::AlternatingMonths;
use crate::tests::expected::{assert_at, refuse_fault};
use cal_arith::ArithmeticDate;
use cal_types::{DateError, LunisolarDateError, Month, RangeError};

/// Returns an argument that is out of its range.
fn out_of_range(field: &'static str, value: i32, min: i32, max: i32) -> RangeError {
    RangeError {
        field,
        value,
        min,
        max,
    }
}

#[test]
fn places_and_days_of_years_make_dates(rt: HostRuntime) {
    let cal = AlternatingMonths;
    for &(year, month, day, number) in &[
        (1, 2, 1, 31),
        (9999, 12, 29, 3539646),
        (-9999, 1, 1, -3539999),
    ] {
        match ArithmeticDate::from_year_month_day(year, month, day, &cal) {
            Ok(date) => assert_at(&rt, year, date.to_rata_die(&cal).to_i64_date(), number),
            Err(cause) => refuse_fault(&rt, year, &cause),
        }
        match ArithmeticDate::from_era_year_month_day("am", year, month, day, &cal) {
            Ok(date) => assert_at(&rt, year, date.to_rata_die(&cal).to_i64_date(), number),
            Err(cause) => refuse_fault(&rt, year, &cause),
        }
        match ArithmeticDate::try_from_ymd_lunisolar(year, Month::new(month), day, &cal) {
            Ok(date) => assert_at(&rt, year, date.to_rata_die(&cal).to_i64_date(), number),
            Err(cause) => refuse_fault(&rt, year, &cause),
        }
    }
}

#[test]
fn first_argument_out_of_its_range_is_the_answer(rt: HostRuntime) {
    let cal = AlternatingMonths;
    for &(year, month, day, want) in &[
        (10000, 0, 0, out_of_range("year", 10000, -9999, 9999)),
        (-10000, 1, 1, out_of_range("year", -10000, -9999, 9999)),
        (2024, 0, 0, out_of_range("month", 0, 1, 12)),
        (2024, 13, 1, out_of_range("month", 13, 1, 12)),
        (2024, 2, 30, out_of_range("day", 30, 1, 29)),
        (2024, 1, 0, out_of_range("day", 0, 1, 30)),
    ] {
        let answer = ArithmeticDate::from_year_month_day(year, month, day, &cal);
        assert_at(&rt, year, answer, Err(want));
        let of_era = ArithmeticDate::from_era_year_month_day("am", year, month, day, &cal);
        assert_at(&rt, year, of_era, Err(DateError::from(want)));
    }
    for &(era, year, want) in &[
        (
            "ce",
            10000,
            DateError::from(out_of_range("year", 10000, -9999, 9999)),
        ),
        ("ce", 2024, DateError::UnknownEra),
    ] {
        let answer = ArithmeticDate::from_era_year_month_day(era, year, 0, 0, &cal);
        assert_at(&rt, year, answer, Err(want));
    }
}

#[test]
fn first_fault_of_a_lunisolar_date_is_the_answer(rt: HostRuntime) {
    use LunisolarDateError::{InvalidDay, InvalidYear, MonthNotInCalendar};
    let cal = AlternatingMonths;
    for &(year, month, day, want) in &[
        (10000, Month::new(13), 0, InvalidYear),
        (-10000, Month::new(1), 1, InvalidYear),
        (1, Month::leap(2), 0, MonthNotInCalendar),
        (1, Month::new(2), 30, InvalidDay { max: 29 }),
        (1, Month::new(1), 0, InvalidDay { max: 30 }),
    ] {
        let answer = ArithmeticDate::try_from_ymd_lunisolar(year, month, day, &cal);
        assert_at(&rt, year, answer, Err(want));
    }
}
