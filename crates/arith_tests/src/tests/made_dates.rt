//! Dates of the small calendar, made from a bag of fields, or from a year, a month and a day.

use crate::alternating_months::AlternatingMonths;
use crate::tests::expected::{assert_at, refuse_fault};
use cal_arith::ArithmeticDate;
use cal_types::{
    DateFields, DateFromFieldsError, DateFromFieldsOptions, DateNewError, Month, Overflow,
    YearInput,
};

/// Fields with a year, a month and a day alone.
fn plain_fields(year: i32, month: Month, day: u8) -> DateFields<'static> {
    DateFields::from_year_month_day(year, month, day)
}

/// Options for a day that doesn't exist.
fn with_overflow(overflow: Option<Overflow>) -> DateFromFieldsOptions {
    DateFromFieldsOptions {
        overflow,
        missing_fields_strategy: None,
    }
}

#[test]
fn fields_name_dates(rt: HostRuntime) {
    let cal = AlternatingMonths;
    for &(year, month, day, overflow, number) in &[
        (1, 1, 1, None, 1),
        (0, 12, 29, None, 0),
        (2, 2, 29, Some(Overflow::Reject), 354 + 30 + 29),
        (2, 2, 30, Some(Overflow::Constrain), 354 + 30 + 29),
        (2, 1, 0, Some(Overflow::Constrain), 354 + 1),
    ] {
        let fields = plain_fields(year, Month::new(month), day);
        match ArithmeticDate::from_fields(fields, with_overflow(overflow), &cal) {
            Ok(date) => assert_at(&rt, year, date.to_rata_die(&cal).to_i64_date(), number),
            Err(cause) => refuse_fault(&rt, year, &cause),
        }
    }
}

#[test]
fn first_fault_of_fields_is_the_answer(rt: HostRuntime) {
    use DateFromFieldsError::{InvalidDay, MonthNotInCalendar, Overflow as OutOfRange};
    use Overflow::{Constrain, Reject};
    let cal = AlternatingMonths;
    for &(year, month, day, overflow, want) in &[
        (1040001, Month::new(13), 0, Constrain, OutOfRange),
        (-1040001, Month::new(1), 1, Reject, OutOfRange),
        (1040000, Month::new(13), 0, Constrain, MonthNotInCalendar),
        (1, Month::leap(2), 30, Reject, MonthNotInCalendar),
        (1040000, Month::new(2), 30, Reject, InvalidDay { max: 29 }),
        (1, Month::new(1), 0, Reject, InvalidDay { max: 30 }),
        (1040000, Month::new(1), 1, Constrain, OutOfRange),
    ] {
        let fields = plain_fields(year, month, day);
        let answer = ArithmeticDate::from_fields(fields, with_overflow(Some(overflow)), &cal);
        assert_at(&rt, year, answer, Err(want));
    }
}

#[test]
fn years_months_and_days_make_dates(rt: HostRuntime) {
    let cal = AlternatingMonths;
    for &(year, month, day, number) in &[
        (1, 2, 1, 31),
        (9999, 12, 29, 3539646),
        (-9999, 1, 1, -3539999),
    ] {
        let input = YearInput::Extended(year);
        let month = Month::new(month);
        match ArithmeticDate::from_input_year_month_code_day(input, month, day, &cal) {
            Ok(date) => assert_at(&rt, year, date.to_rata_die(&cal).to_i64_date(), number),
            Err(cause) => refuse_fault(&rt, year, &cause),
        }
    }
}

#[test]
fn first_fault_of_a_year_a_month_and_a_day_is_the_answer(rt: HostRuntime) {
    use DateNewError::{InvalidDay, InvalidEra, InvalidYear, MonthNotInCalendar};
    use YearInput::{EraYear, Extended};
    let cal = AlternatingMonths;
    for &(year, month, day, want) in &[
        (Extended(10000), Month::new(13), 0, InvalidYear),
        (Extended(-10000), Month::new(1), 1, InvalidYear),
        (EraYear("ce", 10000), Month::new(13), 0, InvalidYear),
        (EraYear("ce", 1), Month::new(13), 0, InvalidEra),
        (Extended(1), Month::new(13), 0, MonthNotInCalendar),
        (Extended(1), Month::new(2), 30, InvalidDay { max: 29 }),
        (Extended(1), Month::new(1), 0, InvalidDay { max: 30 }),
    ] {
        let answer = ArithmeticDate::from_input_year_month_code_day(year, month, day, &cal);
        assert_at(&rt, (year, day), answer, Err(want));
    }
}
