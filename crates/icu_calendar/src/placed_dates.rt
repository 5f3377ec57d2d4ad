//! The code that the constructors share. It creates a date of any calendar from a year, a month and a day.

ghost use Rattle.std.specs.Prelude.{◌≡◌, ℤ, pos, Some, IsSome, IfOk};
ghost use Rattle.cal_days.specs.Day.{IsConstructorYear, IsCoveredYear, is_constructor_year};
ghost use Rattle.cal_types.specs.Bag.{bag_of};
ghost use Rattle.cal_types.specs.MonthParts.{month_parts};
ghost use Rattle.cal_errors.specs.RangeParts.{range_parts, date_fault};
ghost use Rattle.cal_types.specs.declared.year.YearInput.TheVariants.{Extended};
ghost use Rattle.cal_types.specs.Constructing.{made_date};
ghost use Rattle.cal_types.specs.Placing.{placed_date, placed_of_era, lunisolar_answer, lunisolar_fault, out_of_range, year_out_of_range};
ghost use Rattle.cal_arith.specs.Dates.{answer_by};
ghost use Rattle.icu_calendar.specs.Answers.{answer_with};
ghost use Rattle.icu_calendar.specs.PlacedFields.{year_place_day, era_place_day, number_fault, number_or_era_fault};

use crate::date::Date;
use cal_base::{AsCalendar, Calendar};
use cal_days::ranges::MAX_CONSTRUCTOR_YEAR;
use cal_types::{
    DateError, DateFields, DateFromFieldsError, DateFromFieldsOptions, DateNewError,
    LunisolarDateError, MissingFieldsStrategy, Month, Overflow, RangeError, YearInput,
};

/// The options that reject a month or day that doesn't exist, and a missing field.
const REJECT: DateFromFieldsOptions = DateFromFieldsOptions {
    overflow: Some(Overflow::Reject),
    missing_fields_strategy: Some(MissingFieldsStrategy::Reject),
};

/// Returns whether a year is from -9999 to 9999.
fn is_small_year(year: i32) -> bool
    ensures { result ≡ is_constructor_year year }
{
    -MAX_CONSTRUCTOR_YEAR <= year && year <= MAX_CONSTRUCTOR_YEAR
}

/// Returns the error for a year that isn't from -9999 to 9999.
fn year_error(year: i32) -> RangeError
    ensures { range_parts result ≡ year_out_of_range year }
{
    RangeError {
        field: "year",
        value: year,
        min: -MAX_CONSTRUCTOR_YEAR,
        max: MAX_CONSTRUCTOR_YEAR,
    }
}

/// Returns the error for a number that isn't from 1 to `last`.
fn past_the_last(field: &'static str, value: u8, last: u8) -> RangeError
    ensures { range_parts result ≡ out_of_range field.now (pos value) (pos 1) (pos last) }
{
    RangeError {
        field,
        value: i32::from(value),
        min: 1,
        max: i32::from(last),
    }
}

/// Returns the error of a constructor for an invalid ordinal month or day.
fn number_error(e: DateFromFieldsError, month: u8, day: u8) -> RangeError
    requires { IsSome (number_fault month day e) }
    ensures { number_fault month day e ≡ Some (range_parts result) }
{
    match e {
        DateFromFieldsError::InvalidOrdinalMonth { max } => past_the_last("month", month, max),
        DateFromFieldsError::InvalidDay { max } => past_the_last("day", day, max),
        _ => unreachable!(),
    }
}

/// Returns the error of a constructor for an invalid era, ordinal month or day.
fn number_or_era_error(e: DateFromFieldsError, month: u8, day: u8) -> DateError
    requires { IsSome (number_or_era_fault month day e) }
    ensures { number_or_era_fault month day e ≡ Some (date_fault result) }
{
    match e {
        DateFromFieldsError::InvalidEra => DateError::UnknownEra,
        DateFromFieldsError::InvalidOrdinalMonth { max } => {
            DateError::from(past_the_last("month", month, max))
        }
        DateFromFieldsError::InvalidDay { max } => DateError::from(past_the_last("day", day, max)),
        _ => unreachable!(),
    }
}

/// Returns the fields of an extended year, an ordinal month and a day.
fn in_extended_year(year: i32, month: u8, day: u8) -> DateFields<'static>
    ensures { bag_of result ≡ year_place_day year month day }
{
    DateFields {
        extended_year: Some(year),
        ordinal_month: Some(month),
        day: Some(day),
        ..DateFields::default()
    }
}

/// Returns the fields of an era, an era year, an ordinal month and a day.
fn in_era(era: &str, year: i32, month: u8, day: u8) -> DateFields<'_>
    ensures { bag_of result ≡ era_place_day era.now year month day }
{
    DateFields {
        era: Some(era.as_bytes()),
        era_year: Some(year),
        ordinal_month: Some(month),
        day: Some(day),
        ..DateFields::default()
    }
}

/// Creates a date from an extended year, an ordinal month and a day. Fails with the first of them that is out of
/// range.
pub(crate) fn placed<A: AsCalendar>(
    year: i32,
    month: u8,
    day: u8,
    calendar: A,
) -> Result<Date<A>, RangeError>
where
    A::Calendar: Calendar,
    ensures placed { let c = A.cal_of calendar in
        answer_with (λ d. A.Calendar.date_of c d.inner) range_parts result
        ≡ placed_date (A.Calendar.system c).list year month day }
    ensures calendar { IfOk result (λ d. d.calendar ≡ calendar) }
{
    if !is_small_year(year) {
        return Err(year_error(year));
    }
    match Date::try_from_fields(in_extended_year(year, month, day), REJECT, calendar) {
        Ok(date) => Ok(date),
        Err(e) => Err(number_error(e, month, day)),
    }
}

/// Creates a date from an era, an era year, an ordinal month and a day. Fails with the first invalid one. The
/// calendar has to read era years from -9999 to 9999 as extended years from -980000 to 980000.
pub(crate) fn placed_in_era<A: AsCalendar>(
    era: &str,
    year: i32,
    month: u8,
    day: u8,
    calendar: A,
) -> Result<Date<A>, DateError>
where
    A::Calendar: Calendar,
    requires { let names = (A.Calendar.system (A.cal_of calendar)).year_names in
        (z : ℤ) → IsConstructorYear year → names.reads era.now year ≡ Some z → IsCoveredYear z }
    ensures placed { let c = A.cal_of calendar in
        let s = A.Calendar.system c in
        answer_with (λ d. A.Calendar.date_of c d.inner) date_fault result
        ≡ placed_of_era s.list s.year_names era.now year month day }
    ensures calendar { IfOk result (λ d. d.calendar ≡ calendar) }
{
    if !is_small_year(year) {
        return Err(DateError::from(year_error(year)));
    }
    match Date::try_from_fields(in_era(era, year, month, day), REJECT, calendar) {
        Ok(date) => Ok(date),
        Err(e) => Err(number_or_era_error(e, month, day)),
    }
}

/// Creates a date from an extended year, a month and a day. Fails with the first invalid one.
pub(crate) fn lunisolar<A: AsCalendar>(
    year: i32,
    month: Month,
    day: u8,
    calendar: A,
) -> Result<Date<A>, LunisolarDateError>
where
    A::Calendar: Calendar,
    ensures made { let c = A.cal_of calendar in
        let s = A.Calendar.system c in
        answer_by (λ d. A.Calendar.date_of c d.inner) result
        ≡ lunisolar_answer (made_date s.list s.year_names (Extended year) (month_parts month) day) }
    ensures calendar { IfOk result (λ d. d.calendar ≡ calendar) }
{
    match Date::try_new(YearInput::Extended(year), month, day, calendar) {
        Ok(date) => Ok(date),
        Err(e) => Err(lunisolar_error(e)),
    }
}

/// Returns the error of a constructor that takes no era.
fn lunisolar_error(e: DateNewError) -> LunisolarDateError
    ensures { result ≡ lunisolar_fault e }
{
    match e {
        DateNewError::InvalidYear | DateNewError::InvalidEra => LunisolarDateError::InvalidYear,
        DateNewError::MonthNotInCalendar => LunisolarDateError::MonthNotInCalendar,
        DateNewError::MonthNotInYear => LunisolarDateError::MonthNotInYear,
        DateNewError::InvalidDay { max } => LunisolarDateError::InvalidDay { max },
    }
}
