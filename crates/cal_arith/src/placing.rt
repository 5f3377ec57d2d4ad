//! Creating dates from a year, an ordinal month and a day, or from an extended year, a month and a day. The
//! constructors of icu_calendar's `Date` for single calendars do the same.

ghost use Rattle.std.specs.Prelude.{◌≡◌, Some, None, IfOk, IfSome, pos, if◌then◌else◌};
ghost use Rattle.std.specs.Result.{result_map_both};
ghost use Rattle.cal_days.specs.Day.{IsConstructorYear, IsCoveredYear, is_constructor_year};
ghost use Rattle.cal_types.specs.MonthParts.{month_parts};
ghost use Rattle.cal_errors.specs.RangeParts.{range_parts, date_fault};
ghost use Rattle.cal_types.specs.declared.year.YearInput.TheVariants.{Extended};
ghost use Rattle.cal_types.specs.Constructing.{made_date};
ghost use Rattle.cal_types.specs.Placing.{lunisolar_answer, lunisolar_fault, out_of_range, placed_date, placed_day, placed_in_era, placed_in_year, placed_of_era, year_out_of_range};
ghost use Rattle.cal_arith.specs.Dates.{answer_by, date_of, Belongs};
ghost use Rattle.cal_arith.specs.Given.{HasMonth, IsGiven};

use crate::arithmetic_date::ArithmeticDate;
use crate::constructing::{date_of_input, is_small_year, year_in_era};
use crate::dates::Ymd;
use crate::getters::is_up_to;
use crate::years::{DateFieldsResolver, YearShapes};
use cal_days::ranges::MAX_CONSTRUCTOR_YEAR;
use cal_types::{DateError, DateNewError, LunisolarDateError, Month, RangeError, YearInput};

/// Returns the error for a number that isn't from 1 to `max`.
fn not_up_to(field: &'static str, value: u8, max: u8) -> RangeError
    ensures { range_parts result ≡ out_of_range field.now (pos value) (pos 1) (pos max) }
{
    RangeError {
        field,
        value: i32::from(value),
        min: 1,
        max: i32::from(max),
    }
}

/// Returns the error for a year that isn't from -9999 to 9999.
fn not_small(year: i32) -> RangeError
    ensures { range_parts result ≡ year_out_of_range year }
{
    RangeError {
        field: "year",
        value: year,
        min: -MAX_CONSTRUCTOR_YEAR,
        max: MAX_CONSTRUCTOR_YEAR,
    }
}

/// Returns the year if it is from -9999 to 9999.
fn small_year(year: i32) -> Option<i32>
    ensures year { result ≡ (if is_constructor_year year then Some year else None) }
    ensures small { IfSome result (λ y. IsConstructorYear y) }
    ensures covered { IfSome result (λ y. IsCoveredYear y) }
{
    if is_small_year(year) {
        Some(year)
    } else {
        None
    }
}

/// Returns the date of an ordinal month and a day of a year that has the month, or the error if the month lacks the
/// day.
fn placed_day<C: YearShapes>(
    year: C::YearInfo,
    month: u8,
    day: u8,
    cal: &C,
) -> Result<Ymd<C::YearInfo>, RangeError>
    requires range { IsCoveredYear ((C.years cal.now).extended year) }
    requires month { HasMonth (C.years cal.now) year month }
    ensures placed { let y = C.years cal.now in
        result_map_both (date_of y) range_parts result ≡ placed_day y.list (y.extended year) month day }
    ensures belongs { IfOk result (λ d. Belongs (C.years cal.now) d) }
{
    let last = cal.days_in_provided_month(year, month);
    if is_up_to(day, last) {
        Ok(Ymd { year, month, day })
    } else {
        Err(not_up_to("day", day, last))
    }
}

/// Returns the date of an ordinal month and a day of a given year, or the error of the first value out of range.
fn placed_in_year<C: YearShapes>(
    year: C::YearInfo,
    month: u8,
    day: u8,
    cal: &C,
) -> Result<Ymd<C::YearInfo>, RangeError>
    requires year { IsGiven (C.years cal.now) year }
    requires range { IsCoveredYear ((C.years cal.now).extended year) }
    ensures placed { let y = C.years cal.now in
        result_map_both (date_of y) range_parts result ≡ placed_in_year y.list (y.extended year) month day }
    ensures belongs { IfOk result (λ d. Belongs (C.years cal.now) d) }
{
    let last = cal.months_in_provided_year(year);
    if is_up_to(month, last) {
        placed_day(year, month, day, cal)
    } else {
        Err(not_up_to("month", month, last))
    }
}

/// Returns the date of an ordinal month and a day of an extended year from -980000 to 980000, or the error of the
/// first value out of range.
fn placed_in_extended_year<C: DateFieldsResolver>(
    year: i32,
    month: u8,
    day: u8,
    cal: &C,
) -> Result<Ymd<C::YearInfo>, RangeError>
    requires { IsCoveredYear year }
    ensures placed { let y = C.years cal.now in
        result_map_both (date_of y) range_parts result ≡ placed_in_year y.list year month day }
    ensures belongs { IfOk result (λ d. Belongs (C.years cal.now) d) }
{
    placed_in_year(cal.year_info_from_extended(year), month, day, cal)
}

/// Returns the date of an extended year, an ordinal month and a day, or the error of the first value out of range.
#[tactic(auto, unfolding(cal_types::specs::Placing::placed_date))]
fn placed<C: DateFieldsResolver>(
    year: i32,
    month: u8,
    day: u8,
    cal: &C,
) -> Result<Ymd<C::YearInfo>, RangeError>
    ensures placed { let y = C.years cal.now in
        result_map_both (date_of y) range_parts result ≡ placed_date y.list year month day }
    ensures belongs { IfOk result (λ d. Belongs (C.years cal.now) d) }
{
    match small_year(year) {
        Some(number) => placed_in_extended_year(number, month, day, cal),
        None => Err(not_small(year)),
    }
}

/// Returns the date of an era year from -9999 to 9999, an ordinal month and a day, or the first error.
fn placed_in_era<C: DateFieldsResolver>(
    era: &str,
    year: i32,
    month: u8,
    day: u8,
    cal: &C,
) -> Result<Ymd<C::YearInfo>, DateError>
    requires { IsConstructorYear year }
    ensures placed { let y = C.years cal.now in let read = (C.names cal.now).reads era.now year in
        result_map_both (date_of y) date_fault result ≡ placed_in_era y.list read month day }
    ensures belongs { IfOk result (λ d. Belongs (C.years cal.now) d) }
{
    match year_in_era(era, year, cal) {
        Ok(number) => match placed_in_extended_year(number, month, day, cal) {
            Ok(date) => Ok(date),
            Err(cause) => Err(DateError::from(cause)),
        },
        Err(cause) => Err(DateError::from(cause)),
    }
}

/// Returns the date of an era year, an ordinal month and a day, or the first error.
#[tactic(auto, unfolding(cal_types::specs::Placing::placed_of_era))]
fn placed_of_era<C: DateFieldsResolver>(
    era: &str,
    year: i32,
    month: u8,
    day: u8,
    cal: &C,
) -> Result<Ymd<C::YearInfo>, DateError>
    ensures placed { let y = C.years cal.now in
        result_map_both (date_of y) date_fault result
        ≡ placed_of_era y.list (C.names cal.now) era.now year month day }
    ensures belongs { IfOk result (λ d. Belongs (C.years cal.now) d) }
{
    match small_year(year) {
        Some(number) => placed_in_era(era, number, month, day, cal),
        None => Err(DateError::from(not_small(year))),
    }
}

/// Returns the error of a lunisolar date for an error of [`date_of_input`]. `InvalidEra` becomes `InvalidYear`: an
/// extended year has no era.
fn lunisolar_cause(cause: DateNewError) -> LunisolarDateError
    ensures { result ≡ lunisolar_fault cause }
{
    match cause {
        DateNewError::InvalidYear | DateNewError::InvalidEra => LunisolarDateError::InvalidYear,
        DateNewError::MonthNotInCalendar => LunisolarDateError::MonthNotInCalendar,
        DateNewError::MonthNotInYear => LunisolarDateError::MonthNotInYear,
        DateNewError::InvalidDay { max } => LunisolarDateError::InvalidDay { max },
    }
}

impl<C: DateFieldsResolver> ArithmeticDate<C> {
    /// Creates a date from an extended year, a month and a day. Values out of range are rejected, never adjusted.
    ///
    /// # Errors
    ///
    /// Fails with the first of these:
    /// - [`LunisolarDateError::InvalidYear`] if the year isn't from -9999 to 9999;
    /// - [`LunisolarDateError::MonthNotInCalendar`] if the month isn't one of the calendar's months;
    /// - [`LunisolarDateError::MonthNotInYear`] if this year lacks the month;
    /// - [`LunisolarDateError::InvalidDay`] if the day isn't from 1 to the month's length, `max`.
    pub fn try_from_ymd_lunisolar(
        year: i32,
        month: Month,
        day: u8,
        calendar: &C,
    ) -> Result<Self, LunisolarDateError>
        ensures made { let y = C.years calendar.now in
            answer_by (λ a. date_of y a.parts) result ≡ lunisolar_answer
            (made_date y.list (C.names calendar.now) (Extended year) (month_parts month) day) }
        ensures belongs { IfOk result (λ a. Belongs (C.years calendar.now) a.parts) }
    {
        match date_of_input(YearInput::Extended(year), month, day, calendar) {
            Ok(date) => Ok(ArithmeticDate::of_parts(date)),
            Err(cause) => Err(lunisolar_cause(cause)),
        }
    }

    /// Creates a date from an extended year, an ordinal month and a day. Values out of range are rejected, never
    /// adjusted.
    ///
    /// # Errors
    ///
    /// - [`RangeError`] for the first value out of range: `year` isn't from -9999 to 9999, `month` isn't from 1 to
    ///   the number of months in the year, or `day` isn't from 1 to the month's length.
    pub fn from_year_month_day(year: i32, month: u8, day: u8, cal: &C) -> Result<Self, RangeError>
        ensures placed { let y = C.years cal.now in
            result_map_both (λ a. date_of y a.parts) range_parts result
            ≡ placed_date y.list year month day }
        ensures belongs { IfOk result (λ a. Belongs (C.years cal.now) a.parts) }
    {
        match placed(year, month, day, cal) {
            Ok(date) => Ok(ArithmeticDate::of_parts(date)),
            Err(cause) => Err(cause),
        }
    }

    /// Creates a date from an era code, an era year, an ordinal month and a day. Values out of range are rejected,
    /// never adjusted.
    ///
    /// # Errors
    ///
    /// Fails with the first of these:
    /// - [`DateError::Range`] if the era year, `year`, isn't from -9999 to 9999;
    /// - [`DateError::UnknownEra`] if the era isn't one of the calendar's;
    /// - [`DateError::Range`] if `month` isn't from 1 to the number of months in the year, or `day` isn't from 1 to
    ///   the month's length.
    pub fn from_era_year_month_day(
        era: &str,
        year: i32,
        month: u8,
        day: u8,
        cal: &C,
    ) -> Result<Self, DateError>
        ensures placed { let y = C.years cal.now in
            result_map_both (λ a. date_of y a.parts) date_fault result
            ≡ placed_of_era y.list (C.names cal.now) era.now year month day }
        ensures belongs { IfOk result (λ a. Belongs (C.years cal.now) a.parts) }
    {
        match placed_of_era(era, year, month, day, cal) {
            Ok(date) => Ok(ArithmeticDate::of_parts(date)),
            Err(cause) => Err(cause),
        }
    }
}
