//! Creating dates from a year, a month and a day, as `Date::try_new` of icu_calendar does.

ghost use Rattle.std.specs.Prelude.{◌≡◌, Err, IfOk, ok_or, if◌then◌else◌};
ghost use Rattle.cal_days.specs.Day.{IsCoveredYear, IsConstructorYear, is_constructor_year};
ghost use Rattle.cal_types.specs.MonthParts.{month_parts};
ghost use Rattle.cal_errors.specs.declared.errors.DateNewError.TheVariants.{InvalidYear, InvalidEra};
ghost use Rattle.cal_types.specs.Constructing.{made_date, made_day, made_in_year, year_given, year_read};
ghost use Rattle.cal_arith.specs.Dates.{answer_by, answer_of, date_of, Belongs};
ghost use Rattle.cal_arith.specs.FieldNames.{era_read};
ghost use Rattle.cal_arith.specs.Given.{HasMonth, IsGiven};

use crate::arithmetic_date::ArithmeticDate;
use crate::dates::Ymd;
use crate::getters::is_up_to;
use crate::years::{DateFieldsResolver, YearShapes, Years};
use cal_days::ranges::MAX_CONSTRUCTOR_YEAR;
use cal_types::{DateNewError, Month, MonthError, Overflow, UnknownEraError, YearInput};

/// Returns whether a year is from -9999 to 9999, the range that constructors take.
pub(crate) fn is_small_year(year: i32) -> bool
    ensures { result ≡ is_constructor_year year }
{
    -MAX_CONSTRUCTOR_YEAR <= year && year <= MAX_CONSTRUCTOR_YEAR
}

/// Returns the extended year of an era year from -9999 to 9999. It is from -980000 to 980000.
///
/// # Errors
///
/// - [`UnknownEraError`] if the era isn't one of the calendar's.
pub(crate) fn year_in_era<C: DateFieldsResolver>(
    era: &str,
    year: i32,
    cal: &C,
) -> Result<i32, UnknownEraError>
    requires { IsConstructorYear year }
    ensures year { result ≡ era_read ((C.names cal.now).reads era.now year) }
    ensures range { IfOk result (λ y. IsCoveredYear y) }
{
    match cal.extended_year_from_era_year_unchecked(era.as_bytes(), year) {
        Ok(year) => Ok(year),
        Err(e) => Err(e),
    }
}

/// Returns the extended year of an era year from -9999 to 9999, or [`DateNewError::InvalidEra`].
fn year_of_era<C: DateFieldsResolver>(era: &str, year: i32, cal: &C) -> Result<i32, DateNewError>
    requires { IsConstructorYear year }
    ensures year { result ≡ ok_or ((C.names cal.now).reads era.now year) InvalidEra }
    ensures range { IfOk result (λ y. IsCoveredYear y) }
{
    match year_in_era(era, year, cal) {
        Ok(year) => Ok(year),
        Err(e) => Err(DateNewError::from(e)),
    }
}

/// Returns the extended year of a year in an era or without one. Fails with [`DateNewError::InvalidYear`] if it isn't
/// from -9999 to 9999, else with [`DateNewError::InvalidEra`] if the era isn't one of the calendar's.
fn extended_year_of<C: DateFieldsResolver>(
    year: YearInput<'_>,
    cal: &C,
) -> Result<i32, DateNewError>
    ensures year { result ≡ (if is_constructor_year (year_given year.entry)
        then ok_or (year_read (C.names cal.now) year.entry) InvalidEra else Err InvalidYear) }
    ensures range { IfOk result (λ y. IsCoveredYear y) }
{
    match year {
        YearInput::Extended(number) if is_small_year(number) => Ok(number),
        YearInput::EraYear(era, number) if is_small_year(number) => year_of_era(era, number, cal),
        _ => Err(DateNewError::InvalidYear),
    }
}

/// Returns the date of a year, a month and a day, rejecting values out of range.
///
/// # Errors
///
/// Fails with the first of these:
/// - [`DateNewError::InvalidYear`] if the year, in its era or without one, isn't from -9999 to 9999;
/// - [`DateNewError::InvalidEra`] if the era isn't one of the calendar's;
/// - [`DateNewError::MonthNotInCalendar`] if the month isn't one of the calendar's months;
/// - [`DateNewError::MonthNotInYear`] if this year lacks the month;
/// - [`DateNewError::InvalidDay`] if the day isn't from 1 to the month's length, `max`.
#[tactic(auto, unfolding(cal_types::specs::Constructing::made_date))]
pub(crate) fn date_of_input<C: DateFieldsResolver>(
    year: YearInput<'_>,
    month: Month,
    day: u8,
    cal: &C,
) -> Result<Ymd<C::YearInfo>, DateNewError>
    ensures made { let y = C.years cal.now in
        answer_of y result ≡ made_date y.list (C.names cal.now) year.entry (month_parts month) day }
    ensures belongs { IfOk result (λ d. Belongs (C.years cal.now) d) }
{
    match extended_year_of(year, cal) {
        Ok(number) => made_in_year(cal.year_info_from_extended(number), month, day, cal),
        Err(e) => Err(e),
    }
}

impl<C: DateFieldsResolver> ArithmeticDate<C> {
    /// Creates a date from a year, a month and a day. Values out of range are rejected, never adjusted.
    ///
    /// # Errors
    ///
    /// Fails with the first of these:
    /// - [`DateNewError::InvalidYear`] if the year, in its era or without one, isn't from -9999 to 9999;
    /// - [`DateNewError::InvalidEra`] if the era isn't one of the calendar's;
    /// - [`DateNewError::MonthNotInCalendar`] if the month isn't one of the calendar's months;
    /// - [`DateNewError::MonthNotInYear`] if this year lacks the month;
    /// - [`DateNewError::InvalidDay`] if the day isn't from 1 to the month's length, `max`.
    pub fn from_input_year_month_code_day(
        year: YearInput<'_>,
        month: Month,
        day: u8,
        calendar: &C,
    ) -> Result<Self, DateNewError>
        ensures made { let y = C.years calendar.now in
            answer_by (λ a. date_of y a.parts) result ≡ made_date y.list (C.names calendar.now)
            year.entry (month_parts month) day }
        ensures belongs { IfOk result (λ a. Belongs (C.years calendar.now) a.parts) }
    {
        match date_of_input(year, month, day, calendar) {
            Ok(date) => Ok(ArithmeticDate::of_parts(date)),
            Err(e) => Err(e),
        }
    }
}

/// Returns the date of a month and a day of a year from -980000 to 980000, or the first error.
fn made_in_year<C: YearShapes>(
    year: C::YearInfo,
    month: Month,
    day: u8,
    cal: &C,
) -> Result<Ymd<C::YearInfo>, DateNewError>
    requires year { IsGiven (C.years cal.now) year }
    requires range { IsCoveredYear ((C.years cal.now).extended year) }
    ensures made { let y = C.years cal.now in
        answer_of y result ≡ made_in_year y.list (y.extended year) (month_parts month) day }
    ensures belongs { IfOk result (λ d. Belongs (C.years cal.now) d) }
{
    match cal.ordinal_from_month(year, month, Overflow::Reject) {
        Ok(place) => made_in_month(year, place, day, cal),
        Err(MonthError::NotInCalendar) => Err(DateNewError::MonthNotInCalendar),
        Err(MonthError::NotInYear) => Err(DateNewError::MonthNotInYear),
    }
}

/// Returns the date of an ordinal month and a day of a year that has the month. Fails with
/// [`DateNewError::InvalidDay`] if the day isn't from 1 to the month's length.
fn made_in_month<C: YearShapes>(
    year: C::YearInfo,
    month: u8,
    day: u8,
    cal: &C,
) -> Result<Ymd<C::YearInfo>, DateNewError>
    requires range { IsCoveredYear ((C.years cal.now).extended year) }
    requires month { HasMonth (C.years cal.now) year month }
    ensures made { let y = C.years cal.now in answer_of y result ≡ made_day y.list (y.extended year) month day }
    ensures belongs { IfOk result (λ d. Belongs (C.years cal.now) d) }
{
    let last = cal.days_in_provided_month(year, month);
    if is_up_to(day, last) {
        Ok(Ymd { year, month, day })
    } else {
        Err(DateNewError::InvalidDay { max: last })
    }
}
