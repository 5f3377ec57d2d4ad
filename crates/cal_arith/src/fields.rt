//! Creating dates from bags of fields (ECMAScript Temporal, `CalendarResolveFields` and `NonISOCalendarDateToISO`).

ghost use Rattle.std.specs.Prelude.{◌≡◌, ◌≤◌, ◌&&◌, IfOk, IfSome, option_map};
ghost use Rattle.cal_days.specs.Day.{IsRuleYear};
ghost use Rattle.cal_types.specs.Bag.{bag_of};
ghost use Rattle.cal_types.specs.MonthParts.{month_parts};
ghost use Rattle.cal_types.specs.CalendarList.{HasPlace, spot};
ghost use Rattle.cal_types.specs.Resolving.{after, day_or_first, in_reference_year, in_year, is_ecma, missing_fields_of, month_of_kind, month_said, or_plain_month, overflow_of, place_in_year, resolve, resolved_in_month, resolved_in_year, resolved_number, resolved_place, same_place, same_year, valid_date, without_year, year_and_month, year_named, year_of_era};
ghost use Rattle.cal_arith.specs.Dates.{answer_by, answer_of, date_of, Belongs, IsGivenDate};
ghost use Rattle.cal_arith.specs.FieldNames.{month_name, month_of_year, seen};
ghost use Rattle.cal_arith.specs.Given.{IsGiven};

use crate::adding::can_be_named;
use crate::arithmetic_date::ArithmeticDate;
use crate::dates::Ymd;
use crate::getters::{has_valid_day, is_up_to};
use crate::given_years::given_year;
use crate::month_names::{MonthOfYear, NamedMonth, named_month};
use crate::years::{DateFieldsResolver, YearShapes, Years};
use cal_types::{
    DateFields, DateFromFieldsError, DateFromFieldsOptions, EcmaReferenceYearError,
    MissingFieldsStrategy, Month, Overflow,
};

/// Returns the overflow of the options, which is [`Overflow::Reject`] by default.
fn fields_overflow(options: DateFromFieldsOptions) -> Overflow
    ensures { result ≡ overflow_of options.overflow }
{
    match options.overflow {
        Some(overflow) => overflow,
        None => Overflow::Reject,
    }
}

/// Returns the strategy for missing fields, which is [`MissingFieldsStrategy::Reject`] by default.
fn missing_fields(options: DateFromFieldsOptions) -> MissingFieldsStrategy
    ensures { result ≡ missing_fields_of options.missing_fields_strategy }
{
    match options.missing_fields_strategy {
        Some(strategy) => strategy,
        None => MissingFieldsStrategy::Reject,
    }
}

/// Returns whether the strategy supplies missing fields.
fn is_supplied(strategy: MissingFieldsStrategy) -> bool
    ensures { result ≡ is_ecma strategy }
{
    match strategy {
        MissingFieldsStrategy::Ecma => true,
        MissingFieldsStrategy::Reject => false,
    }
}

/// Returns the given day, or 1 for a missing day if `supplied`; else fails with
/// [`DateFromFieldsError::NotEnoughFields`].
fn day_or_first(day: Option<u8>, supplied: bool) -> Result<u8, DateFromFieldsError>
    ensures { result ≡ day_or_first day supplied }
{
    match day {
        Some(day) => Ok(day),
        None if supplied => Ok(1),
        None => Err(DateFromFieldsError::NotEnoughFields),
    }
}

/// Returns the year, or [`DateFromFieldsError::InconsistentYear`] if the bag's extended year is another one.
fn same_year(given: Option<i32>, year: i32) -> Result<i32, DateFromFieldsError>
    ensures { result ≡ same_year given year }
{
    match given {
        Some(given) if given != year => Err(DateFromFieldsError::InconsistentYear),
        _ => Ok(year),
    }
}

/// Returns the extended year of an era year. Fails, in this order, with [`DateFromFieldsError::Overflow`] if the era
/// year isn't from -1040000 to 1040000, `InvalidEra`, or `InconsistentYear` if `given` is another year.
fn year_of_era<C: DateFieldsResolver>(
    era: &[u8],
    era_year: i32,
    given: Option<i32>,
    cal: &C,
) -> Result<i32, DateFromFieldsError>
    ensures year { result ≡ year_of_era (C.names cal.now) era.now era_year given }
    ensures range { IfOk result (λ y. IsRuleYear y) }
{
    if !can_be_named(era_year) {
        return Err(DateFromFieldsError::Overflow);
    }
    match cal.extended_year_from_era_year_unchecked(era, era_year) {
        Ok(year) => same_year(given, year),
        Err(_) => Err(DateFromFieldsError::InvalidEra),
    }
}

/// Returns the extended year that a bag names, `None` if era, era year and extended year are all missing, or the
/// first error.
fn named_year<C: DateFieldsResolver>(
    era: Option<&[u8]>,
    era_year: Option<i32>,
    extended_year: Option<i32>,
    cal: &C,
) -> Result<Option<i32>, DateFromFieldsError>
    ensures year { let code = option_map (λ bytes. bytes.now) era.entry in
        result ≡ year_named (C.names cal.now) code era_year extended_year }
    ensures range { IfOk result (λ year. IfSome year (λ y. IsRuleYear y)) }
{
    match (era, era_year, extended_year) {
        (Some(era), Some(number), given) => match year_of_era(era, number, given, cal) {
            Ok(year) => Ok(Some(year)),
            Err(e) => Err(e),
        },
        (None, None, Some(year)) => {
            if can_be_named(year) {
                Ok(Some(year))
            } else {
                Err(DateFromFieldsError::Overflow)
            }
        }
        (None, None, None) => Ok(None),
        _ => Err(DateFromFieldsError::NotEnoughFields),
    }
}

/// Returns the month that is named by itself or by a month code. Fails with `MonthCodeInvalidSyntax`, or with
/// [`DateFromFieldsError::NotEnoughFields`] for an ordinal month.
fn month_said(name: NamedMonth<'_>) -> Result<Month, DateFromFieldsError>
    ensures { seen month_parts result ≡ month_said (month_name name.entry) }
{
    match name {
        NamedMonth::Month(month) => Ok(month),
        NamedMonth::Code(code) => match Month::try_from_utf8(code) {
            Ok(month) => Ok(month),
            Err(e) => Err(DateFromFieldsError::from(e)),
        },
        NamedMonth::Ordinal(_) => Err(DateFromFieldsError::NotEnoughFields),
    }
}

/// Returns a month in its reference year, or the error if it has none.
fn month_in_reference_year<'a, C: DateFieldsResolver>(
    month: Month,
    day: u8,
    cal: &C,
) -> Result<MonthOfYear<'a, C::YearInfo>, DateFromFieldsError>
    ensures there { let m = month_parts month in
        seen (month_of_year (C.years cal.now)) result ≡ in_reference_year m ((C.names cal.now).reference m day) }
    ensures given { IfOk result (λ there. IsGiven (C.years cal.now) there.year) }
{
    match cal.reference_year_from_month_day(month, day) {
        Ok(year) => Ok(MonthOfYear {
            year,
            month: NamedMonth::Month(month),
        }),
        Err(e) => Err(DateFromFieldsError::from(e)),
    }
}

/// Returns a month in its reference year. Under [`Overflow::Constrain`], a leap month without a reference year is
/// replaced by the plain month of its number.
fn month_or_plain_month<'a, C: DateFieldsResolver>(
    month: Month,
    day: u8,
    overflow: Overflow,
    cal: &C,
) -> Result<MonthOfYear<'a, C::YearInfo>, DateFromFieldsError>
    ensures there { let m = month_parts month in let names = C.names cal.now in let y = C.years cal.now in
        seen (month_of_year y) result ≡ after (month_of_kind y.list m)
        (λ known. or_plain_month names overflow known day (names.reference known day)) }
    ensures given { IfOk result (λ there. IsGiven (C.years cal.now) there.year) }
{
    match (cal.reference_year_from_month_day(month, day), overflow) {
        (Ok(year), _) => Ok(MonthOfYear {
            year,
            month: NamedMonth::Month(month),
        }),
        (Err(EcmaReferenceYearError::UseRegularIfConstrain), Overflow::Constrain) => {
            month_in_reference_year(Month::new(month.number()), day, cal)
        }
        (Err(e), _) => Err(DateFromFieldsError::from(e)),
    }
}

/// Returns the named month in its reference year, for a bag without a year. Fails with
/// [`DateFromFieldsError::NotEnoughFields`] if missing fields aren't supplied or the bag has an ordinal month.
fn without_year<'a, C: DateFieldsResolver>(
    month: NamedMonth<'a>,
    ordinal_month: Option<u8>,
    day: u8,
    overflow: Overflow,
    strategy: MissingFieldsStrategy,
    cal: &C,
) -> Result<MonthOfYear<'a, C::YearInfo>, DateFromFieldsError>
    ensures there { let y = C.years cal.now in let name = month_name month.entry in
        seen (month_of_year y) result ≡ without_year y.list (C.names cal.now) strategy overflow name ordinal_month day }
    ensures given { IfOk result (λ there. IsGiven (C.years cal.now) there.year) }
{
    if ordinal_month.is_some() || !is_supplied(strategy) {
        return Err(DateFromFieldsError::NotEnoughFields);
    }
    match month_said(month) {
        Ok(said) => month_or_plain_month(said, day, overflow, cal),
        Err(e) => Err(e),
    }
}

/// Returns the named month in the year of the bag, or in its reference year if the bag has no year.
fn month_of_year<'a, C: DateFieldsResolver>(
    year: Option<i32>,
    month: NamedMonth<'a>,
    ordinal_month: Option<u8>,
    day: u8,
    overflow: Overflow,
    strategy: MissingFieldsStrategy,
    cal: &C,
) -> Result<MonthOfYear<'a, C::YearInfo>, DateFromFieldsError>
    requires { IfSome year (λ y. IsRuleYear y) }
    ensures there { let y = C.years cal.now in let name = month_name month.entry in
        seen (month_of_year y) result ≡ in_year y.list (C.names cal.now) strategy overflow name ordinal_month day year }
    ensures given { IfOk result (λ there. IsGiven (C.years cal.now) there.year) }
{
    match year {
        Some(year) => Ok(MonthOfYear {
            year: given_year(year, cal),
            month,
        }),
        None => without_year(month, ordinal_month, day, overflow, strategy, cal),
    }
}

/// Returns the ordinal month `place`, or [`DateFromFieldsError::InconsistentMonth`] if the bag's ordinal month is
/// another one.
fn same_place(given: Option<u8>, place: u8) -> Result<u8, DateFromFieldsError>
    ensures { result ≡ same_place given place }
{
    match given {
        Some(given) if given != place => Err(DateFromFieldsError::InconsistentMonth),
        _ => Ok(place),
    }
}

/// Returns the number if it is from 1 to `last`. Other numbers become the nearest one under [`Overflow::Constrain`],
/// and fail with `fault` under [`Overflow::Reject`].
fn number_within(
    number: u8,
    last: u8,
    overflow: Overflow,
    fault: DateFromFieldsError,
) -> Result<u8, DateFromFieldsError>
    ensures number { result ≡ resolved_number last fault overflow number }
    ensures within { 1 ≤ last → IfOk result (λ n. (1 ≤ n) × (n ≤ last)) }
{
    match overflow {
        Overflow::Constrain => Ok(number.min(last).max(1)),
        Overflow::Reject => {
            if is_up_to(number, last) {
                Ok(number)
            } else {
                Err(fault)
            }
        }
    }
}

/// Returns the ordinal month of a month in a given year, or the first error.
fn place_of_month<C: YearShapes>(
    year: C::YearInfo,
    month: Month,
    ordinal_month: Option<u8>,
    overflow: Overflow,
    cal: &C,
) -> Result<u8, DateFromFieldsError>
    requires { IsGiven (C.years cal.now) year }
    ensures { let y = C.years cal.now in
        result ≡ after (month_of_kind y.list (month_parts month))
        (λ known. after (resolved_place (spot y.list (y.extended year) known overflow))
        (λ i. same_place ordinal_month i)) }
{
    match cal.ordinal_from_month(year, month, overflow) {
        Ok(place) => same_place(ordinal_month, place),
        Err(e) => Err(DateFromFieldsError::from(e)),
    }
}

/// Returns the ordinal month of the named month in a given year, or the first error.
fn place_in_year<C: YearShapes>(
    year: C::YearInfo,
    month: NamedMonth<'_>,
    ordinal_month: Option<u8>,
    overflow: Overflow,
    cal: &C,
) -> Result<u8, DateFromFieldsError>
    requires { IsGiven (C.years cal.now) year }
    ensures { let y = C.years cal.now in
        result ≡ place_in_year y.list (y.extended year) overflow (month_name month.entry) ordinal_month }
{
    match month {
        NamedMonth::Ordinal(place) => {
            let count = cal.months_in_provided_year(year);
            let fault = DateFromFieldsError::InvalidOrdinalMonth { max: count };
            number_within(place, count, overflow, fault)
        }
        name => match month_said(name) {
            Ok(said) => place_of_month(year, said, ordinal_month, overflow, cal),
            Err(e) => Err(e),
        },
    }
}

/// Returns the date of an ordinal month and a day of a given year. A day that the month lacks is constrained or
/// rejected; then the day number must be valid.
fn date_in_month<C: Years>(
    year: C::YearInfo,
    month: u8,
    day: u8,
    overflow: Overflow,
    cal: &C,
) -> Result<Ymd<C::YearInfo>, DateFromFieldsError>
    requires year { IsGiven (C.years cal.now) year }
    requires place { let y = C.years cal.now in HasPlace y.list (y.extended year) month }
    ensures resolved { let y = C.years cal.now in
        answer_of y result ≡ resolved_in_month y.list (y.extended year) month overflow day }
    ensures belongs { IfOk result (λ d. Belongs (C.years cal.now) d) }
{
    let last = cal.days_in_provided_month(year, month);
    let fault = DateFromFieldsError::InvalidDay { max: last };
    match number_within(day, last, overflow, fault) {
        Ok(day) => date_in_range(Ymd { year, month, day }, cal),
        Err(e) => Err(e),
    }
}

/// Returns the date, or [`DateFromFieldsError::Overflow`] if its day number isn't valid.
fn date_in_range<C: YearShapes>(
    date: Ymd<C::YearInfo>,
    cal: &C,
) -> Result<Ymd<C::YearInfo>, DateFromFieldsError>
    requires { IsGivenDate (C.years cal.now) date }
    ensures resolved { let y = C.years cal.now in answer_of y result ≡ valid_date y.list (date_of y date) }
    ensures belongs { IfOk result (λ d. Belongs (C.years cal.now) d) }
{
    if has_valid_day(date, cal) {
        Ok(date)
    } else {
        Err(DateFromFieldsError::Overflow)
    }
}

/// Returns the date of the named month and a day in a given year, or the first error.
fn date_in_year<C: Years>(
    year: C::YearInfo,
    month: NamedMonth<'_>,
    ordinal_month: Option<u8>,
    day: u8,
    overflow: Overflow,
    cal: &C,
) -> Result<Ymd<C::YearInfo>, DateFromFieldsError>
    requires { IsGiven (C.years cal.now) year }
    ensures resolved { let y = C.years cal.now in
        let there = year_and_month (y.extended year) (month_name month.entry) in
        answer_of y result ≡ resolved_in_year y.list there overflow ordinal_month day }
    ensures belongs { IfOk result (λ d. Belongs (C.years cal.now) d) }
{
    match place_in_year(year, month, ordinal_month, overflow, cal) {
        Ok(place) => date_in_month(year, place, day, overflow, cal),
        Err(e) => Err(e),
    }
}

/// Returns the date of a bag of fields, or the first error.
#[tactic(auto, unfolding(cal_types::specs::Resolving::resolve))]
fn date_of_fields<C: DateFieldsResolver>(
    fields: DateFields<'_>,
    overflow: Overflow,
    strategy: MissingFieldsStrategy,
    cal: &C,
) -> Result<Ymd<C::YearInfo>, DateFromFieldsError>
    ensures resolved { let y = C.years cal.now in
        answer_of y result ≡ resolve y.list (C.names cal.now) (bag_of fields.entry) overflow strategy }
    ensures belongs { IfOk result (λ d. Belongs (C.years cal.now) d) }
{
    let DateFields {
        era,
        era_year,
        extended_year,
        month,
        month_code,
        ordinal_month,
        day,
    } = fields;
    let supplied = is_supplied(strategy) && (extended_year.is_some() || era_year.is_some());
    let day = day_or_first(day, supplied)?;
    let name = named_month(month, month_code, ordinal_month)?;
    let year = named_year(era, era_year, extended_year, cal)?;
    let MonthOfYear { year, month } = month_of_year(
        year,
        name,
        ordinal_month,
        day,
        overflow,
        strategy,
        cal,
    )?;
    date_in_year(year, month, ordinal_month, day, overflow, cal)
}

impl<C: DateFieldsResolver> ArithmeticDate<C> {
    /// Creates a date from a bag of fields (ECMAScript Temporal, `CalendarResolveFields`).
    ///
    /// The default of the option `overflow` is [`Overflow::Reject`], and the default of `missing_fields_strategy` is
    /// [`MissingFieldsStrategy::Reject`]. [`MissingFieldsStrategy::Ecma`] supplies a missing day or year.
    /// [`Overflow::Constrain`] uses the nearest ordinal month and day, and the month that stands in for one that the
    /// year lacks.
    ///
    /// # Errors
    ///
    /// Fails with the first of these:
    /// - [`DateFromFieldsError::NotEnoughFields`] if the day is missing, unless the strategy is `Ecma` and the bag
    ///   has an extended year or an era year: then the day is 1;
    /// - [`DateFromFieldsError::TooManyFields`] if the bag has both a month and a month code;
    /// - [`DateFromFieldsError::NotEnoughFields`] if month, month code and ordinal month are all missing, or the bag
    ///   has an era without an era year or the reverse;
    /// - [`DateFromFieldsError::Overflow`] if the era year, or the extended year without an era, isn't from -1040000
    ///   to 1040000;
    /// - [`DateFromFieldsError::InvalidEra`] if the era isn't one of the calendar's;
    /// - [`DateFromFieldsError::InconsistentYear`] if the era year and the extended year name different years;
    /// - [`DateFromFieldsError::NotEnoughFields`] if the year is missing, unless the strategy is `Ecma` and the bag
    ///   has no ordinal month: then the year is the month's reference year;
    /// - [`DateFromFieldsError::MonthCodeInvalidSyntax`] if the month code isn't `M`, two digits and an optional `L`;
    /// - [`DateFromFieldsError::MonthNotInCalendar`] if the month isn't one of the calendar's months;
    /// - [`DateFromFieldsError::NotEnoughFields`] if the year is missing and the calendar has no reference years;
    /// - [`DateFromFieldsError::MonthNotInYear`] under `Reject` if the year lacks the month, or the year is missing
    ///   and the leap month has no reference year; under `Constrain` the plain month of its number is used instead,
    ///   which can fail with the two errors above;
    /// - [`DateFromFieldsError::InconsistentMonth`] if the month and the ordinal month differ;
    /// - [`DateFromFieldsError::InvalidOrdinalMonth`] under `Reject` if only an ordinal month names the month and it
    ///   isn't from 1 to `max`, the number of months in the year;
    /// - [`DateFromFieldsError::InvalidDay`] under `Reject` if the day isn't from 1 to `max`, the month's length;
    /// - [`DateFromFieldsError::Overflow`] if the day number isn't from -365242499 to 365242134.
    pub fn from_fields(
        fields: DateFields<'_>,
        options: DateFromFieldsOptions,
        calendar: &C,
    ) -> Result<Self, DateFromFieldsError>
        ensures resolved { let y = C.years calendar.now in
            answer_by (λ a. date_of y a.parts) result ≡ resolve y.list (C.names calendar.now)
            (bag_of fields.entry) (overflow_of options.overflow) (missing_fields_of options.missing_fields_strategy) }
        ensures belongs { IfOk result (λ a. Belongs (C.years calendar.now) a.parts) }
    {
        let (overflow, strategy) = (fields_overflow(options), missing_fields(options));
        match date_of_fields(fields, overflow, strategy, calendar) {
            Ok(date) => Ok(ArithmeticDate::of_parts(date)),
            Err(e) => Err(e),
        }
    }
}
