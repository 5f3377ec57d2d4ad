//! The dates of two bags of fields, in two calendars, and their difference.

ghost use Rattle.std.specs.Prelude.{◌≡◌, IfOk, IfErr, Ok};
ghost use Rattle.cal_types.specs.Bag.{bag_of};
ghost use Rattle.cal_types.specs.CalendarList.{IsOn, day_number};
ghost use Rattle.cal_types.specs.CalendarSystem.{resolve_fields};
ghost use Rattle.cal_types.specs.Difference.{largest_unit_of};
ghost use Rattle.cal_types.specs.Until.{IsUntil};
ghost use Rattle.cal_any.specs.AnySystem.{any_system, any_date};
ghost use Rattle.cal_types.specs.Spans.{AnswersBags, IsSpan, RefusesBag};
ghost use Rattle.icu_calendar.specs.SpanAnswers.{span_answer, span_dates_in, HasCalendars};

use crate::date::Date;
use crate::span_answer::Span;
use cal_any::AnyCalendar;
use cal_base::{AsCalendar, Calendar};
use cal_types::{
    BagSide, DateDifferenceOptions, DateDuration, DateFields, DateFromFieldsOptions, Overflow,
    SpanError,
};

/// Two dates of one calendar, created from two bags of fields by [`named_dates`].
#[derive(Drop)]
pub struct NamedDates<A: AsCalendar>
where
    A::Calendar: Calendar,
{
    from: Date<A>,
    to: Date<A>,
    ghost one_calendar: { from.calendar ≡ to.calendar },
}

impl<A: AsCalendar> NamedDates<A>
where
    A::Calendar: Calendar,
{
    /// Returns the date of the first bag.
    ///
    /// # Examples
    ///
    /// ```
    /// let from = DateFields::from_year_month_day(2024, Month::new(9), 30);
    /// let to = DateFields::from_year_month_day(2024, Month::new(10), 31);
    /// let dates = named_dates(from, to, DateFromFieldsOptions::default(), Iso)?;
    /// assert!(rt; dates.from().month().number() == 9 && dates.to().month().number() == 10);
    /// ```
    pub fn from(&self) -> &Date<A>
        ensures { result.now ≡ self.now.from }
    {
        &self.from
    }

    /// Returns the date of the second bag.
    ///
    /// # Examples
    ///
    /// ```
    /// let from = DateFields::from_year_month_day(2024, Month::new(9), 30);
    /// let to = DateFields::from_year_month_day(2024, Month::new(10), 31);
    /// let dates = named_dates(from, to, DateFromFieldsOptions::default(), Iso)?;
    /// assert!(rt; dates.from().month().number() == 9 && dates.to().month().number() == 10);
    /// ```
    pub fn to(&self) -> &Date<A>
        ensures { result.now ≡ self.now.to }
    {
        &self.to
    }

    /// Returns the difference from the first date to the second, as [`Date::try_until_with_options`] does. Adding it
    /// back, with [`Overflow::Constrain`], returns the second date.
    ///
    /// # Examples
    ///
    /// ```
    /// let from = DateFields::from_year_month_day(2024, Month::new(9), 30);
    /// let to = DateFields::from_year_month_day(2024, Month::new(10), 31);
    /// let dates = named_dates(from, to, DateFromFieldsOptions::default(), Iso)?;
    /// assert!(rt; dates.duration(DateDifferenceOptions::default()).days == 31);
    /// ```
    pub fn duration(&self, options: DateDifferenceOptions) -> DateDuration
        ensures { let c = A.cal_of self.now.from.calendar in
            let s = A.Calendar.system c in
            let t = A.Calendar.date_of c self.now.from.inner in
            let u = A.Calendar.date_of c self.now.to.inner in
            IsUntil s.list s.year_shift t u (largest_unit_of options.largest_unit) result }
    {
        self.from.until(&self.to, options)
    }
}

/// Creates the dates of two bags of fields in one calendar.
///
/// # Errors
///
/// - [`SpanError`] for the first bag that is invalid, with its side and its first invalid field, as
///   [`Date::try_from_fields`] reports it.
///
/// # Examples
///
/// ```
/// let from = DateFields::from_year_month_day(2024, Month::new(9), 30);
/// let to = DateFields::from_year_month_day(2024, Month::new(10), 31);
/// let dates = named_dates(from, to, DateFromFieldsOptions::default(), Iso)?;
/// assert!(rt; dates.from().month().number() == 9 && dates.to().month().number() == 10);
/// assert!(rt; dates.duration(DateDifferenceOptions::default()).days == 31);
/// ```
pub fn named_dates<A: AsCalendar + Copy>(
    from: DateFields<'_>,
    to: DateFields<'_>,
    options: DateFromFieldsOptions,
    calendar: A,
) -> Result<NamedDates<A>, SpanError>
where
    A::Calendar: Calendar,
    ensures from { let c = A.cal_of calendar in
        IfOk result (λ d. resolve_fields (A.Calendar.system c) (bag_of from.entry) options
        ≡ Ok (A.Calendar.date_of c d.from.inner)) }
    ensures to { let c = A.cal_of calendar in
        IfOk result (λ d. resolve_fields (A.Calendar.system c) (bag_of to.entry) options
        ≡ Ok (A.Calendar.date_of c d.to.inner)) }
    ensures refused { let system = A.Calendar.system (A.cal_of calendar) in
        IfErr result (λ e. RefusesBag system (bag_of from.entry) (bag_of to.entry) options e.side e.cause) }
    ensures calendars { IfOk result (λ d. (d.from.calendar ≡ calendar) × (d.to.calendar ≡ calendar)) }
{
    let first = match Date::try_from_fields(from, options, calendar) {
        Ok(date) => date,
        Err(cause) => return Err(SpanError {
            side: BagSide::From,
            cause,
        }),
    };
    match Date::try_from_fields(to, options, calendar) {
        Ok(second) => Ok(NamedDates {
            from: first,
            to: second,
        }),
        Err(cause) => Err(SpanError {
            side: BagSide::To,
            cause,
        }),
    }
}

/// Converts the two dates to another calendar.
fn shown_days<A: AsCalendar + Copy>(
    first: &Date<A>,
    second: &Date<A>,
    shown: A,
) -> (Date<A>, Date<A>)
where
    A::Calendar: Calendar,
    ensures first { let c = A.cal_of first.now.calendar in
        let there = A.cal_of shown in
        let day = day_number (A.Calendar.system c).list (A.Calendar.date_of c first.now.inner) in
        IsOn (A.Calendar.system there).list day (A.Calendar.date_of there result.0.inner) }
    ensures second { let c = A.cal_of second.now.calendar in
        let there = A.cal_of shown in
        let day = day_number (A.Calendar.system c).list (A.Calendar.date_of c second.now.inner) in
        IsOn (A.Calendar.system there).list day (A.Calendar.date_of there result.1.inner) }
    ensures calendars { (result.0.calendar ≡ shown) × (result.1.calendar ≡ shown) }
{
    (first.to_calendar(shown), second.to_calendar(shown))
}

/// The result of `span_in`: a [`Span`] in calendars of any one type.
#[derive(Drop)]
struct SpanIn<A: AsCalendar>
where
    A::Calendar: Calendar,
{
    from: Date<A>,
    from_shown: Date<A>,
    to: Date<A>,
    to_shown: Date<A>,
    duration: DateDuration,
}

/// Does the same as [`span`], in calendars of any one type.
fn span_in<A: AsCalendar + Copy>(
    from: DateFields<'_>,
    to: DateFields<'_>,
    options: DateFromFieldsOptions,
    difference: DateDifferenceOptions,
    calendar: A,
    shown: A,
) -> Result<SpanIn<A>, SpanError>
where
    A::Calendar: Calendar,
    ensures calendars { IfOk result (λ s. (s.from.calendar ≡ calendar) × (s.from_shown.calendar ≡ shown)
        × (s.to.calendar ≡ calendar) × (s.to_shown.calendar ≡ shown)) }
    ensures dates { let c = A.cal_of calendar in let d = A.cal_of shown in
        let unit = largest_unit_of difference.largest_unit in
        let list = (A.Calendar.system d).list in
        IfOk result (λ s. AnswersBags (A.Calendar.system c) list (bag_of from.entry) (bag_of to.entry) options unit
        (span_dates_in (A.Calendar.date_of c) (A.Calendar.date_of d) s.from.inner s.from_shown.inner s.to.inner
        s.to_shown.inner s.duration)) }
    ensures refused { let system = A.Calendar.system (A.cal_of calendar) in
        IfErr result (λ e. RefusesBag system (bag_of from.entry) (bag_of to.entry) options e.side e.cause) }
{
    match named_dates(from, to, options, calendar) {
        Ok(dates) => {
            let (from_shown, to_shown) = shown_days(&dates.from, &dates.to, shown);
            let duration = dates.duration(difference);
            Ok(SpanIn {
                from: dates.from,
                from_shown,
                to: dates.to,
                to_shown,
                duration,
            })
        }
        Err(error) => Err(error),
    }
}

/// Creates the dates of two bags of fields in a calendar, and converts both to a second calendar. Returns all four
/// dates and the difference from the first to the second. Adding the difference to the first date, with
/// [`Overflow::Constrain`], returns the second date.
///
/// # Errors
///
/// - [`SpanError`] for the first bag that is invalid, with its side and its first invalid field, as
///   [`Date::try_from_fields`] reports it.
///
/// # Examples
///
/// ```
/// let from = DateFields::from_year_month_day(2024, Month::new(9), 30);
/// let to = DateFields::from_year_month_day(2024, Month::new(10), 31);
/// let in_days = DateDifferenceOptions::default();
/// let iso = AnyCalendar::Iso(Iso);
/// let hebrew = AnyCalendar::Hebrew(Hebrew);
/// let reject = DateFromFieldsOptions::default();
/// let span = span(from, to, reject, in_days, iso, hebrew)?;
/// assert!(rt; span.duration.days == 31);
/// ```
pub fn span<'t>(
    from: DateFields<'_>,
    to: DateFields<'_>,
    options: DateFromFieldsOptions,
    difference: DateDifferenceOptions,
    calendar: AnyCalendar<'t>,
    shown: AnyCalendar<'t>,
) -> Result<Span<'t>, SpanError>
    ensures calendars { IfOk result (HasCalendars calendar.entry shown.entry) }
    ensures until { let system = any_system calendar.entry in
        IfOk result (λ s. let from = any_date calendar.entry s.from.inner in
        let to = any_date calendar.entry s.to.inner in
        IsUntil system.list system.year_shift from to (largest_unit_of difference.largest_unit) s.duration) }
    ensures spans { let c = any_system calendar.entry in
        let list = (any_system shown.entry).list in
        let unit = largest_unit_of difference.largest_unit in
        IsSpan c list (bag_of from.entry) (bag_of to.entry) options unit (span_answer result) }
{
    match span_in(from, to, options, difference, calendar, shown) {
        Ok(span) => Ok(Span {
            from: span.from,
            from_shown: span.from_shown,
            to: span.to,
            to_shown: span.to_shown,
            duration: span.duration,
        }),
        Err(error) => Err(error),
    }
}
