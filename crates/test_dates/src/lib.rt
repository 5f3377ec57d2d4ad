//! What the tests of dates share: calendars, bags, durations, and what a date says.
#![tactic(auto)]

ghost use Rattle.cal_days.specs.Day.{IsValidDay};

use icu_calendar::{
    AnyCalendar, AnyCalendarKind, AsCalendar, Calendar, Date, DateDifferenceOptions, DateDuration,
    DateDurationUnit, DateFields, DateFromFieldsError, DateFromFieldsOptions,
    MissingFieldsStrategy, Month, Overflow, RataDie, Tables, YearInfo,
};

/// The Gregorian calendar.
pub const GREGORIAN: AnyCalendarKind = AnyCalendarKind::Gregorian;

/// The ISO calendar.
pub const ISO: AnyCalendarKind = AnyCalendarKind::Iso;

/// The Julian calendar.
pub const JULIAN: AnyCalendarKind = AnyCalendarKind::Julian;

/// The options under which a fault is an error.
pub const REJECT: DateFromFieldsOptions = DateFromFieldsOptions {
    overflow: Some(Overflow::Reject),
    missing_fields_strategy: Some(MissingFieldsStrategy::Reject),
};

/// The option that counts days alone.
pub const IN_DAYS: DateDifferenceOptions = DateDifferenceOptions {
    largest_unit: Some(DateDurationUnit::Days),
};

/// Fields with a year, a plain month and a day alone.
pub fn fields(year: i32, month: u8, day: u8) -> DateFields<'static> {
    DateFields::from_year_month_day(year, Month::new(month), day)
}

/// A duration of these parts.
pub fn duration(is_negative: bool, years: u32, months: u32, weeks: u32, days: u32) -> DateDuration {
    DateDuration {
        is_negative,
        years,
        months,
        weeks,
        days,
    }
}

/// The day of a number, which is brought to the valid range.
pub fn day(number: i64) -> RataDie
    ensures { IsValidDay result }
{
    RataDie::new(number.clamp(-365242499, 365242134))
}

/// The calendar of a kind, without tables.
pub fn calendar_of(kind: AnyCalendarKind) -> AnyCalendar<'static> {
    AnyCalendar::new(kind, Tables::none())
}

/// The date of a day number in the calendar of a kind.
pub fn date_on(number: i64, kind: AnyCalendarKind) -> Date<AnyCalendar<'static>> {
    Date::from_rata_die(day(number), calendar_of(kind))
}

/// The date of a year, a plain month and a day in a calendar, or the first fault.
pub fn date_named<A: AsCalendar>(
    year: i32,
    month: u8,
    day: u8,
    calendar: A,
) -> Result<Date<A>, DateFromFieldsError>
where
    A::Calendar: Calendar,
{
    Date::try_from_fields(fields(year, month, day), REJECT, calendar)
}

/// The day of a date in the calendar of a kind.
pub fn shown_in(
    date: &Date<AnyCalendar<'static>>,
    kind: AnyCalendarKind,
) -> Date<AnyCalendar<'static>> {
    shown_by(date, calendar_of(kind))
}

/// The day of a date in another calendar of the same type.
fn shown_by<A: AsCalendar>(date: &Date<A>, calendar: A) -> Date<A>
where
    A::Calendar: Calendar,
{
    date.to_calendar(calendar)
}

/// The day number of a date.
pub fn number_in<A: AsCalendar>(date: &Date<A>) -> i64
where
    A::Calendar: Calendar,
{
    date.to_rata_die().to_i64_date()
}

/// The extended year, the ordinal month and the day of a date.
pub fn parts_in<A: AsCalendar>(date: &Date<A>) -> (i32, u8, u8)
where
    A::Calendar: Calendar,
{
    let year = date.year().extended_year();
    (year, date.month().ordinal, date.day_of_month().0)
}

/// What a date says of itself.
#[derive(Drop)]
struct Said {
    /// The day number.
    number: i64,
    /// The extended year, the ordinal month and the day.
    parts: (i32, u8, u8),
    /// The year, in its era or cycle.
    year: YearInfo,
}

impl Said {
    /// Whether these are the day number, extended year, ordinal month and day.
    fn has_parts(&self, number: i64, extended_year: i32, month: u8, day_of_month: u8) -> bool {
        self.number == number && self.parts == (extended_year, month, day_of_month)
    }

    /// Whether the year is this one of an era, and this extended year.
    fn is_in_year(&self, extended_year: i32, era: &str, number: i32) -> bool {
        match self.year.era() {
            Some(named) => {
                named.era.as_str() == era
                    && named.year == number
                    && named.extended_year == extended_year
            }
            None => false,
        }
    }
}

/// What a date says of itself.
fn said_by<A: AsCalendar>(date: &Date<A>) -> Said
where
    A::Calendar: Calendar,
{
    Said {
        number: number_in(date),
        parts: parts_in(date),
        year: date.year(),
    }
}

/// Whether a date has this day number, extended year, ordinal month and day.
pub fn has_parts_in<A: AsCalendar>(
    date: &Date<A>,
    number: i64,
    extended_year: i32,
    month: u8,
    day_of_month: u8,
) -> bool
where
    A::Calendar: Calendar,
{
    said_by(date).has_parts(number, extended_year, month, day_of_month)
}

/// Whether a date is in this year of an era, and in this extended year.
pub fn is_in_year<A: AsCalendar>(date: &Date<A>, extended_year: i32, era: &str, number: i32) -> bool
where
    A::Calendar: Calendar,
{
    said_by(date).is_in_year(extended_year, era, number)
}

// The same of a date of any calendar. What hands over `AnyCalendar` is dear to prove, so one function asks such a date.

/// What a date of any calendar says of itself.
fn said_of(date: &Date<AnyCalendar<'_>>) -> Said {
    said_by(date)
}

/// The day number of a date of any calendar.
pub fn number_of(date: &Date<AnyCalendar<'_>>) -> i64 {
    said_of(date).number
}

/// The extended year, the ordinal month and the day of a date of any calendar.
pub fn parts_of(date: &Date<AnyCalendar<'_>>) -> (i32, u8, u8) {
    said_of(date).parts
}

/// Whether a date of any calendar has this day number, extended year, ordinal month and day.
pub fn has_parts(
    date: &Date<AnyCalendar<'_>>,
    number: i64,
    extended_year: i32,
    month: u8,
    day_of_month: u8,
) -> bool {
    said_of(date).has_parts(number, extended_year, month, day_of_month)
}

/// Whether a date of any calendar is in this year of an era, and in this extended year.
pub fn is_named(date: &Date<AnyCalendar<'_>>, extended_year: i32, era: &str, number: i32) -> bool {
    said_of(date).is_in_year(extended_year, era, number)
}

/// The difference of two dates; none where their calendars can't be compared.
pub fn difference(
    from: &Date<AnyCalendar<'static>>,
    to: &Date<AnyCalendar<'static>>,
    options: DateDifferenceOptions,
) -> Option<DateDuration> {
    difference_in(from, to, options)
}

/// The difference of two dates of one type; none where their calendars can't be compared.
fn difference_in<A: AsCalendar>(
    from: &Date<A>,
    to: &Date<A>,
    options: DateDifferenceOptions,
) -> Option<DateDuration>
where
    A::Calendar: Calendar,
{
    match from.try_until_with_options(to, options) {
        Ok(found) => Some(found),
        Err(_) => None,
    }
}
