//! What constructors and bags of fields name, by tables.

mod constructors;
mod days;
mod eras;
mod expected;
mod faults;
mod reference_years;
mod subsets;

use crate::tests::expected::assert_holds;
use icu_calendar::{
    AnyCalendar, AnyCalendarKind, Date, DateFields, DateFromFieldsError, DateFromFieldsOptions,
    Gregorian, Iso, Julian, MissingFieldsStrategy, Month, Overflow,
};
use std::process::Abort;
use test_dates::{GREGORIAN, ISO, JULIAN, calendar_of, number_of, parts_of};

/// The fields of a bag that speak of the year: era, era year and extended year.
type YearFields = (Option<&'static str>, Option<i32>, Option<i32>);

const NO_YEAR: YearFields = (None, None, None);

fn extended(year: i32) -> YearFields {
    (None, None, Some(year))
}

fn of_era(era: &'static str, year: i32) -> YearFields {
    (Some(era), Some(year), None)
}

/// The fields of a bag that speak of the month: month, month code and ordinal month.
type MonthFields = (Option<Month>, Option<&'static str>, Option<u8>);

const NO_MONTH: MonthFields = (None, None, None);

fn month(number: u8) -> MonthFields {
    (Some(Month::new(number)), None, None)
}

fn code(text: &'static str) -> MonthFields {
    (None, Some(text), None)
}

fn ordinal(place: u8) -> MonthFields {
    (None, None, Some(place))
}

fn bag(year: YearFields, month: MonthFields, day: Option<u8>) -> DateFields<'static> {
    DateFields {
        era: year.0.map(|era| era.as_bytes()),
        era_year: year.1,
        extended_year: year.2,
        month: month.0,
        month_code: month.1.map(|code| code.as_bytes()),
        ordinal_month: month.2,
        day,
    }
}

/// The options under which each fault is an error.
const STRICT: DateFromFieldsOptions = DateFromFieldsOptions {
    overflow: Some(Overflow::Reject),
    missing_fields_strategy: Some(MissingFieldsStrategy::Reject),
};

/// The options that constrain month and day.
const CLAMPS: DateFromFieldsOptions = DateFromFieldsOptions {
    overflow: Some(Overflow::Constrain),
    missing_fields_strategy: Some(MissingFieldsStrategy::Reject),
};

/// The options that fill a year or a day in.
const FILLS: DateFromFieldsOptions = DateFromFieldsOptions {
    overflow: Some(Overflow::Reject),
    missing_fields_strategy: Some(MissingFieldsStrategy::Ecma),
};

/// The options that do both.
const LENIENT: DateFromFieldsOptions = DateFromFieldsOptions {
    overflow: Some(Overflow::Constrain),
    missing_fields_strategy: Some(MissingFieldsStrategy::Ecma),
};

/// The date that a bag names in the calendar of a kind, or its first fault.
fn date_of(
    fields: DateFields<'_>,
    options: DateFromFieldsOptions,
    calendar: AnyCalendarKind,
) -> Result<Date<AnyCalendar<'static>>, DateFromFieldsError> {
    Date::try_from_fields(fields, options, calendar_of(calendar))
}

/// The day number of the date that a bag names, or its first fault.
fn day_of(
    fields: DateFields<'_>,
    options: DateFromFieldsOptions,
    calendar: AnyCalendarKind,
) -> Result<i64, DateFromFieldsError> {
    match date_of(fields, options, calendar) {
        Ok(date) => Ok(number_of(&date)),
        Err(cause) => Err(cause),
    }
}

/// Whether a bag names the date of this day, or has this first fault.
fn is_day(
    fields: DateFields<'_>,
    options: DateFromFieldsOptions,
    calendar: AnyCalendarKind,
    want: Result<i64, DateFromFieldsError>,
) -> bool {
    day_of(fields, options, calendar) == want
}
