//! Dates from fields.

ghost use Rattle.std.specs.Prelude.{◌≡◌};
ghost use Rattle.std.specs.Option.{option_map};
ghost use Rattle.cal_types.specs.Bag.{bag_of};
ghost use Rattle.cal_types.specs.MonthParts.{month_parts};
ghost use Rattle.date_calls.specs.Fields.{bag_given, given_if, month_of, text_given};

use crate::dates::{CalendarDate, parts_of};
use crate::questions::Question;
use cal_base::Calendar;
use cal_types::{DateFields, DateFromFieldsError, DateFromFieldsOptions, Month};

/// Some fields of a date. A field counts as given if its `has_` field isn't 0.
#[repr(C)]
#[derive(Clone, Copy, Debug, PartialEq, Eq, Drop)]
pub struct CalendarFields {
    /// The year in the era.
    pub era_year: i32,
    /// The extended year, which numbers a calendar's years without eras.
    pub extended_year: i32,
    pub has_era_year: u8,
    pub has_extended_year: u8,
    pub has_month: u8,
    /// The month's number, as in its code. Numbers above 99 count as 99.
    pub month_number: u8,
    /// Not 0 for the leap month of this number.
    pub month_is_leap: u8,
    pub has_ordinal_month: u8,
    /// The month's ordinal number in its year, from 1.
    pub ordinal_month: u8,
    pub has_day: u8,
    /// The day of the month, from 1.
    pub day: u8,
}

/// Returns the value if `has` isn't 0, otherwise `None`.
fn given_if<T: Copy>(has: u8, value: T) -> Option<T>
    ensures { result ≡ given_if has value }
{
    if has == 0 { None } else { Some(value) }
}

/// Returns the month with a number: a leap month if `leap` isn't 0.
pub(crate) fn month_of(number: u8, leap: u8) -> Month
    ensures { month_parts result ≡ month_of number leap }
{
    if leap == 0 {
        Month::new(number)
    } else {
        Month::leap(number)
    }
}

/// Returns the month if `has` isn't 0, otherwise `None`.
fn month_if(has: u8, number: u8, leap: u8) -> Option<Month>
    ensures { option_map month_parts result ≡ given_if has (month_of number leap) }
{
    if has == 0 {
        None
    } else {
        Some(month_of(number, leap))
    }
}

/// Returns the text if it isn't empty, otherwise `None`.
fn text_if(text: &[u8]) -> Option<&[u8]>
    ensures { option_map (λ bytes. bytes.now) result ≡ text_given text.now }
{
    if text.is_empty() { None } else { Some(text) }
}

/// Returns the fields that are given.
pub(crate) fn fields_of<'a>(
    fields: &CalendarFields,
    era: &'a [u8],
    month_code: &'a [u8],
) -> DateFields<'a>
    ensures { bag_of result ≡ bag_given fields.now era.now month_code.now }
{
    DateFields {
        era: text_if(era),
        era_year: given_if(fields.has_era_year, fields.era_year),
        extended_year: given_if(fields.has_extended_year, fields.extended_year),
        month: month_if(fields.has_month, fields.month_number, fields.month_is_leap),
        month_code: text_if(month_code),
        ordinal_month: given_if(fields.has_ordinal_month, fields.ordinal_month),
        day: given_if(fields.has_day, fields.day),
    }
}

/// The task of creating a date from fields.
#[derive(Clone, Copy)]
pub(crate) struct OfFields<'a> {
    pub(crate) fields: DateFields<'a>,
    pub(crate) options: DateFromFieldsOptions,
}

impl<'a> Question for OfFields<'a> {
    ghost use Rattle.date_calls.specs.Fields.{IsResolved};

    type Answer = Result<CalendarDate, DateFromFieldsError>;

    ghost answers = { λ q s answer. IsResolved s (bag_of q.fields) q.options answer };

    fn ask<C: Calendar>(&self, calendar: &C) -> Result<CalendarDate, DateFromFieldsError>
        ensures { IsResolved (C.system calendar.now) (bag_of self.now.fields) self.now.options result }
    {
        match calendar.from_fields(self.fields, self.options) {
            Ok(date) => Ok(parts_of(calendar, &date)),
            Err(cause) => Err(cause),
        }
    }
}
