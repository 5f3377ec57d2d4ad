//! The calls on one date, in a calendar in its own type.

ghost use Rattle.std.specs.Prelude.{Some};
ghost use Rattle.cal_types.specs.Adding.{add_overflow_of};
ghost use Rattle.cal_types.specs.Bag.{bag_of};
ghost use Rattle.date_calls.specs.Calls.{AddsIn, AddsTo, DiffersIn, NamesDate, ShowsDay};

use crate::dates::{CalendarDate, OfDay};
use crate::days::ValidDay;
use crate::durations::{CalendarDuration, Difference, Sum, told};
use crate::fields::OfFields;
use crate::outcomes::{
    CalendarOutcome, DONE, INVALID_DAY_NUMBER, fault_of_fields, fault_of_sum, why,
};
use crate::questions::Question;
use cal_base::Calendar;
use cal_types::{
    DateAddOptions, DateDifferenceOptions, DateDuration, DateFields, DateFromFieldsOptions,
};

/// Converts a day number to a date, in `date`.
pub(crate) fn show_day<C: Calendar>(calendar: &C, day: i64, date: &mut CalendarDate) -> u8
    ensures { ShowsDay (C.system calendar.now) day result date.old date.new }
{
    let Some(day) = ValidDay::of(day) else {
        return INVALID_DAY_NUMBER;
    };
    let question = OfDay { day };
    *date = question.ask(calendar);
    DONE
}

/// Computes the difference of two day numbers, in `duration`.
pub(crate) fn differ<C: Calendar>(
    calendar: &C,
    first: i64,
    second: i64,
    options: DateDifferenceOptions,
    duration: &mut CalendarDuration,
) -> u8
    ensures { DiffersIn (C.system calendar.now) (Some options.largest_unit) first second result duration.old
        duration.new }
{
    let Some(from) = ValidDay::of(first) else {
        return INVALID_DAY_NUMBER;
    };
    let Some(to) = ValidDay::of(second) else {
        return INVALID_DAY_NUMBER;
    };
    let difference = Difference { from, to, options };
    *duration = told(difference.ask(calendar));
    DONE
}

/// Computes the date of a sum, in `date`.
fn add_to<C: Calendar>(calendar: &C, sum: &Sum, date: &mut CalendarDate) -> CalendarOutcome
    ensures { let overflow = add_overflow_of sum.now.options.overflow in
        AddsTo (C.system calendar.now) sum.now.day.day sum.now.duration overflow result.code result.max date.old
        date.new }
{
    match sum.ask(calendar) {
        Ok(found) => {
            *date = found;
            why(DONE, 0)
        }
        Err(cause) => fault_of_sum(cause),
    }
}

/// Adds a duration to the date of a day number, in `date`.
pub(crate) fn add<C: Calendar>(
    calendar: &C,
    day: i64,
    duration: DateDuration,
    options: DateAddOptions,
    date: &mut CalendarDate,
) -> CalendarOutcome
    ensures { AddsIn (C.system calendar.now) (Some options.overflow) day duration result.code result.max date.old
        date.new }
{
    let Some(day) = ValidDay::of(day) else {
        return why(INVALID_DAY_NUMBER, 0);
    };
    let sum = Sum {
        day,
        duration,
        options,
    };
    add_to(calendar, &sum, date)
}

/// Creates a date from fields, in `date`.
pub(crate) fn name<C: Calendar>(
    calendar: &C,
    fields: DateFields<'_>,
    options: DateFromFieldsOptions,
    date: &mut CalendarDate,
) -> CalendarOutcome
    ensures { NamesDate (C.system calendar.now) (bag_of fields.entry) options result.code result.max date.old
        date.new }
{
    let question = OfFields { fields, options };
    match question.ask(calendar) {
        Ok(found) => {
            *date = found;
            why(DONE, 0)
        }
        Err(cause) => fault_of_fields(cause),
    }
}
