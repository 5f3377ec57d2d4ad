//! The calls on columns of dates, as `icu_calendar_c` and `icu_calendar_wasm` export them.

ghost use Rattle.std.specs.Prelude.{length, MatchResult};
ghost use Rattle.date_calls.specs.Calendars.{calendar_of, choice_system};
ghost use Rattle.date_calls.specs.Codes.{overflow_of_code, strategy_of_code, unit_of_code};
ghost use Rattle.date_calls.specs.ColumnCalls.{AddEach, AddToEach, DifferEach, NameEach, ShowsDayAt};
ghost use Rattle.date_calls.specs.Columns.{AreLeft, Fills};
ghost use Rattle.date_calls.specs.Durations.{duration_given};

use crate::calendars::{Chosen, choose};
use crate::codes::{overflow_of, strategy_of, unit_of};
use crate::columns::fill_columns;
use crate::dates::CalendarDate;
use crate::durations::{CalendarDuration, duration_of};
use crate::fields::CalendarFields;
use crate::outcomes::{CalendarOutcome, LENGTHS_DIFFER, UNKNOWN_OPTION};
use crate::places::{DaysToCompare, DaysToMove, DaysToMoveEach, DaysToShow, FieldsToName};
use cal_types::{DateAddOptions, DateDifferenceOptions, DateFromFieldsOptions};

/// Converts a column of day numbers to dates of a calendar, in `dates`.
///
/// `codes` has at every place what [`date_of_day`](crate::date_of_day) returns for the day number there. A date whose
/// code isn't 0 is unchanged.
///
/// # Errors
///
/// The result is 0 if all places are done. Otherwise both columns are unchanged, and it is the first of:
///
/// - 1 or 2 for an unknown calendar or an unknown source of years.
/// - 9 if the columns don't have the same length.
pub fn dates_of_days(
    calendar: u8,
    years: u8,
    days: &[i64],
    dates: &mut [CalendarDate],
    codes: &mut [u8],
) -> u8
    ensures { MatchResult (calendar_of calendar years)
        (λ s. Fills (ShowsDayAt s days.now) (length days.now) result dates.old dates.new codes.old codes.new)
        (λ why. AreLeft why result dates.old dates.new codes.old codes.new) }
{
    match choose(calendar, years) {
        Ok(chosen) => fill_columns(&DaysToShow { days }, &chosen, dates, codes),
        Err(code) => code,
    }
}

/// Computes the differences of two columns of day numbers in a calendar, in `durations`.
fn differ_each(
    chosen: &Chosen,
    first: &[i64],
    second: &[i64],
    unit: u8,
    durations: &mut [CalendarDuration],
    codes: &mut [u8],
) -> u8
    ensures { DifferEach (choice_system chosen.now) (unit_of_code unit) first.now second.now result durations.old
        durations.new codes.old codes.new }
{
    let Some(largest_unit) = unit_of(unit) else {
        return UNKNOWN_OPTION;
    };
    if second.len() != first.len() {
        return LENGTHS_DIFFER;
    }
    let call = DaysToCompare {
        first,
        second,
        options: DateDifferenceOptions { largest_unit },
    };
    fill_columns(&call, chosen, durations, codes)
}

/// Computes the differences between the dates of two columns of day numbers, in `durations`.
///
/// `codes` has at every place what [`until`](crate::until) returns for the day numbers there. A duration whose code
/// isn't 0 is unchanged.
///
/// # Errors
///
/// The result is 0 if all places are done. Otherwise both columns are unchanged, and it is the first of:
///
/// - 1, 2 or 3 for an unknown calendar, an unknown source of years or an unknown unit.
/// - 9 if the columns don't have the same length.
pub fn until_each(
    calendar: u8,
    years: u8,
    first: &[i64],
    second: &[i64],
    unit: u8,
    durations: &mut [CalendarDuration],
    codes: &mut [u8],
) -> u8
    ensures { MatchResult (calendar_of calendar years)
        (λ s. DifferEach s (unit_of_code unit) first.now second.now result durations.old durations.new codes.old
        codes.new)
        (λ why. AreLeft why result durations.old durations.new codes.old codes.new) }
{
    match choose(calendar, years) {
        Ok(chosen) => differ_each(&chosen, first, second, unit, durations, codes),
        Err(code) => code,
    }
}

/// Adds a duration to each day number of a column in a calendar, in `dates`.
fn add_one_to_each(
    chosen: &Chosen,
    days: &[i64],
    duration: &CalendarDuration,
    overflow: u8,
    dates: &mut [CalendarDate],
    outcomes: &mut [CalendarOutcome],
) -> u8
    ensures { AddToEach (choice_system chosen.now) (overflow_of_code overflow) days.now (duration_given duration.now)
        result dates.old dates.new outcomes.old outcomes.new }
{
    let Some(overflow) = overflow_of(overflow) else {
        return UNKNOWN_OPTION;
    };
    let call = DaysToMove {
        days,
        duration: duration_of(duration),
        options: DateAddOptions { overflow },
    };
    fill_columns(&call, chosen, dates, outcomes)
}

/// Adds a duration to the date of each day number of a column, in `dates`.
///
/// `outcomes` has at every place the code and the greatest valid number that [`add`](crate::add) returns for the day
/// number there. A date whose code isn't 0 is unchanged.
///
/// # Errors
///
/// The result is 0 if all places are done. Otherwise both columns are unchanged, and it is the first of:
///
/// - 1, 2 or 3 for an unknown calendar, an unknown source of years or an unknown option.
/// - 9 if the columns don't have the same length.
pub fn add_to_each(
    calendar: u8,
    years: u8,
    days: &[i64],
    duration: &CalendarDuration,
    overflow: u8,
    dates: &mut [CalendarDate],
    outcomes: &mut [CalendarOutcome],
) -> u8
    ensures { MatchResult (calendar_of calendar years)
        (λ s. AddToEach s (overflow_of_code overflow) days.now (duration_given duration.now) result dates.old dates.new
        outcomes.old outcomes.new)
        (λ why. AreLeft why result dates.old dates.new outcomes.old outcomes.new) }
{
    match choose(calendar, years) {
        Ok(chosen) => add_one_to_each(&chosen, days, duration, overflow, dates, outcomes),
        Err(code) => code,
    }
}

/// Adds to each day number of a column the duration at its place in a calendar, in `dates`.
fn add_own_to_each(
    chosen: &Chosen,
    days: &[i64],
    durations: &[CalendarDuration],
    overflow: u8,
    dates: &mut [CalendarDate],
    outcomes: &mut [CalendarOutcome],
) -> u8
    ensures { AddEach (choice_system chosen.now) (overflow_of_code overflow) days.now durations.now result dates.old
        dates.new outcomes.old outcomes.new }
{
    let Some(overflow) = overflow_of(overflow) else {
        return UNKNOWN_OPTION;
    };
    if durations.len() != days.len() {
        return LENGTHS_DIFFER;
    }
    let call = DaysToMoveEach {
        days,
        durations,
        options: DateAddOptions { overflow },
    };
    fill_columns(&call, chosen, dates, outcomes)
}

/// Adds to the date of each day number of a column the duration at its place, in `dates`.
///
/// `outcomes` has at every place the code and the greatest valid number that [`add`](crate::add) returns for the day
/// number and the duration there. A date whose code isn't 0 is unchanged.
///
/// # Errors
///
/// The result is 0 if all places are done. Otherwise both columns are unchanged, and it is the first of:
///
/// - 1, 2 or 3 for an unknown calendar, an unknown source of years or an unknown option.
/// - 9 if the columns don't have the same length.
pub fn add_each(
    calendar: u8,
    years: u8,
    days: &[i64],
    durations: &[CalendarDuration],
    overflow: u8,
    dates: &mut [CalendarDate],
    outcomes: &mut [CalendarOutcome],
) -> u8
    ensures { MatchResult (calendar_of calendar years)
        (λ s. AddEach s (overflow_of_code overflow) days.now durations.now result dates.old dates.new outcomes.old
        outcomes.new)
        (λ why. AreLeft why result dates.old dates.new outcomes.old outcomes.new) }
{
    match choose(calendar, years) {
        Ok(chosen) => add_own_to_each(&chosen, days, durations, overflow, dates, outcomes),
        Err(code) => code,
    }
}

/// Creates dates of a calendar from a column of fields, in `dates`.
fn name_each(
    chosen: &Chosen,
    fields: &[CalendarFields],
    era: &[u8],
    month_code: &[u8],
    overflow: u8,
    missing: u8,
    dates: &mut [CalendarDate],
    outcomes: &mut [CalendarOutcome],
) -> u8
    ensures { NameEach (choice_system chosen.now) fields.now era.now month_code.now (overflow_of_code overflow)
        (strategy_of_code missing) result dates.old dates.new outcomes.old outcomes.new }
{
    let Some(overflow) = overflow_of(overflow) else {
        return UNKNOWN_OPTION;
    };
    let Some(missing_fields_strategy) = strategy_of(missing) else {
        return UNKNOWN_OPTION;
    };
    let call = FieldsToName {
        fields,
        era,
        month_code,
        options: DateFromFieldsOptions {
            overflow,
            missing_fields_strategy,
        },
    };
    fill_columns(&call, chosen, dates, outcomes)
}

/// Creates dates from a column of fields, in `dates`. `era` and `month_code` count for all of them.
///
/// `outcomes` has at every place the code and the greatest valid number that
/// [`date_of_fields`](crate::date_of_fields) returns for the fields there. A date whose code isn't 0 is unchanged.
///
/// # Errors
///
/// The result is 0 if all places are done. Otherwise both columns are unchanged, and it is the first of:
///
/// - 1, 2 or 3 for an unknown calendar, an unknown source of years or an unknown option.
/// - 9 if the columns don't have the same length.
pub fn dates_of_fields(
    calendar: u8,
    years: u8,
    fields: &[CalendarFields],
    era: &[u8],
    month_code: &[u8],
    overflow: u8,
    missing: u8,
    dates: &mut [CalendarDate],
    outcomes: &mut [CalendarOutcome],
) -> u8
    ensures { MatchResult (calendar_of calendar years)
        (λ s. NameEach s fields.now era.now month_code.now (overflow_of_code overflow) (strategy_of_code missing) result
        dates.old dates.new outcomes.old outcomes.new)
        (λ why. AreLeft why result dates.old dates.new outcomes.old outcomes.new) }
{
    match choose(calendar, years) {
        Ok(chosen) => name_each(
            &chosen, fields, era, month_code, overflow, missing, dates, outcomes,
        ),
        Err(code) => code,
    }
}
