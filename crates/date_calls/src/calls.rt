//! The calls on dates, as `icu_calendar_c` and `icu_calendar_wasm` export them.

ghost use Rattle.std.specs.Prelude.{◌≡◌, MatchResult};
ghost use Rattle.cal_types.specs.Bag.{bag_of};
ghost use Rattle.date_calls.specs.Calendars.{calendar_of, choice_system};
ghost use Rattle.date_calls.specs.Calls.{AddsIn, DiffersIn, IsLeft, IsLeftWith, NamesIn, ShowsDay, ShowsEra};
ghost use Rattle.date_calls.specs.Codes.{overflow_of_code, strategy_of_code, unit_of_code};
ghost use Rattle.date_calls.specs.Durations.{duration_given};
ghost use Rattle.date_calls.specs.Fields.{bag_given};

use crate::calendars::{Chosen, ask, choose, run};
use crate::codes::{overflow_of, strategy_of, unit_of};
use crate::dates::CalendarDate;
use crate::days::ValidDay;
use crate::durations::{CalendarDuration, duration_of};
use crate::eras::EraOf;
use crate::fields::{CalendarFields, fields_of};
use crate::outcomes::{DONE, INVALID_DAY_NUMBER, NO_ROOM, UNKNOWN_OPTION};
use crate::rooms::put;
use crate::single::{Adding, Comparing, Naming, Showing};
use cal_types::{DateAddOptions, DateDifferenceOptions, DateFields, DateFromFieldsOptions};

/// Converts a day number to a date of a calendar, in `date`.
fn show_day(chosen: &Chosen, day: i64, date: &mut CalendarDate) -> u8
    ensures { ShowsDay (choice_system chosen.now) day result date.old date.new }
{
    run(&Showing { day }, date, chosen)
}

/// Converts a day number to a date of a calendar, in `date`.
///
/// `calendar` is a code such as `ICU_CALENDAR_ISO`; `years` is 0 for computed and 1 for published years; `day` is a day
/// number (rata die).
///
/// # Errors
///
/// Every call returns a code; 0 means that `date` is filled in. Otherwise `date` is unchanged, and the code is the
/// first of:
///
/// - 1 if no calendar has the code.
/// - 2 if `years` is neither 0 nor 1.
/// - 4 if `day` isn't from -365242499 to 365242134.
pub fn date_of_day(calendar: u8, years: u8, day: i64, date: &mut CalendarDate) -> u8
    ensures { MatchResult (calendar_of calendar years) (λ s. ShowsDay s day result date.old date.new)
        (λ why. IsLeft why result date.old date.new) }
{
    match choose(calendar, years) {
        Ok(chosen) => show_day(&chosen, day, date),
        Err(code) => code,
    }
}

/// Creates a date of a calendar from fields and the codes of options, in `date`.
fn name_with(
    chosen: &Chosen,
    fields: DateFields<'_>,
    overflow: u8,
    missing: u8,
    date: &mut CalendarDate,
    max: &mut u8,
) -> u8
    requires { max.old ≡ 0 }
    ensures { NamesIn (choice_system chosen.now) (bag_of fields.entry) (overflow_of_code overflow)
        (strategy_of_code missing) result max.new date.old date.new }
{
    let Some(overflow) = overflow_of(overflow) else {
        return UNKNOWN_OPTION;
    };
    let Some(missing_fields_strategy) = strategy_of(missing) else {
        return UNKNOWN_OPTION;
    };
    let options = DateFromFieldsOptions {
        overflow,
        missing_fields_strategy,
    };
    let task = Naming { fields, options };
    let outcome = run(&task, date, chosen);
    *max = outcome.max;
    outcome.code
}

/// Creates a date from fields, in `date`.
///
/// An empty `era` or `month_code` counts as not given. `overflow` is 1 to constrain a month or day that doesn't exist,
/// and 0 or 2 to reject it. `missing` is 2 to supply a missing year or day as ECMAScript Temporal does, and 0 or 1 to
/// reject it.
///
/// # Errors
///
/// The code is 0 if `date` is filled in. Otherwise `date` is unchanged, and the code is the first of:
///
/// - 1, 2 or 3 for an unknown calendar, an unknown source of years or an unknown option.
/// - 10 to 20 for the first invalid field. For 19 and 20 `max` is the greatest valid number; otherwise `max` is 0.
pub fn date_of_fields(
    calendar: u8,
    years: u8,
    fields: &CalendarFields,
    era: &[u8],
    month_code: &[u8],
    overflow: u8,
    missing: u8,
    date: &mut CalendarDate,
    max: &mut u8,
) -> u8
    ensures { MatchResult (calendar_of calendar years)
        (λ s. NamesIn s (bag_given fields.now era.now month_code.now) (overflow_of_code overflow)
        (strategy_of_code missing) result max.new date.old date.new)
        (λ why. IsLeftWith why result max.new date.old date.new) }
{
    *max = 0;
    match choose(calendar, years) {
        Ok(chosen) => {
            let fields = fields_of(fields, era, month_code);
            name_with(&chosen, fields, overflow, missing, date, max)
        }
        Err(code) => code,
    }
}

/// Adds a duration to the date of a day number in a calendar, in `date`, from the code of the option.
fn add_in(
    chosen: &Chosen,
    day: i64,
    duration: &CalendarDuration,
    overflow: u8,
    date: &mut CalendarDate,
    max: &mut u8,
) -> u8
    requires { max.old ≡ 0 }
    ensures { AddsIn (choice_system chosen.now) (overflow_of_code overflow) day (duration_given duration.now) result
        max.new date.old date.new }
{
    let Some(overflow) = overflow_of(overflow) else {
        return UNKNOWN_OPTION;
    };
    let task = Adding {
        day,
        duration: duration_of(duration),
        options: DateAddOptions { overflow },
    };
    let outcome = run(&task, date, chosen);
    *max = outcome.max;
    outcome.code
}

/// Adds a duration to the date of a day number, in `date`.
///
/// `overflow` is 2 to reject a month or day that doesn't exist, and 0 or 1 to constrain it.
///
/// # Errors
///
/// The code is 0 if `date` is filled in. Otherwise `date` is unchanged, and the code is the first of:
///
/// - 1, 2 or 3 for an unknown calendar, an unknown source of years or an unknown option.
/// - 4 if `day` isn't from -365242499 to 365242134.
/// - 12, 17 or 20 if the sum fails. For 20 `max` is the month's length; otherwise `max` is 0.
pub fn add(
    calendar: u8,
    years: u8,
    day: i64,
    duration: &CalendarDuration,
    overflow: u8,
    date: &mut CalendarDate,
    max: &mut u8,
) -> u8
    ensures { MatchResult (calendar_of calendar years)
        (λ s. AddsIn s (overflow_of_code overflow) day (duration_given duration.now) result max.new date.old date.new)
        (λ why. IsLeftWith why result max.new date.old date.new) }
{
    *max = 0;
    match choose(calendar, years) {
        Ok(chosen) => add_in(&chosen, day, duration, overflow, date, max),
        Err(code) => code,
    }
}

/// Computes the difference of two day numbers in a calendar, in `duration`.
fn differ_in(
    chosen: &Chosen,
    first: i64,
    second: i64,
    unit: u8,
    duration: &mut CalendarDuration,
) -> u8
    ensures { DiffersIn (choice_system chosen.now) (unit_of_code unit) first second result duration.old duration.new }
{
    let Some(largest_unit) = unit_of(unit) else {
        return UNKNOWN_OPTION;
    };
    let task = Comparing {
        first,
        second,
        options: DateDifferenceOptions { largest_unit },
    };
    run(&task, duration, chosen)
}

/// Computes the difference between the dates of two day numbers, in `duration`: the greatest duration that doesn't lead
/// past the second. Adding it to the first date, with `overflow` 1, returns the second.
///
/// The largest unit is years (1), months (2), weeks (3) or days (0 or 4).
///
/// # Errors
///
/// The code is 0 if `duration` is filled in. Otherwise `duration` is unchanged, and the code is the first of:
///
/// - 1, 2 or 3 for an unknown calendar, an unknown source of years or an unknown unit.
/// - 4 if a day number isn't from -365242499 to 365242134.
pub fn until(
    calendar: u8,
    years: u8,
    first: i64,
    second: i64,
    unit: u8,
    duration: &mut CalendarDuration,
) -> u8
    ensures { MatchResult (calendar_of calendar years)
        (λ s. DiffersIn s (unit_of_code unit) first second result duration.old duration.new)
        (λ why. IsLeft why result duration.old duration.new) }
{
    match choose(calendar, years) {
        Ok(chosen) => differ_in(&chosen, first, second, unit, duration),
        Err(code) => code,
    }
}

/// Writes the code of the era of a day's year in a calendar to the start of `room`.
fn show_era(chosen: &Chosen, day: i64, room: &mut [u8], written: &mut usize) -> u8
    requires { written.old ≡ 0 }
    ensures { ShowsEra (choice_system chosen.now) day result room.old room.new written.new }
{
    let Some(day) = ValidDay::of(day) else {
        return INVALID_DAY_NUMBER;
    };
    let era = ask(&EraOf { day }, chosen);
    if put(era.as_bytes(), room, written) {
        DONE
    } else {
        NO_ROOM
    }
}

/// Writes the code of the era of a day's year to the start of `room`, and its number of bytes, at most 16, to
/// `written`. A year of a cycle has no era: `written` is 0.
///
/// # Errors
///
/// The code is 0 if the era is written. Otherwise `room` is unchanged, and the code is the first of:
///
/// - 1 or 2 for an unknown calendar or an unknown source of years, with 0 in `written`.
/// - 4 if `day` isn't from -365242499 to 365242134, with 0 in `written`.
/// - 8 if `room` is too short; `written` is the number of bytes needed.
pub fn era_of_day(calendar: u8, years: u8, day: i64, room: &mut [u8], written: &mut usize) -> u8
    ensures { MatchResult (calendar_of calendar years) (λ s. ShowsEra s day result room.old room.new written.new)
        (λ why. IsLeftWith why result written.new room.old room.new) }
{
    *written = 0;
    match choose(calendar, years) {
        Ok(chosen) => show_era(&chosen, day, room, written),
        Err(code) => code,
    }
}
