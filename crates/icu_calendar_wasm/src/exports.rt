//! The calls on dates, exported. Each function has the same contract as the function of `date_calls` that it wraps.

ghost use Rattle.std.specs.Prelude.{◌≡◌, MatchResult, ◌≢◌, MatchBool};
ghost use Rattle.date_calls.specs.Calendars.{calendar_of};
ghost use Rattle.date_calls.specs.Calls.{AddsIn, DiffersIn, IsLeft, IsLeftWith, NamesIn, ShowsDay, ShowsEra};
ghost use Rattle.date_calls.specs.Codes.{contents_of_code, kind_of_code, overflow_of_code, strategy_of_code, unit_of_code};
ghost use Rattle.date_calls.specs.Durations.{duration_given};
ghost use Rattle.date_calls.specs.Fields.{bag_given};
ghost use Rattle.date_calls.specs.Rules.{ListsRuleOver};
ghost use Rattle.cal_days.specs.Day.{is_valid_day};
ghost use Rattle.cal_days.specs.Easter.{IsGregorianEaster, IsJulianEaster};
ghost use Rattle.date_calls.specs.Weeks.{IsWeekLeft, IsWeekTold};

use date_calls::{
    CalendarDate, CalendarDuration, CalendarFields, CalendarOccurrence, CalendarRuleFault,
};

/// Converts a day number to a date of a calendar, in `date`.
///
/// `calendar` is a code such as `ICU_CALENDAR_ISO`; `years` is 0 for computed and 1 for published years; `day` is a day
/// number (rata die).
///
/// # Errors
///
/// Every call returns a code; 0 means that `date` is filled in. Otherwise `date` is unchanged, and the code is the
/// first of:
///
/// - 1 if no calendar has the code.
/// - 2 if `years` is neither 0 nor 1.
/// - 4 if `day` isn't from -365242499 to 365242134.
#[unsafe(no_mangle)]
pub extern "C" fn icu_calendar_date_of_day(
    calendar: u8,
    years: u8,
    day: i64,
    date: &mut CalendarDate,
) -> u8
    ensures { MatchResult (calendar_of calendar years) (λ s. ShowsDay s day result date.old date.new)
        (λ why. IsLeft why result date.old date.new) }
{
    date_calls::date_of_day(calendar, years, day, date)
}

/// Creates a date from fields, in `date`.
///
/// An empty `era` or `month_code` counts as not given. `overflow` is 1 to constrain a month or day that doesn't exist,
/// and 0 or 2 to reject it. `missing` is 2 to supply a missing year or day as ECMAScript Temporal does, and 0 or 1 to
/// reject it.
///
/// # Errors
///
/// The code is 0 if `date` is filled in. Otherwise `date` is unchanged, and the code is the first of:
///
/// - 1, 2 or 3 for an unknown calendar, an unknown source of years or an unknown option.
/// - 10 to 20 for the first invalid field. For 19 and 20 `max` is the greatest valid number; otherwise `max` is 0.
#[unsafe(no_mangle)]
pub extern "C" fn icu_calendar_date_of_fields(
    calendar: u8,
    years: u8,
    fields: &CalendarFields,
    era: &[u8],
    month_code: &[u8],
    overflow: u8,
    missing: u8,
    date: &mut CalendarDate,
    max: &mut u8,
) -> u8
    ensures { MatchResult (calendar_of calendar years)
        (λ s. NamesIn s (bag_given fields.now era.now month_code.now) (overflow_of_code overflow)
        (strategy_of_code missing) result max.new date.old date.new)
        (λ why. IsLeftWith why result max.new date.old date.new) }
{
    date_calls::date_of_fields(
        calendar, years, fields, era, month_code, overflow, missing, date, max,
    )
}

/// Adds a duration to the date of a day number, in `date`.
///
/// `overflow` is 2 to reject a month or day that doesn't exist, and 0 or 1 to constrain it.
///
/// # Errors
///
/// The code is 0 if `date` is filled in. Otherwise `date` is unchanged, and the code is the first of:
///
/// - 1, 2 or 3 for an unknown calendar, an unknown source of years or an unknown option.
/// - 4 if `day` isn't from -365242499 to 365242134.
/// - 12, 17 or 20 if the sum fails. For 20 `max` is the month's length; otherwise `max` is 0.
#[unsafe(no_mangle)]
pub extern "C" fn icu_calendar_add(
    calendar: u8,
    years: u8,
    day: i64,
    duration: &CalendarDuration,
    overflow: u8,
    date: &mut CalendarDate,
    max: &mut u8,
) -> u8
    ensures { MatchResult (calendar_of calendar years)
        (λ s. AddsIn s (overflow_of_code overflow) day (duration_given duration.now) result max.new date.old date.new)
        (λ why. IsLeftWith why result max.new date.old date.new) }
{
    date_calls::add(calendar, years, day, duration, overflow, date, max)
}

/// Computes the difference between the dates of two day numbers, in `duration`: the greatest duration that doesn't lead
/// past the second. Adding it to the first date, with `overflow` 1, returns the second.
///
/// The largest unit is years (1), months (2), weeks (3) or days (0 or 4).
///
/// # Errors
///
/// The code is 0 if `duration` is filled in. Otherwise `duration` is unchanged, and the code is the first of:
///
/// - 1, 2 or 3 for an unknown calendar, an unknown source of years or an unknown unit.
/// - 4 if a day number isn't from -365242499 to 365242134.
#[unsafe(no_mangle)]
pub extern "C" fn icu_calendar_until(
    calendar: u8,
    years: u8,
    first: i64,
    second: i64,
    unit: u8,
    duration: &mut CalendarDuration,
) -> u8
    ensures { MatchResult (calendar_of calendar years)
        (λ s. DiffersIn s (unit_of_code unit) first second result duration.old duration.new)
        (λ why. IsLeft why result duration.old duration.new) }
{
    date_calls::until(calendar, years, first, second, unit, duration)
}

/// Writes the code of the era of a day's year to the start of `room`, and its number of bytes, at most 16, to
/// `written`. A year of a cycle has no era: `written` is 0.
///
/// # Errors
///
/// The code is 0 if the era is written. Otherwise `room` is unchanged, and the code is the first of:
///
/// - 1 or 2 for an unknown calendar or an unknown source of years, with 0 in `written`.
/// - 4 if `day` isn't from -365242499 to 365242134, with 0 in `written`.
/// - 8 if `room` is too short; `written` is the number of bytes needed.
#[unsafe(no_mangle)]
pub extern "C" fn icu_calendar_era_of_day(
    calendar: u8,
    years: u8,
    day: i64,
    room: &mut [u8],
    written: &mut usize,
) -> u8
    ensures { MatchResult (calendar_of calendar years) (λ s. ShowsEra s day result room.old room.new written.new)
        (λ why. IsLeftWith why result written.new room.old room.new) }
{
    date_calls::era_of_day(calendar, years, day, room, written)
}

/// Computes the day number of Easter, in `day`: in a year of the Gregorian calendar (`rule` 0), or in a year of the
/// Julian calendar by the older rule (`rule` 1). The rules are extended to all years, so a year of more than six digits
/// may lead to a day number outside the valid range.
///
/// # Errors
///
/// - 3 for an unknown rule; `day` is unchanged. Otherwise the code is 0.
#[unsafe(no_mangle)]
pub extern "C" fn icu_calendar_easter(rule: u8, year: i32, day: &mut i64) -> u8
    ensures gregorian { rule ≡ 0 → (result ≡ 0) × IsGregorianEaster year day.new }
    ensures julian { rule ≡ 1 → (result ≡ 0) × IsJulianEaster year day.new }
    ensures others { rule ≢ 0 → rule ≢ 1 → (result ≡ 3) × (day.new ≡ day.old) }
{
    date_calls::easter(rule, year, day)
}

/// Computes the ISO 8601 week of a day number, from 1 to 53, and the year that it belongs to, in `week` and `year`.
///
/// A week runs from Monday to Sunday and belongs to the year of its Thursday, so week 1 has the year's first Thursday.
/// (ISO 8601)
///
/// # Errors
///
/// - 4 if `day` isn't from -365242499 to 365242134; both are unchanged. Otherwise the code is 0.
#[unsafe(no_mangle)]
pub extern "C" fn icu_calendar_week_of_year(day: i64, year: &mut i32, week: &mut u8) -> u8
    ensures { MatchBool (is_valid_day day) (IsWeekTold day result year.new week.new)
        (IsWeekLeft result year.old week.old year.new week.new) }
{
    date_calls::week_of_year(day, year, week)
}

/// Lists the occurrences of a recurrence rule of iCalendar (RFC 5545, RRULE; RFC 7529) from `first` to `last`: `rule` is
/// its text, such as `FREQ=MONTHLY;BYDAY=-1FR`, and `start` the day that it starts on. As many of them as `items` has
/// places are written to its start, in order, and their number to `written`. An item's index is how many occurrences
/// come before it from the start on, whatever the window is. The start is an occurrence only if the rule has it.
///
/// The list goes on from the day `next`: the same call with `next` in place of `first` writes the items that follow,
/// with their indices. If `next` comes after `last`, none do. Each call counts from the start.
///
/// # Errors
///
/// The code is 0 if occurrences are listed. Otherwise `items` and `next` are unchanged, `written` is 0, and the code is
/// the first of:
///
/// - 1 or 2 for an unknown calendar or an unknown source of years.
/// - 4 if `start` isn't from -365242499 to 365242134.
/// - 5 if a day of the window isn't from -365242499 to 365242134, or if `last` comes before `first`.
/// - 22 if the text is no rule of the calendar. Then `fault` says why; otherwise it is unchanged.
#[unsafe(no_mangle)]
pub extern "C" fn icu_calendar_rule_days(
    calendar: u8,
    years: u8,
    start: i64,
    rule: &[u8],
    first: i64,
    last: i64,
    items: &mut [CalendarOccurrence],
    written: &mut usize,
    next: &mut i64,
    fault: &mut CalendarRuleFault,
) -> u8
    ensures { ListsRuleOver (kind_of_code calendar) (contents_of_code years) start rule.now first last result items.old
        items.new written.new next.old next.new fault.old fault.new }
{
    date_calls::rule_days(
        calendar, years, start, rule, first, last, items, written, next, fault,
    )
}
