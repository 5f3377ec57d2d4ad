//! The calls that the library for C has alone: on columns, on lists without a rule's text, on lengths and on texts of
//! dates. Each function has the same contract as the function of `date_calls` that it wraps.

ghost use Rattle.std.specs.Prelude.{length, MatchResult};
ghost use Rattle.date_calls.specs.Calendars.{calendar_of};
ghost use Rattle.date_calls.specs.Calls.{IsLeft};
ghost use Rattle.date_calls.specs.Codes.{overflow_of_code, strategy_of_code, unit_of_code};
ghost use Rattle.date_calls.specs.ColumnCalls.{AddEach, AddToEach, DifferEach, NameEach, ShowsDayAt};
ghost use Rattle.date_calls.specs.Columns.{AreLeft, Fills};
ghost use Rattle.date_calls.specs.Durations.{duration_given};
ghost use Rattle.date_calls.specs.Fields.{month_of};
ghost use Rattle.date_calls.specs.Lengths.{ShowsLengths};
ghost use Rattle.date_calls.specs.Lists.{IsUnlisted};
ghost use Rattle.date_calls.specs.Recurrences.{ListsOccurrences, rule_given};
ghost use Rattle.date_calls.specs.Texts.{ReadsText};
ghost use Rattle.date_calls.specs.DayTexts.{WritesText};
ghost use Rattle.date_calls.specs.Yearly.{ListsYearly};
ghost use Rattle.date_calls.specs.Weeks.{ShowsWeekAt};

use date_calls::{
    CalendarDate, CalendarDuration, CalendarFields, CalendarLengths, CalendarOccurrence,
    CalendarOutcome, CalendarWeek,
};

/// Converts a column of day numbers to dates of a calendar, in `dates`.
///
/// `codes` has at every place what `icu_calendar_date_of_day` returns for the day number there. A date whose
/// code isn't 0 is unchanged.
///
/// # Errors
///
/// The result is 0 if all places are done. Otherwise both columns are unchanged, and it is the first of:
///
/// - 1 or 2 for an unknown calendar or an unknown source of years.
/// - 9 if the columns don't have the same length.
#[unsafe(no_mangle)]
pub extern "C" fn icu_calendar_dates_of_days(
    calendar: u8,
    years: u8,
    days: &[i64],
    dates: &mut [CalendarDate],
    codes: &mut [u8],
) -> u8
    ensures { MatchResult (calendar_of calendar years)
        (λ s. Fills (ShowsDayAt s days.now) (length days.now) result dates.old dates.new codes.old codes.new)
        (λ why. AreLeft why result dates.old dates.new codes.old codes.new) }
{
    date_calls::dates_of_days(calendar, years, days, dates, codes)
}

/// Computes the differences between the dates of two columns of day numbers, in `durations`.
///
/// `codes` has at every place what `icu_calendar_until` returns for the day numbers there. A duration whose code
/// isn't 0 is unchanged.
///
/// # Errors
///
/// The result is 0 if all places are done. Otherwise both columns are unchanged, and it is the first of:
///
/// - 1, 2 or 3 for an unknown calendar, an unknown source of years or an unknown unit.
/// - 9 if the columns don't have the same length.
#[unsafe(no_mangle)]
pub extern "C" fn icu_calendar_until_each(
    calendar: u8,
    years: u8,
    first: &[i64],
    second: &[i64],
    unit: u8,
    durations: &mut [CalendarDuration],
    codes: &mut [u8],
) -> u8
    ensures { MatchResult (calendar_of calendar years)
        (λ s. DifferEach s (unit_of_code unit) first.now second.now result durations.old durations.new codes.old
        codes.new)
        (λ why. AreLeft why result durations.old durations.new codes.old codes.new) }
{
    date_calls::until_each(calendar, years, first, second, unit, durations, codes)
}

/// Adds a duration to the date of each day number of a column, in `dates`.
///
/// `outcomes` has at every place the code and the greatest valid number that `icu_calendar_add` returns for the day
/// number there. A date whose code isn't 0 is unchanged.
///
/// # Errors
///
/// The result is 0 if all places are done. Otherwise both columns are unchanged, and it is the first of:
///
/// - 1, 2 or 3 for an unknown calendar, an unknown source of years or an unknown option.
/// - 9 if the columns don't have the same length.
#[unsafe(no_mangle)]
pub extern "C" fn icu_calendar_add_to_each(
    calendar: u8,
    years: u8,
    days: &[i64],
    duration: &CalendarDuration,
    overflow: u8,
    dates: &mut [CalendarDate],
    outcomes: &mut [CalendarOutcome],
) -> u8
    ensures { MatchResult (calendar_of calendar years)
        (λ s. AddToEach s (overflow_of_code overflow) days.now (duration_given duration.now) result dates.old dates.new
        outcomes.old outcomes.new)
        (λ why. AreLeft why result dates.old dates.new outcomes.old outcomes.new) }
{
    date_calls::add_to_each(calendar, years, days, duration, overflow, dates, outcomes)
}

/// Adds to the date of each day number of a column the duration at its place, in `dates`.
///
/// `outcomes` has at every place the code and the greatest valid number that `icu_calendar_add` returns for the day
/// number and the duration there. A date whose code isn't 0 is unchanged.
///
/// # Errors
///
/// The result is 0 if all places are done. Otherwise both columns are unchanged, and it is the first of:
///
/// - 1, 2 or 3 for an unknown calendar, an unknown source of years or an unknown option.
/// - 9 if the columns don't have the same length.
#[unsafe(no_mangle)]
pub extern "C" fn icu_calendar_add_each(
    calendar: u8,
    years: u8,
    days: &[i64],
    durations: &[CalendarDuration],
    overflow: u8,
    dates: &mut [CalendarDate],
    outcomes: &mut [CalendarOutcome],
) -> u8
    ensures { MatchResult (calendar_of calendar years)
        (λ s. AddEach s (overflow_of_code overflow) days.now durations.now result dates.old dates.new outcomes.old
        outcomes.new)
        (λ why. AreLeft why result dates.old dates.new outcomes.old outcomes.new) }
{
    date_calls::add_each(calendar, years, days, durations, overflow, dates, outcomes)
}

/// Creates dates from a column of fields, in `dates`. `era` and `month_code` count for all of them.
///
/// `outcomes` has at every place the code and the greatest valid number that
/// `icu_calendar_date_of_fields` returns for the fields there. A date whose code isn't 0 is unchanged.
///
/// # Errors
///
/// The result is 0 if all places are done. Otherwise both columns are unchanged, and it is the first of:
///
/// - 1, 2 or 3 for an unknown calendar, an unknown source of years or an unknown option.
/// - 9 if the columns don't have the same length.
#[unsafe(no_mangle)]
pub extern "C" fn icu_calendar_dates_of_fields(
    calendar: u8,
    years: u8,
    fields: &[CalendarFields],
    era: &[u8],
    month_code: &[u8],
    overflow: u8,
    missing: u8,
    dates: &mut [CalendarDate],
    outcomes: &mut [CalendarOutcome],
) -> u8
    ensures { MatchResult (calendar_of calendar years)
        (λ s. NameEach s fields.now era.now month_code.now (overflow_of_code overflow) (strategy_of_code missing) result
        dates.old dates.new outcomes.old outcomes.new)
        (λ why. AreLeft why result dates.old dates.new outcomes.old outcomes.new) }
{
    date_calls::dates_of_fields(
        calendar, years, fields, era, month_code, overflow, missing, dates, outcomes,
    )
}

/// Computes the ISO 8601 weeks and the weekdays of a column of day numbers, in `weeks`.
///
/// `codes` has at every place 0, or 4 if the day number there isn't from -365242499 to 365242134. A week whose code
/// isn't 0 is unchanged.
///
/// # Errors
///
/// - 9 if the columns don't have the same length; both are unchanged. Otherwise the result is 0.
#[unsafe(no_mangle)]
pub extern "C" fn icu_calendar_weeks_of_days(
    days: &[i64],
    weeks: &mut [CalendarWeek],
    codes: &mut [u8],
) -> u8
    ensures { Fills (ShowsWeekAt days.now) (length days.now) result weeks.old weeks.new codes.old codes.new }
{
    date_calls::weeks_of_days(days, weeks, codes)
}

/// Finds how many days and months the year of a day number has, and how many days its month has, in `lengths`.
///
/// # Errors
///
/// The code is 0 if `lengths` is filled in. Otherwise `lengths` is unchanged, and the code is the first of:
///
/// - 1 or 2 for an unknown calendar or an unknown source of years.
/// - 4 if `day` isn't from -365242499 to 365242134.
#[unsafe(no_mangle)]
pub extern "C" fn icu_calendar_lengths_of_day(
    calendar: u8,
    years: u8,
    day: i64,
    lengths: &mut CalendarLengths,
) -> u8
    ensures { MatchResult (calendar_of calendar years) (λ s. ShowsLengths s day result lengths.old lengths.new)
        (λ why. IsLeft why result lengths.old lengths.new) }
{
    date_calls::lengths_of_day(calendar, years, day, lengths)
}

/// Lists the days from `first` to `last` on which a month and a day of a calendar fall: birthdays, memorial days, yearly
/// feasts. As many of them as `days` has places are written to its start, in order, and their number to `written`.
///
/// The list goes on from the day `next`: the same call with `next` in place of `first` writes the days that follow. If
/// `next` comes after `last`, none do.
///
/// `month_number` and `month_is_leap` are as in the fields of `icu_calendar_date_of_fields`. `overflow` says what happens
/// in a year that lacks the month or the day: 0 or 2 skips the year, 1 takes the nearest date.
///
/// # Errors
///
/// The code is 0 if days are listed. Otherwise `days` and `next` are unchanged, `written` is 0, and the code is the
/// first of:
///
/// - 1, 2 or 3 for an unknown calendar, an unknown source of years or an unknown option.
/// - 5 if a day of the window isn't from -365242499 to 365242134, or if `last` comes before `first`.
/// - 16 if the month isn't one of the calendar's months.
/// - 20 if the day isn't from 1 to 31.
#[unsafe(no_mangle)]
pub extern "C" fn icu_calendar_anniversaries(
    calendar: u8,
    years: u8,
    month_number: u8,
    month_is_leap: u8,
    day: u8,
    overflow: u8,
    first: i64,
    last: i64,
    days: &mut [i64],
    written: &mut usize,
    next: &mut i64,
) -> u8
    ensures { MatchResult (calendar_of calendar years)
        (λ s. ListsYearly s (overflow_of_code overflow) (month_of month_number month_is_leap) day first last result
        days.old days.new written.new next.old next.new)
        (λ why. IsUnlisted why result days.old days.new written.new next.old next.new) }
{
    date_calls::anniversaries(
        calendar,
        years,
        month_number,
        month_is_leap,
        day,
        overflow,
        first,
        last,
        days,
        written,
        next,
    )
}

/// Lists the occurrences from `first` to `last`: the date of a start with 0, 1, 2, .. times `every` years (`unit` 1),
/// months (2), weeks (3) or days (4) added in a calendar. As many of them as `items` has places are written to its
/// start, in order, and their number to `written`. Each counts from the start itself, and none is before it.
///
/// The list goes on from the day `next`: the same call with `next` in place of `first` writes the items that follow,
/// with their indices. If `next` comes after `last`, none do.
///
/// `overflow` says what happens to a step that leads to a month or day that doesn't exist: 0 or 2 skips it, 1 takes the
/// nearest date.
///
/// # Errors
///
/// The code is 0 if occurrences are listed. Otherwise `items` and `next` are unchanged, `written` is 0, and the code is
/// the first of:
///
/// - 1, 2 or 3 for an unknown calendar, an unknown source of years, or an unknown option or unit, also if `every` is 0.
/// - 4 if `start` isn't from -365242499 to 365242134.
/// - 5 if a day of the window isn't from -365242499 to 365242134, or if `last` comes before `first`.
#[unsafe(no_mangle)]
pub extern "C" fn icu_calendar_recurrences(
    calendar: u8,
    years: u8,
    start: i64,
    unit: u8,
    every: u32,
    overflow: u8,
    first: i64,
    last: i64,
    items: &mut [CalendarOccurrence],
    written: &mut usize,
    next: &mut i64,
) -> u8
    ensures { MatchResult (calendar_of calendar years)
        (λ s. ListsOccurrences s start (rule_given (unit_of_code unit) every (overflow_of_code overflow)) first last
        result items.old items.new written.new next.old next.new)
        (λ why. IsUnlisted why result items.old items.new written.new next.old next.new) }
{
    date_calls::recurrences(
        calendar, years, start, unit, every, overflow, first, last, items, written, next,
    )
}

/// Reads the text of a date (RFC 9557), such as `2024-03-01` or `2024-03-01[u-ca=hebrew]`: its ISO date's day number, in
/// `day`, and the code of the calendar that it names, in `calendar`; without a name, ISO.
///
/// The year has four digits, or a sign and six digits. A name may be marked critical, as in `[!u-ca=hebrew]`. It is
/// CLDR's, such as `gregory`, or the program's, such as `julian`. Times, offsets and other annotations are rejected.
///
/// # Errors
///
/// The code is 0 if both are filled in. Otherwise both are unchanged, and the code is the first of:
///
/// - 21 if the text has another form, or its date doesn't exist.
/// - 1 if no calendar has the name.
#[unsafe(no_mangle)]
pub extern "C" fn icu_calendar_day_of_text(text: &[u8], calendar: &mut u8, day: &mut i64) -> u8
    ensures { ReadsText text.now result calendar.old calendar.new day.old day.new }
{
    date_calls::day_of_text(text, calendar, day)
}

/// Writes the text of a day's date in a calendar (RFC 9557) to the start of `room`, and its number of bytes, at most 42,
/// to `written`: the ISO date and, unless the calendar is ISO, the calendar's name, as in `2024-03-01[u-ca=hebrew]`.
///
/// Years from 0 to 9999 have four digits, all others a sign and six. The name is CLDR's, such as `gregory`, or, if it
/// has none, the program's, such as `julian`. `icu_calendar_day_of_text` reads the text back.
///
/// # Errors
///
/// The code is 0 if the text is written. Otherwise `room` is unchanged, and the code is the first of:
///
/// - 1 if no calendar has the code, with 0 in `written`.
/// - 21 if the calendar is `islamic-simulated`, with 0 in `written`: names in texts have parts of at most eight letters.
/// - 4 if `day` isn't from -365242499 to 365242134, with 0 in `written`.
/// - 8 if `room` is too short; `written` is the number of bytes needed.
#[unsafe(no_mangle)]
pub extern "C" fn icu_calendar_text_of_day(
    calendar: u8,
    day: i64,
    room: &mut [u8],
    written: &mut usize,
) -> u8
    ensures { WritesText calendar day result written.new room.old room.new }
{
    date_calls::text_of_day(calendar, day, room, written)
}
