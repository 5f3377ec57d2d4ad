//! The first fault of a bag, where it has several, and what constrains it.

use super::*;
use DateFromFieldsError::{
    InconsistentMonth, InvalidDay, InvalidEra, InvalidOrdinalMonth,
    MonthCodeInvalidSyntax as BadCode, MonthNotInCalendar, NotEnoughFields, Overflow as OutOfRange,
    TooManyFields,
};

/// An era without its year.
const ERA_ALONE: YearFields = (Some("xx"), None, Some(1040001));

const ERA_YEAR_ALONE: YearFields = (None, Some(1040001), None);

const PAST: YearFields = (None, None, Some(1040001));

/// A year that may be given, but has no day in the valid range.
const PAST_DAYS: YearFields = (None, None, Some(1040000));

const Y2001: YearFields = (None, None, Some(2001));

/// A second month at the third place.
const UNLIKE: MonthFields = (None, Some("M02"), Some(3));

/// A month code without a second digit, and a place.
const BAD_AT_3: MonthFields = (None, Some("M1"), Some(3));

/// Month and month code, of which the second is no month code.
fn twice() -> MonthFields {
    (Some(Month::new(1)), Some("M1"), None)
}

/// That this is the first fault of a bag in each calendar.
fn assert_fault(
    rt: &impl Abort,
    fields: DateFields<'_>,
    options: DateFromFieldsOptions,
    want: DateFromFieldsError,
) {
    for &calendar in &[ISO, GREGORIAN, JULIAN] {
        assert_holds(
            rt,
            (fields, options),
            is_day(fields, options, calendar, Err(want)),
        );
    }
}

#[test]
fn the_first_fault_is_the_answer(rt: HostRuntime) {
    let bad_place = InvalidOrdinalMonth { max: 12 };
    for &(year, month, day, options, want) in &[
        // No month, though the year is past its range.
        (PAST, NO_MONTH, 1, LENIENT, NotEnoughFields),
        // Too many months, though the year isn't named.
        (ERA_ALONE, twice(), 1, STRICT, TooManyFields),
        (NO_YEAR, twice(), 0, FILLS, TooManyFields),
        // An era without its year, and the reverse.
        (ERA_ALONE, BAD_AT_3, 0, STRICT, NotEnoughFields),
        (ERA_YEAR_ALONE, code("M1"), 0, LENIENT, NotEnoughFields),
        // A year past its range, and then an era that isn't read.
        (of_era("xx", -1040001), code("M1"), 0, STRICT, OutOfRange),
        (of_era("xx", 1040001), month(13), 0, CLAMPS, OutOfRange),
        (of_era("xx", 1040000), code("M1"), 0, STRICT, InvalidEra),
        (of_era("", 1), code("M1"), 0, LENIENT, InvalidEra),
        (PAST, code("M1"), 0, STRICT, OutOfRange),
        (extended(-1040001), ordinal(13), 0, LENIENT, OutOfRange),
        // No year.
        (NO_YEAR, code("M1"), 0, STRICT, NotEnoughFields),
        (NO_YEAR, ordinal(13), 0, FILLS, NotEnoughFields),
        (NO_YEAR, BAD_AT_3, 0, LENIENT, NotEnoughFields),
        (NO_YEAR, code("M1"), 0, FILLS, BadCode),
        (NO_YEAR, code("M00"), 0, LENIENT, MonthNotInCalendar),
        (NO_YEAR, code("M02L"), 0, LENIENT, MonthNotInCalendar),
        (NO_YEAR, month(13), 0, FILLS, MonthNotInCalendar),
        // A month code, then the month, and then its place.
        (Y2001, BAD_AT_3, 0, STRICT, BadCode),
        (Y2001, code("M02l"), 0, LENIENT, BadCode),
        (Y2001, code("M13"), 0, CLAMPS, MonthNotInCalendar),
        (Y2001, code("M02L"), 0, LENIENT, MonthNotInCalendar),
        (Y2001, UNLIKE, 0, STRICT, InconsistentMonth),
        (Y2001, UNLIKE, 0, LENIENT, InconsistentMonth),
        // The place alone, and then the day.
        (Y2001, ordinal(13), 0, STRICT, bad_place),
        (Y2001, ordinal(0), 0, FILLS, bad_place),
        (Y2001, ordinal(2), 29, STRICT, InvalidDay { max: 28 }),
        (Y2001, code("M04"), 0, FILLS, InvalidDay { max: 30 }),
        // The date's day number.
        (PAST_DAYS, month(1), 0, STRICT, InvalidDay { max: 31 }),
        (PAST_DAYS, month(1), 0, CLAMPS, OutOfRange),
        (extended(-1040000), month(12), 31, STRICT, OutOfRange),
    ] {
        assert_fault(&rt, bag(year, month, Some(day)), options, want);
    }
}

#[test]
fn the_missing_day_is_the_first_fault(rt: HostRuntime) {
    for &(year, month, options, want) in &[
        (NO_YEAR, NO_MONTH, STRICT, NotEnoughFields),
        (PAST, twice(), CLAMPS, NotEnoughFields),
        (NO_YEAR, twice(), LENIENT, NotEnoughFields),
        ((Some("xx"), None, None), twice(), FILLS, NotEnoughFields),
        // A year stands in for it, even one that is refused.
        (PAST, NO_MONTH, FILLS, NotEnoughFields),
        (PAST, twice(), FILLS, TooManyFields),
        (ERA_YEAR_ALONE, twice(), LENIENT, TooManyFields),
        (PAST, month(1), LENIENT, OutOfRange),
    ] {
        assert_fault(&rt, bag(year, month, None), options, want);
    }
}

#[test]
fn months_and_days_are_constrained(rt: HostRuntime) {
    for &(calendar, year, month, day, want) in &[
        (GREGORIAN, 2004, ordinal(15), 40, 731946),
        (GREGORIAN, 2005, ordinal(0), 0, 731947),
        (ISO, 2021, month(2), 29, 737849),
        (ISO, 2020, code("M02"), 255, 737484),
        (JULIAN, 2021, ordinal(2), 29, 737862),
        (JULIAN, 1900, (None, Some("M02"), Some(2)), 30, 693667),
    ] {
        for &options in &[CLAMPS, LENIENT] {
            let fields = bag(extended(year), month, Some(day));
            assert_holds(&rt, year, is_day(fields, options, calendar, Ok(want)));
        }
    }
}
