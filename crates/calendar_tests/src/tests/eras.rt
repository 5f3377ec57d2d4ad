//! Which eras are read, and the year that they name.

use super::*;
use DateFromFieldsError::{
    InconsistentYear, InvalidEra, MonthCodeInvalidSyntax, MonthNotInCalendar,
    Overflow as OutOfRange,
};

/// The extended year of the date that a bag names, or its first fault.
fn extended_year_of(
    fields: DateFields<'_>,
    calendar: AnyCalendarKind,
) -> Result<i32, DateFromFieldsError> {
    match date_of(fields, STRICT, calendar) {
        Ok(date) => Ok(parts_of(&date).0),
        Err(cause) => Err(cause),
    }
}

#[test]
fn eras_name_extended_years(rt: HostRuntime) {
    for &(calendar, era, year, want) in &[
        (ISO, "default", 1992, Ok(1992)),
        (ISO, "default", 0, Ok(0)),
        (ISO, "ce", 1992, Err(InvalidEra)),
        (ISO, "Default", 1992, Err(InvalidEra)),
        (GREGORIAN, "ce", 1992, Ok(1992)),
        (GREGORIAN, "ad", 1992, Ok(1992)),
        (GREGORIAN, "ce", -4, Ok(-4)),
        (GREGORIAN, "bce", 5, Ok(-4)),
        (GREGORIAN, "bc", 1, Ok(0)),
        (GREGORIAN, "bce", -1, Ok(2)),
        (GREGORIAN, "default", 1992, Err(InvalidEra)),
        (GREGORIAN, "CE", 1992, Err(InvalidEra)),
        (JULIAN, "ce", 1992, Ok(1992)),
        (JULIAN, "ad", 0, Ok(0)),
        (JULIAN, "bce", 2, Ok(-1)),
        (JULIAN, "bc", 4713, Ok(-4712)),
        (JULIAN, "bc ", 4713, Err(InvalidEra)),
        (JULIAN, "", 1992, Err(InvalidEra)),
    ] {
        let fields = bag(of_era(era, year), month(12), Some(31));
        assert_holds(&rt, (era, year), extended_year_of(fields, calendar) == want);
    }
}

#[test]
fn years_of_eras_are_known_days(rt: HostRuntime) {
    let last = code("M12");
    for &(calendar, (era, year, same), month, day, want) in &[
        (GREGORIAN, ("bce", 5, None), month(12), 31, Ok(-1461)),
        (GREGORIAN, ("bc", 5, Some(-4)), last, 31, Ok(-1461)),
        (JULIAN, ("bce", 2, None), month(12), 31, Ok(-368)),
        (JULIAN, ("ce", 2021, None), ordinal(12), 19, Ok(738156)),
        (ISO, ("default", 2020, Some(2020)), month(2), 29, Ok(737484)),
        // The era year has a range, and so has the day.
        (
            GREGORIAN,
            ("bc", 1000000, None),
            month(1),
            1,
            Ok(-365242499),
        ),
        (GREGORIAN, ("bce", 1040000, None), last, 1, Err(OutOfRange)),
        (
            GREGORIAN,
            ("bce", 1040000, None),
            month(13),
            1,
            Err(MonthNotInCalendar),
        ),
        (
            JULIAN,
            ("bce", -1040001, None),
            month(13),
            1,
            Err(OutOfRange),
        ),
        (ISO, ("default", 999999, None), last, 31, Ok(365242134)),
        (
            ISO,
            ("default", 1040001, None),
            month(13),
            1,
            Err(OutOfRange),
        ),
    ] {
        let fields = bag((Some(era), Some(year), same), month, Some(day));
        assert_holds(&rt, (era, year), is_day(fields, STRICT, calendar, want));
    }
}

#[test]
fn an_era_is_read_before_years_differ(rt: HostRuntime) {
    for &(calendar, era, year, same, want) in &[
        (GREGORIAN, "xx", 5, 5, InvalidEra),
        (GREGORIAN, "bc", 5, 5, InconsistentYear),
        // An extended year beside an era has no range of its own.
        (GREGORIAN, "ce", 5, 1040001, InconsistentYear),
        (GREGORIAN, "bc", 5, -4, MonthCodeInvalidSyntax),
        (JULIAN, "bce", 2, 2, InconsistentYear),
        (JULIAN, "ad", 2, 2, MonthCodeInvalidSyntax),
        (ISO, "default", 2020, 2021, InconsistentYear),
        (ISO, "ce", 2020, 2021, InvalidEra),
    ] {
        let years = (Some(era), Some(year), Some(same));
        for &options in &[STRICT, LENIENT] {
            let fields = bag(years, code("M1"), Some(0));
            assert_holds(
                &rt,
                (era, year),
                is_day(fields, options, calendar, Err(want)),
            );
        }
    }
}
