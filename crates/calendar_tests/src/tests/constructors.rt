//! Which dates the constructor makes, and which fault it names first.

use super::*;
use icu_calendar::{DateNewError, YearInput};

/// The day number of the date of a year in an era, or of an extended year, or the first fault.
fn day_made(
    era: Option<&str>,
    year: i32,
    (month, day): (u8, u8),
    calendar: AnyCalendarKind,
) -> Result<i64, DateNewError> {
    let year = match era {
        Some(era) => YearInput::EraYear(era, year),
        None => YearInput::Extended(year),
    };
    match Date::try_new(year, Month::new(month), day, calendar_of(calendar)) {
        Ok(date) => Ok(number_of(&date)),
        Err(cause) => Err(cause),
    }
}

#[test]
fn constructors_name_known_days(rt: HostRuntime) {
    use DateNewError::{InvalidDay, InvalidEra, InvalidYear, MonthNotInCalendar};
    for &(calendar, era, year, month, day, want) in &[
        (ISO, None, 1970, 1, 1, Ok(719163)),
        (GREGORIAN, Some("ce"), 1970, 1, 1, Ok(719163)),
        (JULIAN, Some("bc"), 44, 3, 15, Ok(-15999)),
        (JULIAN, None, -43, 3, 15, Ok(-15999)),
        (ISO, None, 10000, 13, 0, Err(InvalidYear)),
        (JULIAN, Some("default"), 44, 13, 0, Err(InvalidEra)),
        (JULIAN, Some("default"), -10000, 13, 0, Err(InvalidYear)),
        (GREGORIAN, Some("bce"), 5, 13, 0, Err(MonthNotInCalendar)),
        (
            GREGORIAN,
            Some("bce"),
            4,
            2,
            29,
            Err(InvalidDay { max: 28 }),
        ),
    ] {
        let found = day_made(era, year, (month, day), calendar);
        assert_holds(&rt, (era, year), found == want);
    }
}
