//! The year that a month and a day have under the strategy of ECMAScript Temporal's `PlainMonthDay`, and the
//! day of a year and a month.

use super::*;
use DateFromFieldsError::{InvalidDay, NotEnoughFields};

/// The extended year and the day of the month of the date that a bag names, or its first fault.
fn year_and_day(
    fields: DateFields<'_>,
    options: DateFromFieldsOptions,
    calendar: AnyCalendarKind,
) -> Result<(i32, u8), DateFromFieldsError> {
    match date_of(fields, options, calendar) {
        Ok(date) => {
            let (year, _, day) = parts_of(&date);
            Ok((year, day))
        }
        Err(cause) => Err(cause),
    }
}

#[test]
fn a_month_and_a_day_are_in_the_reference_year(rt: HostRuntime) {
    for &(calendar, number, day, options, want) in &[
        (ISO, 1, 1, FILLS, Ok((1972, 1))),
        (ISO, 2, 29, FILLS, Ok((1972, 29))),
        (ISO, 12, 40, LENIENT, Ok((1972, 31))),
        (GREGORIAN, 2, 30, LENIENT, Ok((1972, 29))),
        (GREGORIAN, 2, 30, FILLS, Err(InvalidDay { max: 29 })),
        (GREGORIAN, 12, 31, FILLS, Ok((1972, 31))),
        (JULIAN, 1, 1, FILLS, Ok((1972, 1))),
        (JULIAN, 2, 29, FILLS, Ok((1972, 29))),
        (JULIAN, 11, 30, FILLS, Ok((1972, 30))),
        (JULIAN, 12, 18, FILLS, Ok((1972, 18))),
        (JULIAN, 12, 19, FILLS, Ok((1971, 19))),
        (JULIAN, 12, 255, LENIENT, Ok((1971, 31))),
        (JULIAN, 12, 0, LENIENT, Ok((1972, 1))),
        (JULIAN, 12, 32, FILLS, Err(InvalidDay { max: 31 })),
    ] {
        let fields = bag(NO_YEAR, month(number), Some(day));
        let found = year_and_day(fields, options, calendar);
        assert_holds(&rt, (number, day), found == want);
    }
}

#[test]
fn a_year_and_a_month_are_their_first_day(rt: HostRuntime) {
    for &(calendar, named, year, month, want) in &[
        (GREGORIAN, "2005", extended(2005), month(1), 731947),
        (GREGORIAN, "2005 ce", of_era("ce", 2005), ordinal(1), 731947),
        (ISO, "2022", of_era("default", 2022), code("M01"), 738156),
        (JULIAN, "1", extended(1), month(1), -1),
    ] {
        let of_year = bag(year, month, None);
        assert_holds(&rt, named, is_day(of_year, FILLS, calendar, Ok(want)));
        let refused = Err(NotEnoughFields);
        assert_holds(&rt, named, is_day(of_year, STRICT, calendar, refused));
    }
}
