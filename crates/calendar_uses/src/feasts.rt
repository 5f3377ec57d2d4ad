//! An archive, which reads texts of dates, and a planner, who needs Easter.

ghost use Rattle.std.specs.Prelude.{IfOk};
ghost use Rattle.icu_calendar.specs.CalendarList.{day_number};
ghost use Rattle.icu_calendar.specs.GregorianSystem.{gregorian_system, gregorian_date};
ghost use Rattle.calendar_uses.specs.Feasts.{IsDayOfText, IsNextEaster};

use crate::uses::is_earlier;
use icu_calendar::{Date, Gregorian, Hebrew, ParseError, easter_gregorian};

/// Returns the Gregorian date of a text that names a Hebrew date, as `2024-03-01[u-ca=hebrew]`.
///
/// # Errors
///
/// - [`ParseError`] as in [`Date::try_from_str`].
pub fn hebrew_text_in_gregorian(text: &str) -> Result<Date<Gregorian>, ParseError>
    ensures { IfOk result (λ d. IsDayOfText text.now (gregorian_date d.inner)) }
{
    match Date::try_from_str(text, Hebrew) {
        Ok(date) => Ok(date.to_calendar(Gregorian)),
        Err(cause) => Err(cause),
    }
}

/// Returns the next Easter after a date, in its year or the next one.
pub fn next_easter(date: &Date<Gregorian>) -> Date<Gregorian>
    ensures { let t = gregorian_date date.now.inner in
        IsNextEaster t.year (day_number gregorian_system.list t) (gregorian_date result.inner) }
{
    let year = date.year().extended_year();
    let easter = easter_gregorian(year);
    if is_earlier(date, &easter) {
        easter
    } else {
        easter_gregorian(year + 1)
    }
}
