//! Easter and weeks of the year.

ghost use Rattle.std.specs.Prelude.{◌≡◌, ◌≢◌, MatchBool};
ghost use Rattle.cal_days.specs.Day.{is_valid_day};
ghost use Rattle.cal_days.specs.Easter.{IsGregorianEaster, IsJulianEaster};
ghost use Rattle.icu_calendar.specs.Weeks.{IsInWeek};
ghost use Rattle.date_calls.specs.Weeks.{IsWeekLeft, IsWeekTold};

use crate::days::ValidDay;
use crate::outcomes::{DONE, INVALID_DAY_NUMBER, UNKNOWN_OPTION};
use cal_days::{gregorian, julian};
use icu_calendar::{Calendar, Date, Iso, IsoWeekOfYear};

/// Computes the day number of Easter, in `day`: in a year of the Gregorian calendar (`rule` 0), or in a year of the
/// Julian calendar by the older rule (`rule` 1). The rules are extended to all years, so a year of more than six digits
/// may lead to a day number outside the valid range.
///
/// # Errors
///
/// - 3 for an unknown rule; `day` is unchanged. Otherwise the code is 0.
pub fn easter(rule: u8, year: i32, day: &mut i64) -> u8
    ensures gregorian { rule ≡ 0 → (result ≡ 0) × IsGregorianEaster year day.new }
    ensures julian { rule ≡ 1 → (result ≡ 0) × IsJulianEaster year day.new }
    ensures others { rule ≢ 0 → rule ≢ 1 → (result ≡ 3) × (day.new ≡ day.old) }
{
    if rule == 0 {
        *day = gregorian::easter(year).to_i64_date();
        return DONE;
    }
    if rule == 1 {
        *day = julian::easter(year).to_i64_date();
        return DONE;
    }
    UNKNOWN_OPTION
}

/// Returns the week of a valid day number.
pub(crate) fn week_of(day: ValidDay) -> IsoWeekOfYear
    ensures { IsInWeek day.day result.iso_year result.week_number }
{
    Date::from_raw(Iso.from_rata_die(day.rata_die()), Iso).week_of_year()
}

/// Computes the ISO 8601 week of a day number, from 1 to 53, and the year that it belongs to, in `week` and `year`.
///
/// A week runs from Monday to Sunday and belongs to the year of its Thursday, so week 1 has the year's first Thursday.
/// (ISO 8601)
///
/// # Errors
///
/// - 4 if `day` isn't from -365242499 to 365242134; both are unchanged. Otherwise the code is 0.
pub fn week_of_year(day: i64, year: &mut i32, week: &mut u8) -> u8
    ensures { MatchBool (is_valid_day day) (IsWeekTold day result year.new week.new)
        (IsWeekLeft result year.old week.old year.new week.new) }
{
    let Some(day) = ValidDay::of(day) else {
        return INVALID_DAY_NUMBER;
    };
    let found = week_of(day);
    *year = found.iso_year;
    *week = found.week_number;
    DONE
}
