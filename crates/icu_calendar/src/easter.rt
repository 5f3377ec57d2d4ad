//! The dates of Easter, by the Gregorian and the Julian rule.

ghost use Rattle.cal_gregory.specs.GregorianSystem.{gregorian_system, gregorian_date};
ghost use Rattle.cal_julian.specs.JulianSystem.{julian_system, julian_date};
ghost use Rattle.cal_days.specs.Easter.{IsGregorianEaster, IsJulianEaster};
ghost use Rattle.icu_calendar.specs.EasterDates.{IsOnDayOf};

use crate::date::Date;
use cal_days::{gregorian, julian};
use cal_gregory::Gregorian;
use cal_julian::Julian;

/// Returns the date of Easter in a year of the Gregorian calendar: the Sunday after the ecclesiastical full moon. The
/// rule is extended to all years. A day outside the valid range, -365242499 to 365242134, becomes the nearest day in
/// the range. (Reingold and Dershowitz, Calendrical Calculations, chapter 9)
///
/// # Examples
///
/// ```
/// let easter = easter_gregorian(2024);
/// assert!(rt; easter.to_rata_die().to_i64_date() == 738976); // 2024-03-31
/// ```
pub fn easter_gregorian(year: i32) -> Date<Gregorian>
    ensures { IsOnDayOf (IsGregorianEaster year) gregorian_system.list (gregorian_date result.inner) }
{
    Date::from_rata_die(gregorian::easter(year), Gregorian)
}

/// Returns the date of Orthodox Easter in a year of the Julian calendar, by the older rule. Ranges are as in
/// [`easter_gregorian`]. (Reingold and Dershowitz, Calendrical Calculations, chapter 9)
///
/// # Examples
///
/// ```
/// let easter = easter_julian(2024);
/// assert!(rt; easter.to_rata_die().to_i64_date() == 739011); // 2024-05-05
/// ```
pub fn easter_julian(year: i32) -> Date<Julian>
    ensures { IsOnDayOf (IsJulianEaster year) julian_system.list (julian_date result.inner) }
{
    Date::from_rata_die(julian::easter(year), Julian)
}
