//! The years of the Julian calendar (Reingold and Dershowitz, Calendrical Calculations, chapter 3).
//!
//! Days are computed in years that begin on March 1, so that the leap day comes last, as for the Gregorian calendar.

ghost use Rattle.std.specs.Prelude.{◌≡◌, ◌+◌, ◌<◌, ◌≤◌, ◌↔◌, IsTrue, pos, neg_ℤ, ◌+ℤ◌, ◌≤ℤ◌, ◌<ℤ◌};
ghost use Rattle.cal_days.specs.Day.{IsBetween, IsRuleYear, IsValidDay};
ghost use Rattle.cal_days.specs.Easter.{IsJulianEaster, julian_april_19, julian_epact};
ghost use Rattle.cal_days.specs.Julian.{julian_first_of_march, julian_leap, julian_start, julian_year_length};
ghost use Rattle.cal_days.specs.March.{julian_march_days};

use crate::easter::{FROM_MARCH_1_TO_APRIL_19, sunday_after, year_in_metonic_cycle};
use crate::rata_die::RataDie;

/// The first day of year 1: 0000-12-30 in the proleptic Gregorian calendar.
const FIRST_DAY_OF_YEAR_1: i64 = -1;

/// The number of days in 4 years, after which the leap years repeat.
const DAYS_IN_4_YEARS: u32 = 1461;

/// The day number of March 1 of year 0.
const MARCH_OF_YEAR_0: i64 = -307;

/// A multiple of 4 years. Counting from this many years before year 0 keeps every year here nonnegative, so that
/// unsigned division rounds down.
const YEARS_BEFORE: i32 = 8400000;

/// The number of days in these years.
const DAYS_BEFORE: i64 = 3068100000;

/// A multiple of 4 years. Counting from March 1 this many years before year 0 keeps every valid day nonnegative.
const VALID_YEARS_BEFORE: i32 = 1000000;

/// The number of days in these years.
const VALID_DAYS_BEFORE: i64 = 365250000;

/// Returns the first day of a year from -8000000 to 8000000.
#[tactic(auto, using(crate::proofs::Signed::signed))]
pub fn year_start(year: i32) -> RataDie
    requires { IsRuleYear year }
    ensures formula { result ≡ julian_start year }
    ensures joins { julian_start (year +ℤ pos 1) ≡ julian_start year +ℤ pos (julian_year_length year) }
{
    let before = i64::from(year) - 1;
    RataDie::new(365 * before + before.div_euclid(4) + FIRST_DAY_OF_YEAR_1)
}

/// Returns whether a year has 366 days.
#[tactic(auto, using(crate::proofs::Signed::signed), unfolding(crate::specs::Division::floor_mod))]
pub fn is_leap_year(year: i32) -> bool
    ensures { IsTrue result ↔ IsTrue (julian_leap year) }
{
    year.rem_euclid(4) == 0
}

/// Returns the number of days in the first `years` years that begin on March 1, counted from a year that 4 divides.
fn days_of_march_years(years: u32) -> u64
    requires { years ≤ 17000000 }
    ensures value { result ≡ julian_march_days years }
    ensures bound { result < 10000000000 }
{
    u64::from(DAYS_IN_4_YEARS) * u64::from(years) / 4
}

/// Returns March 1 of a year from -8010000 to 8009999.
pub fn march_start(year: i32) -> RataDie
    requires { IsBetween (neg_ℤ (pos 8010000)) (pos 8009999) year }
    ensures { result ≡ julian_first_of_march year }
{
    let days = days_of_march_years((year + YEARS_BEFORE) as u32) as i64;
    RataDie::new(days - DAYS_BEFORE + MARCH_OF_YEAR_0)
}

/// Returns the number of days from March 1 of the year -1000000 to a valid day.
fn days_since_march(rd: RataDie) -> u32
    requires { IsValidDay rd }
    ensures value { pos result ≡ rd +ℤ pos 365250307 }
    ensures bound { result < 730500000 }
{
    (rd.to_i64_date() + VALID_DAYS_BEFORE - MARCH_OF_YEAR_0) as u32
}

/// Returns the year that begins on March 1 and contains a day, and the day's index in it, all counted from 0.
fn march_year(days: u32) -> (u32, u32)
    requires { days < 730500000 }
    ensures value { julian_march_days result.0 + result.1 ≡ days }
    ensures within { days < julian_march_days (result.0 + 1) }
    ensures year { result.0 ≤ 2000000 }
    ensures bound { result.1 < 366 }
{
    let scaled = 4 * days + 3;
    (scaled / DAYS_IN_4_YEARS, scaled % DAYS_IN_4_YEARS / 4)
}

/// Returns the year of the last March 1 on or before a valid day, -365242499 to 365242134, and the number of days
/// from that March 1 to the day, 0 to 365.
pub fn march_year_and_day_from_fixed(rd: RataDie) -> (i32, u16)
    requires { IsValidDay rd }
    ensures day { julian_first_of_march result.0 +ℤ pos result.1 ≡ rd }
    ensures within { rd <ℤ julian_first_of_march (result.0 +ℤ pos 1) }
    ensures bound { result.1 < 366 }
    ensures range { IsBetween (neg_ℤ (pos 1000000)) (pos 999999) result.0 }
{
    let (year, day) = march_year(days_since_march(rd));
    (year as i32 - VALID_YEARS_BEFORE, day as u16)
}

/// Returns the year that contains a valid day, -365242499 to 365242134.
pub fn year_from_fixed(rd: RataDie) -> i32
    requires { IsValidDay rd }
    ensures first { julian_start result ≤ℤ rd }
    ensures last { rd <ℤ julian_start (result +ℤ pos 1) }
    ensures range { IsBetween (neg_ℤ (pos 999999)) (pos 999999) result }
{
    let (year, day) = march_year_and_day_from_fixed(rd);
    if day >= 306 { year + 1 } else { year }
}

/// Returns the number of days from the ecclesiastical full moon to April 19.
fn epact(year: i32) -> u32
    ensures value { result ≡ julian_epact year }
    ensures bound { result < 30 }
{
    (14 + 11 * year_in_metonic_cycle(year)) % 30
}

/// Returns the day number of April 19 of a year.
fn april_19(year: i32) -> i64
    ensures value { result ≡ julian_april_19 year }
    ensures range { IsBetween (neg_ℤ (pos 800000000000)) (pos 800000000000) result }
{
    let days = 365 * i64::from(year) + i64::from(year.div_euclid(4));
    days + MARCH_OF_YEAR_0 + FROM_MARCH_1_TO_APRIL_19
}

/// Returns the day of Easter in a year of the Julian calendar: the first Sunday after the ecclesiastical full moon.
/// The rule is extended to all years, including those before year 1. (Reingold and Dershowitz, Calendrical
/// Calculations, chapter 9)
pub fn easter(year: i32) -> RataDie
    ensures { IsJulianEaster year result }
{
    sunday_after(april_19(year) - i64::from(epact(year)))
}
