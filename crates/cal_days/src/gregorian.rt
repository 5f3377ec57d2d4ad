//! The years of the proleptic Gregorian calendar (Reingold and Dershowitz, Calendrical Calculations,
//! chapter 2).
//!
//! Days are computed in years that begin on March 1, so that the leap day comes last (Neri and Schneider, Euclidean
//! affine functions and their application to calendar algorithms, 2022).

ghost use Rattle.std.specs.Prelude.{◌≡◌, ◌+◌, ◌<◌, ◌≤◌, ◌↔◌, IsTrue, pos, neg_ℤ, ◌+ℤ◌, ◌≤ℤ◌, ◌<ℤ◌};
ghost use Rattle.cal_days.specs.Day.{IsBetween, IsShiftedYear, IsValidDay};
ghost use Rattle.cal_days.specs.Easter.{IsGregorianEaster, century_of, gregorian_april_19, gregorian_epact, gregorian_shifted_epact, is_moon_earlier};
ghost use Rattle.cal_days.specs.Gregorian.{first_of_march, gregorian_leap, gregorian_start, gregorian_year_length, leap_days_through};
ghost use Rattle.cal_days.specs.March.{march_days};

use crate::easter::{FROM_MARCH_1_TO_APRIL_19, sunday_after, year_in_metonic_cycle};
use crate::rata_die::RataDie;

/// The number of days in 400 years, after which the leap years repeat.
const DAYS_IN_400_YEARS: u32 = 146097;

/// The day number of 0000-03-01.
const MARCH_OF_YEAR_0: i64 = -305;

/// A multiple of 400 years. Counting from this many years before year 0 keeps every year here nonnegative, so that
/// unsigned division rounds down.
const YEARS_BEFORE: i32 = 8400000;

/// The number of days in these years.
const DAYS_BEFORE: i64 = 3068037000;

/// Returns the number of days in the first `years` years that begin on March 1, counted from a year that 400 divides.
fn days_of_march_years(years: u32) -> u64
    requires { years ≤ 17000000 }
    ensures value { result ≡ march_days years }
    ensures bound { result < 10000000000 }
{
    let centuries = years / 100;
    365 * u64::from(years) + u64::from(years / 4 - centuries + centuries / 4)
}

/// Returns March 1 of a year from -8010000 to 8009999.
pub fn march_start(year: i32) -> RataDie
    requires { IsBetween (neg_ℤ (pos 8010000)) (pos 8009999) year }
    ensures { result ≡ first_of_march year }
{
    let days = days_of_march_years((year + YEARS_BEFORE) as u32) as i64;
    RataDie::new(days - DAYS_BEFORE + MARCH_OF_YEAR_0)
}

/// Returns the first day of a year from -8009999 to 8009999.
pub fn year_start(year: i32) -> RataDie
    requires { IsShiftedYear year }
    ensures formula { result ≡ gregorian_start year }
    ensures joins { gregorian_start (year +ℤ pos 1) ≡ gregorian_start year +ℤ pos (gregorian_year_length year) }
{
    RataDie::new(march_start(year - 1).to_i64_date() + 306)
}

/// Returns whether a year has 366 days.
#[tactic(auto, using(crate::proofs::Signed::signed), unfolding(crate::specs::Division::floor_mod))]
pub fn is_leap_year(year: i32) -> bool
    ensures { IsTrue result ↔ IsTrue (gregorian_leap year) }
{
    // Of the years that 4 divides, 25 divides those that 100 divides, and 16 those that 400 divides.
    year.rem_euclid(4) == 0 && (year.rem_euclid(25) != 0 || year.rem_euclid(16) == 0)
}

/// A multiple of 400 years. Counting from March 1 this many years before year 0 keeps every valid day nonnegative.
const VALID_YEARS_BEFORE: i32 = 1000000;

/// Returns the number of days from March 1 of the year -1000000 to a valid day.
fn days_since_march(rd: RataDie) -> u32
    requires { IsValidDay rd }
    ensures value { pos result ≡ rd +ℤ pos 365242805 }
    ensures bound { result < 730500000 }
{
    (rd.to_i64_date() + 365242500 - MARCH_OF_YEAR_0) as u32
}

/// Returns the year that begins on March 1 and contains a day, and the day's index in it, all counted from 0.
fn march_year(days: u32) -> (u32, u32)
    requires { days < 730500000 }
    ensures value { march_days result.0 + result.1 ≡ days }
    ensures within { days < march_days (result.0 + 1) }
    ensures year { result.0 ≤ 2000100 }
    ensures bound { result.1 < 366 }
{
    let scaled = 4 * days + 3;
    let century = scaled / DAYS_IN_400_YEARS;
    let in_century = scaled % DAYS_IN_400_YEARS / 4 * 4 + 3;
    (100 * century + in_century / 1461, in_century % 1461 / 4)
}

/// Returns the year of the last March 1 on or before a valid day, -365242499 to 365242134, and the number of days
/// from that March 1 to the day, 0 to 365.
pub fn march_year_and_day_from_fixed(rd: RataDie) -> (i32, u16)
    requires { IsValidDay rd }
    ensures day { first_of_march result.0 +ℤ pos result.1 ≡ rd }
    ensures within { rd <ℤ first_of_march (result.0 +ℤ pos 1) }
    ensures bound { result.1 < 366 }
    ensures range { IsBetween (neg_ℤ (pos 1000000)) (pos 999999) result.0 }
{
    let (year, day) = march_year(days_since_march(rd));
    (year as i32 - VALID_YEARS_BEFORE, day as u16)
}

/// Returns the year that contains a valid day, -365242499 to 365242134.
pub fn year_from_fixed(rd: RataDie) -> i32
    requires { IsValidDay rd }
    ensures first { gregorian_start result ≤ℤ rd }
    ensures last { rd <ℤ gregorian_start (result +ℤ pos 1) }
    ensures range { IsBetween (neg_ℤ (pos 999999)) (pos 999999) result }
{
    let (year, day) = march_year_and_day_from_fixed(rd);
    if day >= 306 { year + 1 } else { year }
}

/// Returns the century of a year: 1 for the years 0 to 99.
fn century(year: i32) -> i64
    ensures value { result ≡ century_of year }
    ensures range { IsBetween (neg_ℤ (pos 21474836)) (pos 21474837) result }
{
    i64::from(year.div_euclid(100)) + 1
}

/// Returns the number of days from the full moon to April 19, before full moons that would be too late are corrected.
/// The moon falls behind by the leap days that centuries drop, and gains 8 days in 25 centuries.
fn shifted_epact(metonic: u32, century: i64) -> u32
    requires year { metonic < 19 }
    requires century { IsBetween (neg_ℤ (pos 21474836)) (pos 21474837) century }
    ensures value { result ≡ gregorian_shifted_epact metonic century }
    ensures bound { result < 30 }
{
    let dropped = (3 * century).div_euclid(4);
    let gained = (8 * century + 5).div_euclid(25);
    (i64::from(14 + 11 * metonic) - dropped + gained).rem_euclid(30) as u32
}

/// Returns whether the full moon comes a day earlier than its epact says. This keeps it on April 18 at the latest,
/// and never on the same day twice in 19 years.
fn is_full_moon_earlier(epact: u32, metonic: u32) -> bool
    ensures { result ≡ is_moon_earlier epact metonic }
{
    epact == 0 || (epact == 1 && metonic > 10)
}

/// Returns the number of days from the ecclesiastical full moon to April 19.
fn adjusted_epact(year: i32) -> u32
    ensures value { result ≡ gregorian_epact year }
    ensures bound { result < 31 }
{
    let metonic = year_in_metonic_cycle(year);
    let epact = shifted_epact(metonic, century(year));
    epact + u32::from(is_full_moon_earlier(epact, metonic))
}

/// Returns the number of leap days in the years 1 to `year`. If `year` is below 1, returns minus the number of leap
/// days in the years `year + 1` to 0.
fn leap_days_through(year: i32) -> i32
    ensures value { result ≡ leap_days_through year }
    ensures range { IsBetween (neg_ℤ (pos 600000000)) (pos 600000000) result }
{
    year.div_euclid(4) - year.div_euclid(100) + year.div_euclid(400)
}

/// Returns the day number of April 19 of a year.
fn april_19(year: i32) -> i64
    ensures value { result ≡ gregorian_april_19 year }
    ensures range { IsBetween (neg_ℤ (pos 800000000000)) (pos 800000000000) result }
{
    let days = 365 * i64::from(year) + i64::from(leap_days_through(year));
    days + MARCH_OF_YEAR_0 + FROM_MARCH_1_TO_APRIL_19
}

/// Returns the day of Easter in a year of the Gregorian calendar: the first Sunday after the ecclesiastical full
/// moon. The rule is extended to all years, including those before the reform of 1582 and before year 1. (Reingold
/// and Dershowitz, Calendrical Calculations, chapter 9)
pub fn easter(year: i32) -> RataDie
    ensures { IsGregorianEaster year result }
{
    sunday_after(april_19(year) - i64::from(adjusted_epact(year)))
}
