//! The years of the Coptic calendar (Reingold and Dershowitz, Calendrical Calculations, chapter 4).

ghost use Rattle.std.specs.Prelude.{◌≡◌, ◌+◌, ◌<◌, ◌≤◌, ◌↔◌, IsTrue, pos, neg_ℤ, ◌+ℤ◌, ◌≤ℤ◌, ◌<ℤ◌};
ghost use Rattle.cal_days.specs.Day.{IsBetween, IsShiftedYear, IsValidDay};
ghost use Rattle.cal_days.specs.Coptic.{coptic_days, coptic_leap, coptic_start, coptic_year_length};

use crate::rata_die::RataDie;

/// The first day of year 1: 0284-08-29 in the proleptic Julian calendar.
const FIRST_DAY_OF_YEAR_1: i64 = 103605;

/// The number of days in 4 years, after which the leap years repeat.
const DAYS_IN_4_YEARS: u32 = 1461;

/// A multiple of 4 years. Counting from this many years before year 1 keeps every valid day nonnegative, so that
/// unsigned division rounds down.
const YEARS_BEFORE: i32 = 1001000;

/// The number of days in these years.
const DAYS_BEFORE: i64 = 365615250;

/// Returns the first day of a year from -8009999 to 8009999.
#[tactic(auto, using(crate::proofs::Signed::signed))]
pub fn year_start(year: i32) -> RataDie
    requires { IsShiftedYear year }
    ensures formula { result ≡ coptic_start year }
    ensures joins { coptic_start (year +ℤ pos 1) ≡ coptic_start year +ℤ pos (coptic_year_length year) }
{
    let fourths = i64::from(year).div_euclid(4);
    RataDie::new(FIRST_DAY_OF_YEAR_1 + 365 * (i64::from(year) - 1) + fourths)
}

/// Returns whether a year has 366 days.
#[tactic(auto, using(crate::proofs::Signed::signed), unfolding(crate::specs::Division::floor_mod))]
pub fn is_leap_year(year: i32) -> bool
    ensures { IsTrue result ↔ IsTrue (coptic_leap year) }
{
    year.rem_euclid(4) == 3
}

/// Returns the year that contains a day, and the day's index in it, all counted from 0.
fn counted_year(days: u32) -> (u32, u32)
    requires { days < 731000000 }
    ensures value { coptic_days result.0 + result.1 ≡ days }
    ensures within { days < coptic_days (result.0 + 1) }
    ensures year { result.0 ≤ 2002000 }
    ensures bound { result.1 < 366 }
{
    // 4 times the days before a year is 1461 times the years before it, plus at most 1 or minus at most 2.
    let scaled = 4 * days + 2;
    (scaled / DAYS_IN_4_YEARS, scaled % DAYS_IN_4_YEARS / 4)
}

/// Returns the year that contains a valid day, -365242499 to 365242134, and the number of days in that year before
/// the day.
pub fn year_and_day_from_fixed(rd: RataDie) -> (i32, u16)
    requires { IsValidDay rd }
    ensures day { coptic_start result.0 +ℤ pos result.1 ≡ rd }
    ensures within { rd <ℤ coptic_start (result.0 +ℤ pos 1) }
    ensures bound { result.1 < 366 }
    ensures range { IsBetween (neg_ℤ (pos 1000263)) (pos 999695) result.0 }
{
    let days = (rd.to_i64_date() - FIRST_DAY_OF_YEAR_1 + DAYS_BEFORE) as u32;
    let (year, day) = counted_year(days);
    (year as i32 - YEARS_BEFORE + 1, day as u16)
}

/// Returns the year that contains a valid day, -365242499 to 365242134.
pub fn year_from_fixed(rd: RataDie) -> i32
    requires { IsValidDay rd }
    ensures first { coptic_start result ≤ℤ rd }
    ensures last { rd <ℤ coptic_start (result +ℤ pos 1) }
    ensures range { IsBetween (neg_ℤ (pos 1000263)) (pos 999695) result }
{
    year_and_day_from_fixed(rd).0
}
