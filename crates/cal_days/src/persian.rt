//! The years of the Persian calendar by the rule of 33 years.
//!
//! Of 33 years, 8 are leap years. The rule agrees with the calendar's observed equinoxes except in some years, which
//! a calendar corrects one by one.

ghost use Rattle.std.specs.Prelude.{◌≡◌, ◌↔◌, IsTrue, pos, neg_ℤ, ◌+ℤ◌, ◌≤ℤ◌, ◌<ℤ◌};
ghost use Rattle.cal_days.specs.Day.{IsBetween, IsRuleYear, IsValidDay};
ghost use Rattle.cal_days.specs.Persian.{persian_leap, persian_start, persian_year_length};

use crate::rata_die::RataDie;

/// The first day of year 1: 0622-03-22 in the proleptic Gregorian calendar.
const FIRST_DAY_OF_YEAR_1: i64 = 226895;

/// The number of years after which the leap years repeat.
const YEARS_IN_CYCLE: u64 = 33;

/// The number of days in these years.
const DAYS_IN_CYCLE: u64 = 12053;

/// A multiple of 33 years. Counting from this many years before year 1 keeps every valid day nonnegative, so that
/// unsigned division rounds down.
const YEARS_BEFORE: i32 = 1023000;

/// The number of days in these years.
const DAYS_BEFORE: i64 = 373643000;

/// Returns the first day of a year from -8000000 to 8000000.
#[tactic(auto, using(crate::proofs::Signed::signed))]
pub fn year_start(year: i32) -> RataDie
    requires { IsRuleYear year }
    ensures formula { result ≡ persian_start year }
    ensures joins { persian_start (year +ℤ pos 1) ≡ persian_start year +ℤ pos (persian_year_length year) }
{
    let number = i64::from(year);
    let leap_days = (8 * number + 21).div_euclid(33);
    RataDie::new(FIRST_DAY_OF_YEAR_1 + 365 * (number - 1) + leap_days)
}

/// Returns whether a year from -8000000 to 8000000 has 366 days.
#[tactic(auto, using(crate::proofs::Signed::signed), unfolding(crate::specs::Division::floor_mod))]
pub fn is_leap_year(year: i32) -> bool
    requires { IsRuleYear year }
    ensures { IsTrue result ↔ IsTrue (persian_leap year) }
{
    (25 * year + 11).rem_euclid(33) < 8
}

/// Returns the year that contains a valid day, -365242499 to 365242134.
#[tactic(auto, using(crate::proofs::Signed::signed_casts))]
pub fn year_from_fixed(rd: RataDie) -> i32
    requires { IsValidDay rd }
    ensures first { persian_start result ≤ℤ rd }
    ensures last { rd <ℤ persian_start (result +ℤ pos 1) }
    ensures range { IsBetween (neg_ℤ (pos 1000621)) (pos 999378) result }
{
    // 33 times the days before a year is 12053 times the years before it, minus at most 3, rounded up to a multiple
    // of 33.
    let days = (rd.to_i64_date() - FIRST_DAY_OF_YEAR_1 + DAYS_BEFORE) as u64;
    let years = (YEARS_IN_CYCLE * days + 3) / DAYS_IN_CYCLE;
    years as i32 - YEARS_BEFORE + 1
}
