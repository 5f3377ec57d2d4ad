//! The year and the day of the year by the rule of 33 years, in one computation.

ghost use Rattle.std.specs.Prelude.{◌≡◌, pos, neg_ℤ, ◌+ℤ◌, ◌<ℤ◌};
ghost use Rattle.cal_days.specs.Day.{IsBetween, IsValidDay};
ghost use Rattle.cal_days.specs.Persian.{persian_start};

use cal_days::RataDie;

/// The first day of year 1: 0622-03-22 in the proleptic Gregorian calendar.
const FIRST_DAY_OF_YEAR_1: i64 = 226895;

/// The number of years after which the leap years repeat.
const YEARS_IN_CYCLE: u64 = 33;

/// The number of days in these years.
const DAYS_IN_CYCLE: u64 = 12053;

/// A multiple of 33 years. Counting from this many years before year 1 keeps every valid day nonnegative, so that
/// unsigned division rounds down.
const YEARS_BEFORE: i32 = 1023000;

/// The number of days in these years.
const DAYS_BEFORE: i64 = 373643000;

/// Returns the year that contains a valid day, -365242499 to 365242134, and the number of days in that year before
/// the day.
#[tactic(auto, using(cal_days::proofs::Signed::signed_casts))]
pub fn year_and_day_from_fixed(rd: RataDie) -> (i32, u16)
    requires { IsValidDay rd }
    ensures day { persian_start result.0 +ℤ pos result.1 ≡ rd }
    ensures within { rd <ℤ persian_start (result.0 +ℤ pos 1) }
    ensures range { IsBetween (neg_ℤ (pos 1000621)) (pos 999378) result.0 }
{
    // 33 times the days before a year is 12053 times the years before it, minus at most 3, rounded up to a multiple
    // of 33. The remainder is 33 times the day of the year, plus at most 32.
    let days = (rd.to_i64_date() - FIRST_DAY_OF_YEAR_1 + DAYS_BEFORE) as u64;
    let scaled = YEARS_IN_CYCLE * days + 3;
    let day = scaled % DAYS_IN_CYCLE / YEARS_IN_CYCLE;
    (
        (scaled / DAYS_IN_CYCLE) as i32 - YEARS_BEFORE + 1,
        day as u16,
    )
}
