//! The years of the Islamic calendar (Reingold and Dershowitz, Calendrical Calculations, chapter 7).
//!
//! The tabular calendar has 11 leap years in 30. If the new moon is observed or computed, years start within a few
//! days of the mean years; 30 mean years have 10631 days.

ghost use Rattle.std.specs.Prelude.{◌≡◌, ◌↔◌, IsTrue, pos, neg_ℤ, ◌+ℤ◌, ◌≤ℤ◌, ◌<ℤ◌};
ghost use Rattle.cal_days.specs.Day.{IsBetween, IsRuleYear, IsValidDay};
ghost use Rattle.cal_days.specs.Division.{floor_div};
ghost use Rattle.cal_days.specs.Islamic.{IsIslamicEpoch, IsMeanYearApart, islamic_leap, islamic_mean_start, islamic_start, islamic_year_length};

use crate::rata_die::RataDie;

/// The first day of year 1 if it is a Thursday: July 15, 622 in the Julian calendar.
pub const THURSDAY_EPOCH: i64 = 227014;

/// The first day of year 1 if it is a Friday: July 16, 622 in the Julian calendar.
pub const FRIDAY_EPOCH: i64 = 227015;

/// The number of years after which the leap years repeat.
const YEARS_IN_CYCLE: i64 = 30;

/// The number of days in these years, which is also the number of thirtieths of a day in a mean year.
const DAYS_IN_CYCLE: i64 = 10631;

/// Returns the first day of a tabular year from -8000000 to 8000000. Year 1 starts on `epoch`: [`THURSDAY_EPOCH`] or
/// [`FRIDAY_EPOCH`].
#[tactic(auto, using(crate::proofs::Signed::signed))]
pub fn year_start(year: i32, epoch: i64) -> RataDie
    requires year { IsRuleYear year }
    requires epoch { IsIslamicEpoch epoch }
    ensures formula { result ≡ islamic_start epoch year }
    ensures joins { islamic_start epoch (year +ℤ pos 1) ≡ islamic_start epoch year +ℤ pos (islamic_year_length year) }
{
    let number = i64::from(year);
    let leap_days = (11 * number + 3).div_euclid(YEARS_IN_CYCLE);
    let days_before = 354 * (number - 1) + leap_days;
    RataDie::new(days_before + epoch)
}

/// Returns whether a tabular year has 355 days instead of 354.
#[tactic(auto, using(crate::proofs::Signed::signed), unfolding(crate::specs::Division::floor_mod))]
pub fn is_leap_year(year: i32) -> bool
    ensures { IsTrue result ↔ IsTrue (islamic_leap year) }
{
    (11 * i64::from(year) + 14).rem_euclid(30) < 11
}

/// Returns the day on which a mean year from -8000000 to 8000000 starts. Mean year 1 starts on [`FRIDAY_EPOCH`].
/// Fractions of a day are dropped toward year 1.
#[tactic(auto, using(crate::proofs::Signed::signed))]
pub fn mean_start(year: i32) -> RataDie
    requires { IsRuleYear year }
    ensures formula { result ≡ islamic_mean_start year }
    ensures joins { IsMeanYearApart (islamic_mean_start year) (islamic_mean_start (year +ℤ pos 1)) }
{
    let scaled = (i64::from(year) - 1) * DAYS_IN_CYCLE;
    RataDie::new(FRIDAY_EPOCH + scaled / YEARS_IN_CYCLE)
}

/// Returns the mean year that contains a time in thirtieths of a day since the start of year 1. A mean year has 10631
/// thirtieths.
#[tactic(auto, using(crate::proofs::Signed::signed))]
fn year_of_thirtieths(thirtieths: i64) -> i32
    requires { IsBetween (neg_ℤ (pos 12000000000)) (pos 12000000000) thirtieths }
    ensures { result ≡ floor_div thirtieths 10631 +ℤ pos 1 }
{
    thirtieths.div_euclid(DAYS_IN_CYCLE) as i32 + 1
}

/// Returns the last year whose mean start is on or before a valid day, -365242499 to 365242134.
#[tactic(auto, using(crate::proofs::Signed::signed))]
pub fn mean_year_from_fixed(rd: RataDie) -> i32
    requires { IsValidDay rd }
    ensures first { islamic_mean_start result ≤ℤ rd }
    ensures last { rd <ℤ islamic_mean_start (result +ℤ pos 1) }
    ensures range { IsBetween (neg_ℤ (pos 1032000)) (pos 1032000) result }
{
    let days = rd.to_i64_date() - FRIDAY_EPOCH;
    // Starts are rounded down in year 1 and later, and up before year 1.
    if days < 0 {
        year_of_thirtieths(30 * days)
    } else {
        year_of_thirtieths(30 * days + 29)
    }
}
