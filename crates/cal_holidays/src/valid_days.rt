//! Valid days.

ghost use Rattle.std.specs.Prelude.{◌≡◌, ◌≤ℤ◌, ℤ, pos, neg_ℤ, MatchOption};
ghost use Rattle.cal_days.specs.Day.{IsValidDay};

use cal_days::RataDie;
use cal_days::ranges::{FIRST_VALID_DAY, LAST_VALID_DAY, is_valid_day};

/// Returns a day if it is valid.
pub(crate) fn valid_day(day: i64) -> Option<RataDie>
    ensures { MatchOption result (IsValidDay day → ⊥) (λ d. (d ≡ day) × IsValidDay day) }
{
    if is_valid_day(day) {
        Some(RataDie::new(day))
    } else {
        None
    }
}

/// Returns the first valid day from a day on.
pub(crate) fn first_valid(from: i64) -> RataDie
    requires { from ≤ℤ pos 365242134 }
    ensures valid { IsValidDay result }
    ensures first { (n : ℤ) → IsValidDay n → from ≤ℤ n → result ≤ℤ n }
{
    if from < FIRST_VALID_DAY {
        RataDie::new(FIRST_VALID_DAY)
    } else {
        RataDie::new(from)
    }
}

/// Returns the last valid day up to a day.
pub(crate) fn last_valid(to: i64) -> RataDie
    requires { neg_ℤ (pos 365242499) ≤ℤ to }
    ensures valid { IsValidDay result }
    ensures last { (n : ℤ) → IsValidDay n → n ≤ℤ to → n ≤ℤ result }
{
    if to > LAST_VALID_DAY {
        RataDie::new(LAST_VALID_DAY)
    } else {
        RataDie::new(to)
    }
}
