//! The trait [`Periods`].

ghost use Rattle.std.specs.Prelude.{ℕ, ◌+◌, ◌<◌, ◌≤◌, IfSome, MatchOption, ℤ, ◌<ℤ◌};
ghost use Rattle.cal_days.specs.Day.{IsValidDay};
ghost use Rattle.recurrence_sets.specs.Periods.{HaveEnded, Holds};

use crate::period_days::PeriodDays;
use cal_days::RataDie;

/// The periods of a recurrence set, numbered from 0 on, with their days.
///
/// Periods next to each other may have a day in common, or days out of order. Periods further apart never do.
pub trait Periods: Drop {
    /// The days of a period.
    ghost has: { Self → ℕ → ℤ → Type 0 };

    /// Returns the days of a period, or `None` if no period from this one on has a valid day up to a last one. Days of
    /// the set that aren't valid don't matter.
    fn days(&self, period: u32, last: RataDie) -> Option<PeriodDays>
        requires { IsValidDay last }
        ensures days { MatchOption result (HaveEnded (has self.now) period last) (Holds (has self.now period)) }
        ensures few { IfSome result (λ _. period < 4294967295) };

    /// The days of a period are before those of the periods behind the next one.
    ghost apart: { (s : Self) (i j : ℕ) (m n : ℤ) → i + 2 ≤ j → IsValidDay m → IsValidDay n →
        has s i m → has s j n → m <ℤ n };
}
