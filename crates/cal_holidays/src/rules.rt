//! Numbered rules that name days.

ghost use Rattle.std.specs.Prelude.{◌≡◌, ◌<◌, ◌^◌, ℕ, ℤ, Bool};
ghost use Rattle.cal_days.specs.Day.{IsValidDay};
ghost use Rattle.cal_holidays.specs.Merging.{IsFirstDay};

use cal_days::RataDie;

/// Rules that name days, numbered from 0.
pub trait NumberedRules: Copy {
    /// Whether a rule names a day.
    ghost names: { Self → ℕ → ℤ → Bool };

    /// The number of rules.
    ghost count_of: { Self → ℕ };

    /// Returns the number of rules.
    fn count(&self) -> usize
        ensures value { result ≡ count_of self.now }
        ensures bound { result < 2 ^ 63 };

    /// Returns the first day from `first` to `last` that a rule names.
    fn first_day(&self, rule: usize, first: RataDie, last: RataDie) -> Option<RataDie>
        requires rule { rule < count_of self.now }
        requires from { IsValidDay first }
        requires to { IsValidDay last }
        ensures { IsFirstDay (names self.now rule) first last result };
}
