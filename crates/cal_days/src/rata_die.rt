//! Day numbers.

ghost use Rattle.std.specs.Prelude.{◌≡◌, ◌↔◌, IsSome, IfSome, ◌+ℤ◌, ◌-ℤ◌};
ghost use Rattle.cal_days.specs.Day.{IsHeld};

use std::marker::Model;

/// The least day number.
const MIN: i64 = -36028797018963968;

/// The greatest day number.
const MAX: i64 = 36028797018963967;

/// A day number, from -2^55 to 2^55 - 1: day 1 is 0001-01-01 in the proleptic Gregorian calendar.
///
/// The name and the numbering are from Reingold and Dershowitz, Calendrical Calculations.
#[derive(Clone, Copy, Debug, PartialEq, Eq, PartialOrd, Ord, Hash)]
pub struct RataDie {
    day: i64,
}

impl Model for RataDie {
    ghost use Rattle.std.specs.Prelude.{ℤ};
    ghost use Rattle.cal_days.specs.Day.{IsHeld};

    ghost Value = { ℤ };

    ghost view = { λ a. a.day };

    ghost invariant = { λ a. IsHeld a.day };

    ghost inverse = { λ v. record { day = v } };
}

impl RataDie {
    /// Creates the day with a number from -2^55 to 2^55 - 1.
    ///
    /// ```
    /// let day = RataDie::new(738946); // 2024-03-01
    /// assert!(rt; day.to_i64_date() == 738946);
    /// ```
    pub const fn new(value: i64) -> RataDie
        requires { IsHeld value }
        ensures { result ≡ value }
    {
        RataDie { day: value }
    }

    /// Returns the number of the day.
    ///
    /// ```
    /// assert!(rt; RataDie::new(1).to_i64_date() == 1); // 0001-01-01
    /// ```
    pub const fn to_i64_date(self) -> i64
        ensures value { result ≡ self }
        ensures range { IsHeld result }
    {
        self.day
    }

    /// Returns the number of days from `other` to this day, which is negative if this day is earlier.
    ///
    /// ```
    /// assert!(rt; RataDie::new(738946).since(RataDie::new(738915)) == 31); // from 2024-01-30
    /// ```
    pub const fn since(self, other: RataDie) -> i64
        ensures { result ≡ self -ℤ other }
    {
        self.day - other.day
    }

    /// Returns the day `days` days later, or earlier if `days` is negative. Returns `None` exactly if its number
    /// isn't from -2^55 to 2^55 - 1.
    ///
    /// ```
    /// assert!(rt; RataDie::new(738946).checked_add(-1) == Some(RataDie::new(738945)));
    /// ```
    pub fn checked_add(self, days: i64) -> Option<RataDie>
        ensures some { IfSome result (λ sum. sum ≡ self +ℤ days) }
        ensures exact { IsSome result ↔ IsHeld (self +ℤ days) }
    {
        let sum = self.day.checked_add(days)?;
        if sum < MIN || sum > MAX {
            return None;
        }
        Some(RataDie { day: sum })
    }
}
