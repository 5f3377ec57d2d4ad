//! Day numbers in the valid range.

ghost use Rattle.std.specs.Prelude.{◌≡◌, IfSome};
ghost use Rattle.std.specs.Option.{is_some};
ghost use Rattle.cal_days.specs.Day as day;
ghost use Rattle.cal_days.specs.Day.{IsValidDay};

use cal_days::RataDie;
use cal_days::ranges::{FIRST_VALID_DAY, LAST_VALID_DAY};

/// A day number from -365242499 to 365242134.
#[derive(Clone, Copy)]
pub(crate) struct ValidDay {
    day: i64,
    ghost valid: { IsValidDay day },
}

impl ValidDay {
    /// Returns the day number if it is in the range, otherwise `None`.
    pub(crate) fn of(number: i64) -> Option<ValidDay>
        ensures some { is_some result ≡ day.is_valid_day number }
        ensures day { IfSome result (λ d. d.day ≡ number) }
    {
        if FIRST_VALID_DAY <= number && number <= LAST_VALID_DAY {
            Some(ValidDay { day: number })
        } else {
            None
        }
    }

    /// Returns the day number.
    pub(crate) fn number(self) -> i64
        ensures { result ≡ self.day }
    {
        self.day
    }

    /// Returns the day number as a rata die.
    pub(crate) fn rata_die(self) -> RataDie
        ensures is { result ≡ self.day }
        ensures valid { IsValidDay result }
    {
        RataDie::new(self.day)
    }
}
