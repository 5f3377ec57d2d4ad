//! The rest of a list of holidays.

ghost use Rattle.std.specs.Prelude.{◌≡◌, ◌≤ℤ◌, option_map};
ghost use Rattle.cal_days.specs.Day.{IsBetween};
ghost use Rattle.cal_holidays.specs.Merging.{BeginsAt, behind};

use cal_days::RataDie;
use cal_types::Window;

/// The rest of a list of holidays: a window, and the first rule that is listed on its first day.
///
/// [`holidays()`](crate::holidays()) with both values continues the list.
#[derive(Clone, Copy, Debug, PartialEq, Eq)]
pub struct Rest {
    /// The remaining days.
    pub window: Window,
    /// The number, from 0, of the first rule that is listed on the window's first day.
    pub first_rule: usize,
}

ghost use Rattle.cal_holidays.specs.Found.{IsWindowFrom, stretch_of};

/// Returns the window from a day of a window to its last day.
fn window_from(window: Window, day: RataDie) -> Option<Window>
    requires { IsBetween window.first window.last day }
    ensures { IsWindowFrom window day result }
{
    Window::try_new(day, window.last())
}

impl Rest {
    /// Returns the number of the first day on which a rule is listed.
    pub(crate) fn begin_of(self, rule: usize) -> i64
        ensures day { BeginsAt (stretch_of self) rule result }
        ensures low { self.window.first ≤ℤ result }
    {
        let first = self.window.first().to_i64_date();
        if rule < self.first_rule {
            first + 1
        } else {
            first
        }
    }

    /// Returns the rest after a day and a rule, of `count` rules.
    pub(crate) fn behind(self, day: i64, rule: usize, count: usize) -> Option<Rest>
        requires { IsBetween self.window.first self.window.last day }
        ensures { option_map stretch_of result ≡ behind count (stretch_of self) day rule }
    {
        if rule < count && rule + 1 < count {
            return Some(Rest {
                window: window_from(self.window, RataDie::new(day))?,
                first_rule: rule + 1,
            });
        }
        Some(Rest {
            window: self.window.after(RataDie::new(day))?,
            first_rule: 0,
        })
    }
}
