//! The first anniversary in a window.

ghost use Rattle.std.specs.Prelude.{◌≡◌, ◌&&◌, nat_le, slice_get, true};
ghost use Rattle.cal_types.specs.Anniversary.{anniversaries_between};
ghost use Rattle.cal_types.specs.MonthParts.{month_parts};

use crate::window_years::years_of;
use crate::yearly_day::{YearlyDay, first_in_years};
use cal_base::Calendar;
use cal_days::RataDie;
use cal_types::{Leaping, Month, Window};

/// Returns the first day of a window on which a month and a day of a calendar fall: the first day that
/// [`anniversaries`](crate::anniversaries()) lists.
///
/// The month must occur in some year of the calendar, and the day must be from 1 to 31. The call looks up the dates of
/// the window's first and last day, and one date for every year up to the anniversary.
///
/// ```text
/// let window = Window::try_new(RataDie::new(738521), RataDie::new(739616))?;
/// let day = first_anniversary(&Hebrew, Month::leap(5), 10, Leaping::Constrain, window)?;
/// assert!(rt; day.to_i64_date() == 738582); // 2023-03-03
/// ```
pub fn first_anniversary<C: Calendar>(
    calendar: &C,
    month: Month,
    day: u8,
    leaping: Leaping,
    window: Window,
) -> Option<RataDie>
    requires month { (C.system calendar.now).list.is_of_kind (month_parts month) ≡ true }
    requires day { (nat_le 1 day && nat_le day 31) ≡ true }
    ensures { let list = (C.system calendar.now).list in
        result ≡ slice_get (anniversaries_between list leaping (month_parts month) day window.first window.last) 0 }
{
    let asked = YearlyDay {
        month,
        day,
        leaping,
    };
    let years = years_of(calendar, window);
    match first_in_years(calendar, asked, window, years.first, years.last) {
        Some(found) => Some(found.day),
        None => None,
    }
}
