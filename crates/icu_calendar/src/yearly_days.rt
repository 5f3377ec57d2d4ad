//! Birthdays, memorial days and yearly feasts in any calendar.

ghost use Rattle.std.specs.Prelude.{◌≡◌, IfOk, Some};
ghost use Rattle.cal_types.specs.MonthParts.{month_parts};
ghost use Rattle.cal_types.specs.Anniversary.{anniversaries_between};
ghost use Rattle.cal_any.specs.AnySystem.{any_system};
ghost use Rattle.cal_anniversary.specs.Asking.{anniversary_fault, fault_of};
ghost use Rattle.cal_anniversary.specs.FallingOn.{AreAnniversaries};
ghost use Rattle.cal_anniversary.specs.Listing.{days_left};

use cal_anniversary::{AnniversaryError, anniversaries as anniversaries_in};
use cal_any::AnyCalendar;
use cal_types::{Leaping, Month, Window};

/// The anniversaries of a month and a day in a window: an iterator over their days, in order.
pub type Anniversaries<'t> = cal_anniversary::Anniversaries<AnyCalendar<'t>>;

/// Returns the days of a window on which a month and a day of a calendar fall: birthdays, memorial days, yearly feasts.
///
/// Each day is listed once, in order. `leaping` says how to handle a year that lacks the month or the day:
///
/// - [`Leaping::Exact`] skips the year. It lists the days whose date has the month and the day.
/// - [`Leaping::Constrain`] lists one day in each year (ECMAScript Temporal's overflow `constrain`). If the month
///   doesn't occur in the year, the calendar's stand-in replaces it. If the month is shorter, its last day is listed.
///
/// After some items, the list over `rest` is the list of the remaining days. Each item looks up one date for every year
/// it passes.
///
/// # Examples
///
/// The birthdays from 2023 to 2025 of someone born on day 10 of the Hebrew leap month Adar I:
///
/// ```
/// let window = Window::try_new(RataDie::new(738521), RataDie::new(739616))?;
/// let hebrew = AnyCalendar::Hebrew(Hebrew);
/// let mut days = anniversaries(hebrew, Month::leap(5), 10, Leaping::Constrain, window).ok()?;
/// assert!(rt; days.next()?.to_i64_date() == 738582); // 2023-03-03
/// assert!(rt; days.next()?.to_i64_date() == 738935); // 2024-02-19
/// assert!(rt; days.next()?.to_i64_date() == 739320); // 2025-03-10
/// ```
///
/// # Errors
///
/// The first that applies:
///
/// - [`AnniversaryError::MonthNotInCalendar`] if the month isn't one of the calendar's months.
/// - [`AnniversaryError::InvalidDay`] if the day isn't from 1 to 31.
pub fn anniversaries<'t>(
    calendar: AnyCalendar<'t>,
    month: Month,
    day: u8,
    leaping: Leaping,
    window: Window,
) -> Result<Anniversaries<'t>, AnniversaryError>
    ensures list { let list = (any_system calendar.entry).list in let m = month_parts month in
        IfOk result (λ a. days_left (any_system a.calendar).list a.asked a.rest
        ≡ anniversaries_between list leaping m day window.first window.last) }
    ensures meant { let list = (any_system calendar.entry).list in let m = month_parts month in
        IfOk result (λ a. AreAnniversaries list leaping m day window.first window.last
        (days_left (any_system a.calendar).list a.asked a.rest)) }
    ensures rest { IfOk result (λ a. a.rest ≡ Some window) }
    ensures fault { fault_of result ≡ anniversary_fault (any_system calendar.entry).list (month_parts month) day }
{
    anniversaries_in(calendar, month, day, leaping, window)
}
