//! The anniversaries of a month and a day.

ghost use Rattle.std.specs.Prelude.{◌≡◌, IfOk, Some};
ghost use Rattle.cal_types.specs.MonthParts.{month_parts};
ghost use Rattle.cal_anniversary.specs.Asking.{anniversary_fault, fault_of};
ghost use Rattle.cal_types.specs.Anniversary.{anniversaries_between};
ghost use Rattle.cal_anniversary.specs.FallingOn.{AreAnniversaries};
ghost use Rattle.cal_anniversary.specs.Listing.{days_left};

use crate::errors::AnniversaryError;
use crate::iter::Anniversaries;
use crate::yearly_day::YearlyDay;
use cal_base::Calendar;
use cal_types::{DateNewError, Leaping, Month, Window, YearInput};

/// Returns the days of a window on which a month and a day of a calendar fall: birthdays, memorial days, yearly feasts.
///
/// Each day is listed once, in order. `leaping` says how to handle a year that lacks the month or the day:
///
/// - [`Leaping::Exact`] skips the year. It lists the days whose date has the month and the day.
/// - [`Leaping::Constrain`] lists one day in each year (ECMAScript Temporal's overflow `constrain`). If the month
///   doesn't occur in the year, the calendar's stand-in replaces it. If the month is shorter, its last day is listed.
///
/// For February 29 of the ISO calendar, `Month::new(2)` and 29, `Exact` lists leap years only. `Constrain` also lists
/// February 28 of the other years. For a day of the Hebrew leap month, `Month::leap(5)`, `Exact` lists leap years only.
/// `Constrain` also lists the same day of Adar in the other years.
///
/// After some items, the list over [`Anniversaries::rest`] is the list of the remaining days. See [`Anniversaries`] for
/// the cost of an item.
///
/// # Errors
///
/// The first of these that applies:
///
/// - [`AnniversaryError::MonthNotInCalendar`] if the month isn't one of the calendar's months.
/// - [`AnniversaryError::InvalidDay`] if the day isn't from 1 to 31.
///
/// # Examples
///
/// ```
/// let window = Window::try_new(RataDie::new(738521), RataDie::new(739616))?;
/// let hebrew = AnyCalendar::Hebrew(Hebrew);
/// let mut days = anniversaries(hebrew, Month::leap(5), 10, Leaping::Constrain, window).ok()?;
/// assert!(rt; days.next()?.to_i64_date() == 738582); // 2023-03-03
/// assert!(rt; days.next()?.to_i64_date() == 738935); // 2024-02-19
/// assert!(rt; days.next()?.to_i64_date() == 739320); // 2025-03-10
/// ```
pub fn anniversaries<C: Calendar>(
    calendar: C,
    month: Month,
    day: u8,
    leaping: Leaping,
    window: Window,
) -> Result<Anniversaries<C>, AnniversaryError>
    ensures list { let list = (C.system calendar).list in let m = month_parts month in
        IfOk result (λ a. days_left (C.system a.calendar).list a.asked a.rest
        ≡ anniversaries_between list leaping m day window.first window.last) }
    ensures meant { let list = (C.system calendar).list in let m = month_parts month in
        IfOk result (λ a. AreAnniversaries list leaping m day window.first window.last
        (days_left (C.system a.calendar).list a.asked a.rest)) }
    ensures rest { IfOk result (λ a. a.rest ≡ Some window) }
    ensures calendar { IfOk result (λ a. a.calendar ≡ calendar) }
    ensures asked { IfOk result (λ a. (a.asked.month ≡ month) × (a.asked.day ≡ day) × (a.asked.leaping ≡ leaping)) }
    ensures fault { fault_of result ≡ anniversary_fault (C.system calendar).list (month_parts month) day }
{
    if !knows_month(&calendar, month) {
        return Err(AnniversaryError::MonthNotInCalendar);
    }
    if day < 1 || day > 31 {
        return Err(AnniversaryError::InvalidDay);
    }
    let asked = YearlyDay {
        month,
        day,
        leaping,
    };
    Ok(Anniversaries::new(calendar, asked, window))
}

/// Returns whether the month occurs in some year of the calendar.
fn knows_month<C: Calendar>(calendar: &C, month: Month) -> bool
    ensures { result ≡ (C.system calendar.now).list.is_of_kind (month_parts month) }
{
    match calendar.new_date(YearInput::Extended(1), month, 1) {
        Ok(_) => true,
        Err(fault) => !matches!(fault, DateNewError::MonthNotInCalendar),
    }
}
