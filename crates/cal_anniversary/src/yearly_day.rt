//! The anniversary of a year.

ghost use Rattle.std.specs.Prelude.{◌≡◌, ◌≤ℤ◌, neg_ℤ, pos};
ghost use Rattle.cal_days.specs.Day.{IsFieldYear};
ghost use Rattle.cal_types.specs.MonthParts.{month_parts};
ghost use Rattle.cal_anniversary.specs.Asking.{IsAsked};
ghost use Rattle.cal_anniversary.specs.YearlyDays.{IsDayInYear, IsDayInWindow};
ghost use Rattle.cal_anniversary.specs.Found.{IsFirstFound};
ghost use Rattle.cal_types.specs.Leaping.{overflow_for};

use cal_base::Calendar;
use cal_days::RataDie;
use cal_types::{DateFields, DateFromFieldsOptions, Leaping, Month, Overflow, Window};

/// A month and a day, and how to handle a year that lacks them.
#[derive(Clone, Copy)]
pub(crate) struct YearlyDay {
    pub(crate) month: Month,
    pub(crate) day: u8,
    pub(crate) leaping: Leaping,
}

/// Returns the overflow under which a date with the month and the day is created.
fn overflow_for(leaping: Leaping) -> Overflow
    ensures { result ≡ overflow_for leaping }
{
    match leaping {
        Leaping::Exact => Overflow::Reject,
        Leaping::Constrain => Overflow::Constrain,
    }
}

/// Returns the anniversary in a year, or `None` if the year is skipped or its anniversary isn't a valid day.
fn day_in_year<C: Calendar>(calendar: &C, asked: YearlyDay, year: i32) -> Option<RataDie>
    requires asked { IsAsked (C.system calendar.now).list (month_parts asked.month) asked.day }
    requires year { IsFieldYear year }
    ensures { IsDayInYear (C.system calendar.now).list asked.leaping (month_parts asked.month) asked.day year result }
{
    let fields = DateFields::from_year_month_day(year, asked.month, asked.day);
    let options = DateFromFieldsOptions {
        overflow: Some(overflow_for(asked.leaping)),
        missing_fields_strategy: None,
    };
    match calendar.from_fields(fields, options) {
        Ok(date) => Some(calendar.to_rata_die(&date)),
        Err(_) => None,
    }
}

/// Returns the anniversary in a year if it is in the window.
fn day_in_window<C: Calendar>(
    calendar: &C,
    asked: YearlyDay,
    window: Window,
    year: i32,
) -> Option<RataDie>
    requires asked { IsAsked (C.system calendar.now).list (month_parts asked.month) asked.day }
    requires year { IsFieldYear year }
    ensures { let list = (C.system calendar.now).list in let m = month_parts asked.month in
        IsDayInWindow list asked.leaping m asked.day window.first window.last year result }
{
    let day = day_in_year(calendar, asked, year)?;
    if window.contains(day) {
        Some(day)
    } else {
        None
    }
}

/// An anniversary and its year.
#[derive(Clone, Copy)]
pub(crate) struct Found {
    pub(crate) day: RataDie,
    pub(crate) year: i32,
}

/// Returns the first anniversary in a window, among the years from `first` to `last`.
pub(crate) fn first_in_years<C: Calendar>(
    calendar: &C,
    asked: YearlyDay,
    window: Window,
    first: i32,
    last: i32,
) -> Option<Found>
    requires asked { IsAsked (C.system calendar.now).list (month_parts asked.month) asked.day }
    requires low { neg_ℤ (pos 1040000) ≤ℤ first }
    requires high { last ≤ℤ pos 1040000 }
    ensures { let list = (C.system calendar.now).list in let m = month_parts asked.month in
        IsFirstFound list asked.leaping m asked.day window.first window.last first last result }
{
    let mut year = first;
    while year <= last {
        match day_in_window(calendar, asked, window, year) {
            Some(day) => return Some(Found { day, year }),
            None => year += 1,
        }
    }
    None
}
