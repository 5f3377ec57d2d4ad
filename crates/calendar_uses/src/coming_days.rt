//! A family, a payroll and a society, which list days to come.

ghost use Rattle.std.specs.Prelude.{◌≡◌, ◌≤◌, IfOk, take};
ghost use Rattle.icu_calendar.specs.HebrewSystem.{hebrew_date};
ghost use Rattle.icu_calendar.specs.IsoSystem.{iso_date};
ghost use Rattle.calendar_uses.specs.ComingDays.{ArePaydays, AreReunions, birthdays_in_adar};

use icu_calendar::anniversary::anniversaries;
use icu_calendar::{
    Date, DateDurationUnit, Hebrew, Iso, Leaping, Missing, Month, Occurrence, RataDie, Rule, Window,
};
use std::alloc::{AllocError, Global};

/// Returns the next birthdays of someone born on a day of Adar I: the first three in a window. In a year without Adar I
/// they are in Adar.
///
/// # Errors
///
/// - [`AllocError`] if there is no memory for the list.
pub fn next_birthdays(alloc: Global, day: u8, window: Window) -> Result<Vec<RataDie>, AllocError>
    requires from_1 { 1 ≤ day }
    requires to_31 { day ≤ 31 }
    ensures { IfOk result (λ days. days.items ≡ take 3 (birthdays_in_adar day window.first window.last)) }
{
    match anniversaries(Hebrew, Month::leap(5), day, Leaping::Constrain, window) {
        Ok(birthdays) => birthdays.take(3).collect(alloc),
        // The Hebrew calendar has the month, and each day from 1 to 31 may be asked for.
        Err(_) => unreachable!(),
    }
}

/// Returns the paydays in a window, one a month from the first one on. In a month without the first one's day, the
/// payday is the month's last day.
///
/// # Errors
///
/// - [`AllocError`] if there is no memory for the list.
pub fn paydays(
    alloc: Global,
    first: &Date<Iso>,
    window: Window,
) -> Result<Vec<Occurrence>, AllocError>
    ensures { let t = iso_date first.now.inner in
        IfOk result (λ days. ArePaydays t window.first window.last days.items) }
{
    match Rule::try_new(DateDurationUnit::Months, 1, Missing::Constrain) {
        Some(monthly) => first.recur(monthly, window).collect(alloc),
        None => unreachable!(),
    }
}

/// Returns a society's reunions in a window, every second Hebrew year from the first one on. A year without the first
/// one's month or day has none.
///
/// # Errors
///
/// - [`AllocError`] if there is no memory for the list.
pub fn reunions(
    alloc: Global,
    first: &Date<Hebrew>,
    window: Window,
) -> Result<Vec<Occurrence>, AllocError>
    ensures { let t = hebrew_date first.now.inner in
        IfOk result (λ days. AreReunions t window.first window.last days.items) }
{
    match Rule::try_new(DateDurationUnit::Years, 2, Missing::Skip) {
        Some(every_other_year) => first.recur(every_other_year, window).collect(alloc),
        None => unreachable!(),
    }
}
