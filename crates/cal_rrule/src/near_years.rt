//! Years of days near the valid days: the year before a year and the one after it.

ghost use Rattle.std.specs.Prelude.{◌≡◌, ◌+ℤ◌, ◌-ℤ◌, ◌≤ℤ◌, ◌<ℤ◌, neg_ℤ, pos};
ghost use Rattle.cal_types.specs.CalendarList.{year_length};
ghost use Rattle.cal_rrule.specs.Looks.{IsYearLook, look_year};
ghost use Rattle.cal_rrule.specs.NearDays.{IsNearDay, IsNearList};
ghost use Rattle.cal_rrule.specs.Stretches.{InStretch, end_of};

use crate::looks::{is_valid, year_of};
use crate::probes::{days_of_month, months_of_year};
use crate::year_look::YearLook;
use cal_base::Calendar;
use cal_days::ranges::{FIRST_VALID_DAY, LAST_VALID_DAY};

/// Returns the length of a year.
fn days_of_year<C: Calendar>(calendar: &C, year: i32) -> u16
    requires low { neg_ℤ (pos 1040000) ≤ℤ year }
    requires high { year ≤ℤ pos 1040000 }
    ensures { result ≡ year_length (C.system calendar.now).list year }
{
    let mut days = 0;
    for before in 0..months_of_year(calendar, year) {
        days += u16::from(days_of_month(calendar, year, before + 1));
    }
    days
}

/// Returns the year after a year.
pub(crate) fn year_after<C: Calendar>(calendar: &C, look: &YearLook) -> YearLook
    requires look { IsYearLook (C.system calendar.now).list look.now }
    requires near { IsNearDay look.now.first }
    requires nearby { IsNearList (C.system calendar.now).list }
    ensures look { IsYearLook (C.system calendar.now).list result }
    ensures year { result.year ≡ look.now.year +ℤ pos 1 }
    ensures joins { result.first ≡ end_of (look_year look.now) }
{
    let first = look.end();
    if is_valid(first) {
        return year_of(calendar, first);
    }
    let year = look.year + 1;
    let days = days_of_year(calendar, year);
    YearLook { year, first, days }
}

/// Returns the year before a year.
pub(crate) fn year_before<C: Calendar>(calendar: &C, look: &YearLook) -> YearLook
    requires look { IsYearLook (C.system calendar.now).list look.now }
    requires near { IsNearDay look.now.first }
    requires nearby { IsNearList (C.system calendar.now).list }
    ensures look { IsYearLook (C.system calendar.now).list result }
    ensures year { result.year ≡ look.now.year -ℤ pos 1 }
    ensures joins { end_of (look_year result) ≡ look.now.first }
{
    let last = look.first - 1;
    if is_valid(last) {
        return year_of(calendar, last);
    }
    let year = look.year - 1;
    let days = days_of_year(calendar, year);
    YearLook {
        year,
        first: look.first - i64::from(days),
        days,
    }
}

/// Returns the year of a day behind the valid days.
fn year_behind<C: Calendar>(calendar: &C, day: i64) -> YearLook
    requires day { IsNearDay day }
    requires behind { pos 365242134 <ℤ day }
    requires nearby { IsNearList (C.system calendar.now).list }
    ensures look { IsYearLook (C.system calendar.now).list result }
    ensures within { InStretch (look_year result) day }
{
    let mut look = year_of(calendar, LAST_VALID_DAY);
    while look.end() <= day {
        look = year_after(calendar, &look);
    }
    look
}

/// Returns the year of a day ahead of the valid days.
fn year_ahead_of<C: Calendar>(calendar: &C, day: i64) -> YearLook
    requires day { IsNearDay day }
    requires ahead { day <ℤ neg_ℤ (pos 365242499) }
    requires nearby { IsNearList (C.system calendar.now).list }
    ensures look { IsYearLook (C.system calendar.now).list result }
    ensures within { InStretch (look_year result) day }
{
    let mut look = year_of(calendar, FIRST_VALID_DAY);
    while day < look.first {
        look = year_before(calendar, &look);
    }
    look
}

/// Returns the year of a day that is valid or near the valid days.
pub(crate) fn year_near<C: Calendar>(calendar: &C, day: i64) -> YearLook
    requires day { IsNearDay day }
    requires nearby { IsNearList (C.system calendar.now).list }
    ensures look { IsYearLook (C.system calendar.now).list result }
    ensures within { InStretch (look_year result) day }
{
    if day < FIRST_VALID_DAY {
        return year_ahead_of(calendar, day);
    }
    if day > LAST_VALID_DAY {
        return year_behind(calendar, day);
    }
    year_of(calendar, day)
}
