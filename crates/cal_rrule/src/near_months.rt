//! Months of days near the valid days: the month before a month and the one after it.

ghost use Rattle.std.specs.Prelude.{◌≡◌, ◌<ℤ◌, neg_ℤ, pos};
ghost use Rattle.cal_days.specs.Day.{IsBetween, IsFieldYear};
ghost use Rattle.cal_types.specs.CalendarList.{HasPlace, IsMonthsAfter, date, day_number, month_length};
ghost use Rattle.cal_rrule.specs.Looks.{IsMonthLook, look_stretch};
ghost use Rattle.cal_rrule.specs.NearDays.{IsNearDay, IsNearList};
ghost use Rattle.cal_rrule.specs.Stretches.{InStretch, end_of};

use crate::looks::{is_valid, month_of};
use crate::month_look::MonthLook;
use crate::probes::{days_of_month, month_in_place, months_of_year};
use cal_base::Calendar;
use cal_days::ranges::{FIRST_VALID_DAY, LAST_VALID_DAY};

/// Returns the month in a place of a year, given its first day and its length.
fn look_at<C: Calendar>(calendar: &C, year: i32, place: u8, first: i64, days: u8) -> MonthLook
    requires place { HasPlace (C.system calendar.now).list year place }
    requires year { IsFieldYear year }
    requires nearby { IsNearList (C.system calendar.now).list }
    requires begins { first ≡ day_number (C.system calendar.now).list (date year place 1) }
    requires length { days ≡ month_length (C.system calendar.now).list year place }
    requires within { IsBetween (neg_ℤ (pos 400000000)) (pos 400000000) first }
    ensures look { IsMonthLook (C.system calendar.now).list result }
    ensures begins { result.first ≡ first }
    ensures length { result.days ≡ days }
{
    MonthLook {
        year,
        place,
        first,
        days,
        month: month_in_place(calendar, year, place),
    }
}

/// Returns the year and the place of the month after a month.
fn place_after<C: Calendar>(calendar: &C, look: &MonthLook) -> (i32, u8)
    requires look { IsMonthLook (C.system calendar.now).list look.now }
    requires near { IsNearDay look.now.first }
    requires nearby { IsNearList (C.system calendar.now).list }
    ensures next { IsMonthsAfter (C.system calendar.now).list look.now.year look.now.place (pos 1) result.0 result.1 }
    ensures field { IsFieldYear result.0 }
{
    if look.place < months_of_year(calendar, look.year) {
        return (look.year, look.place + 1);
    }
    (look.year + 1, 1)
}

/// Returns the year and the place of the month before a month.
fn place_before<C: Calendar>(calendar: &C, look: &MonthLook) -> (i32, u8)
    requires look { IsMonthLook (C.system calendar.now).list look.now }
    requires near { IsNearDay look.now.first }
    requires nearby { IsNearList (C.system calendar.now).list }
    ensures place { HasPlace (C.system calendar.now).list result.0 result.1 }
    ensures next { IsMonthsAfter (C.system calendar.now).list result.0 result.1 (pos 1) look.now.year look.now.place }
    ensures field { IsFieldYear result.0 }
{
    if look.place > 1 {
        return (look.year, look.place - 1);
    }
    let year = look.year - 1;
    (year, months_of_year(calendar, year))
}

/// Returns the month after a month.
pub(crate) fn month_after<C: Calendar>(calendar: &C, look: &MonthLook) -> MonthLook
    requires look { IsMonthLook (C.system calendar.now).list look.now }
    requires near { IsNearDay look.now.first }
    requires nearby { IsNearList (C.system calendar.now).list }
    ensures look { IsMonthLook (C.system calendar.now).list result }
    ensures joins { result.first ≡ end_of (look_stretch look.now) }
{
    let first = look.end();
    if is_valid(first) {
        return month_of(calendar, first);
    }
    let (year, place) = place_after(calendar, look);
    let days = days_of_month(calendar, year, place);
    look_at(calendar, year, place, first, days)
}

/// Returns the month before a month.
pub(crate) fn month_before<C: Calendar>(calendar: &C, look: &MonthLook) -> MonthLook
    requires look { IsMonthLook (C.system calendar.now).list look.now }
    requires near { IsNearDay look.now.first }
    requires nearby { IsNearList (C.system calendar.now).list }
    ensures look { IsMonthLook (C.system calendar.now).list result }
    ensures joins { end_of (look_stretch result) ≡ look.now.first }
{
    let last = look.first - 1;
    if is_valid(last) {
        return month_of(calendar, last);
    }
    let (year, place) = place_before(calendar, look);
    let days = days_of_month(calendar, year, place);
    look_at(calendar, year, place, look.first - i64::from(days), days)
}

/// Returns the month of a day behind the valid days.
fn month_behind<C: Calendar>(calendar: &C, day: i64) -> MonthLook
    requires day { IsNearDay day }
    requires behind { pos 365242134 <ℤ day }
    requires nearby { IsNearList (C.system calendar.now).list }
    ensures look { IsMonthLook (C.system calendar.now).list result }
    ensures within { InStretch (look_stretch result) day }
{
    let mut look = month_of(calendar, LAST_VALID_DAY);
    while look.end() <= day {
        look = month_after(calendar, &look);
    }
    look
}

/// Returns the month of a day ahead of the valid days.
fn month_ahead_of<C: Calendar>(calendar: &C, day: i64) -> MonthLook
    requires day { IsNearDay day }
    requires ahead { day <ℤ neg_ℤ (pos 365242499) }
    requires nearby { IsNearList (C.system calendar.now).list }
    ensures look { IsMonthLook (C.system calendar.now).list result }
    ensures within { InStretch (look_stretch result) day }
{
    let mut look = month_of(calendar, FIRST_VALID_DAY);
    while day < look.first {
        look = month_before(calendar, &look);
    }
    look
}

/// Returns the month of a day that is valid or near the valid days.
pub(crate) fn month_near<C: Calendar>(calendar: &C, day: i64) -> MonthLook
    requires day { IsNearDay day }
    requires nearby { IsNearList (C.system calendar.now).list }
    ensures look { IsMonthLook (C.system calendar.now).list result }
    ensures within { InStretch (look_stretch result) day }
{
    if day < FIRST_VALID_DAY {
        return month_ahead_of(calendar, day);
    }
    if day > LAST_VALID_DAY {
        return month_behind(calendar, day);
    }
    month_of(calendar, day)
}
