//! The month so many months after a month.

ghost use Rattle.std.specs.Prelude.{◌≤◌, IfSome, neg_ℤ, pos};
ghost use Rattle.cal_days.specs.Day.{IsBetween, IsValidDay};
ghost use Rattle.cal_rrule.specs.Looks.{IsMonthFound, IsMonthHeld, IsMonthLook, IsMonthReached, look_stretch};
ghost use Rattle.cal_rrule.specs.NearDays.{IsNearDay, IsNearList};
ghost use Rattle.cal_rrule.specs.Stretches.{InStretch};

use crate::looks::{is_valid, month_of};
use crate::month_look::MonthLook;
use crate::near_months::month_after;
use cal_base::Calendar;
use cal_days::RataDie;
use cal_types::{DateAddOptions, DateDuration, Overflow};

/// Returns the month so many months after a month whose first day is valid, if its first day is valid, too.
pub(crate) fn months_after<C: Calendar>(
    calendar: &C,
    look: &MonthLook,
    months: u32,
) -> Option<MonthLook>
    requires look { IsMonthLook (C.system calendar.now).list look.now }
    requires valid { IsValidDay look.now.first }
    requires few { months ≤ 27040000 }
    ensures found { IsMonthFound (C.system calendar.now).list look.now months result }
    ensures valid { IfSome result (λ m. IsValidDay m.first) }
{
    let date = calendar.from_rata_die(RataDie::new(look.first));
    let duration = DateDuration {
        is_negative: false,
        years: 0,
        months,
        weeks: 0,
        days: 0,
    };
    let options = DateAddOptions {
        overflow: Some(Overflow::Constrain),
    };
    match calendar.add(&date, duration, options) {
        Ok(later) => Some(month_of(calendar, calendar.to_rata_die(&later).to_i64_date())),
        Err(_) => None,
    }
}

/// Returns the month so many months after a month with a valid day, or `None` if neither that month nor a later one has
/// a valid day.
pub(crate) fn month_ahead<C: Calendar>(
    calendar: &C,
    look: &MonthLook,
    day: RataDie,
    months: u32,
) -> Option<MonthLook>
    requires look { IsMonthLook (C.system calendar.now).list look.now }
    requires valid { IsValidDay day }
    requires within { InStretch (look_stretch look.now) day }
    requires few { months ≤ 27040000 }
    ensures held { IsMonthHeld (C.system calendar.now).list look.now months result }
    ensures first { IfSome result (λ m. IsBetween (neg_ℤ (pos 365242600)) (pos 365242134) m.first) }
{
    if months == 0 {
        return Some(*look);
    }
    let behind = look.end();
    if !is_valid(behind) {
        return None;
    }
    let next = month_of(calendar, behind);
    months_after(calendar, &next, months - 1)
}

/// Returns the month so many months after a month with a valid day, or `None` if that month has no valid day, and the
/// day before it isn't valid, either.
pub(crate) fn month_numbered<C: Calendar>(
    calendar: &C,
    look: &MonthLook,
    day: RataDie,
    months: u64,
) -> Option<MonthLook>
    requires look { IsMonthLook (C.system calendar.now).list look.now }
    requires valid { IsValidDay day }
    requires within { InStretch (look_stretch look.now) day }
    requires nearby { IsNearList (C.system calendar.now).list }
    ensures reached { IsMonthReached (C.system calendar.now).list look.now months result }
    ensures near { IfSome result (λ m. IsNearDay m.first) }
    ensures few { IfSome result (λ _. months ≤ 27040001) }
{
    if months == 0 {
        return Some(*look);
    }
    if months > 27040001 {
        return None;
    }
    let rest = months as u32 - 1;
    match month_ahead(calendar, look, day, rest) {
        None => None,
        Some(before) => Some(month_after(calendar, &before)),
    }
}
