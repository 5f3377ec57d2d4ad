//! Weekdays of months.

ghost use Rattle.std.specs.Prelude.{◌≡◌, ◌+ℤ◌, ◌-ℤ◌, ◌*ℤ◌, pos, true};
ghost use Rattle.cal_days.specs.Day.{IsBetween, IsFieldYear, IsNear};
ghost use Rattle.cal_days.specs.Division.{floor_mod};
ghost use Rattle.cal_types.specs.MonthParts.{month_parts};
ghost use Rattle.cal_holidays.specs.MonthDays.{IsNthNumber, IsOnly};
ghost use Rattle.cal_holidays.specs.NamedDays.{IsInYear, IsNthWeekday};
ghost use Rattle.cal_holidays.specs.OwnDays.{IsValidOne};

use crate::months::month_in;
use crate::weekdays::{on_or_after, on_or_before, since_sunday};
use cal_base::Calendar;
use cal_days::RataDie;
use cal_types::{Month, Weekday};

/// A weekday of a month.
#[derive(Clone, Copy)]
pub(crate) struct NthWeekday {
    /// The month.
    pub(crate) month: Month,
    /// The number of the weekday in the month: 1 to 5, or -1 for the last.
    pub(crate) nth: i8,
    /// The weekday.
    pub(crate) weekday: Weekday,
}

/// Returns the day in a year that is the weekday of the month, if there is a valid one.
pub(crate) fn nth_day<C: Calendar>(calendar: &C, asked: NthWeekday, year: i32) -> Option<RataDie>
    requires nth { IsNthNumber asked.nth }
    requires month { (C.system calendar.now).list.is_of_kind (month_parts asked.month) ≡ true }
    requires year { IsFieldYear year }
    ensures { let list = (C.system calendar.now).list in
        IsValidOne (λ n. IsNthWeekday list (month_parts asked.month) asked.nth asked.weekday n × IsInYear list year n)
        result }
{
    let days = month_in(calendar, asked.month, year)?;
    let day = nth_in(asked.nth, asked.weekday, days.before, days.length);
    days.valid_day(day)
}

/// Returns the number of the day that is the nth of the weekday in a month. It lies past the month if there is none.
fn nth_in(nth: i8, weekday: Weekday, before: i64, length: u8) -> i64
    requires nth { IsNthNumber nth }
    requires near { IsNear before }
    ensures { IsOnly nth weekday before length result }
{
    let sunday = since_sunday(weekday);
    if nth < 0 {
        last_in(sunday, before, length)
    } else {
        kth_in(sunday, before, nth)
    }
}

/// Returns the last day of a month that lies `sunday` days after a Sunday.
fn last_in(sunday: i64, before: i64, length: u8) -> i64
    requires sunday { IsBetween (pos 0) (pos 6) sunday }
    requires near { IsNear before }
    ensures { let last = before +ℤ pos length in result ≡ last -ℤ pos (floor_mod (last -ℤ sunday) 7) }
{
    on_or_before(sunday, before + i64::from(length))
}

/// Returns the nth day of a month that lies `sunday` days after a Sunday.
fn kth_in(sunday: i64, before: i64, nth: i8) -> i64
    requires sunday { IsBetween (pos 0) (pos 6) sunday }
    requires near { IsNear before }
    requires nth { IsBetween (pos 1) (pos 5) nth }
    ensures { let first = before +ℤ pos 1 in
        result ≡ first +ℤ pos (floor_mod (sunday -ℤ first) 7) +ℤ pos 7 *ℤ (nth -ℤ pos 1) }
{
    on_or_after(sunday, before + 1) + 7 * (i64::from(nth) - 1)
}
