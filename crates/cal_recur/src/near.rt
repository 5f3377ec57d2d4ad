//! An index near the first occurrence on or after a day.

ghost use Rattle.std.specs.Prelude.{◌≡◌, ◌<◌, ◌+ℤ◌, ℕ, ℤ, pos, IsTrue, Some, ◌<ℤ◌, ◌≤ℤ◌};
ghost use Rattle.cal_days.specs.Day.{IsValidDay};
ghost use Rattle.cal_types.specs.declared.duration.DateDurationUnit.TheVariants.{Years, Months};
ghost use Rattle.cal_recur.specs.FirstIndex.{AreBefore, constrained};
ghost use Rattle.cal_recur.specs.Near.{IsNear};

use crate::rule::Rule;
use cal_base::Calendar;
use cal_days::RataDie;
use cal_types::{DateDifferenceOptions, DateDurationUnit};

/// Returns an index near the first occurrence on or after a day. Occurrences with a smaller index are before the day,
/// and occurrences with a greater index are after it.
pub(crate) fn index_near<C: Calendar>(
    calendar: &C,
    start: &C::DateInner,
    rule: Rule,
    day: RataDie,
) -> u32
    requires belongs { IsTrue (C.belongs calendar.now start.now) }
    requires valid { IsValidDay day }
    ensures before { AreBefore (C.system calendar.now) (C.date_of calendar.now start.now) rule day result }
    ensures after { (k : ℕ) → result < k → (n : ℤ) →
        constrained (C.system calendar.now) (C.date_of calendar.now start.now) rule k ≡ Some n → day <ℤ n }
{
    units_near(calendar, start, rule.unit(), day).div_ceil(rule.every())
}

/// Returns a number of units that leads near a day: a smaller number leads before it, and a greater number after it.
/// Weeks and days are counted from the start's day number, so they don't need the date of the day.
fn units_near<C: Calendar>(
    calendar: &C,
    start: &C::DateInner,
    unit: DateDurationUnit,
    day: RataDie,
) -> u32
    requires belongs { IsTrue (C.belongs calendar.now start.now) }
    requires valid { IsValidDay day }
    ensures { IsNear (C.system calendar.now) (C.date_of calendar.now start.now) unit day result }
{
    match unit {
        DateDurationUnit::Years => years_near(calendar, start, day),
        DateDurationUnit::Months => months_near(calendar, start, day),
        DateDurationUnit::Weeks => days_ahead(calendar.to_rata_die(start), day).div_ceil(7),
        DateDurationUnit::Days => days_ahead(calendar.to_rata_die(start), day),
    }
}

/// Returns a number of years that leads near a day: the day's year minus the start's, or 0 if that is negative. It
/// leads into the day's year, possibly to an earlier day.
fn years_near<C: Calendar>(calendar: &C, start: &C::DateInner, day: RataDie) -> u32
    requires belongs { IsTrue (C.belongs calendar.now start.now) }
    requires valid { IsValidDay day }
    ensures { IsNear (C.system calendar.now) (C.date_of calendar.now start.now) Years day result }
{
    let target = calendar.from_rata_die(day);
    let first = calendar.extended_year(start);
    let last = calendar.extended_year(&target);
    if last < first {
        return 0;
    }
    (last - first) as u32
}

/// Returns a number of months that leads near a day: the months of the difference from the start to the day. If the
/// difference has days, one more, since its months alone lead before the day.
fn months_near<C: Calendar>(calendar: &C, start: &C::DateInner, day: RataDie) -> u32
    requires belongs { IsTrue (C.belongs calendar.now start.now) }
    requires valid { IsValidDay day }
    ensures { IsNear (C.system calendar.now) (C.date_of calendar.now start.now) Months day result }
{
    let target = calendar.from_rata_die(day);
    let options = DateDifferenceOptions {
        largest_unit: Some(DateDurationUnit::Months),
    };
    let difference = calendar.until(start, &target, options);
    if difference.is_negative {
        return 0;
    }
    if difference.days == 0 {
        return difference.months;
    }
    difference.months + 1
}

/// Returns the number of days from a start to a day, or 0 if the day isn't after the start.
fn days_ahead(start: RataDie, day: RataDie) -> u32
    requires from { IsValidDay start }
    requires to { IsValidDay day }
    ensures reached { day ≤ℤ (start +ℤ pos result) }
    ensures exact { 0 < result → day ≡ start +ℤ pos result }
{
    if day < start {
        return 0;
    }
    day.since(start) as u32
}
