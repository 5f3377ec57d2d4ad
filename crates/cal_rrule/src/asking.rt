//! What a rule and its start say.

ghost use Rattle.std.specs.Prelude.{◌≡◌, ◌↔◌, IsTrue, pos, ◌+ℤ◌, ◌-ℤ◌};
ghost use Rattle.cal_days.specs.Day.{IsValidDay};
ghost use Rattle.cal_types.specs.CalendarList.{CalendarList, Date, IsOn};
ghost use Rattle.cal_types.specs.MonthParts.{month_parts};
ghost use Rattle.cal_rule.specs.declared.frequency.Frequency.TheVariants.{Yearly};
ghost use Rattle.cal_rrule.specs.Asking.{IsAsked};
ghost use Rattle.cal_rrule.specs.Looks.{AreMissing, CountsInYears, IsMonthLook, look_stretch};
ghost use Rattle.cal_rrule.specs.Periods.{NoDays, SaysMonth};
ghost use Rattle.cal_rrule.specs.Stretches.{InStretch};

use crate::asked::Asked;
use crate::missing::Missing;
use crate::month_look::MonthLook;
use cal_rule::{Frequency, RecurrenceRule};
use cal_types::Month;

/// Returns which parts a rule lacks.
pub(crate) fn missing_of(rule: &RecurrenceRule) -> Missing
    ensures { AreMissing rule.now result }
{
    Missing {
        months: rule.months().is_empty(),
        month_days: rule.month_days().is_empty(),
        year_days: rule.year_days().is_empty(),
        weeks: rule.weeks().is_empty(),
        weekdays: rule.weekdays().is_empty(),
        positions: rule.positions().is_empty(),
    }
}

impl Missing {
    /// Returns whether no part names days of a year.
    pub(crate) fn days(&self) -> bool
        ensures { (rule : RecurrenceRule) → AreMissing rule self.now → IsTrue result ↔ NoDays rule }
    {
        (self.weeks & self.year_days) & (self.month_days & self.weekdays)
    }
}

/// Returns the day of the month of a day in it.
fn day_of_month(day: i64, month: &MonthLook) -> u8
    requires { InStretch (look_stretch month.now) day }
    ensures { pos result ≡ day -ℤ month.now.first +ℤ pos 1 }
{
    (day - month.first + 1) as u8
}

/// Returns whether two months are the same.
pub(crate) fn is_same_month(month: Month, other: Month) -> bool
    ensures { IsTrue result ↔ (month_parts month ≡ month_parts other) }
{
    month == other
}

/// Returns whether a frequency is yearly.
fn is_yearly(frequency: Frequency) -> bool
    ensures { IsTrue result ↔ (frequency ≡ Yearly) }
{
    match frequency {
        Frequency::Yearly => true,
        Frequency::Monthly => false,
        Frequency::Weekly => false,
        Frequency::Daily => false,
    }
}

impl Asked {
    /// Creates it from a rule, its first day and that day's month.
    pub(crate) fn new(rule: RecurrenceRule, day: i64, month: MonthLook) -> Asked
        requires valid { IsValidDay day }
        requires within { InStretch (look_stretch month) day }
        ensures rule { result.rule ≡ rule }
        ensures day { result.day ≡ day }
        ensures asked { (c : CalendarList) (t : Date) → IsMonthLook c month → IsOn c day t → IsAsked c t result }
    {
        Asked {
            rule,
            missing: missing_of(&rule),
            day,
            day_of_month: day_of_month(day, &month),
            month,
        }
    }

    /// Returns whether a month is one of BYMONTH, or the start's month if no part names a month or a day.
    pub(crate) fn says_month(&self, month: Month) -> bool
        ensures { (c : CalendarList) (t : Date) → IsAsked c t self.now →
            IsTrue result ↔ SaysMonth c self.now.rule t (month_parts month) }
    {
        let is_start = is_same_month(month, self.month.month);
        let is_named = self.rule.months().contains(month);
        is_named | ((self.missing.days() & self.missing.months) & is_start)
    }

    /// Returns whether weekdays are counted in the year, and not in the month.
    pub(crate) fn counts_in_year(&self) -> bool
        requires { AreMissing self.now.rule self.now.missing }
        ensures { IsTrue result ↔ CountsInYears self.now.rule }
    {
        is_yearly(self.rule.frequency()) & self.missing.months
    }
}
