//! The days that a month names, as bits.

ghost use Rattle.std.specs.Prelude.{◌≡◌, ◌↔◌, ◌-ℤ◌, ◌+ℤ◌, IsTrue, pos};
ghost use Rattle.cal_types.specs.CalendarList.{CalendarList};
ghost use Rattle.cal_types.specs.MonthParts.{month_parts};
ghost use Rattle.cal_rrule.specs.Looks.{AreMissing, CountsInMonths, IsMonthLook, IsKeptOfMonth, IsNamedOfMonth};
ghost use Rattle.cal_rrule.specs.Looks.{KeepsMonth, look_stretch};
ghost use Rattle.cal_rrule.specs.Masks.{Adds, IsWeekdayIn, Marks};
ghost use Rattle.cal_rrule.specs.Periods.{IsOfWeekdays};
ghost use Rattle.cal_rrule.specs.Stretches.{end_of};

use crate::asked::Asked;
use crate::month_look::MonthLook;
use crate::named_masks::{add_month_days, add_named};
use crate::weekday_masks::add_weekdays;
use cal_days::RataDie;
use cal_rule::Place;
use recurrence_sets::PeriodDays;

/// Returns whether BYMONTH keeps a month.
pub(crate) fn keeps_month(asked: &Asked, look: &MonthLook) -> bool
    requires { AreMissing asked.now.rule asked.now.missing }
    ensures { IsTrue result ↔ KeepsMonth asked.now.rule (month_parts look.now.month) }
{
    asked.missing.months | asked.rule.months().contains(look.month)
}

/// Adds the days that the rule names in a month, whatever their weekdays are.
fn add_days(days: &mut PeriodDays, asked: &Asked, look: &MonthLook)
    requires { AreMissing asked.now.rule asked.now.missing }
    ensures { Adds days.old days.new
        (IsNamedOfMonth asked.now.rule asked.now.day_of_month (look_stretch look.now)) }
{
    let skip = asked.rule.skip();
    let length = u16::from(look.days);
    let first = RataDie::new(look.first);
    if !asked.missing.month_days {
        add_month_days(days, skip, first, length, asked.rule.month_days());
    } else if !asked.missing.weekdays {
        days.insert_days(first, RataDie::new(look.end()));
    } else {
        add_named(
            days,
            skip,
            first,
            length,
            Place::FromFront(u16::from(asked.day_of_month)),
        );
    }
}

/// Adds the days of a month that BYDAY has, by their place in the month.
pub(crate) fn add_weekdays_of_month(days: &mut PeriodDays, asked: &Asked, look: &MonthLook)
    ensures { Adds days.old days.new (IsWeekdayIn asked.now.rule.weekdays (look_stretch look.now)) }
{
    add_weekdays(
        days,
        asked.rule.weekdays(),
        RataDie::new(look.first),
        u16::from(look.days),
    );
}

/// Returns the days of a month on which BYDAY holds, if weekdays are counted in the month.
pub(crate) fn weekdays_of_month(asked: &Asked, look: &MonthLook) -> PeriodDays
    ensures first { result.first ≡ look.now.first }
    ensures days { (c : CalendarList) → IsMonthLook c look.now → CountsInMonths asked.now.rule →
        Marks result look.now.first (end_of (look_stretch look.now)) (IsOfWeekdays c asked.now.rule) }
{
    let mut days = PeriodDays::new(RataDie::new(look.first));
    add_weekdays_of_month(&mut days, asked, look);
    days
}

/// Returns the days that a month names and BYMONTH keeps, whatever their weekdays are.
pub(crate) fn kept_of_month(asked: &Asked, look: &MonthLook) -> PeriodDays
    requires { AreMissing asked.now.rule asked.now.missing }
    ensures { let s = look_stretch look.now in
        Marks result (s.first -ℤ pos 1) (end_of s +ℤ pos 1)
        (IsKeptOfMonth asked.now.rule (month_parts look.now.month) asked.now.day_of_month s) }
{
    let mut days = PeriodDays::new(RataDie::new(look.first - 1));
    if !keeps_month(asked, look) {
        return days;
    }
    add_days(&mut days, asked, look);
    days
}
