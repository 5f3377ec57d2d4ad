//! The days of a month that a rule names in a year, and the days of a year on which BYDAY holds.

ghost use Rattle.std.specs.Prelude.{◌≡◌};
ghost use Rattle.cal_types.specs.CalendarList.{CalendarList};
ghost use Rattle.cal_rrule.specs.Looks.{AreMissing, CountsInYears, IsNamedInYearMonth, IsYearLook, look_stretch};
ghost use Rattle.cal_rrule.specs.Looks.{look_year};
ghost use Rattle.cal_rrule.specs.Masks.{Adds, IsWeekdayIn, Marks};
ghost use Rattle.cal_rrule.specs.Periods.{IsOfWeekdays};
ghost use Rattle.cal_rrule.specs.Stretches.{end_of};

use crate::asked::Asked;
use crate::month_look::MonthLook;
use crate::named_masks::{add_month_days, add_named};
use crate::weekday_masks::add_weekdays;
use crate::year_look::YearLook;
use cal_days::RataDie;
use cal_rule::Place;
use recurrence_sets::PeriodDays;

/// Adds the days that the rule names in a month.
pub(crate) fn add_days_of_month(days: &mut PeriodDays, asked: &Asked, look: &MonthLook)
    requires { AreMissing asked.now.rule asked.now.missing }
    ensures { Adds days.old days.new
        (IsNamedInYearMonth asked.now.rule asked.now.day_of_month (look_stretch look.now)) }
{
    let skip = asked.rule.skip();
    let length = u16::from(look.days);
    let first = RataDie::new(look.first);
    if !asked.missing.month_days {
        add_month_days(days, skip, first, length, asked.rule.month_days());
    } else if asked.missing.days() {
        add_named(
            days,
            skip,
            first,
            length,
            Place::FromFront(u16::from(asked.day_of_month)),
        );
    } else {
        days.insert_days(first, RataDie::new(look.end()));
    }
}

/// Adds the days of a year that BYDAY has, by their place in the year.
pub(crate) fn add_weekdays_of_year(days: &mut PeriodDays, asked: &Asked, look: &YearLook)
    ensures { Adds days.old days.new (IsWeekdayIn asked.now.rule.weekdays (look_year look.now)) }
{
    add_weekdays(
        days,
        asked.rule.weekdays(),
        RataDie::new(look.first),
        look.days,
    );
}

/// Returns the days of a year on which BYDAY holds, if weekdays are counted in the year.
pub(crate) fn weekdays_of_year(asked: &Asked, look: &YearLook) -> PeriodDays
    ensures first { result.first ≡ look.now.first }
    ensures days { (c : CalendarList) → IsYearLook c look.now → CountsInYears asked.now.rule →
        Marks result look.now.first (end_of (look_year look.now)) (IsOfWeekdays c asked.now.rule) }
{
    let mut days = PeriodDays::new(RataDie::new(look.first));
    add_weekdays_of_year(&mut days, asked, look);
    days
}
