//! The periods of a rule, in blocks.

ghost use Rattle.std.specs.Prelude.{◌≡◌};
ghost use Rattle.cal_days.specs.Day.{IsValidDay};
ghost use Rattle.cal_types.specs.CalendarList.{Date, IsOn};
ghost use Rattle.cal_rrule.specs.Asking.{IsAsked};
ghost use Rattle.cal_rrule.specs.Blocks.{AreApart, start_of};
ghost use Rattle.cal_rrule.specs.NearDays.{IsNearList};

use crate::asked::Asked;
use crate::block_days::block_days;
use crate::looks::month_of;
use cal_base::Calendar;
use cal_days::RataDie;
use cal_rule::RecurrenceRule;
use recurrence_sets::{PeriodDays, Periods};

/// The periods of a rule that starts on a day, in blocks: a year, a month, some weeks in a row, or under DAILY the days
/// of a month.
#[derive(Drop)]
pub struct RulePeriods<C: Calendar> {
    calendar: C,
    asked: Asked,
    ghost is_asked: { IsAsked (C.system calendar).list (start_of asked) asked },
    ghost nearby: { IsNearList (C.system calendar).list },
    ghost are_apart: { AreApart (C.system calendar).list asked.rule (start_of asked) },
}

impl<C: Calendar> RulePeriods<C> {
    /// Creates the periods of a rule that starts on a day.
    pub(crate) fn new(calendar: C, rule: RecurrenceRule, day: RataDie) -> RulePeriods<C>
        requires valid { IsValidDay day }
        requires nearby { IsNearList (C.system calendar).list }
        ensures calendar { result.calendar ≡ calendar }
        ensures rule { result.asked.rule ≡ rule }
        ensures start { (t : Date) → IsOn (C.system calendar).list day t → start_of result.asked ≡ t }
    {
        let day = day.to_i64_date();
        let month = month_of(&calendar, day);
        let asked = Asked::new(rule, day, month);
        RulePeriods { calendar, asked }
    }
}

impl<C: Calendar> Periods for RulePeriods<C> {
    ghost use Rattle.cal_rrule.specs.Blocks.{IsOfBlock};

    ghost has = { λ s. IsOfBlock (C.system s.calendar).list s.asked.rule (start_of s.asked) };

    ghost apart = { λ s. s.are_apart };

    fn days(&self, period: u32, last: RataDie) -> Option<PeriodDays> {
        block_days(&self.calendar, &self.asked, period, last)
    }
}
