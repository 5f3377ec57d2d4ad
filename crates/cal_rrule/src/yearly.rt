//! The days that YEARLY keeps if the rule has no BYWEEKNO.

ghost use Rattle.std.specs.Prelude.{◌≡◌, ◌<◌, ◌*◌, IfSome, MatchOption};
ghost use Rattle.cal_days.specs.Day.{IsValidDay};
ghost use Rattle.cal_types.specs.CalendarList.{Date};
ghost use Rattle.cal_rule.specs.declared.frequency.Frequency.TheVariants.{Yearly};
ghost use Rattle.cal_rrule.specs.Asking.{IsAsked};
ghost use Rattle.cal_rrule.specs.Looks.{AreMissing, IsYearLook, look_year};
ghost use Rattle.cal_rrule.specs.NearDays.{IsNearList};
ghost use Rattle.cal_rrule.specs.Occurrences.{IsKept};
ghost use Rattle.cal_rrule.specs.Periods.{NoWeeks};
ghost use Rattle.cal_rrule.specs.Stretches.{InStretch};
ghost use Rattle.recurrence_sets.specs.Periods.{HaveEnded, Holds};

use crate::asked::Asked;
use crate::set_positions::keep_positions;
use crate::year_days::days_of_year;
use crate::year_look::YearLook;
use crate::year_steps::years_after;
use cal_base::Calendar;
use cal_days::RataDie;
use recurrence_sets::PeriodDays;

/// Returns how many years a period lies behind the start's.
pub(crate) fn years_between(period: u32, every: u32) -> u64
    ensures { result ≡ period * every }
{
    u64::from(period) * u64::from(every)
}

/// Returns the days that are kept of a period of YEARLY, or `None` if no period from it on has a valid day up to a last
/// one.
pub(crate) fn year_block<C: Calendar>(
    calendar: &C,
    asked: &Asked,
    year: &YearLook,
    period: u32,
    last: RataDie,
) -> Option<PeriodDays>
    requires missing { AreMissing asked.now.rule asked.now.missing }
    requires yearly { asked.now.rule.frequency ≡ Yearly }
    requires weeks { NoWeeks asked.now.rule }
    requires every { 0 < asked.now.rule.interval }
    requires year { IsYearLook (C.system calendar.now).list year.now }
    requires valid { IsValidDay asked.now.day }
    requires within { InStretch (look_year year.now) asked.now.day }
    requires last { IsValidDay last }
    requires nearby { IsNearList (C.system calendar.now).list }
    ensures days { let list = (C.system calendar.now).list in (t : Date) → IsAsked list t asked.now →
        MatchOption result (HaveEnded (IsKept list asked.now.rule t) period last)
        (Holds (IsKept list asked.now.rule t period)) }
    ensures few { IfSome result (λ _. period < 4294967295) }
{
    let years = years_between(period, asked.rule.interval());
    match years_after(calendar, year, years, last) {
        None => None,
        Some(found) => {
            let days = days_of_year(calendar, asked, &found);
            Some(keep_positions(asked, &days))
        }
    }
}
