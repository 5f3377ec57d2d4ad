//! The days that WEEKLY keeps, by weeks in a row.

ghost use Rattle.std.specs.Prelude.{◌≡◌, ◌↔◌, ◌<◌, ◌≤◌, ◌*◌, ◌-◌, IsTrue, IfSome, MatchOption, ℕ, ℤ};
ghost use Rattle.std.specs.Prelude.{neg_ℤ, pos, ◌+ℤ◌, ◌≤ℤ◌};
ghost use Rattle.cal_days.specs.Day.{IsBetween, IsValidDay};
ghost use Rattle.cal_types.specs.CalendarList.{CalendarList, Date};
ghost use Rattle.cal_rule.specs.declared.frequency.Frequency.TheVariants.{Weekly};
ghost use Rattle.cal_rrule.specs.Asking.{IsAsked};
ghost use Rattle.cal_rrule.specs.Blocks.{IsOfBlock, IsOfPeriodsFrom, start_of};
ghost use Rattle.cal_rrule.specs.Looks.{AreMissing};
ghost use Rattle.cal_rrule.specs.Masks.{InRow};
ghost use Rattle.cal_rrule.specs.NearDays.{IsNearDay, IsNearList};
ghost use Rattle.cal_rrule.specs.PeriodSets.{IsKeptSet};
ghost use Rattle.cal_rrule.specs.Weekly.{ArePeriodWeeks, IsPeriodWeek, block_start};
ghost use Rattle.cal_rrule.specs.Weeks.{IsWeekOf};
ghost use Rattle.recurrence_sets.specs.PeriodBits.{has_day};
ghost use Rattle.recurrence_sets.specs.Periods.{HaveEnded, Holds};

use crate::asked::Asked;
use crate::set_positions::keep_positions;
use crate::weekly_days::weekly_days;
use crate::weekly_starts::{days_to_week, periods_of_block, start_of_block, weeks_of_block};
use cal_base::Calendar;
use cal_days::RataDie;
use recurrence_sets::PeriodDays;

/// Returns the days of a set that are kept of the week that begins on a day.
fn kept_in_week(asked: &Asked, days: &PeriodDays, week: i64) -> PeriodDays
    requires missing { AreMissing asked.now.rule asked.now.missing }
    requires from { days.now.first ≤ℤ week }
    requires to { (week +ℤ pos 7) ≤ℤ (days.now.first +ℤ pos 448) }
    requires near { IsBetween (neg_ℤ (pos 1000000000)) (pos 1000000000) week }
    ensures first { result.first ≡ days.now.first }
    ensures kept { (c : CalendarList) (t : Date) (k : ℕ) →
        IsPeriodWeek c asked.now.rule t k days.now week → IsKeptSet c asked.now.rule t k result }
{
    let mut in_week = *days;
    in_week.keep_days(RataDie::new(week), RataDie::new(week + 7));
    keep_positions(asked, &in_week)
}

/// Returns the days of a set that are kept of so many weeks, which begin INTERVAL weeks apart on the set's first day.
fn kept_in_weeks(asked: &Asked, days: &PeriodDays, count: u32) -> PeriodDays
    requires missing { AreMissing asked.now.rule asked.now.missing }
    requires few { (count - 1) * asked.now.rule.interval ≤ 62 }
    requires near { IsNearDay days.now.first }
    ensures first { result.first ≡ days.now.first }
    ensures kept { (c : CalendarList) (t : Date) (base : ℕ) → ArePeriodWeeks c asked.now.rule t base days.now count →
        (n : ℤ) → InRow result n → IsTrue (has_day result n) ↔ IsOfPeriodsFrom c asked.now.rule t base count n }
{
    let first = days.first.to_i64_date();
    let interval = asked.rule.interval();
    let mut kept = PeriodDays::new(days.first);
    for place in 0..count {
        let in_week = kept_in_week(asked, days, first + days_to_week(interval, place));
        kept.insert_all(&in_week);
    }
    kept
}

/// Returns the days that are kept of the periods of a block that begins on a day.
fn kept_in_block<C: Calendar>(calendar: &C, asked: &Asked, from: i64) -> PeriodDays
    requires is_asked { IsAsked (C.system calendar.now).list (start_of asked.now) asked.now }
    requires weekly { asked.now.rule.frequency ≡ Weekly }
    requires low { neg_ℤ (pos 365250000) ≤ℤ from }
    requires high { from ≤ℤ pos 365250000 }
    requires nearby { IsNearList (C.system calendar.now).list }
    ensures { (w : ℤ) (block : ℕ) → IsWeekOf asked.now.rule.week_start asked.now.day w →
        from ≡ block_start w asked.now.rule.interval block → (n : ℤ) → IsTrue (has_day result n)
        ↔ IsOfBlock (C.system calendar.now).list asked.now.rule (start_of asked.now) block n }
{
    let interval = asked.rule.interval();
    let count = periods_of_block(interval);
    let days = weekly_days(calendar, asked, from, weeks_of_block(interval, count));
    let mut kept = kept_in_weeks(asked, &days, count);
    kept.keep_days(days.first, RataDie::new(from + 448));
    kept
}

/// Returns the days that are kept of the periods of a block, under WEEKLY, or `None` if no block from this one on has a
/// day up to a last one.
pub(crate) fn weekly_block<C: Calendar>(
    calendar: &C,
    asked: &Asked,
    block: u32,
    last: RataDie,
) -> Option<PeriodDays>
    requires is_asked { IsAsked (C.system calendar.now).list (start_of asked.now) asked.now }
    requires weekly { asked.now.rule.frequency ≡ Weekly }
    requires last { IsValidDay last }
    requires nearby { IsNearList (C.system calendar.now).list }
    ensures days { let Has = IsOfBlock (C.system calendar.now).list asked.now.rule (start_of asked.now) in
        MatchOption result (HaveEnded Has block last) (Holds (Has block)) }
    ensures few { IfSome result (λ _. block < 4294967295) }
{
    match start_of_block(asked, block, last) {
        None => None,
        Some(from) => Some(kept_in_block(calendar, asked, from)),
    }
}
