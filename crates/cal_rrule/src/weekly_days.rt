//! The days that WEEKLY names in weeks in a row, as bits.

ghost use Rattle.std.specs.Prelude.{◌≡◌, ◌≤◌, ◌*◌, neg_ℤ, pos, ◌+ℤ◌, ◌≤ℤ◌};
ghost use Rattle.cal_days.specs.Day.{IsValidDay};
ghost use Rattle.cal_days.specs.Division.{floor_mod};
ghost use Rattle.cal_types.specs.CalendarList.{CalendarList, IsLawful};
ghost use Rattle.cal_rule.specs.declared.frequency.Frequency.TheVariants.{Weekly};
ghost use Rattle.cal_rrule.specs.Looks.{AreMissing};
ghost use Rattle.cal_rrule.specs.Masks.{Marks};
ghost use Rattle.cal_rrule.specs.NearDays.{IsNearDay, IsNearList};
ghost use Rattle.cal_rrule.specs.Periods.{IsOfWeekdays};
ghost use Rattle.cal_rrule.specs.Weekly.{IsPlain, IsWeeklyDay, IsWeeklyWeekday};

use crate::asked::Asked;
use crate::span::Span;
use crate::span_masks::{days_of_weekdays, keep_months};
use crate::weekday_masks::{add_weekdays, add_weekly};
use cal_base::Calendar;
use cal_days::RataDie;
use recurrence_sets::PeriodDays;

/// Returns how many days the first day with the weekday of another one lies behind a day.
fn days_to_weekday(from: i64, day: i64) -> i64
    requires from { IsNearDay from }
    requires day { IsNearDay day }
    ensures same { floor_mod (from +ℤ result) 7 ≡ floor_mod day 7 }
    ensures few { (pos 0 ≤ℤ result) × (result ≤ℤ pos 6) }
{
    (day - from).rem_euclid(7)
}

/// Returns the days with the start's weekday in so many weeks.
pub(crate) fn same_weekdays(asked: &Asked, from: i64, weeks: u16) -> PeriodDays
    requires valid { IsValidDay asked.now.day }
    requires near { IsNearDay from }
    requires few { weeks ≤ 63 }
    ensures { Marks result from (from +ℤ pos (7 * weeks)) (λ n. floor_mod n 7 ≡ floor_mod asked.now.day 7) }
{
    let first = from + days_to_weekday(from, asked.day);
    let mut days = PeriodDays::new(RataDie::new(from));
    add_weekly(&mut days, RataDie::new(first), weeks);
    days
}

/// Returns the days of BYDAY in so many weeks, if no weekday has an ordinal.
fn plain_weekdays(asked: &Asked, from: i64, weeks: u16) -> PeriodDays
    requires near { IsNearDay from }
    requires few { weeks ≤ 63 }
    requires weekly { asked.now.rule.frequency ≡ Weekly }
    requires plain { IsPlain asked.now.rule.weekdays }
    ensures { (c : CalendarList) → IsLawful c →
        Marks result from (from +ℤ pos (7 * weeks)) (IsOfWeekdays c asked.now.rule) }
{
    let mut days = PeriodDays::new(RataDie::new(from));
    add_weekdays(
        &mut days,
        asked.rule.weekdays(),
        RataDie::new(from),
        7 * weeks,
    );
    days
}

/// Returns the span of so many weeks.
pub(crate) fn span_of_weeks(from: i64, weeks: u16) -> Span
    requires low { neg_ℤ (pos 365250000) ≤ℤ from }
    requires high { from ≤ℤ pos 365250000 }
    requires few { weeks ≤ 63 }
    ensures { (result.from ≡ from) × (result.to ≡ from +ℤ pos (7 * weeks)) }
{
    Span {
        from,
        to: from + 7 * i64::from(weeks),
    }
}

/// Returns the days of BYDAY in so many weeks. No month is looked at if no weekday has an ordinal.
fn rule_weekdays<C: Calendar>(calendar: &C, asked: &Asked, from: i64, weeks: u16) -> PeriodDays
    requires missing { AreMissing asked.now.rule asked.now.missing }
    requires low { neg_ℤ (pos 365250000) ≤ℤ from }
    requires high { from ≤ℤ pos 365250000 }
    requires few { weeks ≤ 63 }
    requires weekly { asked.now.rule.frequency ≡ Weekly }
    requires nearby { IsNearList (C.system calendar.now).list }
    ensures { Marks result from (from +ℤ pos (7 * weeks))
        (IsOfWeekdays (C.system calendar.now).list asked.now.rule) }
{
    if asked.rule.weekdays().is_plain() {
        return plain_weekdays(asked, from, weeks);
    }
    days_of_weekdays(calendar, asked, &span_of_weeks(from, weeks))
}

/// Returns the days of BYDAY in so many weeks, or those with the start's weekday if the rule has no
/// BYDAY.
fn weekdays_of_weeks<C: Calendar>(calendar: &C, asked: &Asked, from: i64, weeks: u16) -> PeriodDays
    requires missing { AreMissing asked.now.rule asked.now.missing }
    requires valid { IsValidDay asked.now.day }
    requires low { neg_ℤ (pos 365250000) ≤ℤ from }
    requires high { from ≤ℤ pos 365250000 }
    requires few { weeks ≤ 63 }
    requires weekly { asked.now.rule.frequency ≡ Weekly }
    requires nearby { IsNearList (C.system calendar.now).list }
    ensures { Marks result from (from +ℤ pos (7 * weeks))
        (IsWeeklyWeekday (C.system calendar.now).list asked.now.rule asked.now.day) }
{
    if asked.missing.weekdays {
        return same_weekdays(asked, from, weeks);
    }
    rule_weekdays(calendar, asked, from, weeks)
}

/// Returns the days that WEEKLY names in so many weeks.
pub(crate) fn weekly_days<C: Calendar>(
    calendar: &C,
    asked: &Asked,
    from: i64,
    weeks: u16,
) -> PeriodDays
    requires missing { AreMissing asked.now.rule asked.now.missing }
    requires valid { IsValidDay asked.now.day }
    requires low { neg_ℤ (pos 365250000) ≤ℤ from }
    requires high { from ≤ℤ pos 365250000 }
    requires few { weeks ≤ 63 }
    requires weekly { asked.now.rule.frequency ≡ Weekly }
    requires nearby { IsNearList (C.system calendar.now).list }
    ensures { Marks result from (from +ℤ pos (7 * weeks))
        (IsWeeklyDay (C.system calendar.now).list asked.now.rule asked.now.day) }
{
    let mut days = weekdays_of_weeks(calendar, asked, from, weeks);
    keep_months(&mut days, calendar, asked, &span_of_weeks(from, weeks));
    days
}
