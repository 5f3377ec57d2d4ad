//! The days of MONTHLY's periods.

ghost use Rattle.std.specs.Prelude.{◌≡◌, ◌↔◌, ◌*◌, ◌<◌, ◌-ℤ◌, ◌+ℤ◌, IfSome, IsTrue, MatchOption, int_lt, ℕ, ℤ, pos};
ghost use Rattle.cal_days.specs.Day.{IsValidDay};
ghost use Rattle.cal_types.specs.CalendarList.{Date, IsMonthsAfter};
ghost use Rattle.cal_rule.specs.declared.frequency.Frequency.TheVariants.{Monthly};
ghost use Rattle.cal_rrule.specs.Asking.{IsAsked};
ghost use Rattle.cal_rrule.specs.Looks.{AreMissing, CountsInMonths, IsMonthLook, Reaches, look_stretch};
ghost use Rattle.cal_rrule.specs.Masks.{Marks};
ghost use Rattle.cal_rrule.specs.NearDays.{IsNearDay, IsNearList};
ghost use Rattle.cal_rrule.specs.Occurrences.{IsKept};
ghost use Rattle.cal_rrule.specs.PeriodSets.{IsKeptSet, IsPeriodSet};
ghost use Rattle.cal_rrule.specs.Periods.{IsNamedInMonth, IsOfWeekdays};
ghost use Rattle.cal_rrule.specs.Stretches.{InStretch, end_of};
ghost use Rattle.recurrence_sets.specs.PeriodBits.{has_day};
ghost use Rattle.recurrence_sets.specs.Periods.{HaveEnded, Holds};

use crate::asked::Asked;
use crate::month_days::{add_weekdays_of_month, kept_of_month};
use crate::month_look::MonthLook;
use crate::month_steps::month_numbered;
use crate::near_months::{month_after, month_before};
use crate::set_positions::keep_positions;
use cal_base::Calendar;
use cal_days::RataDie;
use cal_rule::Skip;
use recurrence_sets::PeriodDays;

/// Returns the days on which BYDAY holds, of those that places may name in a month.
fn weekdays_about<C: Calendar>(calendar: &C, asked: &Asked, look: &MonthLook) -> PeriodDays
    requires look { IsMonthLook (C.system calendar.now).list look.now }
    requires near { IsNearDay look.now.first }
    requires nearby { IsNearList (C.system calendar.now).list }
    requires counts { CountsInMonths asked.now.rule }
    ensures first { result.first ≡ look.now.first -ℤ pos 1 }
    ensures days { let list = (C.system calendar.now).list in let rule = asked.now.rule in
        (n : ℤ) → Reaches rule.skip (look_stretch look.now) n → IsTrue (has_day result n) ↔ IsOfWeekdays list rule n }
{
    let mut days = PeriodDays::new(RataDie::new(look.first - 1));
    add_weekdays_of_month(&mut days, asked, look);
    match asked.rule.skip() {
        Skip::Omit => days,
        Skip::Backward => {
            add_weekdays_of_month(&mut days, asked, &month_before(calendar, look));
            days
        }
        Skip::Forward => {
            add_weekdays_of_month(&mut days, asked, &month_after(calendar, look));
            days
        }
    }
}

/// Returns the days that a month names.
fn named_in_month<C: Calendar>(calendar: &C, asked: &Asked, look: &MonthLook) -> PeriodDays
    requires look { IsMonthLook (C.system calendar.now).list look.now }
    requires near { IsNearDay look.now.first }
    requires nearby { IsNearList (C.system calendar.now).list }
    requires missing { AreMissing asked.now.rule asked.now.missing }
    requires counts { CountsInMonths asked.now.rule }
    ensures { let list = (C.system calendar.now).list in let s = look_stretch look.now in
        (t : Date) → t.day ≡ asked.now.day_of_month →
        Marks result (s.first -ℤ pos 1) (end_of s +ℤ pos 1)
        (IsNamedInMonth list asked.now.rule t (look.now.year, look.now.place)) }
{
    let mut days = kept_of_month(asked, look);
    if asked.missing.weekdays {
        return days;
    }
    let weekdays = weekdays_about(calendar, asked, look);
    days.keep_common(&weekdays);
    days
}

/// Returns the days of the period that is a month, before BYSETPOS.
fn days_of_period<C: Calendar>(calendar: &C, asked: &Asked, look: &MonthLook) -> PeriodDays
    requires look { IsMonthLook (C.system calendar.now).list look.now }
    requires near { IsNearDay look.now.first }
    requires nearby { IsNearList (C.system calendar.now).list }
    requires missing { AreMissing asked.now.rule asked.now.missing }
    requires monthly { asked.now.rule.frequency ≡ Monthly }
    ensures { let list = (C.system calendar.now).list in let rule = asked.now.rule in
        (t : Date) (k : ℕ) → t.day ≡ asked.now.day_of_month →
        IsMonthsAfter list t.year t.month (pos (k * rule.interval)) look.now.year look.now.place →
        IsPeriodSet list rule t k result }
{
    let mut days = named_in_month(calendar, asked, look);
    days.keep_days(RataDie::new(look.first - 1), RataDie::new(look.end() + 1));
    days
}

/// Returns the days of the period that is a month.
fn kept_of_period<C: Calendar>(calendar: &C, asked: &Asked, look: &MonthLook) -> PeriodDays
    requires look { IsMonthLook (C.system calendar.now).list look.now }
    requires near { IsNearDay look.now.first }
    requires nearby { IsNearList (C.system calendar.now).list }
    requires missing { AreMissing asked.now.rule asked.now.missing }
    requires monthly { asked.now.rule.frequency ≡ Monthly }
    ensures { let list = (C.system calendar.now).list in let rule = asked.now.rule in
        (t : Date) (k : ℕ) → t.day ≡ asked.now.day_of_month →
        IsMonthsAfter list t.year t.month (pos (k * rule.interval)) look.now.year look.now.place →
        IsKeptSet list rule t k result }
{
    let days = days_of_period(calendar, asked, look);
    keep_positions(asked, &days)
}

/// Returns whether a day is before another one.
fn is_before(day: i64, other: i64) -> bool
    ensures { result ≡ int_lt day other }
{
    day < other
}

/// Returns how many months so many periods have.
fn months_of_periods(periods: u32, interval: u32) -> u64
    ensures { result ≡ periods * interval }
{
    let count = u64::from(periods);
    let every = u64::from(interval);
    count * every
}

/// Returns the days of the period that is a month, or `None` if neither it nor a later one has a valid day up to a last
/// one.
fn block_of_month<C: Calendar>(
    calendar: &C,
    asked: &Asked,
    look: &MonthLook,
    last: RataDie,
) -> Option<PeriodDays>
    requires last { IsValidDay last }
    requires look { IsMonthLook (C.system calendar.now).list look.now }
    requires near { IsNearDay look.now.first }
    requires nearby { IsNearList (C.system calendar.now).list }
    requires missing { AreMissing asked.now.rule asked.now.missing }
    requires monthly { asked.now.rule.frequency ≡ Monthly }
    ensures { let list = (C.system calendar.now).list in let rule = asked.now.rule in
        (t : Date) (k : ℕ) → IsAsked list t asked.now →
        IsMonthsAfter list t.year t.month (pos (k * rule.interval)) look.now.year look.now.place →
        MatchOption result (HaveEnded (IsKept list rule t) k last) (Holds (IsKept list rule t k)) }
{
    let next = last.to_i64_date() + 1;
    if is_before(next, look.first) {
        return None;
    }
    Some(kept_of_period(calendar, asked, look))
}

/// Returns the days of a period, or `None` if no period from this one on has a valid day up to a last one.
pub(crate) fn month_block<C: Calendar>(
    calendar: &C,
    asked: &Asked,
    period: u32,
    last: RataDie,
) -> Option<PeriodDays>
    requires last { IsValidDay last }
    requires look { IsMonthLook (C.system calendar.now).list asked.now.month }
    requires valid { IsValidDay asked.now.day }
    requires within { InStretch (look_stretch asked.now.month) asked.now.day }
    requires nearby { IsNearList (C.system calendar.now).list }
    requires missing { AreMissing asked.now.rule asked.now.missing }
    requires every { 0 < asked.now.rule.interval }
    requires monthly { asked.now.rule.frequency ≡ Monthly }
    ensures days { let list = (C.system calendar.now).list in let rule = asked.now.rule in
        (t : Date) → IsAsked list t asked.now →
        MatchOption result (HaveEnded (IsKept list rule t) period last) (Holds (IsKept list rule t period)) }
    ensures few { IfSome result (λ _. period < 4294967295) }
{
    let months = months_of_periods(period, asked.rule.interval());
    let day = RataDie::new(asked.day);
    match month_numbered(calendar, &asked.month, day, months) {
        None => None,
        Some(look) => block_of_month(calendar, asked, &look, last),
    }
}
