//! The days that DAILY keeps, by months.

ghost use Rattle.std.specs.Prelude.{◌≡◌, ◌↔◌, ◌<◌, IfSome, IsTrue, MatchOption, ℕ, ℤ, neg_ℤ, pos, ◌<ℤ◌};
ghost use Rattle.cal_days.specs.Day.{IsBetween};
ghost use Rattle.cal_types.specs.CalendarList.{CalendarList, Date, day_number};
ghost use Rattle.cal_rule.specs.declared.frequency.Frequency.TheVariants.{Daily};
ghost use Rattle.cal_rrule.specs.Asking.{IsAsked};
ghost use Rattle.cal_rrule.specs.Blocks.{IsOfBlock, start_of};
ghost use Rattle.cal_rrule.specs.Looks.{AreMissing, IsMonthLook, look_stretch};
ghost use Rattle.cal_rrule.specs.Masks.{Marks};
ghost use Rattle.cal_rrule.specs.NearDays.{IsNearList};
ghost use Rattle.cal_rrule.specs.Occurrences.{IsKept};
ghost use Rattle.cal_rrule.specs.Stretches.{InStretch, end_of};
ghost use Rattle.recurrence_sets.specs.PeriodBits.{has_day};
ghost use Rattle.recurrence_sets.specs.Periods.{HaveEnded, Holds};

use crate::asked::Asked;
use crate::day_blocks::days_in_month;
use crate::month_look::MonthLook;
use crate::month_steps::month_ahead;
use cal_base::Calendar;
use cal_days::RataDie;
use recurrence_sets::PeriodDays;

/// Returns the days of a month that are kept of some period, under DAILY.
pub(crate) fn kept_in_month(asked: &Asked, look: &MonthLook) -> PeriodDays
    requires missing { AreMissing asked.now.rule asked.now.missing }
    requires day { IsBetween (neg_ℤ (pos 2000000000)) (pos 2000000000) asked.now.day }
    requires daily { asked.now.rule.frequency ≡ Daily }
    ensures first { result.first ≡ look.now.first }
    ensures days { (c : CalendarList) (t : Date) → IsMonthLook c look.now → asked.now.day ≡ day_number c t →
        let s = look_stretch look.now in
        Marks result s.first (end_of s) (λ n. (k : ℕ) × IsKept c asked.now.rule t k n) }
{
    days_in_month(asked, look)
}

/// Returns the same days, and none outside of the month.
fn kept_in_block(asked: &Asked, look: &MonthLook) -> PeriodDays
    requires missing { AreMissing asked.now.rule asked.now.missing }
    requires day { IsBetween (neg_ℤ (pos 2000000000)) (pos 2000000000) asked.now.day }
    requires daily { asked.now.rule.frequency ≡ Daily }
    ensures { (c : CalendarList) (t : Date) → IsMonthLook c look.now → asked.now.day ≡ day_number c t →
        (n : ℤ) → IsTrue (has_day result n)
        ↔ (InStretch (look_stretch look.now) n × ((k : ℕ) × IsKept c asked.now.rule t k n)) }
{
    let mut days = kept_in_month(asked, look);
    days.keep_days(RataDie::new(look.first), RataDie::new(look.end()));
    days
}

/// Returns the same days, or `None` if the month begins behind a last day.
fn kept_until(asked: &Asked, look: &MonthLook, last: RataDie) -> Option<PeriodDays>
    requires missing { AreMissing asked.now.rule asked.now.missing }
    requires day { IsBetween (neg_ℤ (pos 2000000000)) (pos 2000000000) asked.now.day }
    requires daily { asked.now.rule.frequency ≡ Daily }
    ensures { (c : CalendarList) (t : Date) → IsMonthLook c look.now → asked.now.day ≡ day_number c t →
        MatchOption result (last <ℤ look.now.first) (λ days. (n : ℤ) → IsTrue (has_day days n)
        ↔ (InStretch (look_stretch look.now) n × ((k : ℕ) × IsKept c asked.now.rule t k n))) }
{
    if look.first > last.to_i64_date() {
        return None;
    }
    Some(kept_in_block(asked, look))
}

/// Returns the days that are kept of the periods of a block, under DAILY, or `None` if no block from this one on has a
/// valid day up to a last one. A block is the month so many months after the start's.
pub(crate) fn daily_block<C: Calendar>(
    calendar: &C,
    asked: &Asked,
    block: u32,
    last: RataDie,
) -> Option<PeriodDays>
    requires is_asked { IsAsked (C.system calendar.now).list (start_of asked.now) asked.now }
    requires daily { asked.now.rule.frequency ≡ Daily }
    requires nearby { IsNearList (C.system calendar.now).list }
    ensures days { let Has = IsOfBlock (C.system calendar.now).list asked.now.rule (start_of asked.now) in
        MatchOption result (HaveEnded Has block last) (Holds (Has block)) }
    ensures few { IfSome result (λ _. block < 4294967295) }
{
    if block > 27040000 {
        return None;
    }
    match month_ahead(calendar, &asked.month, RataDie::new(asked.day), block) {
        None => None,
        Some(look) => kept_until(asked, &look, last),
    }
}
