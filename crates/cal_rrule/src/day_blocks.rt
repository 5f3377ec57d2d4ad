//! The days of a month that DAILY keeps, as bits.

ghost use Rattle.std.specs.Prelude.{◌≡◌, ◌↔◌, ◌<◌, IsTrue, ℤ, neg_ℤ, pos};
ghost use Rattle.cal_days.specs.Day.{IsBetween};
ghost use Rattle.cal_types.specs.CalendarList.{CalendarList};
ghost use Rattle.cal_rrule.specs.Looks.{AreMissing, CountsInMonths, IsDailyDay, IsMonthLook, IsMultiple, KeepsSingle};
ghost use Rattle.cal_rrule.specs.Looks.{look_stretch};
ghost use Rattle.cal_rrule.specs.Masks.{Marks};
ghost use Rattle.cal_rrule.specs.Periods.{IsOfMonthDays, IsOfWeekdays, NoMonthDays, NoWeekdays};
ghost use Rattle.cal_rrule.specs.Stretches.{InStretch, end_of};
ghost use Rattle.recurrence_sets.specs.PeriodBits.{has_day};

use crate::asked::Asked;
use crate::intervals::add_interval;
use crate::month_days::{keeps_month, weekdays_of_month};
use crate::month_look::MonthLook;
use crate::named_masks::add_month_days;
use cal_days::RataDie;
use cal_rule::{Place, Skip};
use recurrence_sets::PeriodDays;

/// Returns whether BYSETPOS keeps a day that is alone.
fn keeps_single(asked: &Asked) -> bool
    requires { AreMissing asked.now.rule asked.now.missing }
    ensures { IsTrue result ↔ KeepsSingle asked.now.rule }
{
    let positions = asked.rule.positions();
    let front = positions.contains(Place::FromFront(1));
    let back = positions.contains(Place::FromBack(1));
    asked.missing.positions | (front | back)
}

/// Returns the days of a month that lie a multiple of INTERVAL behind the start.
fn interval_in_month(asked: &Asked, look: &MonthLook) -> PeriodDays
    requires every { 0 < asked.now.rule.interval }
    requires day { IsBetween (neg_ℤ (pos 2000000000)) (pos 2000000000) asked.now.day }
    ensures { let s = look_stretch look.now in let rule = asked.now.rule in
        Marks result s.first (end_of s) (IsMultiple asked.now.day rule.interval) }
{
    let first = RataDie::new(look.first);
    let mut days = PeriodDays::new(first);
    let start = RataDie::new(asked.day);
    add_interval(
        &mut days,
        first,
        RataDie::new(look.end()),
        start,
        asked.rule.interval(),
    );
    days
}

/// Keeps the days of a month that are days of BYMONTHDAY, if that is there.
fn keep_month_days(days: &mut PeriodDays, asked: &Asked, look: &MonthLook)
    requires missing { AreMissing asked.now.rule asked.now.missing }
    requires first { days.old.first ≡ look.now.first }
    ensures first { days.new.first ≡ days.old.first }
    ensures days { (c : CalendarList) → IsMonthLook c look.now →
        (n : ℤ) → InStretch (look_stretch look.now) n → IsTrue (has_day days.new n)
        ↔ (IsTrue (has_day days.old n) × (¬ (NoMonthDays asked.now.rule) → IsOfMonthDays c asked.now.rule n)) }
{
    if asked.missing.month_days {
        return;
    }
    let first = RataDie::new(look.first);
    let mut named = PeriodDays::new(first);
    add_month_days(
        &mut named,
        Skip::Omit,
        first,
        u16::from(look.days),
        asked.rule.month_days(),
    );
    days.keep_common(&named);
}

/// Keeps the days of a month on which BYDAY holds, if that is there.
fn keep_weekdays(days: &mut PeriodDays, asked: &Asked, look: &MonthLook)
    requires missing { AreMissing asked.now.rule asked.now.missing }
    requires first { days.old.first ≡ look.now.first }
    ensures first { days.new.first ≡ days.old.first }
    ensures days { (c : CalendarList) → IsMonthLook c look.now → CountsInMonths asked.now.rule →
        (n : ℤ) → InStretch (look_stretch look.now) n → IsTrue (has_day days.new n)
        ↔ (IsTrue (has_day days.old n) × (¬ (NoWeekdays asked.now.rule) → IsOfWeekdays c asked.now.rule n)) }
{
    if asked.missing.weekdays {
        return;
    }
    let named = weekdays_of_month(asked, look);
    days.keep_common(&named);
}

/// Returns the days of a month that DAILY keeps.
pub(crate) fn days_in_month(asked: &Asked, look: &MonthLook) -> PeriodDays
    requires missing { AreMissing asked.now.rule asked.now.missing }
    requires every { 0 < asked.now.rule.interval }
    requires day { IsBetween (neg_ℤ (pos 2000000000)) (pos 2000000000) asked.now.day }
    ensures first { result.first ≡ look.now.first }
    ensures days { (c : CalendarList) → IsMonthLook c look.now → CountsInMonths asked.now.rule →
        let s = look_stretch look.now in
        Marks result s.first (end_of s) (IsDailyDay c asked.now.rule asked.now.day) }
{
    if !(keeps_month(asked, look) & keeps_single(asked)) {
        let empty = PeriodDays::new(RataDie::new(look.first));
        return empty;
    }
    let mut days = interval_in_month(asked, look);
    keep_month_days(&mut days, asked, look);
    keep_weekdays(&mut days, asked, look);
    days
}
