//! The days of a span whose months BYMONTH has, and those on which BYDAY holds, as bits.

ghost use Rattle.std.specs.Prelude.{◌≡◌, ◌↔◌, IsTrue, ℤ, ◌≤ℤ◌, ◌<ℤ◌};
ghost use Rattle.cal_types.specs.CalendarList.{CalendarList};
ghost use Rattle.cal_rrule.specs.Looks.{AreMissing, CountsInMonths, CountsInYears, IsMonthLook};
ghost use Rattle.cal_rrule.specs.Looks.{look_stretch};
ghost use Rattle.cal_rrule.specs.Masks.{Adds, Marks};
ghost use Rattle.cal_rrule.specs.NearDays.{IsNearList};
ghost use Rattle.cal_rrule.specs.Periods.{IsOfMonths, IsOfWeekdays, NoMonths, NoWeekdays};
ghost use Rattle.cal_rrule.specs.Stretches.{InStretch};
ghost use Rattle.recurrence_sets.specs.PeriodBits.{has_day};

use crate::asked::Asked;
use crate::month_days::add_weekdays_of_month;
use crate::month_look::MonthLook;
use crate::near_months::{month_after, month_near};
use crate::near_years::{year_after, year_near};
use crate::span::Span;
use crate::year_look::YearLook;
use crate::year_months::add_weekdays_of_year;
use cal_base::Calendar;
use cal_days::RataDie;
use recurrence_sets::PeriodDays;

/// Adds the days of a month if BYMONTH has it.
fn add_if_kept(days: &mut PeriodDays, asked: &Asked, look: &MonthLook)
    ensures { (c : CalendarList) → IsMonthLook c look.now →
        Adds days.old days.new (λ n. InStretch (look_stretch look.now) n × IsOfMonths c asked.now.rule n) }
{
    if asked.rule.months().contains(look.month) {
        days.insert_days(RataDie::new(look.first), RataDie::new(look.end()));
    }
}

/// Returns the days of a span whose months are among BYMONTH.
pub(crate) fn days_of_months<C: Calendar>(calendar: &C, asked: &Asked, span: &Span) -> PeriodDays
    requires { IsNearList (C.system calendar.now).list }
    ensures { Marks result span.now.from span.now.to
        (IsOfMonths (C.system calendar.now).list asked.now.rule) }
{
    let mut look = month_near(calendar, span.from);
    let mut days = PeriodDays::new(RataDie::new(span.from));
    add_if_kept(&mut days, asked, &look);
    let mut end = look.end();
    'months: while end < span.to {
        look = month_after(calendar, &look);
        add_if_kept(&mut days, asked, &look);
        end = look.end();
    }
    days
}

/// Returns the days of a span on which BYDAY holds, if weekdays are counted in months.
fn weekdays_by_months<C: Calendar>(calendar: &C, asked: &Asked, span: &Span) -> PeriodDays
    requires counts { CountsInMonths asked.now.rule }
    requires nearby { IsNearList (C.system calendar.now).list }
    ensures { Marks result span.now.from span.now.to
        (IsOfWeekdays (C.system calendar.now).list asked.now.rule) }
{
    let mut look = month_near(calendar, span.from);
    let mut days = PeriodDays::new(RataDie::new(span.from));
    add_weekdays_of_month(&mut days, asked, &look);
    let mut end = look.end();
    'months: while end < span.to {
        look = month_after(calendar, &look);
        add_weekdays_of_month(&mut days, asked, &look);
        end = look.end();
    }
    days
}

/// Returns the days of a span on which BYDAY holds, if weekdays are counted in years.
fn weekdays_by_years<C: Calendar>(calendar: &C, asked: &Asked, span: &Span) -> PeriodDays
    requires counts { CountsInYears asked.now.rule }
    requires nearby { IsNearList (C.system calendar.now).list }
    ensures { Marks result span.now.from span.now.to
        (IsOfWeekdays (C.system calendar.now).list asked.now.rule) }
{
    let mut look = year_near(calendar, span.from);
    let mut days = PeriodDays::new(RataDie::new(span.from));
    add_weekdays_of_year(&mut days, asked, &look);
    let mut end = look.end();
    'years: while end < span.to {
        look = year_after(calendar, &look);
        add_weekdays_of_year(&mut days, asked, &look);
        end = look.end();
    }
    days
}

/// Returns the days of a span on which BYDAY holds.
pub(crate) fn days_of_weekdays<C: Calendar>(calendar: &C, asked: &Asked, span: &Span) -> PeriodDays
    requires missing { AreMissing asked.now.rule asked.now.missing }
    requires nearby { IsNearList (C.system calendar.now).list }
    ensures { Marks result span.now.from span.now.to
        (IsOfWeekdays (C.system calendar.now).list asked.now.rule) }
{
    if asked.counts_in_year() {
        weekdays_by_years(calendar, asked, span)
    } else {
        weekdays_by_months(calendar, asked, span)
    }
}

/// Keeps the days of a span whose months are among BYMONTH, if that is there.
pub(crate) fn keep_months<C: Calendar>(
    days: &mut PeriodDays,
    calendar: &C,
    asked: &Asked,
    span: &Span,
)
    requires missing { AreMissing asked.now.rule asked.now.missing }
    requires first { days.old.first ≡ span.now.from }
    requires nearby { IsNearList (C.system calendar.now).list }
    ensures first { days.new.first ≡ days.old.first }
    ensures days { (n : ℤ) → span.now.from ≤ℤ n → n <ℤ span.now.to → IsTrue (has_day days.new n)
        ↔ (IsTrue (has_day days.old n)
        × (¬ (NoMonths asked.now.rule) → IsOfMonths (C.system calendar.now).list asked.now.rule n)) }
{
    if asked.missing.months {
        return;
    }
    let named = days_of_months(calendar, asked, span);
    days.keep_common(&named);
}

/// Keeps the days of a span on which BYDAY holds, if that is there.
pub(crate) fn keep_weekdays<C: Calendar>(
    days: &mut PeriodDays,
    calendar: &C,
    asked: &Asked,
    span: &Span,
)
    requires missing { AreMissing asked.now.rule asked.now.missing }
    requires first { days.old.first ≡ span.now.from }
    requires nearby { IsNearList (C.system calendar.now).list }
    ensures first { days.new.first ≡ days.old.first }
    ensures days { (n : ℤ) → span.now.from ≤ℤ n → n <ℤ span.now.to → IsTrue (has_day days.new n)
        ↔ (IsTrue (has_day days.old n)
        × (¬ (NoWeekdays asked.now.rule) → IsOfWeekdays (C.system calendar.now).list asked.now.rule n)) }
{
    if asked.missing.weekdays {
        return;
    }
    let named = days_of_weekdays(calendar, asked, span);
    days.keep_common(&named);
}
