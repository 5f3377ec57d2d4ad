//! The days that a rule names in a year, by the year's months.

ghost use Rattle.std.specs.Prelude.{◌≡◌, ◌↔◌, IsTrue, true, neg_ℤ, pos};
ghost use Rattle.cal_days.specs.Day.{IsBetween};
ghost use Rattle.cal_types.specs.CalendarList.{CalendarList, IsLawful};
ghost use Rattle.cal_types.specs.MonthParts.{month_parts};
ghost use Rattle.cal_rule.specs.declared.skip.Skip.TheVariants.{Backward, Forward};
ghost use Rattle.cal_rrule.specs.Looks.{AreMissing, IsMonthLook, IsNamedInYearMonth, IsYearLook, look_stretch};
ghost use Rattle.cal_rrule.specs.Masks.{Adds, Marks};
ghost use Rattle.cal_rrule.specs.NearDays.{IsNearList};
ghost use Rattle.cal_rrule.specs.Stretches.{end_of};
ghost use Rattle.cal_rrule.specs.YearMonths.{IsNamedByMonth, IsNamedMonth, IsOfYearMonths, NamesLacking, SaysMonthOf};

use crate::asked::Asked;
use crate::asking::is_same_month;
use crate::month_look::MonthLook;
use crate::near_months::{month_after, month_near};
use crate::span::Span;
use crate::year_look::YearLook;
use crate::year_months::add_days_of_month;
use cal_base::Calendar;
use cal_days::RataDie;
use cal_rule::Skip;
use cal_types::Month;
use recurrence_sets::PeriodDays;

/// Returns whether a month is one of BYMONTH, or the start's month if no part says anything.
fn says_month(asked: &Asked, month: Month) -> bool
    requires { AreMissing asked.now.rule asked.now.missing }
    ensures { IsTrue result
        ↔ SaysMonthOf asked.now.rule (month_parts asked.now.month.month) (month_parts month) }
{
    let silent = asked.missing.days() & asked.missing.months;
    asked.rule.months().contains(month) | (silent & is_same_month(month, asked.month.month))
}

/// Returns whether a month of a year is one that the rule names.
fn is_named(asked: &Asked, month: Month) -> bool
    requires { AreMissing asked.now.rule asked.now.missing }
    ensures { IsTrue result
        ↔ IsNamedMonth asked.now.rule (month_parts asked.now.month.month) (month_parts month) }
{
    let all = asked.missing.months & !asked.missing.days();
    all | says_month(asked, month)
}

/// Returns whether the month after a month is the leap month of a number in the same year.
fn is_followed(look: &MonthLook, next: &MonthLook, number: u8) -> bool
    ensures { (c : CalendarList) → IsLawful c → IsMonthLook c look.now → IsMonthLook c next.now →
        next.now.first ≡ end_of (look_stretch look.now) →
        IsTrue result ↔ ((next.now.year ≡ look.now.year)
        × (month_parts next.now.month ≡ record { number = number; is_leap = true })) }
{
    (look.place < next.place) & (next.month.is_leap() & (next.month.number() == number))
}

/// Returns whether the rule names the leap month of a month's number, and the month's year lacks it. Another month
/// follows the month.
fn names_lacking(asked: &Asked, look: &MonthLook, next: &MonthLook) -> bool
    requires { AreMissing asked.now.rule asked.now.missing }
    ensures { let start = month_parts asked.now.month.month in
        (c : CalendarList) → IsLawful c → IsMonthLook c look.now → IsMonthLook c next.now →
        next.now.first ≡ end_of (look_stretch look.now) →
        IsTrue result ↔ NamesLacking c asked.now.rule start look.now.year look.now.place }
{
    let number = look.month.number();
    if look.month.is_leap() | is_followed(look, next, number) {
        return false;
    }
    says_month(asked, Month::leap(number))
}

/// Returns whether a day or month that doesn't exist is replaced by the one before it.
fn is_backward(skip: Skip) -> bool
    ensures { IsTrue result ↔ (skip ≡ Backward) }
{
    match skip {
        Skip::Backward => true,
        _ => false,
    }
}

/// Returns whether a day or month that doesn't exist is replaced by the one after it.
fn is_forward(skip: Skip) -> bool
    ensures { IsTrue result ↔ (skip ≡ Forward) }
{
    match skip {
        Skip::Forward => true,
        _ => false,
    }
}

/// Adds the days that the rule names in a month, under a test.
fn add_if(days: &mut PeriodDays, asked: &Asked, look: &MonthLook, holds: bool)
    requires { AreMissing asked.now.rule asked.now.missing }
    ensures { Adds days.old days.new (λ n. IsTrue holds
        × IsNamedInYearMonth asked.now.rule asked.now.day_of_month (look_stretch look.now) n) }
{
    if holds {
        add_days_of_month(days, asked, look);
    }
}

/// Adds the days that the rule names in a year by one of the year's months, which another month follows.
fn add_by_month(days: &mut PeriodDays, asked: &Asked, look: &MonthLook, next: &MonthLook)
    requires { AreMissing asked.now.rule asked.now.missing }
    ensures { let start = month_parts asked.now.month.month in
        (c : CalendarList) → IsLawful c → IsMonthLook c look.now → IsMonthLook c next.now →
        next.now.first ≡ end_of (look_stretch look.now) → Adds days.old days.new
        (IsNamedByMonth c asked.now.rule start asked.now.day_of_month look.now.year look.now.place) }
{
    let skip = asked.rule.skip();
    let lacking = names_lacking(asked, look, next);
    let itself = is_named(asked, look.month) | (lacking & is_backward(skip));
    add_if(days, asked, look, itself);
    add_if(days, asked, next, lacking & is_forward(skip));
}

/// Returns the days of a span that the rule names in the months of a year.
pub(crate) fn days_in_months<C: Calendar>(
    calendar: &C,
    asked: &Asked,
    span: &Span,
    year: &YearLook,
) -> PeriodDays
    requires missing { AreMissing asked.now.rule asked.now.missing }
    requires year { IsYearLook (C.system calendar.now).list year.now }
    requires near { IsBetween (neg_ℤ (pos 365250000)) (pos 365250000) year.now.first }
    requires nearby { IsNearList (C.system calendar.now).list }
    ensures { let start = month_parts asked.now.month.month in
        Marks result span.now.from span.now.to (IsOfYearMonths (C.system calendar.now).list
        asked.now.rule start asked.now.day_of_month year.now.year) }
{
    let mut days = PeriodDays::new(RataDie::new(span.from));
    let mut look = month_near(calendar, year.first);
    let end = year.end();
    'months: while look.first < end {
        let next = month_after(calendar, &look);
        add_by_month(&mut days, asked, &look, &next);
        look = next;
    }
    days
}
