//! The days that a year names, as bits.

ghost use Rattle.std.specs.Prelude.{◌≡◌, ◌↔◌, IsTrue, ℤ, neg_ℤ, pos, ◌+ℤ◌, ◌-ℤ◌, ◌≤ℤ◌, ◌<ℤ◌};
ghost use Rattle.cal_days.specs.Day.{IsBetween};
ghost use Rattle.cal_types.specs.CalendarList.{CalendarList, Date};
ghost use Rattle.cal_types.specs.MonthParts.{month_parts};
ghost use Rattle.cal_rrule.specs.Asking.{IsAsked};
ghost use Rattle.cal_rrule.specs.Looks.{AreMissing, IsYearLook, look_year};
ghost use Rattle.cal_rrule.specs.Masks.{InRow, Marks};
ghost use Rattle.cal_rrule.specs.NearDays.{IsNearList};
ghost use Rattle.cal_rrule.specs.Periods.{IsNamedInYear, IsYearDay, NoYearDays};
ghost use Rattle.cal_rrule.specs.Stretches.{end_of};
ghost use Rattle.cal_rrule.specs.YearMonths.{IsYearMonthDayOf};
ghost use Rattle.recurrence_sets.specs.PeriodBits.{has_day};

use crate::asked::Asked;
use crate::named_masks::add_year_days;
use crate::named_months::days_in_months;
use crate::span::Span;
use crate::span_masks::keep_weekdays;
use crate::year_look::YearLook;
use cal_base::Calendar;
use cal_days::RataDie;
use recurrence_sets::PeriodDays;

/// Returns the days of a span that BYYEARDAY names in a year.
fn days_by_number(asked: &Asked, span: &Span, year: &YearLook) -> PeriodDays
    ensures first { result.first ≡ span.now.from }
    ensures days { (c : CalendarList) → IsYearLook c year.now →
        Marks result span.now.from span.now.to (IsYearDay c asked.now.rule year.now.year) }
{
    let mut days = PeriodDays::new(RataDie::new(span.from));
    add_year_days(
        &mut days,
        asked.rule.skip(),
        RataDie::new(year.first),
        year.days,
        asked.rule.year_days(),
    );
    days
}

/// Keeps the days of a span that BYYEARDAY names in a year, if that is there.
fn keep_year_days(days: &mut PeriodDays, asked: &Asked, span: &Span, year: &YearLook)
    requires missing { AreMissing asked.now.rule asked.now.missing }
    requires first { days.old.first ≡ span.now.from }
    ensures first { days.new.first ≡ days.old.first }
    ensures days { (c : CalendarList) → IsYearLook c year.now →
        (n : ℤ) → span.now.from ≤ℤ n → n <ℤ span.now.to → IsTrue (has_day days.new n)
        ↔ (IsTrue (has_day days.old n)
        × (¬ (NoYearDays asked.now.rule) → IsYearDay c asked.now.rule year.now.year n)) }
{
    if asked.missing.year_days {
        return;
    }
    let named = days_by_number(asked, span, year);
    days.keep_common(&named);
}

/// Returns the days of a span that the rule names in the months of a year, or all of them if the rule names days of the
/// year, and neither months nor days of a month.
fn days_by_month<C: Calendar>(
    calendar: &C,
    asked: &Asked,
    span: &Span,
    year: &YearLook,
) -> PeriodDays
    requires missing { AreMissing asked.now.rule asked.now.missing }
    requires year { IsYearLook (C.system calendar.now).list year.now }
    requires near { IsBetween (neg_ℤ (pos 365250000)) (pos 365250000) year.now.first }
    requires nearby { IsNearList (C.system calendar.now).list }
    ensures { let start = month_parts asked.now.month.month in
        Marks result span.now.from span.now.to (IsYearMonthDayOf (C.system calendar.now).list
        asked.now.rule start asked.now.day_of_month year.now.year) }
{
    let missing = asked.missing;
    if (missing.months & missing.month_days) & !missing.year_days {
        let mut days = PeriodDays::new(RataDie::new(span.from));
        days.insert_days(RataDie::new(span.from), RataDie::new(span.to));
        return days;
    }
    days_in_months(calendar, asked, span, year)
}

/// Returns the days of a span that a year names.
pub(crate) fn named_in_year<C: Calendar>(
    calendar: &C,
    asked: &Asked,
    span: &Span,
    year: &YearLook,
) -> PeriodDays
    requires missing { AreMissing asked.now.rule asked.now.missing }
    requires year { IsYearLook (C.system calendar.now).list year.now }
    requires near { IsBetween (neg_ℤ (pos 365250000)) (pos 365250000) year.now.first }
    requires nearby { IsNearList (C.system calendar.now).list }
    ensures { let list = (C.system calendar.now).list in (t : Date) → IsAsked list t asked.now →
        Marks result span.now.from span.now.to (IsNamedInYear list asked.now.rule t year.now.year) }
{
    let mut days = days_by_month(calendar, asked, span, year);
    keep_year_days(&mut days, asked, span, year);
    keep_weekdays(&mut days, calendar, asked, span);
    days
}

/// Returns the days that a year may name.
fn span_of_year(year: &YearLook) -> Span
    requires { IsBetween (neg_ℤ (pos 365250000)) (pos 365250000) year.now.first }
    ensures from { result.from ≡ year.now.first -ℤ pos 1 }
    ensures to { result.to ≡ end_of (look_year year.now) +ℤ pos 32 }
{
    Span {
        from: year.first - 1,
        to: year.end() + 32,
    }
}

/// Returns the days that a year names.
pub(crate) fn days_of_year<C: Calendar>(calendar: &C, asked: &Asked, year: &YearLook) -> PeriodDays
    requires missing { AreMissing asked.now.rule asked.now.missing }
    requires year { IsYearLook (C.system calendar.now).list year.now }
    requires near { IsBetween (neg_ℤ (pos 365250000)) (pos 365250000) year.now.first }
    requires nearby { IsNearList (C.system calendar.now).list }
    ensures exact { let list = (C.system calendar.now).list in (t : Date) → IsAsked list t asked.now →
        (n : ℤ) → InRow result n → IsTrue (has_day result n) ↔ IsNamedInYear list asked.now.rule t year.now.year n }
    ensures within { let list = (C.system calendar.now).list in (t : Date) → IsAsked list t asked.now →
        (n : ℤ) → IsNamedInYear list asked.now.rule t year.now.year n → InRow result n }
    ensures row { (n : ℤ) → IsTrue (has_day result n) → InRow result n }
{
    let span = span_of_year(year);
    let mut days = named_in_year(calendar, asked, &span, year);
    days.keep_days(RataDie::new(span.from), RataDie::new(span.to));
    days
}
