//! The days that YEARLY keeps by weeks of years, if BYWEEKNO is there.

ghost use Rattle.std.specs.Prelude.{◌≡◌, ◌↔◌, ◌<◌, ◌*◌, IfSome, IsTrue, MatchOption, ℤ, neg_ℤ, negsuc, pos};
ghost use Rattle.std.specs.Prelude.{◌+ℤ◌, ◌≤ℤ◌, ◌<ℤ◌};
ghost use Rattle.cal_days.specs.Day.{IsBetween, IsFieldYear, IsValidDay};
ghost use Rattle.cal_types.specs.CalendarList.{CalendarList, Date, IsLawful, start_of_year};
ghost use Rattle.cal_rule.specs.declared.frequency.Frequency.TheVariants.{Yearly};
ghost use Rattle.cal_rrule.specs.Asking.{IsAsked};
ghost use Rattle.cal_rrule.specs.Blocks.{IsOfBlock, start_of};
ghost use Rattle.cal_rrule.specs.Looks.{AreMissing, IsYearLook, look_year};
ghost use Rattle.cal_rrule.specs.Masks.{InRow, Marks};
ghost use Rattle.cal_rrule.specs.NearDays.{IsNearList};
ghost use Rattle.cal_rrule.specs.Periods.{IsNamedInWeeks, NoWeeks};
ghost use Rattle.cal_rrule.specs.Stretches.{end_of};
ghost use Rattle.cal_rrule.specs.Weeks.{BelongsTo, IsWeekOf};
ghost use Rattle.cal_rrule.specs.YearWeeks.{AreWeeksOf, HasStartWeekday, IsNamedAbout, IsOfWeekNumbers, IsYearWithin};
ghost use Rattle.recurrence_sets.specs.PeriodBits.{has_day};
ghost use Rattle.recurrence_sets.specs.Periods.{HaveEnded, Holds};

use crate::asked::Asked;
use crate::looks::year_of;
use crate::near_years::{year_after, year_before};
use crate::set_positions::keep_positions;
use crate::span::Span;
use crate::week_start::week_of;
use crate::weekly_days::{same_weekdays, span_of_weeks};
use crate::year_days::named_in_year;
use crate::year_look::YearLook;
use crate::year_steps::{ends_behind, is_more, years_after, years_to_next};
use crate::year_weeks::{WeekRow, add_numbered, weeks_of_year};
use crate::yearly::years_between;
use cal_base::Calendar;
use cal_days::RataDie;
use recurrence_sets::PeriodDays;

/// Returns the days of a span that a year names, or the year before it or the one after it.
fn named_about<C: Calendar>(calendar: &C, asked: &Asked, span: &Span, year: &YearLook) -> PeriodDays
    requires is_asked { IsAsked (C.system calendar.now).list (start_of asked.now) asked.now }
    requires year { IsYearLook (C.system calendar.now).list year.now }
    requires near { IsBetween (neg_ℤ (pos 365248000)) (pos 365248000) year.now.first }
    requires nearby { IsNearList (C.system calendar.now).list }
    ensures { let list = (C.system calendar.now).list in (t : Date) → IsAsked list t asked.now →
        Marks result span.now.from span.now.to (IsNamedAbout list asked.now.rule t year.now.year) }
{
    let before = year_before(calendar, year);
    let behind = year_after(calendar, year);
    let mut days = named_in_year(calendar, asked, span, year);
    days.insert_all(&named_in_year(calendar, asked, span, &before));
    days.insert_all(&named_in_year(calendar, asked, span, &behind));
    days
}

/// Keeps the days whose weeks BYWEEKNO has.
fn keep_weeks(days: &mut PeriodDays, asked: &Asked, weeks: &WeekRow)
    requires first { days.old.first ≡ weeks.now.first }
    ensures first { days.new.first ≡ days.old.first }
    ensures days { (c : CalendarList) (y : ℤ) →
        AreWeeksOf c asked.now.rule.week_start y weeks.now.first weeks.now.count →
        (n : ℤ) → weeks.now.first ≤ℤ n → n <ℤ (weeks.now.first +ℤ pos (7 * weeks.now.count)) →
        IsTrue (has_day days.new n)
        ↔ (IsTrue (has_day days.old n) × IsOfWeekNumbers c asked.now.rule y n) }
{
    let mut kept = PeriodDays::new(RataDie::new(weeks.first));
    add_numbered(&mut kept, asked.rule.weeks(), weeks);
    days.keep_common(&kept);
}

/// Keeps the days with the start's weekday, if no part but BYWEEKNO and BYMONTH names days.
fn keep_start_weekday(days: &mut PeriodDays, asked: &Asked, weeks: &WeekRow)
    requires missing { AreMissing asked.now.rule asked.now.missing }
    requires valid { IsValidDay asked.now.day }
    requires first { days.old.first ≡ weeks.now.first }
    requires near { IsBetween (neg_ℤ (pos 365250000)) (pos 365250000) weeks.now.first }
    ensures first { days.new.first ≡ days.old.first }
    ensures days { (n : ℤ) → weeks.now.first ≤ℤ n → n <ℤ (weeks.now.first +ℤ pos (7 * weeks.now.count)) →
        IsTrue (has_day days.new n)
        ↔ (IsTrue (has_day days.old n) × HasStartWeekday asked.now.rule asked.now.day n) }
{
    let missing = asked.missing;
    if !(missing.year_days & (missing.month_days & missing.weekdays)) {
        return;
    }
    let same = same_weekdays(asked, weeks.first, weeks.count);
    days.keep_common(&same);
}

/// Returns the days that the weeks of a year name.
fn days_of_weeks<C: Calendar>(calendar: &C, asked: &Asked, year: &YearLook) -> PeriodDays
    requires is_asked { IsAsked (C.system calendar.now).list (start_of asked.now) asked.now }
    requires year { IsYearLook (C.system calendar.now).list year.now }
    requires near { IsBetween (neg_ℤ (pos 365248000)) (pos 365248000) year.now.first }
    requires nearby { IsNearList (C.system calendar.now).list }
    ensures row { (n : ℤ) → IsTrue (has_day result n) → InRow result n }
    ensures days { (n : ℤ) → IsTrue (has_day result n)
        ↔ IsNamedInWeeks (C.system calendar.now).list asked.now.rule (start_of asked.now) year.now.year n }
{
    let weeks = weeks_of_year(asked.rule.week_start(), year);
    let span = span_of_weeks(weeks.first, weeks.count);
    let mut days = named_about(calendar, asked, &span, year);
    keep_weeks(&mut days, asked, &weeks);
    keep_start_weekday(&mut days, asked, &weeks);
    days.keep_days(RataDie::new(span.from), RataDie::new(span.to));
    days
}

/// Returns the year behind a last day's, if it lies so many years after another one, and begins at most three days
/// behind the last day.
fn year_behind<C: Calendar>(
    calendar: &C,
    look: &YearLook,
    years: u64,
    last: RataDie,
) -> Option<YearLook>
    requires look { IsYearLook (C.system calendar.now).list look.now }
    requires field { IsFieldYear look.now.year }
    requires last { IsValidDay last }
    requires nearby { IsNearList (C.system calendar.now).list }
    requires behind { (last +ℤ pos 1) <ℤ start_of_year (C.system calendar.now).list (look.now.year +ℤ pos years) }
    ensures { let list = (C.system calendar.now).list in IsYearWithin list (look.now.year +ℤ pos years) last result }
{
    let high = year_of(calendar, last.to_i64_date());
    if ends_behind(&high, last, 3) {
        return None;
    }
    if is_more(years, years_to_next(look, &high)) {
        return None;
    }
    Some(year_after(calendar, &high))
}

/// Returns the year so many years after a year, or `None` if it begins more than three days behind a last day.
fn year_reached<C: Calendar>(
    calendar: &C,
    look: &YearLook,
    years: u64,
    last: RataDie,
) -> Option<YearLook>
    requires look { IsYearLook (C.system calendar.now).list look.now }
    requires field { IsFieldYear look.now.year }
    requires low { negsuc 365242498 ≤ℤ end_of (look_year look.now) }
    requires last { IsValidDay last }
    requires nearby { IsNearList (C.system calendar.now).list }
    ensures { let list = (C.system calendar.now).list in IsYearWithin list (look.now.year +ℤ pos years) last result }
{
    match years_after(calendar, look, years, last) {
        Some(found) => Some(found),
        None => year_behind(calendar, look, years, last),
    }
}

/// Returns the fourth day of the start's week.
fn fourth_day(asked: &Asked) -> i64
    requires { IsValidDay asked.now.day }
    ensures { (w : ℤ) → IsWeekOf asked.now.rule.week_start asked.now.day w → result ≡ w +ℤ pos 3 }
{
    week_of(asked.rule.week_start(), RataDie::new(asked.day)) + 3
}

/// Returns the year so many years after the one that the start's week belongs to, or `None` if it begins more than
/// three days behind a last day.
fn year_of_period<C: Calendar>(
    calendar: &C,
    asked: &Asked,
    years: u64,
    last: RataDie,
) -> Option<YearLook>
    requires few { years < 18446744073709551615 }
    requires valid { IsValidDay asked.now.day }
    requires last { IsValidDay last }
    requires nearby { IsNearList (C.system calendar.now).list }
    ensures { let list = (C.system calendar.now).list in (w y : ℤ) →
        IsWeekOf asked.now.rule.week_start asked.now.day w → BelongsTo list y w →
        IsYearWithin list (y +ℤ pos years) last result }
{
    let own = year_of(calendar, asked.day);
    let fourth = fourth_day(asked);
    if fourth >= own.end() {
        return year_reached(calendar, &own, years + 1, last);
    }
    if fourth >= own.first {
        return year_reached(calendar, &own, years, last);
    }
    if years == 0 {
        return Some(year_before(calendar, &own));
    }
    year_reached(calendar, &own, years - 1, last)
}

/// Returns the days that are kept of a period of YEARLY by weeks, or `None` if no period from this one on has a valid
/// day up to a last one.
pub(crate) fn weeks_block<C: Calendar>(
    calendar: &C,
    asked: &Asked,
    period: u32,
    last: RataDie,
) -> Option<PeriodDays>
    requires is_asked { IsAsked (C.system calendar.now).list (start_of asked.now) asked.now }
    requires yearly { asked.now.rule.frequency ≡ Yearly }
    requires weeks { ¬ (NoWeeks asked.now.rule) }
    requires last { IsValidDay last }
    requires nearby { IsNearList (C.system calendar.now).list }
    ensures days { let Has = IsOfBlock (C.system calendar.now).list asked.now.rule (start_of asked.now) in
        MatchOption result (HaveEnded Has period last) (Holds (Has period)) }
    ensures few { IfSome result (λ _. period < 4294967295) }
{
    let years = years_between(period, asked.rule.interval());
    match year_of_period(calendar, asked, years, last) {
        None => None,
        Some(year) => {
            let days = days_of_weeks(calendar, asked, &year);
            Some(keep_positions(asked, &days))
        }
    }
}
