//! Yearly rules that say nothing but how often they recur: the start's month and day in each year.

ghost use Rattle.std.specs.Prelude.{◌≡◌, ◌↔◌, ◌<◌, IfSome, IsTrue, pos, ◌+ℤ◌, ℤ};
ghost use Rattle.cal_anniversary.specs.YearlyDays.{IsOfYear};
ghost use Rattle.cal_days.specs.Day.{IsFieldYear, IsValidDay};
ghost use Rattle.cal_types.specs.CalendarList.{month_at};
ghost use Rattle.cal_types.specs.declared.leaping.Leaping.TheVariants.{Exact};
ghost use Rattle.cal_rule.specs.declared.frequency.Frequency.TheVariants.{Yearly};
ghost use Rattle.cal_rule.specs.declared.skip.Skip.TheVariants.{Omit};
ghost use Rattle.cal_rrule.specs.Asking.{IsAsked};
ghost use Rattle.cal_rrule.specs.Blocks.{IsOfBlock, start_of};
ghost use Rattle.cal_rrule.specs.Looks.{AreMissing};
ghost use Rattle.cal_rrule.specs.Masks.{InRow};
ghost use Rattle.cal_rrule.specs.PlainYears.{IsPlain};
ghost use Rattle.recurrence_sets.specs.PeriodBits.{has_day};
ghost use Rattle.recurrence_sets.specs.Periods.{Holds};

use crate::asked::Asked;
use crate::yearly::years_between;
use cal_base::Calendar;
use cal_days::RataDie;
use cal_days::ranges::{MAX_ADDED_YEARS, MAX_FIELD_YEAR};
use cal_rule::Skip;
use cal_types::{DateFields, DateFromFieldsOptions, Overflow};
use recurrence_sets::PeriodDays;

/// Returns whether days that don't exist are left out.
fn is_omit(skip: Skip) -> bool
    ensures { IsTrue result ↔ (skip ≡ Omit) }
{
    match skip {
        Skip::Omit => true,
        _ => false,
    }
}

/// Returns whether a rule has no part that names months, days or places, and leaves out days that don't exist.
fn is_plain(asked: &Asked) -> bool
    requires { AreMissing asked.now.rule asked.now.missing }
    ensures { IsTrue result → IsPlain asked.now.rule }
{
    let missing = asked.missing;
    let names_nothing = missing.days() & (missing.months & missing.positions);
    names_nothing & is_omit(asked.rule.skip())
}

/// Returns the year so many years after the start's, or `None` if fields can't name it.
fn year_behind(asked: &Asked, years: u64) -> Option<i32>
    ensures { IfSome result (λ y. (y ≡ asked.now.month.year +ℤ pos years) × IsFieldYear y) }
{
    if years > u64::from(MAX_ADDED_YEARS) {
        return None;
    }
    let year = i64::from(asked.month.year) + years as i64;
    if year < -i64::from(MAX_FIELD_YEAR) || year > i64::from(MAX_FIELD_YEAR) {
        return None;
    }
    Some(year as i32)
}

/// Returns the day of a year with the start's month and day, or `None` if the year has no such day that is valid.
fn day_in_year<C: Calendar>(calendar: &C, asked: &Asked, year: i32) -> Option<RataDie>
    requires asked { IsAsked (C.system calendar.now).list (start_of asked.now) asked.now }
    requires year { IsFieldYear year }
    ensures { let list = (C.system calendar.now).list in let t = start_of asked.now in
        IfSome result (IsOfYear list Exact (month_at list t.year t.month) t.day year) }
{
    let fields = DateFields::from_year_month_day(year, asked.month.month, asked.day_of_month);
    let options = DateFromFieldsOptions {
        overflow: Some(Overflow::Reject),
        missing_fields_strategy: None,
    };
    match calendar.from_fields(fields, options) {
        Ok(date) => Some(calendar.to_rata_die(&date)),
        Err(_) => None,
    }
}

/// Returns the set of one day.
fn alone(day: RataDie) -> PeriodDays
    ensures first { result.first ≡ day }
    ensures days { (n : ℤ) → InRow result n → IsTrue (has_day result n) ↔ (n ≡ day) }
{
    let mut days = PeriodDays::new(day);
    days.insert_day(day);
    days
}

/// Returns the day that is kept of a year by a rule that says nothing but how often it recurs. `None` says nothing: the
/// rule says more, or there is no such day up to a last one.
pub(crate) fn plain_block<C: Calendar>(
    calendar: &C,
    asked: &Asked,
    block: u32,
    last: RataDie,
) -> Option<PeriodDays>
    requires is_asked { IsAsked (C.system calendar.now).list (start_of asked.now) asked.now }
    requires yearly { asked.now.rule.frequency ≡ Yearly }
    ensures days { let Has = IsOfBlock (C.system calendar.now).list asked.now.rule (start_of asked.now) in
        IfSome result (Holds (Has block)) }
    ensures few { IfSome result (λ _. block < 4294967295) }
{
    if !is_plain(asked) {
        return None;
    }
    let year = year_behind(asked, years_between(block, asked.rule.interval()))?;
    let day = day_in_year(calendar, asked, year)?;
    if day > last {
        return None;
    }
    Some(alone(day))
}
