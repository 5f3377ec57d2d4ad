//! The own days of rules in years: the days that they name before these move.

ghost use Rattle.std.specs.Prelude.{◌≡◌, ◌≤ℤ◌, ◌-ℤ◌, pos, neg_ℤ, true};
ghost use Rattle.cal_days.specs.Day.{IsBetween, IsFieldYear, IsValidDay};
ghost use Rattle.cal_types.specs.CalendarList.{IsOn, Date};
ghost use Rattle.cal_types.specs.MonthParts.{month_parts};
ghost use Rattle.cal_anniversary.specs.FallingOn.{FallsOn};
ghost use Rattle.cal_holidays.specs.NamedDays.{IsInYear, OwnDay};
ghost use Rattle.cal_holidays.specs.Rules.{is_month_day, is_proper, rule_said};

use crate::easter::{easter_day, easter_years};
use crate::holiday_rule::HolidayRule;
use crate::months::{YearlyDay, day_in_year};
use crate::nth::{NthWeekday, nth_day};
use crate::spans::{SpanWeekday, span_day};
use crate::valid_days::{first_valid, last_valid};
use cal_base::Calendar;
use cal_days::RataDie;

/// The years from a first to a last one.
#[derive(Clone, Copy)]
pub(crate) struct YearSpan {
    pub(crate) low: i32,
    pub(crate) high: i32,
}

ghost use Rattle.cal_holidays.specs.OwnDays.{AreYearsOf, IsValidOne, has_month};

/// Returns the day on which a month and a day fall in a year, if there is a valid one.
fn yearly_day<C: Calendar>(calendar: &C, asked: YearlyDay, year: i32) -> Option<RataDie>
    requires month { (C.system calendar.now).list.is_of_kind (month_parts asked.month) ≡ true }
    requires day { is_month_day asked.day ≡ true }
    requires year { IsFieldYear year }
    ensures { let list = (C.system calendar.now).list in
        IsValidOne (λ n. FallsOn list asked.leaping (month_parts asked.month) asked.day n × IsInYear list year n)
        result }
{
    day_in_year(calendar, asked, year)
}

/// Returns the own day of a rule in a year of its calendar, if there is a valid one.
pub(crate) fn own_day<C: Calendar>(calendar: &C, rule: HolidayRule, year: i32) -> Option<RataDie>
    requires proper { is_proper (rule_said rule) ≡ true }
    requires month { has_month (C.system calendar.now).list (rule_said rule) ≡ true }
    requires year { IsFieldYear year }
    ensures { IsValidOne (OwnDay (C.system calendar.now).list (rule_said rule) year) result }
{
    match rule {
        HolidayRule::Fixed {
            month,
            day,
            leaping,
            ..
        } => {
            let asked = YearlyDay {
                month,
                day,
                leaping,
            };
            yearly_day(calendar, asked, year)
        }
        HolidayRule::Easter { julian, offset } => easter_day(julian, offset, year),
        HolidayRule::Nth {
            month,
            nth,
            weekday,
            ..
        } => {
            let asked = NthWeekday {
                month,
                nth,
                weekday,
            };
            nth_day(calendar, asked, year)
        }
        HolidayRule::Span {
            month,
            day,
            week,
            weekday,
            ..
        } => {
            let asked = SpanWeekday {
                month,
                day,
                week,
                weekday,
            };
            span_day(calendar, asked, year)
        }
    }
}

/// Returns the year that contains a day.
pub(crate) fn year_on<C: Calendar>(calendar: &C, day: RataDie) -> i32
    requires { IsValidDay day }
    ensures year { (t : Date) → IsOn (C.system calendar.now).list day t → t.year ≡ result }
    ensures range { IsFieldYear result }
{
    calendar.extended_year(&calendar.from_rata_die(day))
}

/// Returns the years of the days from one day to another.
fn years_between<C: Calendar>(calendar: &C, from: i64, to: i64) -> YearSpan
    requires from { from ≤ℤ pos 365242134 }
    requires to { neg_ℤ (pos 365242499) ≤ℤ to }
    ensures { AreYearsOf (IsInYear (C.system calendar.now).list) from to result }
{
    YearSpan {
        low: year_on(calendar, first_valid(from)),
        high: year_on(calendar, last_valid(to)),
    }
}

/// Returns years that contain those in which a rule has an own day from one day to another.
pub(crate) fn own_years<C: Calendar>(
    calendar: &C,
    rule: HolidayRule,
    from: i64,
    to: i64,
) -> YearSpan
    requires proper { is_proper (rule_said rule) ≡ true }
    requires from { IsBetween (neg_ℤ (pos 365242599)) (pos 365242134) from }
    requires to { IsBetween (neg_ℤ (pos 365242499)) (pos 365242234) to }
    ensures { AreYearsOf (OwnDay (C.system calendar.now).list (rule_said rule)) from to result }
{
    match rule {
        HolidayRule::Fixed { .. } => years_between(calendar, from, to),
        HolidayRule::Easter { julian, offset } => easter_years(julian, offset, from, to),
        HolidayRule::Nth { .. } => years_between(calendar, from, to),
        HolidayRule::Span { .. } => years_between(calendar, from - 6, to + 6),
    }
}
