//! Dates and months in years of a calendar.

ghost use Rattle.std.specs.Prelude.{◌≡◌, ◌↔◌, ◌+ℤ◌, ℤ, pos, true, IsTrue, MatchOption};
ghost use Rattle.cal_days.specs.Day.{IsBetween, IsFieldYear, IsNear};
ghost use Rattle.cal_types.specs.CalendarList.{day_number};
ghost use Rattle.cal_types.specs.Leaping.{overflow_for};
ghost use Rattle.cal_types.specs.Month.{month_rank};
ghost use Rattle.cal_types.specs.MonthParts.{month_parts};
ghost use Rattle.cal_types.specs.declared.leaping.Leaping.TheVariants.{Exact};
ghost use Rattle.cal_anniversary.specs.YearlyDays.{IsDayInYear, IsOfYear};
ghost use Rattle.cal_holidays.specs.MonthDays.{AreDaysOf, IsMonthIn, is_date_of};
ghost use Rattle.cal_holidays.specs.Naming.{is_month};
ghost use Rattle.cal_holidays.specs.OwnDays.{IsValidOne};
ghost use Rattle.cal_holidays.specs.Rules.{is_month_day};

use crate::valid_days::valid_day;
use cal_base::Calendar;
use cal_days::RataDie;
use cal_days::ranges::{FIRST_VALID_DAY, is_covered_year};
use cal_types::{DateFields, DateFromFieldsOptions, Leaping, Month, Overflow};

/// A month and a day, and how to handle a year that lacks them.
#[derive(Clone, Copy)]
pub(crate) struct YearlyDay {
    pub(crate) month: Month,
    pub(crate) day: u8,
    pub(crate) leaping: Leaping,
}

/// The days of a month: the day before its first day, and its length in days.
#[derive(Clone, Copy)]
pub(crate) struct MonthDays {
    pub(crate) before: i64,
    pub(crate) length: u8,
}

/// Returns the overflow under which a date with the month and the day is created.
fn overflow_for(leaping: Leaping) -> Overflow
    ensures { result ≡ overflow_for leaping }
{
    match leaping {
        Leaping::Exact => Overflow::Reject,
        Leaping::Constrain => Overflow::Constrain,
    }
}

/// Returns the date of a month and a day in a year, or `None` if the year is skipped or the day isn't valid.
fn date_in_year<C: Calendar>(calendar: &C, asked: YearlyDay, year: i32) -> Option<C::DateInner>
    requires month { (C.system calendar.now).list.is_of_kind (month_parts asked.month) ≡ true }
    requires day { is_month_day asked.day ≡ true }
    requires year { IsFieldYear year }
    ensures { let list = (C.system calendar.now).list in
        MatchOption result ((n : ℤ) → IsOfYear list asked.leaping (month_parts asked.month) asked.day year n → ⊥)
        (λ d. IsTrue (C.belongs calendar.now d) × IsOfYear list asked.leaping (month_parts asked.month) asked.day year
        (day_number list (C.date_of calendar.now d))) }
{
    let fields = DateFields::from_year_month_day(year, asked.month, asked.day);
    let options = DateFromFieldsOptions {
        overflow: Some(overflow_for(asked.leaping)),
        missing_fields_strategy: None,
    };
    match calendar.from_fields(fields, options) {
        Ok(date) => Some(date),
        Err(_) => None,
    }
}

/// Returns the day on which a month and a day fall in a year, or `None` if the year is skipped or the day isn't valid.
pub(crate) fn day_in_year<C: Calendar>(calendar: &C, asked: YearlyDay, year: i32) -> Option<RataDie>
    requires month { (C.system calendar.now).list.is_of_kind (month_parts asked.month) ≡ true }
    requires day { is_month_day asked.day ≡ true }
    requires year { IsFieldYear year }
    ensures { IsDayInYear (C.system calendar.now).list asked.leaping (month_parts asked.month) asked.day year result }
{
    let date = date_in_year(calendar, asked, year)?;
    Some(calendar.to_rata_die(&date))
}

/// Returns a number for a month that no other month has.
fn rank(month: Month) -> u16
    ensures { result ≡ month_rank (month_parts month) }
{
    let plain = 2 * u16::from(month.number());
    if month.is_leap() {
        return plain + 1;
    }
    plain
}

/// Returns whether two months are the same.
fn is_same(a: Month, b: Month) -> bool
    ensures { result ≡ is_month (month_parts a) (month_parts b) }
{
    rank(a) == rank(b)
}

/// Returns whether a date lies in a month of a year.
fn is_in<C: Calendar>(calendar: &C, date: &C::DateInner, month: Month, year: i32) -> bool
    requires { IsTrue (C.belongs calendar.now date.now) }
    ensures { let list = (C.system calendar.now).list in let t = C.date_of calendar.now date.now in
        result ≡ is_date_of list (month_parts month) year t }
{
    is_same(calendar.month(date).to_input(), month) && calendar.extended_year(date) == year
}

/// Returns the days of the month of a date.
fn month_of<C: Calendar>(calendar: &C, date: &C::DateInner) -> MonthDays
    requires { IsTrue (C.belongs calendar.now date.now) }
    ensures { let list = (C.system calendar.now).list in let t = C.date_of calendar.now date.now in
        AreDaysOf list t result.before result.length }
{
    MonthDays {
        before: calendar.to_rata_die(date).to_i64_date() - i64::from(calendar.day_of_month(date).0),
        length: calendar.days_in_month(date),
    }
}

/// Returns the days of a month in a year that has no such month with a valid first day. It may contain the first valid
/// day.
fn month_without_first<C: Calendar>(calendar: &C, month: Month, year: i32) -> Option<MonthDays>
    requires { (n : ℤ) → IsOfYear (C.system calendar.now).list Exact (month_parts month) 1 year n → ⊥ }
    ensures { IsMonthIn (C.system calendar.now).list (month_parts month) year result }
{
    if is_covered_year(year) {
        return None;
    }
    let first = calendar.from_rata_die(RataDie::new(FIRST_VALID_DAY));
    if is_in(calendar, &first, month, year) {
        Some(month_of(calendar, &first))
    } else {
        None
    }
}

/// Returns the days of a month in a year, or `None` if no valid day lies in it.
pub(crate) fn month_in<C: Calendar>(calendar: &C, month: Month, year: i32) -> Option<MonthDays>
    requires month { (C.system calendar.now).list.is_of_kind (month_parts month) ≡ true }
    requires year { IsFieldYear year }
    ensures { IsMonthIn (C.system calendar.now).list (month_parts month) year result }
{
    let first = YearlyDay {
        month,
        day: 1,
        leaping: Leaping::Exact,
    };
    match date_in_year(calendar, first, year) {
        Some(date) => Some(month_of(calendar, &date)),
        None => month_without_first(calendar, month, year),
    }
}

impl MonthDays {
    /// Returns whether a day is in the month.
    fn has(self, day: i64) -> bool
        requires { IsNear self.before }
        ensures { IsTrue result ↔ IsBetween (self.before +ℤ pos 1) (self.before +ℤ pos self.length) day }
    {
        self.before < day && day <= self.before + i64::from(self.length)
    }

    /// Returns a day if it is in the month and valid.
    pub(crate) fn valid_day(self, day: i64) -> Option<RataDie>
        requires { IsNear self.before }
        ensures { IsValidOne (λ n. (n ≡ day)
            × IsBetween (self.before +ℤ pos 1) (self.before +ℤ pos self.length) n) result }
    {
        if self.has(day) { valid_day(day) } else { None }
    }
}
