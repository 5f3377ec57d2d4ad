//! The years in which rules are kept.

ghost use Rattle.std.specs.Prelude.{◌≡◌, true, ◌≤◌, ◌≤ℤ◌, pos, neg_ℤ};
ghost use Rattle.cal_days.specs.Day.{IsBetween};

use crate::own_days::YearSpan;

/// The years in which a rule is kept, in the rule's calendar.
///
/// Every `RuleYears` that a [`Book`](crate::Book) returns is in the ranges stated here.
#[derive(Clone, Copy, Debug, PartialEq, Eq)]
pub struct RuleYears {
    /// The first year, of at most six digits, if there is one.
    pub since: Option<i32>,
    /// The last year, of at most six digits, if there is one.
    pub until: Option<i32>,
    /// The years from one year to the next, from 1 to 400, counted from the first year; 1 if there is no first year.
    pub every: u16,
}

/// Years in steps: from `first` on each so many-th year, up to `last`.
#[derive(Clone, Copy)]
pub(crate) struct YearSteps {
    pub(crate) first: i32,
    pub(crate) last: i32,
    pub(crate) every: u16,
}

ghost use Rattle.cal_holidays.specs.Observing.{are_proper_years, is_every, is_kept, is_since, is_until};
ghost use Rattle.cal_holidays.specs.Moving.{AreSteps, IsFirstFrom, IsFirstStep, IsLastYear};

/// Returns the first year from `low` on, in steps from `since` on.
fn first_step(since: i32, every: u16, low: i32) -> i32
    requires since { IsBetween (neg_ℤ (pos 999999)) (pos 999999) since }
    requires every { (1 ≤ every) × (every ≤ 400) }
    requires low { IsBetween (neg_ℤ (pos 1040000)) (pos 1040000) low }
    ensures { IsFirstStep since every low result }
{
    if low <= since {
        return since;
    }
    let past = (low - since).rem_euclid(i32::from(every));
    if past == 0 {
        return low;
    }
    low + (i32::from(every) - past)
}

/// Returns the earlier of a last year, if there is one, and another year.
fn earlier_year(until: Option<i32>, high: i32) -> i32
    ensures { IsLastYear until high result }
{
    match until {
        Some(year) => year.min(high),
        None => high,
    }
}

/// Returns whether a year is the first one, or comes some number of steps after it. Each year is, if there is no first.
fn is_since(since: Option<i32>, every: u16, year: i32) -> bool
    requires { is_every since every ≡ true }
    ensures { result ≡ is_since since every year }
{
    match since {
        Some(since) => since <= year && year.abs_diff(since) % u32::from(every) == 0,
        None => true,
    }
}

/// Returns whether a year isn't past the last one.
fn is_until(until: Option<i32>, year: i32) -> bool
    ensures { result ≡ is_until until year }
{
    match until {
        Some(last) => year <= last,
        None => true,
    }
}

impl RuleYears {
    /// Returns whether a rule is kept in a year.
    pub(crate) fn keeps(self, year: i32) -> bool
        requires { are_proper_years self ≡ true }
        ensures { result ≡ is_kept self year }
    {
        is_since(self.since, self.every, year) && is_until(self.until, year)
    }

    /// Returns the first of the years from `low` on that come in steps after the first year.
    fn first_from(self, low: i32) -> i32
        requires proper { are_proper_years self ≡ true }
        requires low { IsBetween (neg_ℤ (pos 1040000)) (pos 1040000) low }
        ensures { IsFirstFrom self.since self.every low result }
    {
        match self.since {
            Some(since) => first_step(since, self.every, low),
            None => low,
        }
    }

    /// Returns the years in which a rule is kept, of those from `span.low` to `span.high`.
    pub(crate) fn steps_in(self, span: YearSpan) -> YearSteps
        requires proper { are_proper_years self ≡ true }
        requires low { IsBetween (neg_ℤ (pos 1040000)) (pos 1040000) span.low }
        ensures { AreSteps self span.low span.high result }
    {
        YearSteps {
            first: self.first_from(span.low),
            last: earlier_year(self.until, span.high),
            every: self.every,
        }
    }
}
