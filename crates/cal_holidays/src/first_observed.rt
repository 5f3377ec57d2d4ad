//! The first day of a window that a rule names.

ghost use Rattle.std.specs.Prelude.{◌≡◌, ◌≤◌, ◌≤ℤ◌, pos, neg_ℤ, true};
ghost use Rattle.cal_days.specs.Day.{IsBetween, IsValidDay};
ghost use Rattle.cal_holidays.specs.Merging.{IsFirstDay};
ghost use Rattle.cal_holidays.specs.Moving.{IsLeast, IsSomeValid, MovesIn, earlier_day, is_settled};
ghost use Rattle.cal_holidays.specs.NamedDays.{OwnDay};
ghost use Rattle.cal_holidays.specs.Naming.{names_in};
ghost use Rattle.cal_holidays.specs.OwnDays.{has_month};
ghost use Rattle.cal_holidays.specs.Rules.{is_proper_observed, observed, rule_said};

use crate::observance::Observance;
use crate::own_days::{own_day, own_years};
use crate::rule_years::YearSteps;
use cal_base::Calendar;
use cal_days::RataDie;

/// Returns the earlier of two days, if they are there.
pub(crate) fn earlier_day(a: Option<RataDie>, b: Option<RataDie>) -> Option<RataDie>
    ensures { result ≡ earlier_day a b }
{
    match (a, b) {
        (None, _) => b,
        (Some(_), None) => a,
        (Some(x), Some(y)) => { if x <= y { a } else { b } }
    }
}

/// Returns whether a day comes at least `reach` days before an own day. No own day after that one moves before it then.
pub(crate) fn is_settled(best: &Option<RataDie>, own: &Option<RataDie>, reach: i64) -> bool
    requires best { IsSomeValid best.now }
    requires reach { IsBetween (pos 0) (pos 6) reach }
    ensures { result ≡ is_settled best.now own.now reach }
{
    match (best, own) {
        (Some(day), Some(own)) => day.to_i64_date() + reach <= own.to_i64_date(),
        _ => false,
    }
}

/// Returns the first day from `first` to `last` to which an own day of a rule moves, in years in steps.
///
/// One year after another is looked at, up to the first whose own day is so late that no later one moves before the day
/// that was found.
fn first_in_years<C: Calendar>(
    calendar: &C,
    observance: Observance,
    steps: YearSteps,
    first: RataDie,
    last: RataDie,
) -> Option<RataDie>
    requires proper { is_proper_observed (observed observance) ≡ true }
    requires month { has_month (C.system calendar.now).list (rule_said observance.rule) ≡ true }
    requires low { neg_ℤ (pos 1040000) ≤ℤ steps.first }
    requires high { steps.last ≤ℤ pos 1040000 }
    requires some { (1 ≤ steps.every) × (steps.every ≤ 400) }
    requires from { IsValidDay first }
    requires to { IsValidDay last }
    ensures { let own = OwnDay (C.system calendar.now).list (rule_said observance.rule) in
        IsLeast (MovesIn own observance.moves.days steps) first last result }
{
    let reach = observance.moves.reach();
    let mut best = None;
    let mut year = steps.first;
    while year <= steps.last {
        let own = own_day(calendar, observance.rule, year);
        best = earlier_day(best, observance.moves.moved_between(&own, first, last));
        if is_settled(&best, &own, reach) {
            return best;
        }
        year += i32::from(steps.every);
    }
    best
}

/// Returns the first day from `first` to `last` that a rule names, in the rule's calendar.
///
/// The call looks up the dates of two days, and the rule's own day in each year that it passes: in those in which the
/// rule is kept, up to the day that is found, and if days move, in one more.
pub(crate) fn first_observed<C: Calendar>(
    calendar: &C,
    observance: Observance,
    first: RataDie,
    last: RataDie,
) -> Option<RataDie>
    requires proper { is_proper_observed (observed observance) ≡ true }
    requires month { has_month (C.system calendar.now).list (rule_said observance.rule) ≡ true }
    requires from { IsValidDay first }
    requires to { IsValidDay last }
    ensures { IsFirstDay (names_in (C.system calendar.now).list (observed observance)) first last result }
{
    let reach = observance.moves.reach();
    let from = first.to_i64_date() - reach;
    let to = last.to_i64_date() + reach;
    let span = own_years(calendar, observance.rule, from, to);
    let steps = observance.years.steps_in(span);
    first_in_years(calendar, observance, steps, first, last)
}
