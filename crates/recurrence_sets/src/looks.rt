//! Looks at the days of periods, and the first day of any period.

ghost use Rattle.std.specs.Prelude.{◌≡◌, ◌+◌, ◌<◌, ◌≤◌, ◌⊎◌, IfSome, IsSome, IsTrue, MatchOption, None, Some, ◌≤ℤ◌};
ghost use Rattle.std.specs.Option.{ForSome};
ghost use Rattle.cal_days.specs.Day.{IsValidDay};
ghost use Rattle.cal_types.specs.Windows.{IsWindow};
ghost use Rattle.recurrence_sets.specs.Days.{IsFirstBetween};
ghost use Rattle.recurrence_sets.specs.Listing.{AreLooks, ArePassed, IsLook};
ghost use Rattle.recurrence_sets.specs.Occurrences.{IsOfSome};
ghost use Rattle.recurrence_sets.specs.PeriodBits.{has_day};
ghost use Rattle.recurrence_sets.specs.Periods.{HaveEnded, Holds};

use crate::period_days::PeriodDays;
use crate::periods::Periods;
use cal_arith::Steps;
use cal_days::RataDie;
use std::sync::ledger::Ledger;

/// What was seen of a period and of the next one.
#[derive(Clone, Copy)]
pub(crate) struct Looks {
    /// The period's number.
    pub(crate) period: u32,
    /// Its days, or `None` if no days are left from it on.
    pub(crate) current: Option<PeriodDays>,
    /// The days of the next period, or `None` if no days are left from that one on.
    pub(crate) following: Option<PeriodDays>,
}

/// Returns the days of a period as [`Periods::days`] does, at the cost of one tick.
pub(crate) fn days_counted<S: Periods, L: Ledger>(
    periods: &S,
    period: u32,
    last: RataDie,
    steps: &mut Steps<L>,
) -> Option<PeriodDays>
    requires { IsValidDay last }
    ensures days { MatchOption result (HaveEnded (S.has periods.now) period last) (Holds (S.has periods.now period)) }
    ensures few { IfSome result (λ _. period < 4294967295) }
    ensures ticks { steps.new ≡ steps.old + 1 }
{
    steps.tick();
    periods.days(period, last)
}

/// Looks at a period and the next one, at the cost of at most two ticks.
pub(crate) fn looks_from<S: Periods, L: Ledger>(
    periods: &S,
    period: u32,
    last: RataDie,
    steps: &mut Steps<L>,
) -> Looks
    requires { IsValidDay last }
    ensures looks { AreLooks (S.has periods.now) last result }
    ensures period { result.period ≡ period }
    ensures ticks { steps.new ≤ steps.old + 2 }
{
    let current = days_counted(periods, period, last, steps);
    let following = days_behind(periods, period, &current, last, steps);
    Looks {
        period,
        current,
        following,
    }
}

/// Returns the days of the period behind one, at the cost of at most one tick: without a look if no days are left.
fn days_behind<S: Periods, L: Ledger>(
    periods: &S,
    period: u32,
    seen: &Option<PeriodDays>,
    last: RataDie,
    steps: &mut Steps<L>,
) -> Option<PeriodDays>
    requires valid { IsValidDay last }
    requires seen { IsLook (S.has periods.now) last period seen.now }
    ensures look { IsLook (S.has periods.now) last (period + 1) result }
    ensures ticks { steps.new ≤ steps.old + 1 }
{
    match seen {
        None => None,
        Some(_) => days_counted(periods, period + 1, last, steps),
    }
}

/// Goes on to the next period, at the cost of at most one tick.
fn next_looks<S: Periods, L: Ledger>(
    periods: &S,
    looks: &Looks,
    last: RataDie,
    steps: &mut Steps<L>,
) -> Looks
    requires valid { IsValidDay last }
    requires looks { AreLooks (S.has periods.now) last looks.now }
    requires some { IsSome looks.now.current }
    ensures looks { AreLooks (S.has periods.now) last result }
    ensures period { result.period ≡ looks.now.period + 1 }
    ensures ticks { steps.new ≤ steps.old + 1 }
{
    let period = looks.period + 1;
    let following = days_behind(periods, period, &looks.following, last, steps);
    Looks {
        period,
        current: looks.following,
        following,
    }
}

/// Returns the first day from one to another, if there are days.
fn first_in(days: &Option<PeriodDays>, first: RataDie, last: RataDie) -> Option<RataDie>
    ensures { MatchOption days.now (result ≡ None)
        (λ d. IsFirstBetween (λ n. IsTrue (has_day d n)) first last result) }
{
    match days {
        None => None,
        Some(days) => days.first_between(first, last),
    }
}

/// Returns the earlier one of a day and another, if there is another.
pub(crate) fn earlier(day: RataDie, other: Option<RataDie>) -> RataDie
    ensures first { result ≤ℤ day }
    ensures second { ForSome other (λ n. result ≤ℤ n) }
    ensures either { (result ≡ day) ⊎ (other ≡ Some result) }
{
    match other {
        Some(other) if other < day => other,
        _ => day,
    }
}

/// Returns the first day of any period from one day to another, and the looks that found it, at the cost of at most as
/// many ticks as periods are passed.
pub(crate) fn next_day<S: Periods, L: Ledger>(
    periods: &S,
    looks: &Looks,
    first: RataDie,
    last: RataDie,
    steps: &mut Steps<L>,
) -> (Looks, Option<RataDie>)
    requires days { IsWindow first last }
    requires looks { AreLooks (S.has periods.now) last looks.now }
    requires passed { ArePassed (S.has periods.now) looks.now.period first last }
    ensures looks { AreLooks (S.has periods.now) last result.0 }
    ensures passed { ArePassed (S.has periods.now) result.0.period first last }
    ensures day { IsFirstBetween (IsOfSome (S.has periods.now)) first last result.1 }
    ensures ticks { steps.new + looks.now.period ≤ steps.old + result.0.period }
{
    let mut seen = *looks;
    'periods: loop {
        match first_in(&seen.current, first, last) {
            Some(day) => {
                let next = first_in(&seen.following, first, last);
                return (seen, Some(earlier(day, next)));
            }
            None => {
                if seen.current.is_none() {
                    return (seen, None);
                }
                seen = next_looks(periods, &seen, last, steps);
            }
        }
    }
}
