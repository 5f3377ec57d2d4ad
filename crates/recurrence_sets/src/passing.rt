//! Days before a window, passed and counted.

ghost use Rattle.std.specs.Prelude.{◌≡◌, ◌+◌, ◌≤◌, MatchOption, Some, ◌≤ℤ◌, ◌<ℤ◌};
ghost use Rattle.std.specs.Option.{ForSome};
ghost use Rattle.cal_types.specs.Windows.{IsWindow};
ghost use Rattle.recurrence_sets.specs.Passing.{IsFullBefore, IsPassing};
ghost use Rattle.recurrence_sets.specs.Occurrences.{IsOfSome};

use crate::bounds::Bounds;
use crate::looks::{Looks, looks_from, next_day};
use crate::periods::Periods;
use cal_arith::Steps;
use cal_days::RataDie;
use std::sync::ledger::Ledger;

/// Days that were passed: those from a first one to the one before the next.
#[derive(Clone, Copy)]
pub(crate) struct Passed {
    /// The first of them.
    first: RataDie,
    /// The day behind them.
    next: RataDie,
    /// How many of them any period gives.
    pub(crate) index: u32,
    /// What was seen of the period that the next day may be of.
    pub(crate) looks: Looks,
}

/// Passes the days from a first one to the one before `day`, and counts those of all periods, at the cost of at most two
/// ticks, and one for each period that is passed. Returns the number of these periods, and `None` if the days are as many
/// as there may be.
pub(crate) fn pass_before<S: Periods, L: Ledger>(
    periods: &S,
    bounds: &Bounds,
    first: RataDie,
    day: RataDie,
    last: RataDie,
    steps: &mut Steps<L>,
) -> (u32, Option<Passed>)
    requires before { IsWindow first day }
    requires days { IsWindow day last }
    ensures passed { MatchOption result.1 (IsFullBefore (IsOfSome (S.has periods.now)) bounds.now.count first day)
        (λ p. IsPassing (S.has periods.now) last p × (p.first ≡ first) × (p.next ≡ day)) }
    ensures period { ForSome result.1 (λ p. p.looks.period ≡ result.0) }
    ensures ticks { steps.new ≤ steps.old + 2 + result.0 }
{
    let looks = looks_from(periods, 0, last, steps);
    let mut passed = Passed {
        first,
        next: first,
        index: 0,
        looks,
    };
    'days: while passed.next < day {
        if bounds.has_all(passed.index) {
            return (passed.looks.period, None);
        }
        passed = pass_day(periods, &passed, day, last, steps);
    }
    (passed.looks.period, Some(passed))
}

/// Passes the days up to the first one that any period gives, or to the one before `day`, at the cost of at most as many
/// ticks as periods are passed.
fn pass_day<S: Periods, L: Ledger>(
    periods: &S,
    passed: &Passed,
    day: RataDie,
    last: RataDie,
    steps: &mut Steps<L>,
) -> Passed
    requires passed { IsPassing (S.has periods.now) last passed.now }
    requires first { IsWindow passed.now.first day }
    requires days { IsWindow day last }
    requires some { passed.now.next <ℤ day }
    ensures passed { IsPassing (S.has periods.now) last result }
    ensures first { result.first ≡ passed.now.first }
    ensures more { passed.now.next <ℤ result.next }
    ensures most { result.next ≤ℤ day }
    ensures ticks { steps.new + passed.now.looks.period ≤ steps.old + result.looks.period }
{
    let (looks, found) = next_day(periods, &passed.looks, passed.next, last, steps);
    match before(found, day) {
        Some(found) => Passed {
            first: passed.first,
            next: RataDie::new(found.to_i64_date() + 1),
            index: passed.index + 1,
            looks,
        },
        None => Passed {
            first: passed.first,
            next: day,
            index: passed.index,
            looks,
        },
    }
}

/// Returns a day that was found, if it is before another.
fn before(found: Option<RataDie>, day: RataDie) -> Option<RataDie>
    ensures { MatchOption result (ForSome found (λ n. day ≤ℤ n)) (λ n. (found ≡ Some n) × (n <ℤ day)) }
{
    match found {
        Some(found) if found < day => Some(found),
        _ => None,
    }
}
