//! Looks that begin near a window, wherever it lies.

ghost use Rattle.std.specs.Prelude.{◌≡◌, ◌+◌, ◌-◌, ◌/◌, ◌≤◌, IfSome, IsTrue, pos, negsuc, ◌≤ℤ◌};
ghost use Rattle.std.specs.Option.{ForSome};
ghost use Rattle.cal_days.specs.Day.{IsValidDay};
ghost use Rattle.cal_types.specs.Windows.{IsWindow};
ghost use Rattle.recurrence_sets.specs.Days.{IsFirstBetween};
ghost use Rattle.recurrence_sets.specs.Listing.{AreLooks, ArePassed};
ghost use Rattle.recurrence_sets.specs.PeriodBits.{has_day};

use crate::looks::{Looks, days_counted, looks_from};
use crate::period_days::PeriodDays;
use crate::periods::Periods;
use cal_arith::Steps;
use cal_days::RataDie;
use cal_days::ranges::{FIRST_VALID_DAY, LAST_VALID_DAY};
use std::sync::ledger::Ledger;

/// How many periods in a row are looked at for a valid day.
const PERIODS: u32 = 14;

/// How many times 1 is doubled to the greatest power of 2 that 32 bits hold.
const DOUBLINGS: u32 = 31;

/// Looks at two periods next to each other such that no day from one to another is of a period before them, at the cost
/// of at most 870 ticks. They are near the first period with such a day if most periods have valid days.
pub(crate) fn near_looks<S: Periods, L: Ledger>(
    periods: &S,
    first: RataDie,
    last: RataDie,
    steps: &mut Steps<L>,
) -> Looks
    requires { IsWindow first last }
    ensures looks { AreLooks (S.has periods.now) last result }
    ensures passed { ArePassed (S.has periods.now) result.period first last }
    ensures ticks { steps.new ≤ steps.old + 870 }
{
    let (begun, gap) = double_up(periods, first, last, steps);
    let begun = halve_down(periods, begun, gap, first, last, steps);
    let period = begun.saturating_sub(1);
    looks_from(periods, period, last, steps)
}

/// Goes up from period 1 on by doubling its number, at the cost of at most 434 ticks. Returns the last period that was
/// found to begin at or before a day, and the number that was tried at last.
fn double_up<S: Periods, L: Ledger>(
    periods: &S,
    first: RataDie,
    last: RataDie,
    steps: &mut Steps<L>,
) -> (u32, u32)
    requires { IsWindow first last }
    ensures passed { ArePassed (S.has periods.now) (result.0 - 1) first last }
    ensures ticks { steps.new ≤ steps.old + 434 }
{
    let mut begun = 0;
    let mut gap = 1_u32;
    let mut left = DOUBLINGS;
    'doublings: while left > 0 {
        let Some(found) = begun_from(periods, gap, first, last, steps) else {
            return (begun, gap);
        };
        begun = found;
        gap = gap.saturating_add(gap);
        left -= 1;
    }
    (begun, gap)
}

/// Goes on from a period that begins at or before a day, by gaps that are halved, at the cost of at most 434 ticks.
/// Returns the last period that was found to begin at or before the day.
fn halve_down<S: Periods, L: Ledger>(
    periods: &S,
    begun: u32,
    gap: u32,
    first: RataDie,
    last: RataDie,
    steps: &mut Steps<L>,
) -> u32
    requires days { IsWindow first last }
    requires passed { ArePassed (S.has periods.now) (begun - 1) first last }
    ensures passed { ArePassed (S.has periods.now) (result - 1) first last }
    ensures ticks { steps.new ≤ steps.old + 434 }
{
    let mut begun = begun;
    let mut gap = gap;
    let mut left = DOUBLINGS;
    'halvings: while left > 0 {
        gap = halve(gap);
        if gap == 0 {
            return begun;
        }
        let next = begun.saturating_add(gap);
        match begun_from(periods, next, first, last, steps) {
            None => {}
            Some(found) => begun = found,
        }
        left -= 1;
    }
    begun
}

/// Returns the half of a number.
fn halve(number: u32) -> u32
    ensures { result ≡ number / 2 }
{
    number / 2
}

/// Returns the first of at most 14 periods from one on that has a valid day, if that day is at or before another, at the
/// cost of a tick for each of them.
fn begun_from<S: Periods, L: Ledger>(
    periods: &S,
    period: u32,
    first: RataDie,
    last: RataDie,
    steps: &mut Steps<L>,
) -> Option<u32>
    requires { IsWindow first last }
    ensures passed { ForSome result (λ k. ArePassed (S.has periods.now) (k - 1) first last) }
    ensures ticks { steps.new ≤ steps.old + 14 }
{
    let (found, day) = next_with_day(periods, period, last, steps)?;
    number_by(found, day, first)
}

/// Returns the number of a period that has a day, if that day is at or before another.
fn number_by(number: u32, day: RataDie, first: RataDie) -> Option<u32>
    ensures { IfSome result (λ k. (k ≡ number) × (day ≤ℤ first)) }
{
    if first < day { None } else { Some(number) }
}

/// Returns the first of at most 14 periods from one on that has a valid day, with that day, at the cost of a tick for
/// each of them.
fn next_with_day<S: Periods, L: Ledger>(
    periods: &S,
    period: u32,
    last: RataDie,
    steps: &mut Steps<L>,
) -> Option<(u32, RataDie)>
    requires { IsValidDay last }
    ensures day { ForSome result (λ r. IsValidDay r.1 × S.has periods.now r.0 r.1) }
    ensures ticks { steps.new ≤ steps.old + 14 }
{
    let mut number = period;
    let mut left = PERIODS;
    'periods: while left > 0 {
        let days = days_counted(periods, number, last, steps)?;
        if let Some(day) = first_day(&days) {
            return Some((number, day));
        }
        number += 1;
        left -= 1;
    }
    None
}

/// Returns the first valid day of some days.
fn first_day(days: &PeriodDays) -> Option<RataDie>
    ensures { IsFirstBetween (λ n. IsTrue (has_day days.now n)) (negsuc 365242498) (pos 365242134) result }
{
    days.first_between(RataDie::new(FIRST_VALID_DAY), RataDie::new(LAST_VALID_DAY))
}
