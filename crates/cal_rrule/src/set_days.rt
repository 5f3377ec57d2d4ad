//! The days of a recurrence set in a window, without their indices.

ghost use Rattle.std.specs.Prelude.{◌≡◌, ◌↔◌, ◌≤ℤ◌, List, None};
ghost use Rattle.std.specs.Option.{ForSome};
ghost use Rattle.cal_rrule.specs.Listing.{start_from};
ghost use Rattle.recurrence_sets.specs.Bounds.{IsRestOf, later};
ghost use Rattle.recurrence_sets.specs.Occurrences.{AreLeft, AreOccurrences, IsOfSome};
ghost use Rattle.recurrence_sets.specs.declared.occurrence.Occurrence.{Occurrence};

use cal_days::RataDie;
use cal_rule::RecurrenceRule;
use cal_types::Window;
use recurrence_sets::{Bounds, Listing, Periods};

/// Returns the later one of two days.
fn later(first: RataDie, second: RataDie) -> RataDie
    ensures { result ≡ later first second }
{
    if first < second { second } else { first }
}

/// Returns the first day that can be in a list of days alone, in a window that begins on a day: days before the window
/// matter only if there is a count.
fn start_from(count: Option<u32>, start: RataDie, first: RataDie) -> RataDie
    ensures { result ≡ start_from count start first }
{
    match count {
        None => later(start, first),
        Some(_) => start,
    }
}

/// Returns the bounds of a list of days alone in a window, for a rule that starts on a day.
pub(crate) fn bounds_from_day(rule: &RecurrenceRule, day: RataDie, window: Window) -> Bounds
    ensures bounds { result ≡ record {
      start = start_from rule.now.count day window.first;
      until = rule.now.until;
      count = rule.now.count;
    } }
    ensures late { result.count ≡ None → window.first ≤ℤ result.start }
{
    let (first, _) = window.ends();
    Bounds {
        start: start_from(rule.count(), day, first),
        until: rule.until(),
        count: rule.count(),
    }
}

/// Lists the days of a set in a window. Without a count they don't begin before the window, and no day is counted.
pub(crate) fn list_days<S: Periods>(periods: S, bounds: Bounds, window: Window) -> Listing<S>
    requires late { bounds.count ≡ None → window.first ≤ℤ bounds.start }
    ensures items { (xs : List Occurrence) → AreLeft (IsOfSome (S.has periods)) bounds result.rest xs
        ↔ AreOccurrences (IsOfSome (S.has periods)) bounds window.first window.last xs }
    ensures rest { ForSome result.rest (IsRestOf bounds window) }
    ensures parts { (result.periods ≡ periods) × (result.bounds ≡ bounds) }
{
    match bounds.count {
        None => Listing::resume(periods, bounds, window, 0),
        Some(_) => Listing::new(periods, bounds, window),
    }
}
