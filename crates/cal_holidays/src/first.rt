//! The first days that rules name in a window.

ghost use Rattle.std.specs.Prelude.{◌≡◌, ◌<◌, ◌≤ℤ◌, length, option_map};
ghost use Rattle.cal_days.specs.Day.{IsValidDay};
ghost use Rattle.cal_days.specs.declared.ranges.TheConstants.{FIRST_VALID_DAY};
ghost use Rattle.cal_holidays.specs.Merging.{IsFirst, IsFirstDay, IsInPlace};

use crate::rest::Rest;
use crate::rules::NumberedRules;
use cal_days::RataDie;

/// The number of first days that are kept. Rules whose numbers differ by a multiple of 64 share a place.
pub(crate) const PLACES: usize = 64;

/// A day and a rule that names it.
#[derive(Clone, Copy)]
pub(crate) struct First {
    pub day: i64,
    pub rule: usize,
}

ghost use Rattle.cal_holidays.specs.Found.{IsEarlier, IsEarliest, pair_of, stretch_of};

/// Returns the earlier of two first days, by day and then by rule.
fn earlier(a: Option<First>, b: Option<First>) -> Option<First>
    ensures { IsEarlier a b result }
{
    match (a, b) {
        (Some(x), Some(y)) if (y.day, y.rule) < (x.day, x.rule) => b,
        (Some(_), _) => a,
        (None, _) => b,
    }
}

/// Returns the earliest of some first days, by day and then by rule.
pub(crate) fn earliest(all: &[Option<First>]) -> Option<First>
    ensures { IsEarliest all.now (length all.now) result }
{
    let mut best = None;
    for first in all {
        best = earlier(best, *first);
    }
    best
}

/// Returns the first day from `from` to `last` that a rule names. `from` may be after `last`.
fn first_day<R: NumberedRules>(rules: &R, rule: usize, from: i64, last: RataDie) -> Option<RataDie>
    requires rule { rule < R.count_of rules.now }
    requires from { FIRST_VALID_DAY ≤ℤ from }
    requires to { IsValidDay last }
    ensures { IsFirstDay (R.names rules.now rule) from last result }
{
    if from > last.to_i64_date() {
        return None;
    }
    rules.first_day(rule, RataDie::new(from), last)
}

/// Returns the first day in the rest of a list that a rule names.
fn first_of_rule<R: NumberedRules>(rules: &R, rule: usize, rest: Rest) -> Option<First>
    requires { rule < R.count_of rules.now }
    ensures { let names = R.names rules.now in let count = R.count_of rules.now in
        IsFirst names count (λ r. r ≡ rule) (stretch_of rest) (option_map pair_of result) }
{
    let day = first_day(rules, rule, rest.begin_of(rule), rest.window.last())?;
    Some(First {
        day: day.to_i64_date(),
        rule,
    })
}

/// Returns the first day in the rest of a list that any rule of a place names.
pub(crate) fn first_of_place<R: NumberedRules>(rules: &R, place: usize, rest: Rest) -> Option<First>
    requires { place < 64 }
    ensures { let names = R.names rules.now in let count = R.count_of rules.now in
        IsFirst names count (IsInPlace place) (stretch_of rest) (option_map pair_of result) }
{
    let count = rules.count();
    let mut best = None;
    let mut rule = place;
    while rule < count {
        best = earlier(best, first_of_rule(rules, rule, rest));
        rule += PLACES;
    }
    best
}
