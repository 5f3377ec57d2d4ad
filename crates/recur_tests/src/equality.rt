//! The derived equality of the types of recurrences: two values are equal exactly if all their parts are.

ghost use Rattle.std.specs.Prelude.{◌≡◌, ◌↔◌, IsTrue};

use cal_recur::{Missing, Occurrence, Rule};

/// Returns whether two occurrences are equal: the index and the day are.
pub fn are_equal_occurrences(first: Occurrence, second: Occurrence) -> bool
    ensures { IsTrue result ↔ (first ≡ second) }
{
    first == second
}

/// Returns whether two rules are equal: the unit, its number and the way to handle missing dates are.
pub fn are_equal_rules(first: Rule, second: Rule) -> bool
    ensures { IsTrue result ↔ (first ≡ second) }
{
    first == second
}

/// Returns whether two ways to handle missing dates are equal.
pub fn are_equal_ways(first: Missing, second: Missing) -> bool
    ensures { IsTrue result ↔ (first ≡ second) }
{
    first == second
}
