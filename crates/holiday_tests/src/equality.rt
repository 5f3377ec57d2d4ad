//! The derived equality of the types of holidays: two values are equal exactly if all their parts are.

ghost use Rattle.std.specs.Prelude.{◌≡◌, ◌↔◌, IsTrue};

use cal_holidays::{BookError, Holiday};
use cal_kinds::AnyCalendarKind;

/// Returns whether two holidays are equal: the day and the rule's number are.
pub fn are_equal_holidays(first: Holiday, second: Holiday) -> bool
    ensures { IsTrue result ↔ (first ≡ second) }
{
    first == second
}

/// Returns whether two errors are equal: they are of one kind, with equal numbers.
pub fn are_equal_errors(first: BookError, second: BookError) -> bool
    ensures { IsTrue result ↔ (first ≡ second) }
{
    first == second
}

/// Returns whether two kinds of calendars are equal: a kind is equal to itself only.
pub fn are_equal_kinds(first: AnyCalendarKind, second: AnyCalendarKind) -> bool
    ensures { IsTrue result ↔ (first ≡ second) }
{
    first == second
}
