//! The derived equality of the errors of anniversaries.

ghost use Rattle.std.specs.Prelude.{◌≡◌, ◌↔◌, IsTrue};

use cal_anniversary::AnniversaryError;

/// Returns whether two errors are equal.
pub fn are_equal_errors(first: AnniversaryError, second: AnniversaryError) -> bool
    ensures { IsTrue result ↔ (first ≡ second) }
{
    first == second
}
