//! A caller of listings, and what it can promise.

ghost use Rattle.std.specs.Prelude.{IfOk};
ghost use Rattle.recurrence_sets.specs.Occurrences.{AreOccurrences, IsOfSome};

use cal_types::Window;
use recurrence_sets::{Bounds, Listing, Occurrence, Periods};
use std::alloc::{AllocError, Global};

/// Collects all occurrences in a window.
pub fn all_items<S: Periods>(
    alloc: Global,
    periods: S,
    bounds: Bounds,
    window: Window,
) -> Result<Vec<Occurrence>, AllocError>
    ensures { IfOk result
        (λ xs. AreOccurrences (IsOfSome (S.has periods)) bounds window.first window.last xs.items) }
{
    let mut items = Listing::new(periods, bounds, window);
    let mut given = Vec::new(alloc);
    'given: loop {
        match items.next() {
            None => return Ok(given),
            Some(item) => given.push(item)?,
        }
    }
}
