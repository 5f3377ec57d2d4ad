//! Callers of recurrences, and what they can promise.

ghost use Rattle.std.specs.Prelude.{◌≡◌, ◌++◌, IsTrue, IfOk};
ghost use Rattle.cal_recur.specs.Listing.{occurrences, occurrences_left};

use cal_base::Calendar;
use cal_recur::{Occurrence, Rule, recur};
use cal_types::Window;
use std::alloc::{AllocError, Global};

/// Collects all occurrences in a window.
pub fn all_items<C: Calendar + Copy>(
    alloc: Global,
    calendar: C,
    start: C::DateInner,
    rule: Rule,
    window: Window,
) -> Result<Vec<Occurrence>, AllocError>
    requires { IsTrue (C.belongs calendar start) }
    ensures { let s = C.system calendar in let t = C.date_of calendar start in
        IfOk result (λ xs. xs.items ≡ occurrences s t rule window.first window.last) }
{
    recur(calendar, start, rule, window).collect(alloc)
}

/// Collects at most `count` items in a window, and returns them with the rest of the window. The list over the window is
/// these items, followed by the list over the rest.
pub fn first_items<C: Calendar + Copy>(
    alloc: Global,
    calendar: C,
    start: C::DateInner,
    rule: Rule,
    window: Window,
    count: usize,
) -> Result<(Vec<Occurrence>, Option<Window>), AllocError>
    requires { IsTrue (C.belongs calendar start) }
    ensures { let s = C.system calendar in let t = C.date_of calendar start in
        IfOk result (λ r. occurrences s t rule window.first window.last
        ≡ r.0.items ++ occurrences_left s t rule r.1) }
{
    let mut items = recur(calendar, start, rule, window);
    let mut given = Vec::new(alloc);
    'given: while given.len() < count {
        let Some(item) = items.next() else {
            break;
        };
        given.push(item)?;
    }
    Ok((given, items.rest()))
}
