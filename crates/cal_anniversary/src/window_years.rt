//! The years of a window.

ghost use Rattle.cal_anniversary.specs.Listing.{AreYearsOf};

use cal_base::Calendar;
use cal_types::Window;

/// The years of a window's first and last day.
#[derive(Clone, Copy)]
pub(crate) struct WindowYears {
    pub(crate) first: i32,
    pub(crate) last: i32,
}

/// Returns the years of a window's first and last day.
pub(crate) fn years_of<C: Calendar>(calendar: &C, window: Window) -> WindowYears
    ensures { AreYearsOf (C.system calendar.now).list window result.first result.last }
{
    let first = calendar.from_rata_die(window.first());
    let last = calendar.from_rata_die(window.last());
    WindowYears {
        first: calendar.extended_year(&first),
        last: calendar.extended_year(&last),
    }
}
