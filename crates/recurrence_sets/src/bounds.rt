//! What bounds a recurrence set.

ghost use Rattle.std.specs.Prelude.{◌≡◌, negsuc};
ghost use Rattle.recurrence_sets.specs.Bounds.{IsWithin, has_all, later};

use crate::looks::earlier;
use cal_days::RataDie;
use cal_days::ranges::FIRST_VALID_DAY;
use cal_types::Window;

/// The bounds of a recurrence set: its start, and what ends it.
#[derive(Clone, Copy, Debug, PartialEq)]
pub struct Bounds {
    /// The first day that can be an occurrence.
    pub start: RataDie,
    /// The last day that can be an occurrence.
    pub until: Option<RataDie>,
    /// How many occurrences there are at most.
    pub count: Option<u32>,
}

impl Bounds {
    /// Returns whether the set has no more occurrences, if so many lie before.
    pub(crate) fn has_all(&self, index: u32) -> bool
        ensures { result ≡ has_all self.now.count index }
    {
        match self.count {
            None => false,
            Some(count) => index >= count,
        }
    }

    /// Returns the first valid day from the start on.
    pub(crate) fn first_day(&self) -> RataDie
        ensures { result ≡ later (negsuc 365242498) self.now.start }
    {
        later(RataDie::new(FIRST_VALID_DAY), self.start)
    }

    /// Returns the days of a window from the start on and up to the last day of the set.
    pub(crate) fn days_within(&self, window: Window) -> Option<Window>
        ensures { IsWithin self.now window result }
    {
        let (first, last) = window.ends();
        let start = later(first, self.start);
        let end = earlier(last, self.until);
        Window::try_new(start, end)
    }
}

/// Returns the later one of two days.
fn later(first: RataDie, second: RataDie) -> RataDie
    ensures { result ≡ later first second }
{
    if first < second { second } else { first }
}
