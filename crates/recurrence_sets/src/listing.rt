//! An iterator over the occurrences of a recurrence set in a window.

ghost use Rattle.std.specs.Prelude.{◌≡◌, ◌<◌};
ghost use Rattle.std.specs.Option.{ForSome};
ghost use Rattle.cal_types.specs.Windows.{IsWindow};
ghost use Rattle.recurrence_sets.specs.Listing.{AreLooks, ArePassed, IsListing};

use crate::bounds::Bounds;
use crate::looks::{Looks, next_day};
use crate::near_looks::near_looks;
use crate::occurrence::Occurrence;
use crate::passing::pass_before;
use crate::periods::Periods;
use cal_arith::Steps;
use cal_days::RataDie;
use cal_types::Window;
use std::marker::Brand;
use std::sync::ledger::{Blank, Ledger};

/// The occurrences of a recurrence set in a window: an iterator with ascending indices and days.
///
/// The call [`Listing::new`] counts the days before the window. [`Listing::resume`] is given their number.
///
/// A look at a period is one call of [`Periods::days`]. [`Listing::next_counted`] adds at most as many ticks as periods
/// are passed, and [`Listing::new_counted`] at most two more, so that each period is looked at once. Only
/// [`Listing::resume`] looks at some more, to begin near its window. No memory is allocated.
#[derive(Drop)]
pub struct Listing<S: Periods> {
    periods: S,
    bounds: Bounds,
    /// The days of the window that are left.
    rest: Option<Window>,
    /// The index of the next item.
    index: u32,
    /// What was seen of the period that the next item may be in.
    looks: Looks,
    ghost listing: { ForSome rest (λ w. IsListing (S.has periods) bounds index looks w) },
}

impl<S: Periods> Listing<S> {
    ghost use Rattle.std.specs.Prelude.{◌+◌, ◌≤◌, ◌↔◌, IfSome, List, None};
    ghost use Rattle.recurrence_sets.specs.Bounds.{IsRestOf};
    ghost use Rattle.recurrence_sets.specs.Occurrences.{AreLeft, AreOccurrences, IsOfSome};
    ghost use Rattle.recurrence_sets.specs.Listing.{GoesOn, HasBefore, days_left};
    ghost use Rattle.recurrence_sets.specs.declared.occurrence.Occurrence.{Occurrence};

    /// Lists the occurrences in a window, and counts the days before it from the start on.
    pub fn new(periods: S, bounds: Bounds, window: Window) -> Listing<S>
        ensures items { (xs : List Occurrence) → AreLeft (IsOfSome (S.has periods)) bounds result.rest xs
            ↔ AreOccurrences (IsOfSome (S.has periods)) bounds window.first window.last xs }
        ensures rest { ForSome result.rest (IsRestOf bounds window) }
        ensures parts { (result.periods ≡ periods) × (result.bounds ≡ bounds) }
    {
        Listing::<S>::new_with_blank::<Brand>(periods, bounds, window, Blank::new(1))
    }

    /// Lists the occurrences in a window as [`Listing::new`] does, and counts the looks at periods: at most two, and one
    /// for each period that is passed.
    pub fn new_counted<L: Ledger>(
        periods: S,
        bounds: Bounds,
        window: Window,
        steps: &mut Steps<L>,
    ) -> Listing<S>
        ensures items { (xs : List Occurrence) → AreLeft (IsOfSome (S.has periods)) bounds result.rest xs
            ↔ AreOccurrences (IsOfSome (S.has periods)) bounds window.first window.last xs }
        ensures rest { ForSome result.rest (IsRestOf bounds window) }
        ensures parts { (result.periods ≡ periods) × (result.bounds ≡ bounds) }
        ensures ticks { steps.new ≤ steps.old + 2 + result.looks.period }
    {
        let Some(rest) = bounds.days_within(window) else {
            return Listing::ended(periods, bounds, 0);
        };
        let (first, last) = rest.ends();
        let start = bounds.first_day();
        let (period, passed) = pass_before(&periods, &bounds, start, first, last, steps);
        let Some(passed) = passed else {
            return Listing::ended(periods, bounds, period);
        };
        Listing {
            periods,
            bounds,
            rest: Some(rest),
            index: passed.index,
            looks: passed.looks,
        }
    }

    /// Lists the occurrences in a window, with a counter that nobody reads.
    fn new_with_blank<L: Ledger>(
        periods: S,
        bounds: Bounds,
        window: Window,
        blank: Blank,
    ) -> Listing<S>
        requires name { blank.name ≡ L.name }
        requires parts { blank.parts ≡ L.parts }
        requires some { 0 < blank.parts }
        ensures items { (xs : List Occurrence) → AreLeft (IsOfSome (S.has periods)) bounds result.rest xs
            ↔ AreOccurrences (IsOfSome (S.has periods)) bounds window.first window.last xs }
        ensures rest { ForSome result.rest (IsRestOf bounds window) }
        ensures parts { (result.periods ≡ periods) × (result.bounds ≡ bounds) }
    {
        let mut steps = Steps::<L>::new(blank);
        Listing::new_counted(periods, bounds, window, &mut steps)
    }

    /// Lists the occurrences in a window, given how many days of the set lie before it from the start on. It goes on
    /// where another listing was left, and counts nothing. It takes at most 870 looks before those of the first item,
    /// whatever lies before the window.
    pub fn resume(periods: S, bounds: Bounds, window: Window, index: u32) -> Listing<S>
        requires { HasBefore (IsOfSome (S.has periods)) bounds window.first index }
        ensures items { (xs : List Occurrence) → AreLeft (IsOfSome (S.has periods)) bounds result.rest xs
            ↔ AreOccurrences (IsOfSome (S.has periods)) bounds window.first window.last xs }
        ensures rest { ForSome result.rest (IsRestOf bounds window) }
        ensures parts { (result.periods ≡ periods) × (result.bounds ≡ bounds) }
    {
        let Some(rest) = bounds.days_within(window) else {
            return Listing::ended(periods, bounds, 0);
        };
        let (first, last) = rest.ends();
        let looks = near_looks_with_blank::<S, Brand>(&periods, first, last, Blank::new(1));
        Listing {
            periods,
            bounds,
            rest: Some(rest),
            index,
            looks,
        }
    }

    /// Lists nothing, once so many periods were passed.
    fn ended(periods: S, bounds: Bounds, period: u32) -> Listing<S>
        ensures parts { (result.periods ≡ periods) × (result.bounds ≡ bounds) }
        ensures rest { result.rest ≡ None }
        ensures period { result.looks.period ≡ period }
    {
        Listing {
            periods,
            bounds,
            rest: None,
            index: 0,
            looks: Looks {
                period,
                current: None,
                following: None,
            },
        }
    }

    /// Returns the days of the window that are left: those after the last item. Before the first item, these are the
    /// days of the window from the start on and up to the last day of the set.
    ///
    /// Returns `None` if no days are left, or if `next` has returned `None`.
    pub fn rest(&self) -> Option<Window>
        ensures { result ≡ self.now.rest }
    {
        self.rest
    }

    /// Returns the index of the next item. With [`Listing::rest`] it is what [`Listing::resume`] goes on from.
    pub fn next_index(&self) -> u32
        ensures { ForSome self.now.rest
            (λ w. HasBefore (IsOfSome (S.has self.now.periods)) self.now.bounds w.first result) }
    {
        self.index
    }

    /// Returns the next occurrence as `next` does, and counts the looks at periods: at most one for each period that is
    /// passed, so that no period is looked at twice.
    pub fn next_counted<L: Ledger>(&mut self, steps: &mut Steps<L>) -> Option<Occurrence>
        ensures gives { GoesOn (IsOfSome (S.has self.old.periods)) self.old.bounds self.old.rest result self.new.rest
            × (self.new.periods ≡ self.old.periods) × (self.new.bounds ≡ self.old.bounds) }
        ensures fewer { IfSome result (λ _. days_left self.new.rest < days_left self.old.rest) }
        ensures ticks { steps.new + self.old.looks.period ≤ steps.old + self.new.looks.period }
    {
        let window = self.rest?;
        if self.bounds.has_all(self.index) {
            self.rest = None;
            return None;
        }
        let (first, last) = window.ends();
        let (looks, found) = next_day(&self.periods, &self.looks, first, last, steps);
        self.looks = looks;
        match found {
            None => {
                self.rest = None;
                None
            }
            Some(day) => {
                let item = Occurrence {
                    index: self.index,
                    day,
                };
                self.index += 1;
                self.rest = window.after(day);
                Some(item)
            }
        }
    }

    /// Returns the next occurrence, with a counter that nobody reads.
    fn next_with_blank<L: Ledger>(&mut self, blank: Blank) -> Option<Occurrence>
        requires name { blank.name ≡ L.name }
        requires parts { blank.parts ≡ L.parts }
        requires some { 0 < blank.parts }
        ensures gives { GoesOn (IsOfSome (S.has self.old.periods)) self.old.bounds self.old.rest result self.new.rest
            × (self.new.periods ≡ self.old.periods) × (self.new.bounds ≡ self.old.bounds) }
        ensures fewer { IfSome result (λ _. days_left self.new.rest < days_left self.old.rest) }
    {
        let mut steps = Steps::<L>::new(blank);
        self.next_counted(&mut steps)
    }
}

/// Looks at two periods near a window, with a counter that nobody reads.
fn near_looks_with_blank<S: Periods, L: Ledger>(
    periods: &S,
    first: RataDie,
    last: RataDie,
    blank: Blank,
) -> Looks
    requires days { IsWindow first last }
    requires name { blank.name ≡ L.name }
    requires parts { blank.parts ≡ L.parts }
    requires some { 0 < blank.parts }
    ensures looks { AreLooks (S.has periods.now) last result }
    ensures passed { ArePassed (S.has periods.now) result.period first last }
{
    let mut steps = Steps::<L>::new(blank);
    near_looks(periods, first, last, &mut steps)
}

impl<S: Periods> Iterator for Listing<S> {
    ghost use Rattle.std.specs.Iterator.{at_most};
    ghost use Rattle.recurrence_sets.specs.Occurrences.{IsOfSome};
    ghost use Rattle.recurrence_sets.specs.Listing.{GoesOn, days_left};

    type Item = Occurrence;

    ghost next_gives = { λ s r t. GoesOn (IsOfSome (S.has s.periods)) s.bounds s.rest r t.rest
        × (t.periods ≡ s.periods) × (t.bounds ≡ s.bounds) };

    ghost remaining = { λ s. at_most (days_left s.rest) };

    fn next(&mut self) -> Option<Occurrence> {
        self.next_with_blank::<Brand>(Blank::new(1))
    }
}
