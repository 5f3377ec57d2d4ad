//! Recurrences that start at a date.

ghost use Rattle.std.specs.Prelude.{◌≡◌, Some};
ghost use Rattle.cal_recur.specs.Listing.{AreOccurrences, occurrences, occurrences_left};

use crate::date::Date;
use cal_base::{AsCalendar, Calendar};
use cal_recur::{Recurrence, Rule, recur};
use cal_types::Window;

impl<A: AsCalendar> Date<A>
where
    A::Calendar: Calendar + Copy,
{
    /// Returns the occurrences of a rule in a window, in order: this date with 0, 1, 2, .. times the rule's units
    /// added.
    ///
    /// Each occurrence counts from this date, and none is before it. Occurrences that the rule skips, or whose sum is
    /// out of range, are left out. Later occurrences keep their indices.
    ///
    /// Yearly from February 29, 2012 to February 29, 2020, the indices are 0, 4 and 8 under
    /// [`Missing::Skip`](cal_recur::Missing::Skip). Under [`Missing::Constrain`](cal_recur::Missing::Constrain) they
    /// are 0 to 8, with February 28 in common years.
    ///
    /// Takes no memory. See [`recur`] for the cost of an item.
    ///
    /// # Examples
    ///
    /// ```
    /// let rule = Rule::try_new(DateDurationUnit::Months, 1, Missing::Constrain)?;
    /// let window = Window::try_new(RataDie::new(737821), RataDie::new(737910))?;
    /// let mut items = Date::from_rata_die(RataDie::new(737821), Iso).recur(rule, window);
    /// assert!(rt; items.next()?.day.to_i64_date() == 737821); // 2021-01-31
    /// assert!(rt; items.next()?.day.to_i64_date() == 737849); // 2021-02-28
    /// ```
    pub fn recur(&self, rule: Rule, window: Window) -> Recurrence<A::Calendar>
        ensures items { let s = A.Calendar.system result.calendar in
            let t = A.Calendar.date_of result.calendar result.start in
            let c = A.cal_of self.now.calendar in
            let start = A.Calendar.date_of c self.now.inner in
            occurrences_left s t result.rule result.rest
            ≡ occurrences (A.Calendar.system c) start rule window.first window.last }
        ensures meant { let c = A.cal_of self.now.calendar in
            let s = A.Calendar.system c in let t = A.Calendar.date_of c self.now.inner in
            let first = window.first in let last = window.last in
            AreOccurrences s t rule first last (occurrences s t rule first last) }
        ensures parts { (result.calendar ≡ A.cal_of self.now.calendar) × (result.start ≡ self.now.inner)
            × (result.rule ≡ rule) }
        ensures rest { result.rest ≡ Some window }
    {
        recur(*self.calendar(), *self.inner(), rule, window)
    }
}
