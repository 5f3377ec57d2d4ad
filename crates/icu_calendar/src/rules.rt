//! Recurrence rules of iCalendar (RFC 5545, RRULE; RFC 7529, RSCALE and SKIP) in any calendar.
//!
//! [`RecurrenceRule::try_from_str`] reads a rule, and [`Date::rrule`] lists its days from a date on.
//!
//! ```
//! let rule = RecurrenceRule::try_from_str("FREQ=MONTHLY;BYDAY=-1FR", AnyCalendarKind::Iso).ok()?;
//! let window = Window::try_new(RataDie::new(738886), RataDie::new(738976))?;
//! let start = Date::from_rata_die(RataDie::new(738521), Iso); // 2023-01-01
//! let mut items = start.rrule(rule, window);
//! assert!(rt; items.next()?.day.to_i64_date() == 738911); // 2024-01-26
//! ```

ghost use Rattle.std.specs.Prelude.{◌≡◌, ◌↔◌, List, ℤ, ℕ};
ghost use Rattle.std.specs.Option.{ForSome};
ghost use Rattle.cal_days.specs.Day.{IsValidDay};
ghost use Rattle.cal_rrule.specs.Blocks.{IsOfBlock, start_of};
ghost use Rattle.cal_rrule.specs.Listing.{AreLeftOf, HasBefore, HasBeforeOf};
ghost use Rattle.cal_rrule.specs.Occurrences.{AreOccurrences, IsKept, bounds_of};
ghost use Rattle.recurrence_sets.specs.Bounds.{IsRestOf};
ghost use Rattle.recurrence_sets.specs.Occurrences.{IsOfSome};
ghost use Rattle.recurrence_sets.specs.declared.occurrence.Occurrence.{Occurrence};

use crate::date::Date;
pub use crate::rule_calendar::RuleCalendar;
use cal_base::{AsCalendar, Calendar};
pub use cal_rrule::{
    Listing, Occurrence, RulePeriods, occurrence_days, resume_occurrences, rule_occurrences,
    rule_occurrences_counted,
};
pub use cal_rule::{
    Frequency, MonthSet, Place, PlaceSet, RecurrenceRule, RuleError, RulePart, Skip, WeekdayPlace,
    WeekdayPlaces,
};
use cal_types::Window;

impl<A: AsCalendar> Date<A>
where
    A::Calendar: RuleCalendar + Copy,
{
    /// Returns the occurrences of a recurrence rule that starts at this date, in a window: an iterator with their
    /// indices, in order and each once.
    ///
    /// A day is an occurrence if the rule has it in one of its periods, from this date on and up to UNTIL, and if fewer
    /// than COUNT such days lie before it (RFC 5545, 3.3.10; RFC 7529, 4). An item's index is how many lie before it,
    /// whatever the window is. This date is an occurrence only if the rule has it.
    ///
    /// Takes no memory. See [`rule_occurrences`] for the cost of an item, and for how to go on with what is left of a
    /// window.
    ///
    /// # Examples
    ///
    /// ```
    /// let rule = RecurrenceRule::try_from_str(
    ///     "FREQ=YEARLY;BYMONTH=5L;SKIP=FORWARD",
    ///     AnyCalendarKind::Hebrew,
    /// )
    /// .ok()?;
    /// let window = Window::try_new(RataDie::new(738521), RataDie::new(739616))?;
    /// let start = Date::from_rata_die(RataDie::new(738197), Hebrew); // 10 Adar I 5782
    /// let mut items = start.rrule(rule, window);
    /// assert!(rt; items.next()?.day.to_i64_date() == 738582); // 10 Adar 5783
    /// assert!(rt; items.next()?.day.to_i64_date() == 738935); // 10 Adar I 5784
    /// ```
    pub fn rrule(&self, rule: RecurrenceRule, window: Window) -> Listing<RulePeriods<A::Calendar>>
        ensures items { let c = A.cal_of self.now.calendar in
            let list = (A.Calendar.system c).list in let t = A.Calendar.date_of c self.now.inner in
            let p = result.periods in (xs : List Occurrence) →
            AreLeftOf (A.Calendar.system p.calendar).list p.asked result.bounds result.rest xs
            ↔ AreOccurrences list rule t window.first window.last xs }
        ensures days { let c = A.cal_of self.now.calendar in
            let list = (A.Calendar.system c).list in let t = A.Calendar.date_of c self.now.inner in
            let p = result.periods in (n : ℤ) → IsValidDay n →
            IsOfSome (IsOfBlock (A.Calendar.system p.calendar).list p.asked.rule (start_of p.asked)) n
            ↔ IsOfSome (IsKept list rule t) n }
        ensures counts { let c = A.cal_of self.now.calendar in
            let list = (A.Calendar.system c).list in let t = A.Calendar.date_of c self.now.inner in
            let p = result.periods in (day : ℤ) (index : ℕ) →
            HasBeforeOf (A.Calendar.system p.calendar).list p.asked result.bounds day index →
            HasBefore list rule t day index }
        ensures rest { ForSome result.rest (IsRestOf result.bounds window) }
        ensures parts { let c = A.cal_of self.now.calendar in let p = result.periods in
            (p.calendar ≡ c) × (p.asked.rule ≡ rule)
            × (start_of p.asked ≡ A.Calendar.date_of c self.now.inner) }
    {
        rule_occurrences(*self.calendar(), self.inner(), rule, window)
    }

    /// Returns the occurrences of a recurrence rule that starts at this date, in a window, given how many lie before it
    /// from this date on. It goes on where another list was left, with what `rest` and `next_index` returned there, and
    /// counts nothing.
    ///
    /// # Examples
    ///
    /// ```
    /// let rule = RecurrenceRule::try_from_str("FREQ=MONTHLY;BYDAY=-1FR", AnyCalendarKind::Iso).ok()?;
    /// let window = Window::try_new(RataDie::new(738886), RataDie::new(738976))?;
    /// let start = Date::from_rata_die(RataDie::new(738521), Iso); // 2023-01-01
    /// let mut items = start.rrule(rule, window);
    /// assert!(rt; items.next()?.index == 12);
    /// let mut others = start.resume_rrule(rule, items.rest()?, items.next_index());
    /// assert!(rt; others.next()?.day.to_i64_date() == 738939); // 2024-02-23
    /// ```
    pub fn resume_rrule(
        &self,
        rule: RecurrenceRule,
        window: Window,
        index: u32,
    ) -> Listing<RulePeriods<A::Calendar>>
        requires { let c = A.cal_of self.now.calendar in
            HasBefore (A.Calendar.system c).list rule (A.Calendar.date_of c self.now.inner) window.first index }
        ensures items { let c = A.cal_of self.now.calendar in
            let list = (A.Calendar.system c).list in let t = A.Calendar.date_of c self.now.inner in
            let p = result.periods in (xs : List Occurrence) →
            AreLeftOf (A.Calendar.system p.calendar).list p.asked result.bounds result.rest xs
            ↔ AreOccurrences list rule t window.first window.last xs }
        ensures days { let c = A.cal_of self.now.calendar in
            let list = (A.Calendar.system c).list in let t = A.Calendar.date_of c self.now.inner in
            let p = result.periods in (n : ℤ) → IsValidDay n →
            IsOfSome (IsOfBlock (A.Calendar.system p.calendar).list p.asked.rule (start_of p.asked)) n
            ↔ IsOfSome (IsKept list rule t) n }
        ensures counts { let c = A.cal_of self.now.calendar in
            let list = (A.Calendar.system c).list in let t = A.Calendar.date_of c self.now.inner in
            let p = result.periods in (day : ℤ) (index : ℕ) →
            HasBeforeOf (A.Calendar.system p.calendar).list p.asked result.bounds day index →
            HasBefore list rule t day index }
        ensures rest { ForSome result.rest (IsRestOf result.bounds window) }
        ensures parts { let c = A.cal_of self.now.calendar in let p = result.periods in
            (p.calendar ≡ c) × (p.asked.rule ≡ rule)
            × (start_of p.asked ≡ A.Calendar.date_of c self.now.inner) }
    {
        resume_occurrences(*self.calendar(), self.inner(), rule, window, index)
    }
}
