//! The occurrences of a rule in a window.

ghost use Rattle.std.specs.Prelude.{◌≡◌, ◌+◌, ◌≤◌, ◌↔◌, IsTrue, List, ℕ, ℤ};
ghost use Rattle.std.specs.Option.{ForSome};
ghost use Rattle.cal_days.specs.Day.{IsValidDay};
ghost use Rattle.cal_rrule.specs.Blocks.{IsOfBlock, start_of};
ghost use Rattle.cal_rrule.specs.Listing.{AreDayItems, AreLeftOf, HasBefore, HasBeforeOf, day_bounds};
ghost use Rattle.cal_rrule.specs.NearDays.{IsNearList};
ghost use Rattle.cal_rrule.specs.Occurrences.{AreOccurrences, IsKept, bounds_of};
ghost use Rattle.recurrence_sets.specs.Bounds.{IsRestOf};
ghost use Rattle.recurrence_sets.specs.Occurrences.{IsOfSome};
ghost use Rattle.recurrence_sets.specs.declared.occurrence.Occurrence.{Occurrence};

use crate::rule_periods::RulePeriods;
use crate::set_days::{bounds_from_day, list_days};
use cal_arith::Steps;
use cal_base::Calendar;
use cal_days::RataDie;
use cal_rule::RecurrenceRule;
use cal_types::Window;
use recurrence_sets::{Bounds, Listing};
use std::sync::ledger::Ledger;

/// Returns the bounds of a rule that starts on a day.
fn bounds_from(rule: &RecurrenceRule, day: RataDie) -> Bounds
    ensures { result ≡ record { start = day; until = rule.now.until; count = rule.now.count } }
{
    Bounds {
        start: day,
        until: rule.until(),
        count: rule.count(),
    }
}

/// Returns the occurrences of a rule in a window, in order and each once, with their indices: an iterator.
///
/// A day is an occurrence if the rule has it in one of its periods, from the start on and up to UNTIL, and if fewer
/// than COUNT such days lie before it (RFC 5545, 3.3.10; RFC 7529, 4). An item's index is how many lie before it, from
/// the start on. The start is an occurrence only if the rule has it. What the rule doesn't say comes from the start:
/// its day of the month, its weekday or its month. Occurrences have the same indices whatever the window is: those
/// before it are counted, too.
///
/// The start has to belong to the calendar, which [`Calendar::owns`] checks. Every inner date that the calendar returns
/// does.
///
/// [`Listing::rest`] returns the days of the window that are left, and [`Listing::next_index`] the index of the next
/// item. A list of the same rule and start over the days that are left has exactly the items that are left, and
/// [`resume_occurrences`] lists them without counting from the start. No memory is allocated. Each month or year that is
/// passed is looked at once, from the start on and until the window ends, which [`rule_occurrences_counted`] counts.
///
/// # Examples
///
/// ```
/// let rule = RecurrenceRule::try_from_str("FREQ=MONTHLY;BYDAY=-1FR", AnyCalendarKind::Iso)?;
/// let window = Window::try_new(RataDie::new(738886), RataDie::new(738976))?;
/// let start = Iso.from_rata_die(RataDie::new(738521)); // 2023-01-01
/// let mut items = rule_occurrences(Iso, &start, rule, window);
/// let item = items.next()?;
/// assert!(rt; item.day.to_i64_date() == 738911); // 2024-01-26
/// assert!(rt; item.index == 12);
/// ```
pub fn rule_occurrences<C: Calendar>(
    calendar: C,
    start: &C::DateInner,
    rule: RecurrenceRule,
    window: Window,
) -> Listing<RulePeriods<C>>
    requires belongs { IsTrue (C.belongs calendar start.now) }
    requires nearby { IsNearList (C.system calendar).list }
    ensures items { let list = (C.system calendar).list in let t = C.date_of calendar start.now in
        let p = result.periods in (xs : List Occurrence) →
        AreLeftOf (C.system p.calendar).list p.asked result.bounds result.rest xs
        ↔ AreOccurrences list rule t window.first window.last xs }
    ensures counts { let list = (C.system calendar).list in let t = C.date_of calendar start.now in
        let p = result.periods in (day : ℤ) (index : ℕ) →
        HasBeforeOf (C.system p.calendar).list p.asked result.bounds day index → HasBefore list rule t day index }
    ensures days { let list = (C.system calendar).list in let t = C.date_of calendar start.now in
        let p = result.periods in (n : ℤ) → IsValidDay n →
        IsOfSome (IsOfBlock (C.system p.calendar).list p.asked.rule (start_of p.asked)) n
        ↔ IsOfSome (IsKept list rule t) n }
    ensures bounds { result.bounds ≡ bounds_of (C.system calendar).list rule (C.date_of calendar start.now) }
    ensures rest { ForSome result.rest (IsRestOf result.bounds window) }
    ensures parts { let p = result.periods in (p.calendar ≡ calendar) × (p.asked.rule ≡ rule)
        × (start_of p.asked ≡ C.date_of calendar start.now) }
{
    let day = calendar.to_rata_die(start);
    let bounds = bounds_from(&rule, day);
    let periods = RulePeriods::new(calendar, rule, day);
    Listing::new(periods, bounds, window)
}

/// Returns the occurrences as [`rule_occurrences`] does, and counts the looks at the rule's months or years: one tick for
/// each that is passed, and at most two more. [`Listing::next_counted`] counts on.
pub fn rule_occurrences_counted<C: Calendar, L: Ledger>(
    calendar: C,
    start: &C::DateInner,
    rule: RecurrenceRule,
    window: Window,
    steps: &mut Steps<L>,
) -> Listing<RulePeriods<C>>
    requires belongs { IsTrue (C.belongs calendar start.now) }
    requires nearby { IsNearList (C.system calendar).list }
    ensures items { let list = (C.system calendar).list in let t = C.date_of calendar start.now in
        let p = result.periods in (xs : List Occurrence) →
        AreLeftOf (C.system p.calendar).list p.asked result.bounds result.rest xs
        ↔ AreOccurrences list rule t window.first window.last xs }
    ensures counts { let list = (C.system calendar).list in let t = C.date_of calendar start.now in
        let p = result.periods in (day : ℤ) (index : ℕ) →
        HasBeforeOf (C.system p.calendar).list p.asked result.bounds day index → HasBefore list rule t day index }
    ensures days { let list = (C.system calendar).list in let t = C.date_of calendar start.now in
        let p = result.periods in (n : ℤ) → IsValidDay n →
        IsOfSome (IsOfBlock (C.system p.calendar).list p.asked.rule (start_of p.asked)) n
        ↔ IsOfSome (IsKept list rule t) n }
    ensures bounds { result.bounds ≡ bounds_of (C.system calendar).list rule (C.date_of calendar start.now) }
    ensures rest { ForSome result.rest (IsRestOf result.bounds window) }
    ensures parts { let p = result.periods in (p.calendar ≡ calendar) × (p.asked.rule ≡ rule)
        × (start_of p.asked ≡ C.date_of calendar start.now) }
    ensures ticks { steps.new ≤ steps.old + 2 + result.looks.period }
{
    let day = calendar.to_rata_die(start);
    let bounds = bounds_from(&rule, day);
    let periods = RulePeriods::new(calendar, rule, day);
    Listing::new_counted(periods, bounds, window, steps)
}

/// Returns the occurrences of a rule in a window, given how many lie before it, from the start on. It goes on where
/// another list was left, and counts nothing.
///
/// # Examples
///
/// ```
/// let rule = RecurrenceRule::try_from_str("FREQ=MONTHLY;BYDAY=-1FR", AnyCalendarKind::Iso)?;
/// let window = Window::try_new(RataDie::new(738886), RataDie::new(738976))?;
/// let start = Iso.from_rata_die(RataDie::new(738521)); // 2023-01-01
/// let mut items = rule_occurrences(Iso, &start, rule, window);
/// assert!(rt; items.next()?.index == 12);
/// let mut others = resume_occurrences(Iso, &start, rule, items.rest()?, items.next_index());
/// let item = others.next()?;
/// assert!(rt; item.day.to_i64_date() == 738939); // 2024-02-23
/// assert!(rt; item.index == 13);
/// ```
pub fn resume_occurrences<C: Calendar>(
    calendar: C,
    start: &C::DateInner,
    rule: RecurrenceRule,
    window: Window,
    index: u32,
) -> Listing<RulePeriods<C>>
    requires belongs { IsTrue (C.belongs calendar start.now) }
    requires nearby { IsNearList (C.system calendar).list }
    requires counted { let list = (C.system calendar).list in
        HasBefore list rule (C.date_of calendar start.now) window.first index }
    ensures items { let list = (C.system calendar).list in let t = C.date_of calendar start.now in
        let p = result.periods in (xs : List Occurrence) →
        AreLeftOf (C.system p.calendar).list p.asked result.bounds result.rest xs
        ↔ AreOccurrences list rule t window.first window.last xs }
    ensures counts { let list = (C.system calendar).list in let t = C.date_of calendar start.now in
        let p = result.periods in (day : ℤ) (index : ℕ) →
        HasBeforeOf (C.system p.calendar).list p.asked result.bounds day index → HasBefore list rule t day index }
    ensures days { let list = (C.system calendar).list in let t = C.date_of calendar start.now in
        let p = result.periods in (n : ℤ) → IsValidDay n →
        IsOfSome (IsOfBlock (C.system p.calendar).list p.asked.rule (start_of p.asked)) n
        ↔ IsOfSome (IsKept list rule t) n }
    ensures bounds { result.bounds ≡ bounds_of (C.system calendar).list rule (C.date_of calendar start.now) }
    ensures rest { ForSome result.rest (IsRestOf result.bounds window) }
    ensures parts { let p = result.periods in (p.calendar ≡ calendar) × (p.asked.rule ≡ rule)
        × (start_of p.asked ≡ C.date_of calendar start.now) }
{
    let day = calendar.to_rata_die(start);
    let bounds = bounds_from(&rule, day);
    let periods = RulePeriods::new(calendar, rule, day);
    Listing::resume(periods, bounds, window, index)
}

/// Returns the days on which a rule recurs in a window, in order and each once: an iterator.
///
/// These are the days of the occurrences that [`rule_occurrences`] returns. If the rule has COUNT, an item's index counts
/// from the start on, as there. Otherwise the days before the window aren't counted, and an index counts from the first
/// day of the window on: [`rule_occurrences`] returns the indices that count from the start.
///
/// The start has to belong to the calendar, which [`Calendar::owns`] checks. No memory is allocated. Each month or year
/// that is passed is looked at once.
///
/// # Examples
///
/// ```
/// let rule = RecurrenceRule::try_from_str("FREQ=DAILY;INTERVAL=10", AnyCalendarKind::Iso)?;
/// let window = Window::try_new(RataDie::new(738886), RataDie::new(738976))?;
/// let start = Iso.from_rata_die(RataDie::new(100)); // 0001-04-10
/// let mut days = occurrence_days(Iso, &start, rule, window);
/// assert!(rt; days.next()?.day.to_i64_date() == 738890); // 2024-01-05
/// ```
pub fn occurrence_days<C: Calendar>(
    calendar: C,
    start: &C::DateInner,
    rule: RecurrenceRule,
    window: Window,
) -> Listing<RulePeriods<C>>
    requires belongs { IsTrue (C.belongs calendar start.now) }
    requires nearby { IsNearList (C.system calendar).list }
    ensures items { let list = (C.system calendar).list in let t = C.date_of calendar start.now in
        let p = result.periods in (xs : List Occurrence) →
        AreLeftOf (C.system p.calendar).list p.asked result.bounds result.rest xs
        ↔ AreDayItems list rule t window.first window.last xs }
    ensures days { let list = (C.system calendar).list in let t = C.date_of calendar start.now in
        let p = result.periods in (n : ℤ) → IsValidDay n →
        IsOfSome (IsOfBlock (C.system p.calendar).list p.asked.rule (start_of p.asked)) n
        ↔ IsOfSome (IsKept list rule t) n }
    ensures bounds { let t = C.date_of calendar start.now in
        result.bounds ≡ day_bounds (C.system calendar).list rule t window.first }
    ensures rest { ForSome result.rest (IsRestOf result.bounds window) }
    ensures parts { let p = result.periods in (p.calendar ≡ calendar) × (p.asked.rule ≡ rule)
        × (start_of p.asked ≡ C.date_of calendar start.now) }
{
    let day = calendar.to_rata_die(start);
    let bounds = bounds_from_day(&rule, day, window);
    let periods = RulePeriods::new(calendar, rule, day);
    list_days(periods, bounds, window)
}
