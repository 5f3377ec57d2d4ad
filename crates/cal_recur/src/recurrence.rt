//! An iterator over the occurrences of a rule in a window.

ghost use Rattle.std.specs.Prelude.{◌≡◌, IsTrue, Some};
ghost use Rattle.std.specs.Option.{ForSome};
ghost use Rattle.std.specs.Iterator.{YieldsFirst, item_count};
ghost use Rattle.cal_recur.specs.FirstIndex.{AreBefore};
ghost use Rattle.cal_recur.specs.Listing.{AreOccurrences, GoesOn, occurrences, occurrences_left};

mod search;

use crate::near::index_near;
use crate::rule::Rule;
use cal_base::Calendar;
use cal_days::RataDie;
use cal_types::Window;
use search::first_within;

/// An occurrence of a rule.
#[derive(Clone, Copy, Debug, PartialEq)]
pub struct Occurrence {
    /// How many times the rule's units were added to the start: 0 is the start itself. At most 838240000, the most days
    /// that can be added.
    pub index: u32,
    /// The day number (rata die), from -365242499 to 365242134.
    pub day: RataDie,
}

/// The occurrences of a rule in a window: an iterator with ascending indices and days. [`recur`] creates it.
#[derive(Drop)]
pub struct Recurrence<C: Calendar> {
    calendar: C,
    start: C::DateInner,
    rule: Rule,
    /// The rest of the window.
    rest: Option<Window>,
    /// The index to look at next.
    index: u32,
    ghost belongs: { IsTrue (C.belongs calendar start) },
    ghost before: { ForSome rest
        (λ w. AreBefore (C.system calendar) (C.date_of calendar start) rule w.first index) },
}

/// Returns the occurrences of a rule in a window, in order: the start with 0, 1, 2, .. times the rule's units added.
///
/// Each occurrence counts from the start (ECMAScript Temporal, `NonISODateAdd`), and none is before it. Occurrences
/// that the rule skips, or whose sum is out of range, are left out. The start has to belong to the calendar, which
/// [`Calendar::owns`] checks. Every inner date that the calendar returns does.
///
/// Monthly from January 31, 2021 (day 737821) to April 30 (737910), the indices are 0, 1, 2 and 3 under
/// [`Missing::Constrain`]: the last days of the months. Under [`Missing::Skip`] they are 0 and 2: January 31 and March
/// 31.
///
/// Months take one difference ([`Calendar::until`]), from the start to the window's first day. Each occurrence takes
/// one sum ([`Calendar::add`]), or two if it is skipped, and at most one occurrence before the window is computed.
/// The cost doesn't depend on the distance from the start, and no memory is allocated.
///
/// [`Missing::Constrain`]: crate::Missing::Constrain
/// [`Missing::Skip`]: crate::Missing::Skip
///
/// # Examples
///
/// ```
/// let window = Window::try_new(RataDie::new(737821), RataDie::new(737910))?;
/// let rule = Rule::try_new(DateDurationUnit::Months, 1, Missing::Constrain)?;
/// let start = Iso.from_rata_die(RataDie::new(737821));
/// let mut items = recur(Iso, start, rule, window);
/// assert!(rt; items.next()?.day.to_i64_date() == 737821); // 2021-01-31
/// assert!(rt; items.next()?.day.to_i64_date() == 737849); // 2021-02-28
/// ```
pub fn recur<C: Calendar + Copy>(
    calendar: C,
    start: C::DateInner,
    rule: Rule,
    window: Window,
) -> Recurrence<C>
    requires { IsTrue (C.belongs calendar start) }
    ensures items { let s = C.system result.calendar in let t = C.date_of result.calendar result.start in
        occurrences_left s t result.rule result.rest
        ≡ occurrences (C.system calendar) (C.date_of calendar start) rule window.first window.last }
    ensures meant { let s = C.system calendar in let t = C.date_of calendar start in
        AreOccurrences s t rule window.first window.last (occurrences s t rule window.first window.last) }
    ensures parts { (result.calendar ≡ calendar) × (result.start ≡ start) × (result.rule ≡ rule) }
    ensures rest { result.rest ≡ Some window }
{
    let (first, _) = window.ends();
    let index = index_near(&calendar, &start, rule, first);
    Recurrence {
        calendar,
        start,
        rule,
        rest: Some(window),
        index,
    }
}

impl<C: Calendar + Copy> Recurrence<C> {
    /// Returns the rest of the window: the days after the last item, or the whole window before the first item.
    ///
    /// Returns `None` if the last item was on the window's last day, or if `next` has returned `None`. A caller may
    /// stop after any item and continue later: [`recur`] with the same start and rule over the rest lists the
    /// remaining items, with their indices.
    ///
    /// # Examples
    ///
    /// ```
    /// let window = Window::try_new(RataDie::new(737821), RataDie::new(737910))?;
    /// let rule = Rule::try_new(DateDurationUnit::Months, 1, Missing::Constrain)?;
    /// let start = Iso.from_rata_die(RataDie::new(737821));
    /// let mut items = recur(Iso, start, rule, window);
    /// assert!(rt; items.next()?.day.to_i64_date() == 737821); // 2021-01-31
    /// assert!(rt; items.next()?.day.to_i64_date() == 737849); // 2021-02-28
    /// assert!(rt; items.rest()?.first().to_i64_date() == 737850);
    /// ```
    pub fn rest(&self) -> Option<Window>
        ensures { result ≡ self.now.rest }
    {
        self.rest
    }
}

impl<C: Calendar + Copy> Iterator for Recurrence<C> {
    type Item = Occurrence;

    ghost next_gives = { λ s r t. YieldsFirst (λ i.
        occurrences_left (C.system i.calendar) (C.date_of i.calendar i.start) i.rule i.rest) s r t
        × GoesOn s.calendar t.calendar s.start t.start s.rule t.rule s.rest r t.rest };

    ghost remaining = { item_count (λ s.
        occurrences_left (C.system s.calendar) (C.date_of s.calendar s.start) s.rule s.rest) };

    fn next(&mut self) -> Option<Occurrence> {
        let window = self.rest?;
        let found = first_within(&self.calendar, &self.start, self.rule, self.index, &window);
        match found {
            None => {
                self.rest = None;
                None
            }
            Some(item) => {
                self.index = item.index + 1;
                self.rest = window.after(item.day);
                Some(item)
            }
        }
    }
}
