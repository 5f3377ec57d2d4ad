//! Equality and order of dates.

ghost use Rattle.std.specs.Prelude.{◌≡◌, ◌↔◌, ◌&&◌, if◌then◌else◌, IsTrue, Some, None};
ghost use Rattle.std.specs.Ordering.{int_cmp};
ghost use Rattle.std.specs.Cmp.{on_equiv, on_po, on_total, and_equiv, partial_equiv_from_equiv};
ghost use Rattle.cal_types.specs.CalendarList.{day_number};
ghost use Rattle.icu_calendar.specs.laws.Comparing.{compatible-alike, ordered_within, all_ordered, all_equal};

use super::Date;
use cal_base::{AsCalendar, Calendar};
use std::cmp::Ordering;
use std::convert::Infallible;

impl<A: AsCalendar> Date<A>
where
    A::Calendar: Calendar,
{
    /// Returns `true` if the two calendars are compatible and year, month and day are the same. The dates may hold
    /// their calendars differently, for example one borrowed and one counted.
    ///
    /// # Examples
    ///
    /// ```
    /// let date = Date::try_new_iso(2024, 3, 1)?;
    /// let again = Date::from_rata_die(RataDie::new(738946), Iso);
    /// assert!(rt; date.same_date(&again));
    /// ```
    pub fn same_date<B: AsCalendar<Calendar = A::Calendar>>(&self, other: &Date<B>) -> bool
        ensures equal { let c = A.cal_of self.now.calendar in
            let compatible = A.Calendar.compatible c (B.cal_of other.now.calendar) in
            result ≡ (compatible && A.Calendar.DateInner.eq self.now.inner other.now.inner) }
        ensures date { let c = A.cal_of self.now.calendar in
            let same = A.Calendar.date_of c self.now.inner ≡ A.Calendar.date_of c other.now.inner in
            IsTrue result ↔ (IsTrue (A.Calendar.compatible c (B.cal_of other.now.calendar)) × same) }
    {
        is_compatible(&self.calendar, &other.calendar) && self.inner == other.inner
    }

    /// Compares the two dates by their day numbers. Returns `None` exactly if the two calendars aren't compatible.
    ///
    /// # Examples
    ///
    /// ```
    /// let date = Date::try_new_iso(2024, 3, 1)?;
    /// let earlier = Date::try_new_iso(2024, 2, 29)?;
    /// assert!(rt; earlier.date_cmp(&date) == Some(Ordering::Less));
    /// ```
    pub fn date_cmp<B: AsCalendar<Calendar = A::Calendar>>(
        &self,
        other: &Date<B>,
    ) -> Option<Ordering>
        ensures ordered { let c = A.cal_of self.now.calendar in
            let compatible = A.Calendar.compatible c (B.cal_of other.now.calendar) in
            result ≡ (if compatible then A.Calendar.DateInner.partial_cmp self.now.inner other.now.inner else None) }
        ensures days { let c = A.cal_of self.now.calendar in let d = B.cal_of other.now.calendar in
            let day = day_number (A.Calendar.system c).list (A.Calendar.date_of c self.now.inner) in
            let other_day = day_number (A.Calendar.system d).list (A.Calendar.date_of d other.now.inner) in
            result ≡ (if A.Calendar.compatible c d then Some (int_cmp day other_day) else None) }
    {
        if is_compatible(&self.calendar, &other.calendar) {
            self.inner.partial_cmp(&other.inner)
        } else {
            None
        }
    }
}

/// Returns whether dates of the two calendars can be compared.
fn is_compatible<A: AsCalendar, B: AsCalendar<Calendar = A::Calendar>>(
    first: &A,
    second: &B,
) -> bool
where
    A::Calendar: Calendar,
    ensures { result ≡ A.Calendar.compatible (A.cal_of first.now) (B.cal_of second.now) }
{
    first
        .as_calendar()
        .check_date_compatibility(second.as_calendar())
        .is_ok()
}

/// Equality as in [`Date::same_date`].
impl<A: AsCalendar<Calendar = K>, K: Calendar<DateInner = D>, D: Eq + Copy + PartialOrd> PartialEq
    for Date<A, K, D> {
    ghost eq = { λ d e. K.compatible (A.cal_of d.calendar) (A.cal_of e.calendar) && D.eq d.inner e.inner };

    ghost laws = { partial_equiv_from_equiv (and_equiv
        (on_equiv (λ d. A.cal_of d.calendar)
        (compatible-alike K.compatible K.compatible_itself K.compatible_back K.compatible_on))
        (on_equiv (λ d. d.inner) D.Eq.laws)) };

    fn eq(&self, other: &Self) -> bool {
        self.same_date(other)
    }
}

impl<A: AsCalendar<Calendar = K>, K: Calendar<DateInner = D>, D: Eq + Copy + PartialOrd> Eq
    for Date<A, K, D> {
    ghost laws = { and_equiv
        (on_equiv (λ d. A.cal_of d.calendar)
        (compatible-alike K.compatible K.compatible_itself K.compatible_back K.compatible_on))
        (on_equiv (λ d. d.inner) D.Eq.laws) };
}

/// Order as in [`Date::date_cmp`].
impl<A: AsCalendar<Calendar = K>, K: Calendar<DateInner = D>, D: Eq + Copy + PartialOrd> PartialOrd
    for Date<A, K, D> {
    ghost partial_cmp = { λ d e. if K.compatible (A.cal_of d.calendar) (A.cal_of e.calendar)
        then D.partial_cmp d.inner e.inner else None };

    ghost laws = { ordered_within
        (on_equiv (λ d. A.cal_of d.calendar)
        (compatible-alike K.compatible K.compatible_itself K.compatible_back K.compatible_on))
        (on_po (λ d. d.inner) D.PartialOrd.laws) };

    fn partial_cmp(&self, other: &Self) -> Option<Ordering> {
        self.date_cmp(other)
    }
}

/// The order of day numbers, for types whose calendars are all compatible.
impl<
    A: AsCalendar<Calendar = K>,
    K: Calendar<DateInner = D, DateCompatibilityError = Infallible>,
    D: Ord + Copy,
> Ord for Date<A, K, D> {
    ghost cmp = { λ d e. D.cmp d.inner e.inner };

    ghost total = { on_total (λ d. d.inner) D.total };

    ghost matches_partial_cmp = { λ d e. all_ordered
        (K.refusal (A.cal_of d.calendar) (A.cal_of e.calendar)) (D.matches_partial_cmp d.inner e.inner) };

    ghost matches_eq = { λ d e. all_equal
        (K.refusal (A.cal_of d.calendar) (A.cal_of e.calendar)) (D.matches_eq d.inner e.inner) };

    fn cmp(&self, other: &Self) -> Ordering {
        self.inner.cmp(&other.inner)
    }
}
