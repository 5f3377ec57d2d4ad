//! Dates of any calendar as a year, an ordinal month and a day. Start at [`ArithmeticDate`].

ghost use Rattle.std.specs.Prelude.{◌≡◌, ⊤, pos, ◌+◌, ◌≤◌, ◌<◌, ◌-ℤ◌, ◌++◌, ◌==◌, unsigned_abs, Ok, IfOk};
ghost use Rattle.std.proofs.Common.{rules};
ghost use Rattle.std.specs.Cmp.{partial_order_from_own_ties, partial_order_from_total, then_total, on_total};
ghost use Rattle.std.specs.Cmp.Rules.{comparing, hashing};
ghost use Rattle.std.specs.Ordering.{nat_cmp, on, then_cmp, as_partial_cmp, eq_of_both};
ghost use Rattle.std.proofs.lemmas.Cmp.{nat_cmp_total};
ghost use Rattle.std.specs.Hash as fed;
ghost use Rattle.cal_days.specs.Day.{IsFieldYear, IsValidDay};
ghost use Rattle.cal_types.specs.CalendarList.{IsOn, day_number};
ghost use Rattle.cal_types.specs.Adding.{add_overflow_of, IsSum};
ghost use Rattle.cal_types.specs.Difference.{largest_unit_of};
ghost use Rattle.cal_types.specs.Until.{IsUntil};
ghost use Rattle.cal_arith.specs.Dates.{answer_by, date_of, Belongs};
ghost use Rattle.cal_arith.specs.Ticks.{most_ticks};

use crate::adding::added;
use crate::dates::{Ymd, from_rata_die, to_rata_die};
use crate::difference::{difference, largest_unit};
use crate::steps::Steps;
use crate::years::{YearShapes, Years};
use cal_days::RataDie;
use cal_types::{DateAddError, DateAddOptions, DateDifferenceOptions, DateDuration, Overflow};
use std::alloc::AllocError;
use std::cmp::Ordering;
use std::fmt;
use std::fmt::Debug;
use std::hash::{Hash, Hasher};
use std::marker::{Brand, PhantomData};
use std::sync::ledger::{Blank, Ledger};

/// A date of a calendar: a year, an ordinal month, and a day of that month.
///
/// A date belongs to a calendar if its year is one of the calendar's years, the calendar has the date, and the day
/// number is valid, from -365242499 to 365242134. Dates are equal and ordered by year, ordinal month and day.
pub struct ArithmeticDate<C, Y = <C as YearShapes>::YearInfo> {
    pub(crate) parts: Ymd<Y>,
    pub(crate) of: PhantomData<C>,
}

impl<C, Y: Copy> Copy for ArithmeticDate<C, Y> {}

impl<C, Y: Copy> Clone for ArithmeticDate<C, Y> {
    ghost is_clone = { λ a b. b ≡ a };

    ghost is_infallible = { λ _. ⊤ };

    fn clone(&self) -> Result<Self, AllocError> {
        let same: Self = ArithmeticDate {
            parts: self.parts,
            of: PhantomData,
        };
        Ok(same)
    }
}

impl<C, Y: Copy> ArithmeticDate<C, Y> {
    /// Returns the year.
    pub fn year(self) -> Y
        ensures { result ≡ self.parts.year }
    {
        self.parts.year
    }

    /// Returns the ordinal month, from 1.
    pub fn month(self) -> u8
        ensures { result ≡ self.parts.month }
    {
        self.parts.month
    }

    /// Returns the day of the month, from 1.
    pub fn day(self) -> u8
        ensures { result ≡ self.parts.day }
    {
        self.parts.day
    }

    /// Returns a date of another calendar with the same year, ordinal month and day. Both calendars have the same
    /// type of year.
    pub fn cast<D>(self) -> ArithmeticDate<D, Y>
        ensures { result.parts ≡ self.parts }
    {
        ArithmeticDate {
            parts: self.parts,
            of: PhantomData,
        }
    }

    /// Creates a date from its year, ordinal month and day.
    pub(crate) fn of_parts(date: Ymd<Y>) -> ArithmeticDate<C, Y>
        ensures { result.parts ≡ date }
    {
        ArithmeticDate {
            parts: date,
            of: PhantomData,
        }
    }
}

impl<C: Years> ArithmeticDate<C> {
    /// Returns the date of a valid day.
    ///
    /// `rd`: rata die, -365242499 to 365242134.
    pub fn from_rata_die(rd: RataDie, cal: &C) -> Self
        requires { IsValidDay rd }
        ensures on { let y = C.years cal.now in IsOn y.list rd (date_of y result.parts) }
        ensures belongs { Belongs (C.years cal.now) result.parts }
    {
        ArithmeticDate::of_parts(from_rata_die(rd, cal))
    }

    /// Returns the date with a duration added (ECMAScript Temporal, `NonISODateAdd`).
    ///
    /// The date must belong to the calendar. The default of the option `overflow` is [`Overflow::Constrain`].
    ///
    /// # Errors
    ///
    /// Fails with the first of these:
    /// - [`DateAddError::Overflow`] if the duration has more than 2080000 years, 27040000 months, or 838240000 days
    ///   with seven for a week, or if the extended year after adding the years isn't from -1040000 to 1040000;
    /// - [`DateAddError::MonthNotInYear`] under [`Overflow::Reject`] if that year lacks the date's month;
    /// - [`DateAddError::InvalidDay`] under [`Overflow::Reject`] if the month after adding the months lacks the
    ///   date's day; `max` is the month's length;
    /// - [`DateAddError::Overflow`] if the sum isn't a valid day.
    #[inline(always)]
    pub fn added(
        &self,
        duration: DateDuration,
        cal: &C,
        options: DateAddOptions,
    ) -> Result<Self, DateAddError>
        requires { Belongs (C.years cal.now) self.now.parts }
        ensures sum { let y = C.years cal.now in
            IsSum y.list (pos 0) (date_of y self.now.parts) duration (add_overflow_of options.overflow)
            (answer_by (λ a. date_of y a.parts) result) }
        ensures belongs { IfOk result (λ a. Belongs (C.years cal.now) a.parts) }
    {
        self.added_shifted(duration, cal, options, 0)
    }

    /// Returns the date with a duration added, with the limit on years tested on the extended year plus `shift`.
    ///
    /// `shift`: -1040000 to 1040000. A calendar that shares its dates with another calendar passes the difference
    /// between the other calendar's years and its own.
    ///
    /// # Errors
    ///
    /// Fails as [`ArithmeticDate::added`], with `shift` added to the year when its limit is tested.
    #[inline(always)]
    pub fn added_shifted(
        &self,
        duration: DateDuration,
        cal: &C,
        options: DateAddOptions,
        shift: i32,
    ) -> Result<Self, DateAddError>
        requires date { Belongs (C.years cal.now) self.now.parts }
        requires shift { IsFieldYear shift }
        ensures sum { let y = C.years cal.now in
            IsSum y.list shift (date_of y self.now.parts) duration (add_overflow_of options.overflow)
            (answer_by (λ a. date_of y a.parts) result) }
        ensures belongs { IfOk result (λ a. Belongs (C.years cal.now) a.parts) }
    {
        let from = self.parts;
        match added(from, duration, add_overflow(options), shift, cal) {
            Ok(sum) => Ok(ArithmeticDate::of_parts(sum)),
            Err(e) => Err(e),
        }
    }
}

impl<C: YearShapes> ArithmeticDate<C> {
    /// Returns the day number (rata die) of a date that belongs to the calendar.
    pub fn to_rata_die(self, cal: &C) -> RataDie
        requires { Belongs (C.years cal.now) self.parts }
        ensures { let y = C.years cal.now in result ≡ day_number y.list (date_of y self.parts) }
    {
        to_rata_die(self.parts, cal)
    }

    /// Returns the difference from this date to another (ECMAScript Temporal, `NonISODateUntil`). Both must belong to
    /// the calendar.
    ///
    /// The default of the option `largest_unit` is days. Years are counted only if it is years, months if it is years
    /// or months, weeks only if it is weeks, and days always. Each counted unit in turn, from the largest, is the
    /// greatest number that doesn't surpass the other date. The duration is negative exactly if the other date is
    /// earlier.
    ///
    /// Adding the difference to this date, with [`Overflow::Constrain`], returns the other date. The contract covers
    /// this with the limit on years tested on stored years; [`crate::laws::added_back`] covers
    /// [`ArithmeticDate::added`].
    pub fn until(&self, other: &Self, cal: &C, options: DateDifferenceOptions) -> DateDuration
        requires from { Belongs (C.years cal.now) self.now.parts }
        requires to { Belongs (C.years cal.now) other.now.parts }
        ensures { let y = C.years cal.now in
            IsUntil y.list y.offset (date_of y self.now.parts) (date_of y other.now.parts)
            (largest_unit_of options.largest_unit) result }
    {
        ArithmeticDate::<C>::until_with_blank::<Brand>(self, other, cal, options, Blank::new(1))
    }

    /// Returns the difference of [`ArithmeticDate::until`], and counts the years that are looked up. It adds at most
    /// 8 ticks to the counter; if months are the largest unit, at most 8 and one more for each year between the
    /// dates.
    pub fn until_counted<L: Ledger>(
        &self,
        other: &Self,
        cal: &C,
        options: DateDifferenceOptions,
        steps: &mut Steps<L>,
    ) -> DateDuration
        requires from { Belongs (C.years cal.now) self.now.parts }
        requires to { Belongs (C.years cal.now) other.now.parts }
        ensures until { let y = C.years cal.now in
            IsUntil y.list y.offset (date_of y self.now.parts) (date_of y other.now.parts)
            (largest_unit_of options.largest_unit) result }
        ensures ticks { let y = C.years cal.now in
            steps.new ≤ steps.old + most_ticks (largest_unit_of options.largest_unit)
            (unsigned_abs (y.extended other.now.parts.year -ℤ y.extended self.now.parts.year)) }
    {
        let from = self.parts;
        let to = other.parts;
        difference(from, to, largest_unit(options), cal, steps)
    }

    /// Returns the difference of [`ArithmeticDate::until`], with a counter that nobody reads.
    fn until_with_blank<L: Ledger>(
        &self,
        other: &Self,
        cal: &C,
        options: DateDifferenceOptions,
        blank: Blank,
    ) -> DateDuration
        requires from { Belongs (C.years cal.now) self.now.parts }
        requires to { Belongs (C.years cal.now) other.now.parts }
        requires name { blank.name ≡ L.name }
        requires parts { blank.parts ≡ L.parts }
        requires some { 0 < blank.parts }
        ensures { let y = C.years cal.now in
            IsUntil y.list y.offset (date_of y self.now.parts) (date_of y other.now.parts)
            (largest_unit_of options.largest_unit) result }
    {
        let mut steps = Steps::<L>::new(blank);
        self.until_counted(other, cal, options, &mut steps)
    }
}

/// Returns the overflow of the options, which is [`Overflow::Constrain`] by default.
fn add_overflow(options: DateAddOptions) -> Overflow
    ensures { result ≡ add_overflow_of options.overflow }
{
    match options.overflow {
        Some(overflow) => overflow,
        None => Overflow::Constrain,
    }
}

/// Dates are equal exactly if their years, ordinal months and days are.
impl<C, Y: Copy + PartialEq> PartialEq for ArithmeticDate<C, Y> {
    ghost eq = { eq_of_both (on (λ a. a.parts.year) Y.eq)
        (eq_of_both (on (λ a. a.parts.month) ◌==◌)
        (on (λ a. a.parts.day) ◌==◌)) };

    ghost laws = { Prim.search (comparing, rules, Y.PartialEq.laws) };

    fn eq(&self, other: &Self) -> bool {
        let a = self.parts;
        let b = other.parts;
        a.year == b.year && a.month == b.month && a.day == b.day
    }
}

impl<C, Y: Copy + Eq> Eq for ArithmeticDate<C, Y> {
    ghost laws = { Prim.search (comparing, rules, Y.Eq.laws) };
}

/// Dates are ordered by year, then ordinal month, then day.
impl<C, Y: Copy + Ord> Ord for ArithmeticDate<C, Y> {
    ghost cmp = { then_cmp (on (λ a. a.parts.year) Y.cmp)
        (then_cmp (on (λ a. a.parts.month) nat_cmp)
        (on (λ a. a.parts.day) nat_cmp)) };

    ghost total = { (then_total (on_total (λ a. a.parts.year) Y.total)
        (then_total (on_total (λ a. a.parts.month) nat_cmp_total)
        (on_total (λ a. a.parts.day) nat_cmp_total))) };

    ghost matches_partial_cmp = { Prim.search (comparing, rules) };

    ghost matches_eq = { Prim.search (comparing, rules, Y.matches_eq) };

    fn cmp(&self, other: &Self) -> Ordering {
        let (a, b) = (self.parts, other.parts);
        a.year
            .cmp(&b.year)
            .then(a.month.cmp(&b.month))
            .then(a.day.cmp(&b.day))
    }
}

impl<C, Y: Copy + Ord> PartialOrd for ArithmeticDate<C, Y> {
    ghost partial_cmp = { as_partial_cmp
        (then_cmp (on (λ a. a.parts.year) Y.cmp)
        (then_cmp (on (λ a. a.parts.month) nat_cmp)
        (on (λ a. a.parts.day) nat_cmp))) };

    ghost laws = { partial_order_from_own_ties
        (partial_order_from_total
        (then_total (on_total (λ a. a.parts.year) Y.total)
        (then_total (on_total (λ a. a.parts.month) nat_cmp_total)
        (on_total (λ a. a.parts.day) nat_cmp_total))))
        (Prim.search (comparing, rules, Y.matches_eq)) };

    fn partial_cmp(&self, other: &Self) -> Option<Ordering> {
        Some(self.cmp(other))
    }
}

impl<C, Y: Copy + Hash> Hash for ArithmeticDate<C, Y> {
    ghost hash_input = { λ a. Y.hash_input a.parts.year
        ++ fed.u8 a.parts.month ++ fed.u8 a.parts.day };

    ghost respects_eq = { Prim.search (hashing, rules, Y.respects_eq) };

    fn hash<H: Hasher>(&self, state: &mut H) {
        let date = self.parts;
        date.year.hash(state);
        date.month.hash(state);
        date.day.hash(state);
    }
}

impl<C, Y: Copy + Debug> Debug for ArithmeticDate<C, Y> {
    fn fmt<W: fmt::Write>(&self, f: &mut fmt::Formatter<W>) -> fmt::Result {
        self.parts.fmt(f)
    }
}
