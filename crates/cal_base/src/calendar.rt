//! The traits [`Calendar`] and [`AsCalendar`].

ghost use Rattle.std.specs.Prelude.{◌≡◌, ◌↔◌, ◌+◌, ◌≤◌, ℕ, pos, ◌+ℤ◌, ◌-ℤ◌, unsigned_abs, Bool, List, Option, IsTrue, IsOk, IfOk, None, Some, false};
ghost use Rattle.std.specs.Ordering.{int_cmp, int_eq};
ghost use Rattle.cal_days.specs.Day.{IsCoveredYear, IsFieldYear, IsValidDay};
ghost use Rattle.cal_types.specs.Bag.{bag_of};
ghost use Rattle.cal_types.specs.Year.{extended_year_of};
ghost use Rattle.cal_types.specs.MonthParts.{month_parts};
ghost use Rattle.cal_types.specs.MonthInfoParts.{month_info_parts};
ghost use Rattle.cal_errors.specs.declared.algorithm.CalendarAlgorithm.{CalendarAlgorithm};
ghost use Rattle.cal_types.specs.CalendarList.{Date, IsDate, IsLawful, IsOn, IsValidDate, day_number, month_count, month_length, start_of_year, year_length};
ghost use Rattle.cal_types.specs.CalendarSystem.{CalendarSystem, month_info_of, resolve_fields};
ghost use Rattle.cal_types.specs.Constructing.{made_date};
ghost use Rattle.cal_types.specs.Adding.{IsSum, add_overflow_of};
ghost use Rattle.cal_types.specs.Difference.{largest_unit_of};
ghost use Rattle.cal_types.specs.Until.{IsUntil};
ghost use Rattle.cal_arith.specs.Dates.{answer_by};
ghost use Rattle.cal_arith.specs.Ticks.{most_ticks};
ghost use Rattle.cal_base.specs.IsoSystem.{iso_list, iso_date, iso_belongs};

use crate::iso::{Iso, IsoDateInner};
use crate::scaffold::UnstableSealed;
use cal_arith::Steps;
use cal_days::RataDie;
use cal_types::{
    CalendarAlgorithm, DateAddError, DateAddOptions, DateDifferenceOptions, DateDuration,
    DateFields, DateFromFieldsError, DateFromFieldsOptions, DateNewError, DayOfMonth, DayOfYear,
    IntoYearInfo, Month, MonthInfo, Overflow, YearInput,
};
use std::fmt::Debug;
use std::sync::ledger::Ledger;

/// A calendar: its years, its months and its eras, and dates that it stores in a form of its own.
///
/// An inner date belongs to a calendar if it is one of the calendar's dates and its day number is in the valid range,
/// -365242499 to 365242134. Every inner date that a call returns belongs to the calendar.
pub trait Calendar: UnstableSealed + Drop {
    /// A date in the form that the calendar stores.
    type DateInner: Eq + Copy + PartialOrd + Debug;

    /// The year of a date, in its era or cycle.
    type Year: Debug + IntoYearInfo;

    /// The error for two calendars of this type whose dates can't be compared.
    type DateCompatibilityError: Debug + Drop;

    /// The calendar's list of years, and how it names them.
    ghost system: { Self → CalendarSystem };

    /// The date of an inner date.
    ghost date_of: { Self → Self.DateInner → Date };

    /// Whether an inner date belongs to the calendar.
    ghost belongs: { Self → Self.DateInner → Bool };

    /// Whether dates of two calendars can be compared.
    ghost compatible: { Self → Self → Bool };

    /// Whether a date differs from the ISO date of the same day number at most in the year's number.
    ghost is_cheap: { Self → Bool };

    /// The calendar's algorithm, if CLDR names one.
    ghost algorithm: { Self → Option CalendarAlgorithm };

    /// The calendar's name in English.
    ghost name: { Self → List ℕ };

    /// Returns whether an inner date belongs to this calendar.
    fn owns(&self, date: &Self::DateInner) -> bool
        ensures { result ≡ belongs self.now date.now };

    /// Creates a date from a year, a month and a day. Values out of range are rejected, never adjusted.
    ///
    /// # Errors
    ///
    /// Fails with the first of these:
    /// - [`DateNewError::InvalidYear`] if the year, in its era or without one, isn't from -9999 to 9999;
    /// - [`DateNewError::InvalidEra`] if the era isn't one of the calendar's;
    /// - [`DateNewError::MonthNotInCalendar`] if the month isn't one of the calendar's months;
    /// - [`DateNewError::MonthNotInYear`] if this year lacks it;
    /// - [`DateNewError::InvalidDay`] if the day is 0 or above the month's length.
    fn new_date(
        &self,
        year: YearInput<'_>,
        month: Month,
        day: u8,
    ) -> Result<Self::DateInner, DateNewError>
        ensures made { let s = system self.now in
            answer_by (date_of self.now) result ≡ made_date s.list s.year_names year.entry (month_parts month) day }
        ensures belongs { IfOk result (λ d. IsTrue (belongs self.now d)) };

    /// Creates a date from fields (ECMAScript Temporal, `CalendarResolveFields`).
    ///
    /// The default of the option `overflow` is [`Overflow::Reject`](cal_types::Overflow::Reject). The default of
    /// `missing_fields_strategy` is [`MissingFieldsStrategy::Reject`](cal_types::MissingFieldsStrategy::Reject).
    ///
    /// # Errors
    ///
    /// Fails with the first of these:
    /// - [`DateFromFieldsError::NotEnoughFields`] if the day is missing. With the strategy `Ecma` and an extended
    ///   year or an era year, a missing day is 1 instead. Then, if month, month code and ordinal month are all
    ///   missing.
    /// - [`DateFromFieldsError::TooManyFields`] if there are both a month and a month code.
    /// - The errors of the year. [`DateFromFieldsError::NotEnoughFields`] if there is an era without an era year, or
    ///   an era year without an era; [`DateFromFieldsError::Overflow`] if the era year, or without one the extended
    ///   year, isn't from -1040000 to 1040000; [`DateFromFieldsError::InvalidEra`] if the calendar doesn't have the
    ///   era; [`DateFromFieldsError::InconsistentYear`] if the era year's extended year and the extended year differ.
    ///   [`DateFromFieldsError::NotEnoughFields`] if the year is missing. With the strategy `Ecma` and without an
    ///   ordinal month, a missing year is the month's reference year instead, unless the calendar has no reference
    ///   years. If a leap month has no reference year, `Constrain` uses the plain month of its number, and `Reject`
    ///   fails with [`DateFromFieldsError::MonthNotInYear`].
    /// - The errors of the month. [`DateFromFieldsError::MonthCodeInvalidSyntax`] if the month code is malformed, and
    ///   [`DateFromFieldsError::MonthNotInCalendar`] if the month isn't one of the calendar's months (both are also
    ///   checked before a reference year is used); [`DateFromFieldsError::MonthNotInYear`] if the month doesn't occur
    ///   in that year, under `Reject`; [`DateFromFieldsError::InconsistentMonth`] if there is also an ordinal month
    ///   and it is a different month.
    /// - [`DateFromFieldsError::InvalidOrdinalMonth`] if there is only an ordinal month and it doesn't occur in that
    ///   year, under `Reject`. Under `Constrain` the nearest ordinal month is used.
    /// - [`DateFromFieldsError::InvalidDay`] if the day doesn't occur in that month, under `Reject`. Under
    ///   `Constrain` the nearest day is used.
    /// - [`DateFromFieldsError::Overflow`] if the day number isn't in the valid range.
    fn from_fields(
        &self,
        fields: DateFields<'_>,
        options: DateFromFieldsOptions,
    ) -> Result<Self::DateInner, DateFromFieldsError>
        ensures resolved { answer_by (date_of self.now) result
            ≡ resolve_fields (system self.now) (bag_of fields.entry) options }
        ensures belongs { IfOk result (λ d. IsTrue (belongs self.now d)) };

    /// Returns whether a date differs from the ISO date of the same day number at most in the year's number. Then
    /// [`Calendar::from_iso`] and [`Calendar::to_iso`] need no day number.
    fn has_cheap_iso_conversion(&self) -> bool
        ensures { result ≡ is_cheap self.now };

    /// Returns the date with the day number of an ISO date.
    fn from_iso(&self, iso: IsoDateInner) -> Self::DateInner
        requires { IsTrue (iso_belongs iso) }
        ensures on { let day = day_number iso_list (iso_date iso) in
            IsOn (system self.now).list day (date_of self.now result) }
        ensures belongs { IsTrue (belongs self.now result) }
    {
        self.from_rata_die(Iso.to_rata_die(&iso))
    }

    /// Returns the ISO date with the day number of a date.
    fn to_iso(&self, date: &Self::DateInner) -> IsoDateInner
        requires { IsTrue (belongs self.now date.now) }
        ensures on { let day = day_number (system self.now).list (date_of self.now date.now) in
            IsOn iso_list day (iso_date result) }
        ensures belongs { IsTrue (iso_belongs result) }
    {
        Iso.from_rata_die(self.to_rata_die(date))
    }

    /// Returns the date of a day number in the valid range.
    fn from_rata_die(&self, rd: RataDie) -> Self::DateInner
        requires { IsValidDay rd }
        ensures on { IsOn (system self.now).list rd (date_of self.now result) }
        ensures belongs { IsTrue (belongs self.now result) };

    /// Returns the day number of a date.
    fn to_rata_die(&self, date: &Self::DateInner) -> RataDie
        requires { IsTrue (belongs self.now date.now) }
        ensures { result ≡ day_number (system self.now).list (date_of self.now date.now) };

    /// Returns how many months the date's year has.
    fn months_in_year(&self, date: &Self::DateInner) -> u8
        requires { IsTrue (belongs self.now date.now) }
        ensures { let t = date_of self.now date.now in
            result ≡ month_count (system self.now).list t.year };

    /// Returns how many days the date's year has.
    fn days_in_year(&self, date: &Self::DateInner) -> u16
        requires { IsTrue (belongs self.now date.now) }
        ensures { let t = date_of self.now date.now in
            result ≡ year_length (system self.now).list t.year };

    /// Returns how many days the date's month has.
    fn days_in_month(&self, date: &Self::DateInner) -> u8
        requires { IsTrue (belongs self.now date.now) }
        ensures { let t = date_of self.now date.now in
            result ≡ month_length (system self.now).list t.year t.month };

    /// Returns whether the date's year is a leap year.
    fn is_in_leap_year(&self, date: &Self::DateInner) -> bool
        requires { IsTrue (belongs self.now date.now) }
        ensures { let t = date_of self.now date.now in
            IsTrue result ↔ IsTrue ((system self.now).is_leap_year t.year) };

    /// Returns the year of a date, in its era or cycle.
    fn year_info(&self, date: &Self::DateInner) -> Self::Year
        requires { IsTrue (belongs self.now date.now) }
        ensures { Self.Year.info result ≡ (system self.now).year_info (date_of self.now date.now) };

    /// Returns the extended year of a date.
    fn extended_year(&self, date: &Self::DateInner) -> i32
        requires { IsTrue (belongs self.now date.now) }
        ensures { result ≡ (date_of self.now date.now).year }
    {
        self.year_info(date).into_year_info().extended_year()
    }

    /// Returns the month of a date: its ordinal month, its month codes and its leap status.
    fn month(&self, date: &Self::DateInner) -> MonthInfo
        requires { IsTrue (belongs self.now date.now) }
        ensures { month_info_parts result ≡ month_info_of (system self.now) (date_of self.now date.now) };

    /// Returns the day of the month, from 1.
    fn day_of_month(&self, date: &Self::DateInner) -> DayOfMonth
        requires { IsTrue (belongs self.now date.now) }
        ensures { result.0 ≡ (date_of self.now date.now).day };

    /// Returns the day of the year, from 1.
    fn day_of_year(&self, date: &Self::DateInner) -> DayOfYear
        requires { IsTrue (belongs self.now date.now) }
        ensures { let list = (system self.now).list in let t = date_of self.now date.now in
            start_of_year list t.year +ℤ pos result.0 ≡ day_number list t +ℤ pos 1 };

    /// Returns the date with a duration added (ECMAScript Temporal, `NonISODateAdd`).
    ///
    /// The default of the option `overflow` is [`Overflow::Constrain`].
    ///
    /// # Errors
    ///
    /// Fails with the first of these:
    /// - [`DateAddError::Overflow`] if the duration has more than 2080000 years, 27040000 months, or 838240000 days,
    ///   counting a week as seven days, or if adding the years leads to a year that isn't from -1040000 to 1040000
    ///   (an ISO year in the Gregorian calendars, a Coptic year in the Ethiopian one);
    /// - [`DateAddError::MonthNotInYear`] if the month doesn't occur in the year after adding the years, under
    ///   [`Overflow::Reject`];
    /// - [`DateAddError::InvalidDay`] if the day doesn't occur in the month after adding the months, under
    ///   [`Overflow::Reject`];
    /// - [`DateAddError::Overflow`] if the sum's day number isn't in the valid range.
    fn add(
        &self,
        date: &Self::DateInner,
        duration: DateDuration,
        options: DateAddOptions,
    ) -> Result<Self::DateInner, DateAddError>
        requires { IsTrue (belongs self.now date.now) }
        ensures sum { let s = system self.now in let t = date_of self.now date.now in
            let overflow = add_overflow_of options.overflow in
            IsSum s.list s.year_shift t duration overflow (answer_by (date_of self.now) result) }
        ensures belongs { IfOk result (λ d. IsTrue (belongs self.now d)) };

    /// Returns the difference from the first date to the second: the greatest duration that doesn't lead past the
    /// second date (ECMAScript Temporal, `NonISODateUntil`). Adding it to the first date, with
    /// [`Overflow::Constrain`], returns the second date.
    fn until(
        &self,
        date1: &Self::DateInner,
        date2: &Self::DateInner,
        options: DateDifferenceOptions,
    ) -> DateDuration
        requires first { IsTrue (belongs self.now date1.now) }
        requires second { IsTrue (belongs self.now date2.now) }
        ensures { let s = system self.now in let t = date_of self.now date1.now in let u = date_of self.now date2.now in
            IsUntil s.list s.year_shift t u (largest_unit_of options.largest_unit) result };

    /// Returns the difference as [`Calendar::until`] does. It adds at most 8 ticks to the counter. If months are the
    /// largest unit, it adds at most 8 ticks and one more for each year between the dates.
    fn until_counted<L: Ledger>(
        &self,
        date1: &Self::DateInner,
        date2: &Self::DateInner,
        options: DateDifferenceOptions,
        steps: &mut Steps<L>,
    ) -> DateDuration
        requires first { IsTrue (belongs self.now date1.now) }
        requires second { IsTrue (belongs self.now date2.now) }
        ensures until { let s = system self.now in let t = date_of self.now date1.now in
            let u = date_of self.now date2.now in
            IsUntil s.list s.year_shift t u (largest_unit_of options.largest_unit) result }
        ensures ticks { let t = date_of self.now date1.now in let u = date_of self.now date2.now in
            let years = unsigned_abs (u.year -ℤ t.year) in
            steps.new ≤ steps.old + most_ticks (largest_unit_of options.largest_unit) years };

    /// Checks whether dates of the two calendars can be compared.
    ///
    /// # Errors
    ///
    /// - The calendar's `DateCompatibilityError` exactly if they can't be compared.
    fn check_date_compatibility(&self, other: &Self) -> Result<(), Self::DateCompatibilityError>
        ensures { IsOk result ↔ IsTrue (compatible self.now other.now) };

    /// Returns the calendar's algorithm (CLDR, UTS 35), or `None` if CLDR names none.
    fn calendar_algorithm(&self) -> Option<CalendarAlgorithm>
        ensures { result ≡ algorithm self.now };

    /// Returns the calendar's name in English, for messages to programmers.
    fn debug_name(&self) -> &'static str
        ensures { result.now ≡ name self.now };

    /// The list of years is lawful.
    ghost lawful: { (s : Self) → IsLawful (system s).list };

    /// An inner date that belongs to the calendar is a date of the list, and its day number is valid.
    ghost dated: { (s : Self) (d : Self.DateInner) → IsTrue (belongs s d) →
        IsValidDate (system s).list (date_of s d) };

    /// The extended years of dates with valid days are from -1040000 to 1040000.
    ghost ranged: { (s : Self) (t : Date) → IsValidDate (system s).list t → IsFieldYear t.year };

    /// The extended years of dates with valid days, plus the year shift, are from -1040000 to 1040000.
    ghost shifted: { (s : Self) (t : Date) → IsValidDate (system s).list t →
        IsFieldYear (t.year +ℤ (system s).year_shift) };

    /// The days of extended years from -980000 to 980000 are valid.
    ghost covered: { (s : Self) (t : Date) → IsCoveredYear t.year → IsDate (system s).list t →
        IsValidDay (day_number (system s).list t) };

    /// The year of a date, in its era or cycle, contains the date's extended year.
    ghost named: { (s : Self) (t : Date) → extended_year_of ((system s).year_info t) ≡ t.year };

    /// Dates of one calendar are equal exactly if their day numbers are.
    ghost equal_days: { (s : Self) (a b : Self.DateInner) → IsTrue (belongs s a) → IsTrue (belongs s b) →
        let day = day_number (system s).list in
        Self.DateInner.eq a b ≡ int_eq (day (date_of s a)) (day (date_of s b)) };

    /// Dates of one calendar have the order of their day numbers.
    ghost ordered_days: { (s : Self) (a b : Self.DateInner) → IsTrue (belongs s a) → IsTrue (belongs s b) →
        let day = day_number (system s).list in
        Self.DateInner.partial_cmp a b ≡ Some (int_cmp (day (date_of s a)) (day (date_of s b))) };

    /// If dates of two calendars can't be compared, the error type has a value. So if the error type is `Infallible`,
    /// all calendars of the type are compatible.
    ghost refusal: { (s t : Self) → compatible s t ≡ false → Self.DateCompatibilityError };

    /// Compatibility is an equivalence relation.
    ghost compatible_itself: { (s : Self) → IsTrue (compatible s s) };

    ghost compatible_back: { (s t : Self) → IsTrue (compatible s t) → IsTrue (compatible t s) };

    ghost compatible_on: { (s t u : Self) → IsTrue (compatible s t) → IsTrue (compatible t u) →
        IsTrue (compatible s u) };

    /// A date also belongs to every compatible calendar, and has the same day number there.
    ghost shared: { (s t : Self) (d : Self.DateInner) → IsTrue (compatible s t) → IsTrue (belongs s d) →
        IsTrue (belongs t d) };

    ghost shared_day: { (s t : Self) (d : Self.DateInner) → IsTrue (compatible s t) → IsTrue (belongs s d) →
        day_number (system t).list (date_of t d) ≡ day_number (system s).list (date_of s d) };
}

/// A calendar, or a pointer to one.
pub trait AsCalendar: Drop {
    /// The calendar's type.
    type Calendar;

    /// The calendar.
    ghost cal_of: { Self → Self.Calendar };

    /// Returns the calendar.
    fn as_calendar(&self) -> &Self::Calendar
        ensures { result.now ≡ cal_of self.now };
}
