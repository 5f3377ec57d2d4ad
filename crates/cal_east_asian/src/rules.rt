//! Rules that decide the years of a Chinese or Korean calendar.

ghost use Rattle.std.specs.Prelude.{◌≡◌, ◌↔◌, ℕ, ℤ, Bool, List, Option, Result, IsTrue, IsOk, Ok, Err, pos, false, ◌+ℤ◌, ◌≤ℤ◌, ◌<ℤ◌};
ghost use Rattle.std.specs.Cmp.{IsEquivalence};
ghost use Rattle.cal_days.specs.Day.{IsBetween, IsFieldYear, IsRuleYear, IsValidDay};
ghost use Rattle.cal_types.specs.Month.{MonthParts};
ghost use Rattle.cal_types.specs.MonthParts.{month_parts};
ghost use Rattle.cal_errors.specs.declared.algorithm.CalendarAlgorithm.{CalendarAlgorithm};
ghost use Rattle.cal_errors.specs.declared.errors.EcmaReferenceYearError.{EcmaReferenceYearError};
ghost use Rattle.cal_errors.specs.declared.errors.EcmaReferenceYearError.TheVariants.{MonthNotInCalendar, UseRegularIfConstrain};
ghost use Rattle.cal_types.specs.CalendarList.{month_number};
ghost use Rattle.cal_east_asian.specs.EastAsianList.{east_asian_list};
ghost use Rattle.cal_east_asian.specs.EastAsianPlaces.{is_east_asian_month};
ghost use Rattle.cal_east_asian.specs.EastAsianYears.{AreYears, end_day};
ghost use Rattle.cal_east_asian.specs.declared.east_asian_traditional_year.EastAsianTraditionalYear.{EastAsianTraditionalYear};

use crate::east_asian_traditional_year::EastAsianTraditionalYear;
use cal_base::scaffold::UnstableSealed;
use cal_days::{RataDie, gregorian};
use cal_types::{CalendarAlgorithm, EcmaReferenceYearError, Month};
use std::fmt::Debug;

/// Rules that decide the years of a Chinese or Korean calendar: which months have 30 days, and where leap months are.
///
/// [`EastAsianTraditional`](crate::EastAsianTraditional) is the calendar over any rules. Each year has its number,
/// and starts on the day after the year before it. One of any three consecutive years has a leap month.
/// [`EastAsianTraditionalYear`] ensures that each year starts 0 to 34 days after January 19 of its number. A type
/// with rules of your own proves the laws at the end of the trait.
pub trait Rules: Copy + Debug + UnstableSealed + Drop {
    /// The error for dates under two rules that aren't compatible.
    type DateCompatibilityError: Debug + Drop;

    /// The year of a number. Only the numbers from -8000000 to 8000000 matter.
    ghost year_of: { Self → ℤ → EastAsianTraditionalYear };

    /// The reference year of a month and a day, or why there is none. Only months of the calendar matter.
    ghost reference: { Self → MonthParts → ℕ → Result ℤ EcmaReferenceYearError };

    /// Whether two rules are compatible, so that dates under them can be compared.
    ghost compatible: { Self → Self → Bool };

    /// The algorithm by which CLDR names the calendar, if it has a name for it.
    ghost algorithm: { Self → Option CalendarAlgorithm };

    /// The name of the calendar in English.
    ghost name: { Self → List ℕ };

    /// Returns the year of a number from -8000000 to 8000000.
    fn year(&self, related_iso: i32) -> EastAsianTraditionalYear
        requires { IsRuleYear related_iso }
        ensures { result ≡ year_of self.now related_iso };

    /// Returns the year that contains a valid day.
    ///
    /// `rd`: rata die, -365242499 to 365242134. A year starts from January 19 to February 22 of its number, so the
    /// result is the year of the day's ISO year, or the year before.
    fn year_containing_rd(&self, rd: RataDie) -> EastAsianTraditionalYear
        requires { IsValidDay rd }
        ensures given { result ≡ year_of self.now result.related_iso }
        ensures range { IsFieldYear result.related_iso }
        ensures first { result.new_year ≤ℤ rd }
        ensures last { rd <ℤ end_day result }
    {
        let iso_year = gregorian::year_from_fixed(rd);
        let year = self.year(iso_year);
        if rd.to_i64_date() < year.new_year {
            self.year(iso_year - 1)
        } else {
            year
        }
    }

    /// Returns a year from `first` to `last`, and the number of months between the first days of `first` and of that year.
    ///
    /// Rules that count months by the numbers of the years return `last`. By default it is `first`, and 0 months.
    fn months_by_number(&self, first: i32, last: i32) -> (i32, u32)
        requires first { IsRuleYear first }
        requires last { IsRuleYear last }
        requires order { first ≤ℤ last }
        ensures within { IsBetween first last result.0 }
        ensures count { let list = east_asian_list (year_of self.now) in
            month_number list result.0 1 ≡ month_number list first 1 +ℤ pos result.1 }
    {
        let _any_year = last;
        (first, 0)
    }

    /// Returns the reference year of a month and a day: the year of a date without one (ECMAScript Temporal,
    /// `NonISOMonthDayToISOReferenceDate`).
    ///
    /// The year is from -1040000 to 1040000. The day may be above the length of the month.
    ///
    /// # Errors
    ///
    /// - [`MonthNotInCalendar`](EcmaReferenceYearError::MonthNotInCalendar) only if the month isn't one of the months
    ///   1 to 12, plain or leap.
    /// - [`UseRegularIfConstrain`](EcmaReferenceYearError::UseRegularIfConstrain) only for a leap month of the calendar,
    ///   which the plain month of its number then replaces.
    /// - [`Unimplemented`](EcmaReferenceYearError::Unimplemented) if the rules have no reference years.
    fn ecma_reference_year(&self, month: Month, day: u8) -> Result<i32, EcmaReferenceYearError>
        ensures { result ≡ reference self.now (month_parts month) day };

    /// Checks whether two rules are compatible, so that dates under them can be compared.
    ///
    /// # Errors
    ///
    /// - [`DateCompatibilityError`](Rules::DateCompatibilityError) exactly if the rules aren't compatible.
    fn check_date_compatibility(&self, other: &Self) -> Result<(), Self::DateCompatibilityError>
        ensures { IsOk result ↔ IsTrue (compatible self.now other.now) };

    /// Returns the algorithm by which CLDR names the calendar (UTS 35), or `None` if it has no name for it.
    fn calendar_algorithm(&self) -> Option<CalendarAlgorithm>
        ensures { result ≡ algorithm self.now };

    /// Returns the name of the calendar in English, for messages to programmers.
    fn debug_name(&self) -> &'static str
        ensures { result.now ≡ name self.now };

    /// Each year has its number, and starts on the day after the year before it. One of any three consecutive years has
    /// a leap month.
    ghost lawful: { (s : Self) → AreYears (year_of s) };

    /// Reference years are from -1040000 to 1040000.
    ghost reference_in_range: { (s : Self) (m : MonthParts) (d : ℕ) (y : ℤ) → reference s m d ≡ Ok y →
        IsFieldYear y };

    /// `MonthNotInCalendar` is only for months other than the months 1 to 12, plain or leap.
    ghost reference_of_kind: { (s : Self) (m : MonthParts) (d : ℕ) → reference s m d ≡ Err MonthNotInCalendar →
        is_east_asian_month m ≡ false };

    /// `UseRegularIfConstrain` is only for a leap month of the calendar.
    ghost reference_of_leap_month: { (s : Self) (m : MonthParts) (d : ℕ) →
        reference s m d ≡ Err UseRegularIfConstrain → IsTrue m.is_leap × IsTrue (is_east_asian_month m) };

    /// If two rules aren't compatible, the error type has a value.
    ghost refusal: { (s t : Self) → compatible s t ≡ false → Self.DateCompatibilityError };

    /// Compatibility is an equivalence relation.
    ghost alike: { IsEquivalence compatible };

    /// Compatible rules have the same years.
    ghost shared: { (s t : Self) (y : ℤ) → IsTrue (compatible s t) → IsRuleYear y → year_of s y ≡ year_of t y };

    /// Compatible rules have the same reference years.
    ghost shared_references: { (s t : Self) (m : MonthParts) (d : ℕ) → IsTrue (compatible s t) →
        reference s m d ≡ reference t m d };

    /// Compatible rules have the same algorithm and the same name.
    ghost shared_names: { (s t : Self) → IsTrue (compatible s t) →
        (algorithm s ≡ algorithm t) × (name s ≡ name t) };
}
