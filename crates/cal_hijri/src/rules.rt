//! Rules that decide the years of a Hijri calendar.

ghost use Rattle.std.specs.Prelude.{◌≡◌, ◌↔◌, ℕ, ℤ, Bool, false, List, Option, Result, None, Err, IsTrue, IsOk, codes, pos, ◌+ℤ◌, ◌≤ℤ◌, ◌<ℤ◌};
ghost use Rattle.std.specs.Cmp.{IsEquivalence};
ghost use Rattle.cal_days.specs.Day.{IsRuleYear, IsValidDay, IsFieldYear};
ghost use Rattle.cal_types.specs.Month.{MonthParts};
ghost use Rattle.cal_types.specs.MonthParts.{month_parts};
ghost use Rattle.cal_errors.specs.declared.algorithm.CalendarAlgorithm.{CalendarAlgorithm};
ghost use Rattle.cal_errors.specs.declared.errors.EcmaReferenceYearError.{EcmaReferenceYearError};
ghost use Rattle.cal_errors.specs.declared.errors.EcmaReferenceYearError.TheVariants.{Unimplemented};
ghost use Rattle.cal_hijri.specs.declared.hijri_year.HijriYear.{HijriYear};

use crate::hijri_year::HijriYear;
use cal_base::scaffold::UnstableSealed;
use cal_days::{RataDie, islamic};
use cal_types::{CalendarAlgorithm, EcmaReferenceYearError, Month};
use std::fmt::Debug;

/// Rules that decide the years of a Hijri calendar: the first day of each year, and which of its months have 30 days.
///
/// [`Hijri`](crate::Hijri) is the calendar over any rules. A type with rules of your own proves the laws at the end
/// of the trait.
pub trait Rules: Copy + Debug + UnstableSealed + Drop {
    ghost use Rattle.cal_hijri.specs.HijriList.{Joins, Numbered, hijri_days};
    ghost use Rattle.cal_hijri.specs.HijriNames.{AreReferences};

    /// The error for dates under two rules that aren't compatible.
    type DateCompatibilityError: Debug + Drop;

    /// The year of an extended year. Only the extended years from -8000000 to 8000000 matter.
    ghost year_of: { Self → ℤ → HijriYear };

    /// The reference year of a month from 1 to 12 and a day. By default there are no reference years.
    ghost reference: { Self → MonthParts → ℕ → Result ℤ EcmaReferenceYearError } = { λ _ _ _. Err Unimplemented };

    /// Whether two rules are compatible, so that dates under them can be compared.
    ghost compatible: { Self → Self → Bool };

    /// The algorithm by which CLDR names the calendar. By default there is none.
    ghost algorithm: { Self → Option CalendarAlgorithm } = { λ _. None };

    /// The name of the calendar in English.
    ghost name: { Self → List ℕ } = { λ _. codes "Hijri (custom rules)" };

    /// Returns the year of an extended year from -8000000 to 8000000.
    fn year(&self, extended_year: i32) -> HijriYear
        requires { IsRuleYear extended_year }
        ensures { result ≡ year_of self.now extended_year };

    /// Returns the year that contains a valid day.
    ///
    /// `rd`: rata die, -365242499 to 365242134. A year starts at most 5 days from its mean start, so the result is
    /// the mean year of the day, or the year before or after it.
    fn year_containing_rd(&self, rd: RataDie) -> HijriYear
        requires { IsValidDay rd }
        ensures given { result ≡ year_of self.now result.extended_year }
        ensures range { IsFieldYear result.extended_year }
        ensures first { result.first_day ≤ℤ rd }
        ensures last { rd <ℤ (result.first_day +ℤ pos (hijri_days result)) }
    {
        let mean = islamic::mean_year_from_fixed(rd);
        let year = self.year(mean);
        if rd.to_i64_date() < year.first_day {
            return self.year(mean - 1);
        }
        let next = self.year(mean + 1);
        if rd.to_i64_date() < next.first_day {
            year
        } else {
            next
        }
    }

    /// Returns the reference year of a month and a day: the year of a date without one (ECMAScript Temporal,
    /// `NonISOMonthDayToISOReferenceDate`).
    ///
    /// The year is from -1040000 to 1040000. The day may be above the length of the month.
    ///
    /// # Errors
    ///
    /// - [`MonthNotInCalendar`](EcmaReferenceYearError::MonthNotInCalendar) only if the month isn't one of the plain
    ///   months 1 to 12.
    /// - [`Unimplemented`](EcmaReferenceYearError::Unimplemented) if the rules have no reference years.
    ///
    /// [`UseRegularIfConstrain`](EcmaReferenceYearError::UseRegularIfConstrain) is never returned.
    fn ecma_reference_year(&self, month: Month, day: u8) -> Result<i32, EcmaReferenceYearError>
        ensures { result ≡ reference self.now (month_parts month) day };

    /// Checks whether two rules are compatible, so that dates under them can be compared.
    ///
    /// # Errors
    ///
    /// - [`DateCompatibilityError`](Rules::DateCompatibilityError) exactly if the rules aren't compatible.
    fn check_date_compatibility(&self, other: &Self) -> Result<(), Self::DateCompatibilityError>
        ensures { IsOk result ↔ IsTrue (compatible self.now other.now) };

    /// Returns the algorithm by which CLDR names the calendar (UTS 35), or `None` if it has no name for it.
    fn calendar_algorithm(&self) -> Option<CalendarAlgorithm>
        ensures { result ≡ algorithm self.now };

    /// Returns the name of the calendar in English. By default it is `Hijri (custom rules)`.
    fn debug_name(&self) -> &'static str
        ensures { result.now ≡ name self.now };

    /// The year of an extended year has that extended year.
    ghost numbered: { (s : Self) → Numbered (year_of s) };

    /// Every year starts on the day after the year before it.
    ghost joins: { (s : Self) → Joins (year_of s) };

    /// Reference years are from -1040000 to 1040000. `MonthNotInCalendar` is only for months other than the plain
    /// months 1 to 12, and `UseRegularIfConstrain` is never returned.
    ghost references: { (s : Self) → AreReferences (reference s) };

    /// If two rules aren't compatible, the error type has a value.
    ghost refusal: { (s t : Self) → compatible s t ≡ false → Self.DateCompatibilityError };

    /// Compatibility is an equivalence relation.
    ghost alike: { IsEquivalence compatible };

    /// Compatible rules have the same years.
    ghost shared: { (s t : Self) (y : ℤ) → IsTrue (compatible s t) → IsRuleYear y → year_of s y ≡ year_of t y };

    /// Compatible rules have the same reference years.
    ghost shared_references: { (s t : Self) (m : MonthParts) (d : ℕ) → IsTrue (compatible s t) →
        reference s m d ≡ reference t m d };

    /// Compatible rules have the same algorithm and the same name.
    ghost shared_names: { (s t : Self) → IsTrue (compatible s t) →
        (algorithm s ≡ algorithm t) × (name s ≡ name t) };
}
