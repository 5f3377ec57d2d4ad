//! The trait [`NamedYears`]: what a calendar defines beyond its years.

ghost use Rattle.std.specs.Prelude.{◌≡◌, ◌↔◌, ◌&&◌, Bool, true, ℕ, ℤ, IsTrue};
ghost use Rattle.std.specs.Cmp.{IsEquivalence};
ghost use Rattle.cal_days.specs.Day.{is_field_year};
ghost use Rattle.cal_types.specs.Year.{extended_year_of};
ghost use Rattle.cal_types.specs.Month.{MonthParts};
ghost use Rattle.cal_types.specs.MonthParts.{month_parts};
ghost use Rattle.cal_types.specs.declared.month_info.LeapStatus.{LeapStatus};
ghost use Rattle.cal_types.specs.declared.month_info.LeapStatus.TheVariants.{Normal};
ghost use Rattle.cal_types.specs.declared.year.YearInfo.{YearInfo};
ghost use Rattle.cal_types.specs.CalendarList.{month_at};
ghost use Rattle.cal_arith.specs.Given.{HasMonth, IsGiven};
ghost use Rattle.cal_base.specs.OwnYears.{IsOwnYear, IsSharedYear};

use cal_arith::DateFieldsResolver;
use cal_types::{IntoYearInfo, LeapStatus, Month};
use std::fmt::Debug;

/// What a calendar defines beyond its years: how it names them, which of them are leap years, and which of its months
/// are leap months.
///
/// [`Arithmetic`](crate::Arithmetic) makes a calendar from it. An own year is a year that this calendar created and
/// that has an extended year from -1040000 to 1040000.
pub trait NamedYears: DateFieldsResolver + Drop {
    /// A year in its era or cycle.
    type Year: Debug + IntoYearInfo;

    /// Whether a year is the calendar's year of its extended year. Calendars whose years are determined by their
    /// number keep this default. Calendars whose years also store month lengths compare them.
    ghost has_year: { Self → Self.YearInfo → Bool } = { λ _ _. true };

    /// Whether an extended year is a leap year.
    ghost is_leap_year: { Self → ℤ → Bool };

    /// An extended year in its era or cycle.
    ghost year_named: { Self → ℤ → YearInfo };

    /// The leap status of an ordinal month of an extended year. Calendars without leap months keep this default.
    ghost leap_status: { Self → ℤ → ℕ → LeapStatus } = { λ _ _ _. Normal };

    /// The month by which an ordinal month of an extended year is formatted. Calendars that format every month by
    /// itself keep this default.
    ghost formatted_month: { Self → ℤ → ℕ → MonthParts → MonthParts } = { λ _ _ _ month. month };

    /// Whether dates of two calendars can be compared. Types whose calendars are all compatible keep this default.
    ghost compatible: { Self → Self → Bool } = { λ _ _. true };

    /// Returns whether a year is one of the calendar's own. Any year may be passed, including one of another
    /// calendar.
    fn owns_year(&self, year: Self::YearInfo) -> bool
        ensures { result ≡ (has_year self.now year && is_field_year ((Self.years self.now).extended year)) };

    /// Returns whether an own year is a leap year.
    fn is_leap(&self, year: Self::YearInfo) -> bool
        requires { IsOwnYear (Self.years self.now) year }
        ensures { IsTrue result ↔ IsTrue (is_leap_year self.now ((Self.years self.now).extended year)) };

    /// Returns an own year in its era or cycle.
    fn named_year(&self, year: Self::YearInfo) -> Self::Year
        requires { IsOwnYear (Self.years self.now) year }
        ensures { Self.Year.info result ≡ year_named self.now ((Self.years self.now).extended year) };

    /// Returns the leap status of a month of an own year, and the month by which it is formatted. `ordinal_month` and
    /// `month` name the same month.
    fn shown_month(
        &self,
        year: Self::YearInfo,
        ordinal_month: u8,
        month: Month,
    ) -> (LeapStatus, Month)
        requires year { IsOwnYear (Self.years self.now) year }
        requires place { HasMonth (Self.years self.now) year ordinal_month }
        requires month { let y = Self.years self.now in
            month_parts month ≡ month_at y.list (y.extended year) ordinal_month }
        ensures status { let number = (Self.years self.now).extended year in
            result.0 ≡ leap_status self.now number ordinal_month }
        ensures month { let number = (Self.years self.now).extended year in
            month_parts result.1 ≡ formatted_month self.now number ordinal_month (month_parts month) };

    /// Returns the number to add to an extended year to get the number that a year stores.
    fn year_offset(&self) -> i32
        ensures { result ≡ (Self.years self.now).offset };

    /// Returns whether dates of two calendars can be compared.
    fn is_compatible(&self, other: &Self) -> bool
        ensures { result ≡ compatible self.now other.now };

    /// `has_year` is true exactly if a year is the calendar's year of its extended year.
    ghost tested: { (s : Self) (y : Self.YearInfo) →
        IsTrue (has_year s y) ↔ ((Self.years s).year_of ((Self.years s).extended y) ≡ y) };

    /// A year in its era or cycle contains its extended year.
    ghost named: { (s : Self) (y : ℤ) → extended_year_of (year_named s y) ≡ y };

    /// Compatibility is an equivalence relation.
    ghost alike: { IsEquivalence compatible };

    /// Compatible calendars have the same years, with the same days and months.
    ghost shared: { (s t : Self) (y : Self.YearInfo) → IsTrue (compatible s t) → IsGiven (Self.years s) y →
        IsSharedYear (Self.years s) (Self.years t) y };
}
