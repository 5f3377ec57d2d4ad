//! Numberings of the Gregorian years: the Buddhist and the Minguo calendar count the ISO years from a year of their
//! own. Start at [`GregorianYears`]; [`AbstractGregorian`](crate::AbstractGregorian) makes a calendar from it.

ghost use Rattle.std.specs.Prelude.{◌≡◌, ℕ, ℤ, List, Option, Some};
ghost use Rattle.cal_days.specs.Day.{IsFieldYear, IsRuleYear, IsConstructorYear, IsNearEra};
ghost use Rattle.cal_errors.specs.declared.algorithm.CalendarAlgorithm.{CalendarAlgorithm};
ghost use Rattle.cal_types.specs.declared.year.EraYear.{EraYear};
ghost use Rattle.cal_types.specs.CalendarList.{Date, date, IsValidDate};
ghost use Rattle.cal_arith.specs.FieldNames.{era_read};
ghost use Rattle.cal_base.specs.OffsetList.{offset_list, IsOffset};

use cal_types::{CalendarAlgorithm, EraYear, UnknownEraError};
use std::fmt::Debug;

/// A numbering of the Gregorian years, and their names in eras.
pub trait GregorianYears: Copy + Debug {
    /// The ISO year minus the extended year.
    ghost offset: { Self → ℤ };

    /// The extended year of an era's code and an era year, if the calendar has the era.
    ghost reads: { Self → List ℕ → ℤ → Option ℤ };

    /// The era year of a date whose year is the extended year.
    ghost era_year: { Self → Date → EraYear };

    /// The calendar's algorithm, if CLDR names one.
    ghost algorithm: { Self → Option CalendarAlgorithm };

    /// The calendar's name in English.
    ghost name: { Self → List ℕ };

    /// Returns the ISO year minus the extended year, from -9999 to 9999.
    fn year_offset(&self) -> i32
        ensures { result ≡ offset self.now };

    /// Returns the extended year of an era year, -1040000 to 1040000, in the era with the code `era`.
    ///
    /// The result is from -8000000 to 8000000. It is from -20000 to 20000 if the era year is from -9999 to 9999.
    ///
    /// # Errors
    ///
    /// - [`UnknownEraError`] if the code isn't one of the calendar's eras.
    fn extended_from_era_year(&self, era: &[u8], year_of_era: i32) -> Result<i32, UnknownEraError>
        requires { IsFieldYear year_of_era }
        ensures { result ≡ era_read (reads self.now era.now year_of_era) };

    /// Returns the era year of a date with a valid day number.
    fn era_year_from_extended(&self, extended_year: i32, month: u8, day: u8) -> EraYear
        requires { IsValidDate (offset_list (offset self.now)) (date extended_year month day) }
        ensures { result ≡ era_year self.now (date extended_year month day) };

    /// Returns the calendar's algorithm (CLDR, UTS 35), or `None` if CLDR names none.
    fn calendar_algorithm(&self) -> Option<CalendarAlgorithm>
        ensures { result ≡ algorithm self.now };

    /// Returns the calendar's name in English, for messages to programmers.
    fn debug_name(&self) -> &'static str
        ensures { result.now ≡ name self.now };

    /// The offset is from -9999 to 9999.
    ghost offset_bound: { (s : Self) → IsOffset (offset s) };

    /// An era year from -1040000 to 1040000 has an extended year from -8000000 to 8000000.
    ghost era_in_range: { (s : Self) (era : List ℕ) (n y : ℤ) → IsFieldYear n → reads s era n ≡ Some y → IsRuleYear y };

    /// An era year from -9999 to 9999 has an extended year from -20000 to 20000.
    ghost era_near: { (s : Self) (era : List ℕ) (n y : ℤ) → IsConstructorYear n
        → reads s era n ≡ Some y → IsNearEra y };

    /// The era year of a date contains the date's extended year.
    ghost named: { (s : Self) (t : Date) → (era_year s t).extended_year ≡ t.year };
}
