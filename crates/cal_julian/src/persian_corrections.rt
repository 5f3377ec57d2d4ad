//! The years in which the rule of 33 years is corrected.

ghost use Rattle.std.specs.Prelude.{◌≡◌, ◌↔◌, ◌<◌, IsTrue, IsOk, MatchOption, MatchResult, [], pos, neg_ℤ, ◌+ℤ◌, ◌<ℤ◌};
ghost use Rattle.cal_days.specs.Day.{IsBetween, IsRuleYear, IsValidDay};
ghost use Rattle.cal_days.specs.Persian.{persian_start, persian_year_length};
ghost use Rattle.cal_julian.specs.PersianAccepted.{AreCorrections, IsFirstBroken, IsFirstFault, MeetsAll, is_above, meets};
ghost use Rattle.cal_julian.specs.PersianRule.{AreCorrectable, IsRising, is_corrected, is_persian_leap, persian_new_year};
ghost use Rattle.cal_errors.specs.declared.errors.TablePart.TheVariants as parts;

use crate::persian_rule::year_and_day_from_fixed;
use cal_days::{RataDie, persian};
use cal_types::{TableFault, TablePart};

/// Years of the Persian calendar in which the rule of 33 years is corrected. A corrected year is a common year. The
/// year after it is a leap year instead, and starts one day earlier.
///
/// The years are in ascending order. Each is from 1 to 9999, and a leap year by the rule.
#[derive(Clone, Copy, Debug)]
pub struct PersianCorrections<'t> {
    years: &'t [i32],
    ghost rising: { IsRising years.now },
    ghost known: { AreCorrectable years.now },
}

impl<'t> PersianCorrections<'t> {
    /// Returns no corrections: every year follows the rule.
    ///
    /// ```
    /// assert!(rt; PersianCorrections::none().years().is_empty());
    /// ```
    pub fn none() -> PersianCorrections<'t>
        ensures { result.years.now ≡ [] }
    {
        PersianCorrections { years: &[] }
    }

    /// Creates corrections from years that are known to be accepted, without checking them. For constant data,
    /// acceptance can be proved by computation.
    ///
    /// ```text
    /// static YEARS: [i32; 78] = ..; // 1502 to 2987
    /// let corrections = PersianCorrections::new(&YEARS);
    /// ```
    pub fn new(years: &'t [i32]) -> PersianCorrections<'t>
        requires { AreCorrections years.now }
        ensures { result.years.now ≡ years.now }
    {
        PersianCorrections { years }
    }

    /// Creates corrections from years.
    ///
    /// # Errors
    ///
    /// - [`TableFault`] names the first row, counted from 1, that breaks a rule, and the first rule that it breaks:
    ///   [`TablePart::Year`] if the year isn't from 1 to 9999, or isn't above the year before it; [`TablePart::Rule`]
    ///   if it isn't a leap year by the rule of 33 years.
    ///
    /// ```
    /// let corrections = PersianCorrections::try_new(&[1502])?;
    /// assert!(rt; corrections.years().len() == 1);
    /// ```
    pub fn try_new(years: &'t [i32]) -> Result<PersianCorrections<'t>, TableFault>
        ensures first { MatchResult result (λ made. made.years.now ≡ years.now) (IsFirstFault years.now) }
        ensures exact { IsOk result ↔ AreCorrections years.now }
        ensures kept { IsOk result ↔ (IsRising years.now × AreCorrectable years.now) }
    {
        match check(years) {
            Ok(()) => Ok(PersianCorrections { years }),
            Err(fault) => Err(fault),
        }
    }

    /// Returns the corrected years.
    ///
    /// ```
    /// let corrections = PersianCorrections::try_new(&[1502])?;
    /// assert!(rt; corrections.years().len() == 1);
    /// ```
    pub fn years(&self) -> &'t [i32]
        ensures { result.now ≡ self.now.years.now }
    {
        self.years
    }

    /// Returns whether a year is corrected.
    fn contains(&self, year: i32) -> bool
        ensures { result ≡ is_corrected self.now.years.now year }
    {
        !self.years.is_empty() && self.years.binary_search(&year).is_ok()
    }

    /// Returns whether a year from -8000000 to 8000000 has 366 days.
    pub(crate) fn is_leap_year(&self, year: i32) -> bool
        requires { IsRuleYear year }
        ensures { IsTrue result ↔ IsTrue (is_persian_leap self.now.years.now year) }
    {
        if persian::is_leap_year(year) {
            !self.contains(year)
        } else {
            self.contains(year - 1)
        }
    }

    /// Returns the day number of the first day of a year from -8000000 to 8000000.
    pub(crate) fn year_start(&self, year: i32) -> i64
        requires { IsRuleYear year }
        ensures { result ≡ persian_new_year self.now.years.now year }
    {
        let start = persian::year_start(year).to_i64_date();
        if self.contains(year - 1) {
            start - 1
        } else {
            start
        }
    }

    /// Returns the year that contains a valid day, -365242499 to 365242134, and the number of days in that year
    /// before the day.
    pub(crate) fn year_and_day_from_fixed(&self, rd: RataDie) -> (i32, u16)
        requires { IsValidDay rd }
        ensures day { persian_new_year self.now.years.now result.0 +ℤ pos result.1 ≡ rd }
        ensures within { rd <ℤ persian_new_year self.now.years.now (result.0 +ℤ pos 1) }
        ensures range { IsBetween (neg_ℤ (pos 1000621)) (pos 999379) result.0 }
    {
        let (year, day) = year_and_day_from_fixed(rd);
        if self.years.is_empty() {
            return (year, day);
        }
        self.corrected(year, day)
    }

    /// Returns the corrected year of a day, and the number of days in that year before the day, from both numbers by
    /// the rule.
    // Kept out of line, so that the look-up of a year without corrections is inlined.
    #[inline(never)]
    fn corrected(&self, year: i32, day: u16) -> (i32, u16)
        requires year { IsBetween (neg_ℤ (pos 1000621)) (pos 999378) year }
        requires day { day < persian_year_length year }
        ensures day { persian_new_year self.now.years.now result.0 +ℤ pos result.1 ≡ persian_start year +ℤ pos day }
        ensures within { (persian_start year +ℤ pos day) <ℤ persian_new_year self.now.years.now (result.0 +ℤ pos 1) }
        ensures range { IsBetween (neg_ℤ (pos 1000621)) (pos 999379) result.0 }
    {
        let starts_early = self.contains(year - 1);
        if starts_early {
            return (year, day + 1);
        }
        // The last day of a corrected year becomes the first day of the next year.
        if day == 365 && self.contains(year) {
            (year + 1, 0)
        } else {
            (year, day)
        }
    }
}

/// Returns the first rule that a year breaks, given the year before it in the list, if there is one.
fn first_broken(before: Option<i32>, year: i32) -> Option<TablePart>
    ensures { MatchOption result (MeetsAll before year) (IsFirstBroken before year) }
{
    if !is_next(before, year) {
        return Some(TablePart::Year);
    }
    if !persian::is_leap_year(year) {
        return Some(TablePart::Rule);
    }
    None
}

/// Returns whether a year is from 1 to 9999, and above the year before it, if there is one.
fn is_next(before: Option<i32>, year: i32) -> bool
    ensures exact { result ≡ meets before year parts.Year }
    ensures range { IsTrue result → IsBetween (pos 1) (pos 9999) year }
{
    1 <= year && year <= 9999 && is_above(before, year)
}

/// Returns whether a year is above the year before it, if there is one.
fn is_above(before: Option<i32>, year: i32) -> bool
    ensures { result ≡ is_above before year }
{
    match before {
        None => true,
        Some(before) => before < year,
    }
}

/// Checks years, and returns the first year that breaks a rule, and the first rule that it breaks.
fn check(years: &[i32]) -> Result<(), TableFault>
    ensures first { MatchResult result (λ _. AreCorrections years.now) (IsFirstFault years.now) }
    ensures exact { IsOk result ↔ AreCorrections years.now }
{
    let mut before = None;
    for (index, year) in years.iter().enumerate() {
        if let Some(part) = first_broken(before, *year) {
            return Err(TableFault {
                row: index + 1,
                part,
            });
        }
        before = Some(*year);
    }
    Ok(())
}
