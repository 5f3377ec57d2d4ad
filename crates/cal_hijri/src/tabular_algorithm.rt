//! The tabular rules: 11 of 30 years are leap years (Reingold and Dershowitz, Calendrical Calculations, chapter 7).

ghost use Rattle.std.specs.Prelude.{◌≡◌, ◌↔◌, IsTrue};
ghost use Rattle.cal_days.specs.Day.{IsRuleYear};
ghost use Rattle.cal_days.specs.Islamic.{IsIslamicEpoch};
ghost use Rattle.cal_hijri.specs.TabularRules.{tabular_reference_year, tabular_year};
ghost use Rattle.cal_hijri.specs.TabularYears.{epoch_day, is_leap, long_by, tabular_start};

use crate::hijri_year::HijriYear;
use crate::rules::Rules;
use crate::type_i_years;
use cal_base::plain_months::is_plain;
use cal_base::scaffold::UnstableSealed;
use cal_days::islamic;
use cal_types::{
    CalendarAlgorithm, EcmaReferenceYearError, HijriCalendarAlgorithm, MismatchedCalendarError,
    Month,
};

/// The rule of leap years: which of 30 years are leap years.
#[derive(Clone, Copy, Debug, PartialEq, Eq, PartialOrd, Ord, Hash)]
pub enum TabularAlgorithmLeapYears {
    /// The years 2, 5, 7, 10, 13, 16, 18, 21, 24, 26 and 29.
    TypeII,
    /// The years 2, 5, 7, 10, 13, 15, 18, 21, 24, 26 and 29.
    TypeI,
}

/// The epoch: the first day of year 1.
#[derive(Clone, Copy, Debug, PartialEq, Eq, PartialOrd, Ord, Hash)]
pub enum TabularAlgorithmEpoch {
    /// Thursday, July 15, 622 in the Julian calendar.
    Thursday,
    /// Friday, July 16, 622 in the Julian calendar.
    Friday,
}

/// The tabular rules: odd months have 30 days and even months 29, and the last month of a leap year has 30.
///
/// CLDR's name for the calendar with the leap years of type II is `islamic-civil` with the epoch Friday, and
/// `islamic-tbla` with the epoch Thursday. Dates under two tabular rules can be compared if the rules are equal.
///
/// Rules are ordered by the leap years, then by the epoch, each in the order of its variants.
#[derive(Clone, Copy, Debug, PartialEq, Eq, PartialOrd, Ord, Hash)]
pub struct TabularAlgorithm {
    leap_years: TabularAlgorithmLeapYears,
    epoch: TabularAlgorithmEpoch,
}

impl TabularAlgorithm {
    /// Creates the rules with a rule of leap years and an epoch.
    ///
    /// ```
    /// let rules = TabularAlgorithm::new(
    ///     TabularAlgorithmLeapYears::TypeII,
    ///     TabularAlgorithmEpoch::Friday,
    /// );
    /// let date = Date::from_rata_die(RataDie::new(738750), Hijri(rules)); // 2023-08-18
    /// assert!(rt; date.day_of_month().0 == 1);
    /// ```
    pub const fn new(
        leap_years: TabularAlgorithmLeapYears,
        epoch: TabularAlgorithmEpoch,
    ) -> TabularAlgorithm
        ensures leap_years { result.leap_years ≡ leap_years }
        ensures epoch { result.epoch ≡ epoch }
    {
        TabularAlgorithm { leap_years, epoch }
    }
}

/// Returns the rule of leap years of tabular rules.
pub fn leap_years_of(rules: TabularAlgorithm) -> TabularAlgorithmLeapYears
    ensures { result ≡ rules.leap_years }
{
    rules.leap_years
}

/// Returns the epoch of tabular rules.
pub fn epoch_of(rules: TabularAlgorithm) -> TabularAlgorithmEpoch
    ensures { result ≡ rules.epoch }
{
    rules.epoch
}

impl TabularAlgorithmEpoch {
    /// Returns the day number of the epoch.
    fn to_i64_date(self) -> i64
        ensures day { result ≡ epoch_day self }
        ensures known { IsIslamicEpoch result }
    {
        match self {
            TabularAlgorithmEpoch::Thursday => islamic::THURSDAY_EPOCH,
            TabularAlgorithmEpoch::Friday => islamic::FRIDAY_EPOCH,
        }
    }
}

impl TabularAlgorithmLeapYears {
    /// Returns whether a year is a leap year, which has 355 days.
    fn is_leap_year(self, year: i32) -> bool
        ensures { IsTrue result ↔ IsTrue (is_leap self year) }
    {
        match self {
            TabularAlgorithmLeapYears::TypeI => type_i_years::is_leap_year(year),
            TabularAlgorithmLeapYears::TypeII => islamic::is_leap_year(year),
        }
    }

    /// Returns the bits of the months of 30 days in a year.
    fn long_months(self, year: i32) -> u16
        ensures { result ≡ long_by (is_leap self year) }
    {
        if self.is_leap_year(year) {
            0b1101_0101_0101
        } else {
            0b0101_0101_0101
        }
    }
}

/// Returns the day number of the first day of an extended year from -8000000 to 8000000.
fn year_start(rules: TabularAlgorithm, extended_year: i32) -> i64
    requires { IsRuleYear extended_year }
    ensures { result ≡ tabular_start rules extended_year }
{
    let epoch = rules.epoch.to_i64_date();
    match rules.leap_years {
        TabularAlgorithmLeapYears::TypeI => type_i_years::year_start(extended_year, epoch),
        TabularAlgorithmLeapYears::TypeII => {
            islamic::year_start(extended_year, epoch).to_i64_date()
        }
    }
}

/// Returns the tabular year of an extended year from -8000000 to 8000000.
pub(crate) fn tabular_year(rules: TabularAlgorithm, extended_year: i32) -> HijriYear
    requires { IsRuleYear extended_year }
    ensures { result ≡ tabular_year rules extended_year }
{
    HijriYear {
        extended_year,
        first_day: year_start(rules, extended_year),
        long_months: rules.leap_years.long_months(extended_year),
    }
}

/// Returns the reference year of a day of a month, 1 to 12: the latest year in which the day falls on or before
/// 1972-12-31 of the ISO calendar.
pub(crate) fn reference_year(epoch: TabularAlgorithmEpoch, month: u8, day: u8) -> i32
    ensures { result ≡ tabular_reference_year epoch month day }
{
    let last_day = match epoch {
        TabularAlgorithmEpoch::Thursday => 26,
        TabularAlgorithmEpoch::Friday => 25,
    };
    match month {
        0..=10 => 1392,
        11 if day <= last_day => 1392,
        11 => 1391,
        _ if day >= 30 => 1390,
        _ => 1391,
    }
}

impl UnstableSealed for TabularAlgorithm {}

impl Rules for TabularAlgorithm {
    ghost use Rattle.cal_hijri.specs.TabularRules.{tabular_reference, are_same_rules, algorithm_of_rules, name_of_rules};
    ghost use Rattle.cal_hijri.specs.laws.TabularRuleLaws.{same_rules-equivalence, tabular-numbered, tabular-joins, tabular-references, tabular-shared, tabular-shared_names, tabular-shared_references};

    type DateCompatibilityError = MismatchedCalendarError;

    ghost year_of = { λ s y. tabular_year s y };

    ghost reference = { λ s m d. tabular_reference s m d };

    ghost compatible = { λ s t. are_same_rules s t };

    ghost algorithm = { λ s. algorithm_of_rules s };

    ghost name = { λ s. name_of_rules s };

    fn year(&self, extended_year: i32) -> HijriYear {
        tabular_year(*self, extended_year)
    }

    fn ecma_reference_year(&self, month: Month, day: u8) -> Result<i32, EcmaReferenceYearError> {
        if is_plain(month, 12) {
            Ok(reference_year(self.epoch, month.number(), day))
        } else {
            Err(EcmaReferenceYearError::MonthNotInCalendar)
        }
    }

    fn check_date_compatibility(&self, other: &Self) -> Result<(), MismatchedCalendarError> {
        if self == other {
            Ok(())
        } else {
            Err(MismatchedCalendarError)
        }
    }

    fn calendar_algorithm(&self) -> Option<CalendarAlgorithm> {
        let kind = match (self.leap_years, self.epoch) {
            (TabularAlgorithmLeapYears::TypeI, _) => return None,
            (TabularAlgorithmLeapYears::TypeII, TabularAlgorithmEpoch::Thursday) => {
                HijriCalendarAlgorithm::Tbla
            }
            (TabularAlgorithmLeapYears::TypeII, TabularAlgorithmEpoch::Friday) => {
                HijriCalendarAlgorithm::Civil
            }
        };
        Some(CalendarAlgorithm::Hijri(Some(kind)))
    }

    fn debug_name(&self) -> &'static str {
        match (self.leap_years, self.epoch) {
            (TabularAlgorithmLeapYears::TypeI, TabularAlgorithmEpoch::Thursday) =>
                "Hijri (Type I, Thursday)",
            (TabularAlgorithmLeapYears::TypeI, TabularAlgorithmEpoch::Friday) =>
                "Hijri (Type I, Friday)",
            (TabularAlgorithmLeapYears::TypeII, TabularAlgorithmEpoch::Thursday) =>
                "Hijri (astronomical)",
            (TabularAlgorithmLeapYears::TypeII, TabularAlgorithmEpoch::Friday) => "Hijri (civil)",
        }
    }

    ghost numbered = { λ s. tabular-numbered s };

    ghost joins = { λ s. tabular-joins s };

    ghost references = { λ s. tabular-references s };

    ghost refusal = { λ _ _ _. record {} };

    ghost alike = { same_rules-equivalence };

    ghost shared = { λ s t y h _. tabular-shared s t y h };

    ghost shared_references = { λ s t m d h. tabular-shared_references s t m d h };

    ghost shared_names = { λ s t h. tabular-shared_names s t h };
}
