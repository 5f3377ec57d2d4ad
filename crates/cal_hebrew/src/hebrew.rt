//! The Hebrew calendar (Reingold and Dershowitz, Calendrical Calculations, chapter 8).

ghost use Rattle.std.specs.Prelude.{◌≡◌};
ghost use Rattle.cal_days.specs.Day.{IsRuleYear};
ghost use Rattle.cal_types.specs.MonthParts.{month_parts};
ghost use Rattle.cal_hebrew.specs.HebrewEra.{hebrew_era_year};
ghost use Rattle.cal_hebrew.specs.HebrewList.{hebrew_years};
ghost use Rattle.cal_hebrew.specs.HebrewNames.{hebrew_reference_year};

use crate::hebrew_months::{
    days_before_month, days_in_month, formatted_month, is_hebrew, is_leap, leap_status,
    month_and_day, month_in_place, months_before_year, months_in_year, months_left_over,
    place_of_month,
};
use crate::hebrew_year::HebrewYear;
use cal_arith::eras::year_in_only_era;
use cal_arith::{ArithmeticDate, DateFieldsResolver, Steps, YearShapes, Years, can_be_named};
use cal_base::scaffold::UnstableSealed;
use cal_base::{Arithmetic, AsCalendar, Calendar, NamedYears};
use cal_days::{RataDie, hebrew};
use cal_types::{
    CalendarAlgorithm, DateAddError, DateAddOptions, DateDifferenceOptions, DateDuration,
    DateFields, DateFromFieldsError, DateFromFieldsOptions, DateNewError, DayOfMonth, DayOfYear,
    EcmaReferenceYearError, EraYear, LeapStatus, Month, MonthError, MonthInfo, Overflow,
    TinyAsciiStr, UnknownEraError, YearAmbiguity, YearInput,
};
use std::convert::Infallible;
use std::sync::ledger::Ledger;

/// The Hebrew calendar, in years from the creation of the world (anno mundi).
///
/// A year starts in autumn with month 1, Tishri, by the mean new moon and the postponements of the new year. It has
/// 353, 354 or 355 days. Of 19 years, 7 are leap years with 383, 384 or 385 days. Their ordinal month 6 is the leap
/// month `M05L` (Adar I), and month 6 (Adar, then called Adar II) is formatted as `M06L`. In a common year, month 6
/// stands in for the leap month.
///
/// | Code | Month | Code | Month |
/// |---|---|---|---|
/// | `M01` | Tishri | `M06` | Adar, or in a leap year Adar II |
/// | `M02` | Heshvan | `M07` | Nisan |
/// | `M03` | Kislev | `M08` | Iyar |
/// | `M04` | Tevet | `M09` | Sivan |
/// | `M05` | Shevat | `M10` | Tammuz |
/// | `M05L` | Adar I, in leap years only | `M11` | Av |
/// | | | `M12` | Elul |
///
/// Today's rule is applied to all years. The era is `am` (CLDR, UTS 35). The reference year of a day is the latest
/// year in which the day falls on or before 1972-12-31 of the ISO calendar.
#[derive(Clone, Copy, Debug, Default, PartialEq, Eq, PartialOrd, Ord, Hash)]
pub struct Hebrew;

impl Hebrew {
    /// Returns the Hebrew calendar.
    ///
    /// ```
    /// let date = Date::from_rata_die(RataDie::new(738946), Hebrew::new());
    /// assert!(rt; date.month().to_input() == Month::leap(5)); // Adar I
    /// ```
    pub fn new() -> Hebrew {
        Hebrew
    }
}

/// A date of the Hebrew calendar: its year, its ordinal month and its day of the month.
#[derive(Clone, Copy, Debug, PartialEq, Eq, PartialOrd, Ord, Hash)]
pub struct HebrewDateInner(ArithmeticDate<Hebrew>);

/// Returns the Hebrew year of an extended year from -8000000 to 8000000.
fn year_of(extended_year: i32) -> HebrewYear
    requires { IsRuleYear extended_year }
    ensures { result ≡ hebrew_years.year_of extended_year }
{
    HebrewYear {
        extended_year,
        length: hebrew::year_length(extended_year),
    }
}

impl YearShapes for Hebrew {
    ghost use Rattle.std.specs.Prelude.{refl};
    ghost use Rattle.cal_hebrew.specs.laws.HebrewMonths.{hebrew_list-lawful};
    ghost use Rattle.cal_hebrew.specs.laws.HebrewLaws.{stored-extended, day_number-near, years-ranged, months-apart, days-covered};

    type YearInfo = HebrewYear;

    ghost years = { λ _. hebrew_years };

    fn year_counted<L: Ledger>(&self, extended_year: i32, steps: &mut Steps<L>) -> HebrewYear {
        steps.tick();
        year_of(extended_year)
    }

    fn extended_from_year_info(&self, year: HebrewYear) -> i32 {
        year.extended_year
    }

    fn months_in_provided_year(&self, year: HebrewYear) -> u8 {
        months_in_year(year.length)
    }

    fn days_in_provided_month(&self, year: HebrewYear, month: u8) -> u8 {
        days_in_month(year.length, month)
    }

    fn to_rata_die_inner(&self, year: HebrewYear, month: u8, day: u8) -> RataDie {
        let before = days_before_month(year.length, month);
        let start = hebrew::year_start(year.extended_year).to_i64_date();
        RataDie::new(start + i64::from(before) + i64::from(day) - 1)
    }

    fn min_months_from(&self, _start: HebrewYear, count: i32) -> i32 {
        12 * count
    }

    fn months_by_number(&self, first: i32, last: i32) -> (i32, u32) {
        let months = months_before_year(last) - months_before_year(first);
        (last, months as u32)
    }

    fn ordinal_from_month(
        &self,
        year: HebrewYear,
        month: Month,
        overflow: Overflow,
    ) -> Result<u8, MonthError> {
        place_of_month(year.length, month, overflow)
    }

    fn month_from_ordinal(&self, year: HebrewYear, ordinal_month: u8) -> Month {
        month_in_place(year.length, ordinal_month)
    }

    ghost numbered = { λ s y h. refl };

    ghost lawful = { λ s. hebrew_list-lawful };

    ghost equal = { λ a b. refl };

    ghost ordered = { λ a b. refl };

    ghost stored_from = { λ s y h. stored-extended y.extended_year };

    ghost near = { λ s t. day_number-near t };

    ghost ranged = { λ s t. years-ranged t };

    ghost apart = { λ s t u. months-apart t u };

    ghost covered = { λ s t. days-covered t };
}

impl Years for Hebrew {
    fn year_info_from_extended(&self, extended_year: i32) -> HebrewYear {
        year_of(extended_year)
    }

    fn year_containing_rd(&self, rd: RataDie) -> HebrewYear {
        let found = hebrew::day_in_year_from_fixed(rd);
        HebrewYear {
            extended_year: found.year,
            length: found.year_length,
        }
    }

    fn year_month_day(&self, rd: RataDie) -> (HebrewYear, u8, u8) {
        let found = hebrew::day_in_year_from_fixed(rd);
        let year = HebrewYear {
            extended_year: found.year,
            length: found.year_length,
        };
        let (month, day) = month_and_day(found.year_length, found.day);
        (year, month, day)
    }

    fn month_and_day(&self, year: HebrewYear, day_of_year: u16) -> (u8, u8) {
        month_and_day(year.length, day_of_year)
    }

    /// The estimate is exact, since 19 years have 235 months.
    fn estimated_years(&self, from: HebrewYear, months: u32) -> u32 {
        (19 * months + months_left_over(from.extended_year)) / 235
    }
}

/// Returns the reference year of a day of a month: the latest year in which the day falls on or before 1972-12-31 of
/// the ISO calendar, which is day 26 of month 4 of 5733.
fn reference_year(month: Month, day: u8) -> i32
    ensures year { result ≡ hebrew_reference_year (month_parts month) day }
    ensures range { IsRuleYear result }
{
    if month.is_leap() {
        return 5730;
    }
    match month.number() {
        1 => 5733,
        2 | 3 if day < 30 => 5733,
        4 if day < 27 => 5733,
        _ => 5732,
    }
}

impl DateFieldsResolver for Hebrew {
    ghost use Rattle.std.specs.Prelude.{codes};
    ghost use Rattle.cal_types.proofs.EraLemmas.{only_era_reads-in_range, only_era_reads-near};
    ghost use Rattle.cal_types.proofs.YearNameLemmas.{reference_of_known-stands, reference_of_known-tested};
    ghost use Rattle.cal_hebrew.specs.HebrewList.{is_hebrew_month};
    ghost use Rattle.cal_hebrew.specs.laws.HebrewMonths.{is_of_kind-hebrew};
    ghost use Rattle.cal_hebrew.specs.HebrewNames.{hebrew_names, hebrew_reference_year};

    ghost names = { λ _. hebrew_names };

    fn extended_year_from_era_year_unchecked(
        &self,
        era: &[u8],
        era_year: i32,
    ) -> Result<i32, UnknownEraError> {
        year_in_only_era(b"am", era, era_year)
    }

    fn reference_year_from_month_day(
        &self,
        month: Month,
        day: u8,
    ) -> Result<HebrewYear, EcmaReferenceYearError> {
        if is_hebrew(month) {
            Ok(year_of(reference_year(month, day)))
        } else {
            Err(EcmaReferenceYearError::MonthNotInCalendar)
        }
    }

    ghost era_in_range = { λ _ era n y. only_era_reads-in_range (codes "am") era n y };

    ghost era_near = { λ _ era n y. only_era_reads-near (codes "am") era n y };

    ghost reference_of_kind = { λ _ m d. reference_of_known-tested (is_hebrew_month m) _
        (hebrew_reference_year m d) (is_of_kind-hebrew m) };

    ghost reference_of_leap_month = { λ _ m d e. reference_of_known-stands (is_hebrew_month m)
        (hebrew_reference_year m d) e };
}

/// Returns the era year of an extended year, in the era `am` (CLDR, UTS 35).
fn era_year(year: i32) -> EraYear
    ensures { result ≡ hebrew_era_year year }
{
    EraYear {
        year,
        extended_year: year,
        era: TinyAsciiStr::of_text(b"am"),
        era_index: Some(0),
        ambiguity: YearAmbiguity::CenturyRequired,
    }
}

impl NamedYears for Hebrew {
    ghost use Rattle.std.specs.Prelude.{refl};
    ghost use Rattle.cal_types.specs.declared.year.YearInfo.TheVariants.{Era};
    ghost use Rattle.cal_base.specs.laws.Compatibility.{all_alike};
    ghost use Rattle.cal_days.specs.Hebrew.{hebrew_leap};
    ghost use Rattle.cal_hebrew.specs.HebrewEra.{hebrew_era_year};
    ghost use Rattle.cal_hebrew.specs.HebrewSystem.{has_hebrew_length, hebrew_leap_status, hebrew_formatted_month};
    ghost use Rattle.cal_hebrew.specs.laws.HebrewSystemLaws.{has_hebrew_length-tested};

    type Year = EraYear;

    ghost has_year = { λ _ y. has_hebrew_length y };

    ghost is_leap_year = { λ _ y. hebrew_leap y };

    ghost year_named = { λ _ y. Era (hebrew_era_year y) };

    ghost leap_status = { λ _ y i. hebrew_leap_status y i };

    ghost formatted_month = { λ _ y i month. hebrew_formatted_month y i month };

    fn owns_year(&self, year: HebrewYear) -> bool {
        can_be_named(year.extended_year) && hebrew::year_length(year.extended_year) == year.length
    }

    fn is_leap(&self, year: HebrewYear) -> bool {
        is_leap(year.length)
    }

    fn named_year(&self, year: HebrewYear) -> EraYear {
        era_year(year.extended_year)
    }

    fn shown_month(
        &self,
        year: HebrewYear,
        ordinal_month: u8,
        month: Month,
    ) -> (LeapStatus, Month) {
        (
            leap_status(year.length, ordinal_month),
            formatted_month(year.length, ordinal_month, month),
        )
    }

    fn year_offset(&self) -> i32 {
        0
    }

    fn is_compatible(&self, _other: &Self) -> bool {
        true
    }

    ghost tested = { λ _ y. has_hebrew_length-tested y };

    ghost named = { λ _ y. refl };

    ghost alike = { all_alike };

    ghost shared = { λ _ _ _ _ given. record { given = given; start = refl; months = refl } };
}

impl UnstableSealed for Hebrew {}

impl Calendar for Hebrew {
    ghost use Rattle.std.specs.Prelude.{true, false, refl, codes, Some};
    ghost use Rattle.cal_errors.specs.declared.algorithm.CalendarAlgorithm.TheVariants.{Hebrew as hebrew_algorithm};
    ghost use Rattle.cal_base.specs.laws.Compatibility.{never_refused};
    ghost use Rattle.cal_base.specs.laws.NumberedYears.{numbered_equal, numbered_ordered};
    ghost use Rattle.cal_hebrew.specs.HebrewList.{hebrew_list};
    ghost use Rattle.cal_hebrew.specs.HebrewSystem.{hebrew_system, hebrew_date, hebrew_belongs};
    ghost use Rattle.cal_hebrew.specs.laws.HebrewMonths.{hebrew_list-lawful};
    ghost use Rattle.cal_hebrew.specs.laws.HebrewSystemLaws.{hebrew_belongs-dated, hebrew_belongs-valid};
    ghost use Rattle.cal_hebrew.specs.laws.HebrewLaws.{years-ranged, days-covered};

    type DateInner = HebrewDateInner;

    type Year = EraYear;

    type DateCompatibilityError = Infallible;

    ghost system = { λ _. hebrew_system };

    ghost date_of = { λ _ d. hebrew_date d };

    ghost belongs = { λ _ d. hebrew_belongs d };

    ghost compatible = { λ _ _. true };

    ghost is_cheap = { λ _. false };

    ghost algorithm = { λ _. Some hebrew_algorithm };

    ghost name = { λ _. codes "Hebrew" };

    fn owns(&self, date: &HebrewDateInner) -> bool {
        Arithmetic(*self).owns(&date.0)
    }

    fn new_date(
        &self,
        year: YearInput<'_>,
        month: Month,
        day: u8,
    ) -> Result<HebrewDateInner, DateNewError> {
        Ok(HebrewDateInner(Arithmetic(*self).new_date(year, month, day)?))
    }

    fn from_fields(
        &self,
        fields: DateFields<'_>,
        options: DateFromFieldsOptions,
    ) -> Result<HebrewDateInner, DateFromFieldsError> {
        Ok(HebrewDateInner(Arithmetic(*self).from_fields(fields, options)?))
    }

    fn has_cheap_iso_conversion(&self) -> bool {
        false
    }

    fn from_rata_die(&self, rd: RataDie) -> HebrewDateInner {
        HebrewDateInner(Arithmetic(*self).from_rata_die(rd))
    }

    fn to_rata_die(&self, date: &HebrewDateInner) -> RataDie {
        Arithmetic(*self).to_rata_die(&date.0)
    }

    fn months_in_year(&self, date: &HebrewDateInner) -> u8 {
        Arithmetic(*self).months_in_year(&date.0)
    }

    fn days_in_year(&self, date: &HebrewDateInner) -> u16 {
        Arithmetic(*self).days_in_year(&date.0)
    }

    fn days_in_month(&self, date: &HebrewDateInner) -> u8 {
        Arithmetic(*self).days_in_month(&date.0)
    }

    fn is_in_leap_year(&self, date: &HebrewDateInner) -> bool {
        Arithmetic(*self).is_in_leap_year(&date.0)
    }

    fn year_info(&self, date: &HebrewDateInner) -> EraYear {
        Arithmetic(*self).year_info(&date.0)
    }

    fn extended_year(&self, date: &HebrewDateInner) -> i32 {
        Arithmetic(*self).extended_year(&date.0)
    }

    fn month(&self, date: &HebrewDateInner) -> MonthInfo {
        Arithmetic(*self).month(&date.0)
    }

    fn day_of_month(&self, date: &HebrewDateInner) -> DayOfMonth {
        Arithmetic(*self).day_of_month(&date.0)
    }

    fn day_of_year(&self, date: &HebrewDateInner) -> DayOfYear {
        Arithmetic(*self).day_of_year(&date.0)
    }

    #[inline(always)]
    fn add(
        &self,
        date: &HebrewDateInner,
        duration: DateDuration,
        options: DateAddOptions,
    ) -> Result<HebrewDateInner, DateAddError> {
        Ok(HebrewDateInner(Arithmetic(*self).add(&date.0, duration, options)?))
    }

    fn until(
        &self,
        date1: &HebrewDateInner,
        date2: &HebrewDateInner,
        options: DateDifferenceOptions,
    ) -> DateDuration {
        Arithmetic(*self).until(&date1.0, &date2.0, options)
    }

    fn until_counted<L: Ledger>(
        &self,
        date1: &HebrewDateInner,
        date2: &HebrewDateInner,
        options: DateDifferenceOptions,
        steps: &mut Steps<L>,
    ) -> DateDuration {
        Arithmetic(*self).until_counted(&date1.0, &date2.0, options, steps)
    }

    fn check_date_compatibility(&self, _other: &Self) -> Result<(), Infallible> {
        Ok(())
    }

    fn calendar_algorithm(&self) -> Option<CalendarAlgorithm> {
        Some(CalendarAlgorithm::Hebrew)
    }

    fn debug_name(&self) -> &'static str {
        "Hebrew"
    }

    ghost lawful = { λ _. hebrew_list-lawful };

    ghost dated = { λ _ d h. hebrew_belongs-dated d h };

    ghost ranged = { λ _ t h. (years-ranged t h).0 };

    ghost shifted = { λ _ t h. (years-ranged t h).1 };

    ghost covered = { λ _ t. days-covered t };

    ghost named = { λ _ t. refl };

    ghost equal_days = { λ _ a b h k. numbered_equal hebrew_list _ _ (hebrew_belongs-valid a h)
        (hebrew_belongs-valid b k) };

    ghost ordered_days = { λ _ a b h k. numbered_ordered hebrew_list _ _ (hebrew_belongs-valid a h)
        (hebrew_belongs-valid b k) };

    ghost refusal = { λ _ _ h. never_refused h };

    ghost compatible_itself = { λ _. refl };

    ghost compatible_back = { λ _ _ h. h };

    ghost compatible_on = { λ _ _ _ h k. k };

    ghost shared = { λ _ _ _ h k. k };

    ghost shared_day = { λ _ _ _ h k. refl };
}

impl AsCalendar for Hebrew {
    type Calendar = Hebrew;

    ghost cal_of = { λ c. c };

    fn as_calendar(&self) -> &Hebrew {
        self
    }
}
