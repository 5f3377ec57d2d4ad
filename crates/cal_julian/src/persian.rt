//! The Persian calendar, as used in Iran.

ghost use Rattle.std.specs.Prelude.{◌≡◌};
ghost use Rattle.cal_days.specs.Day.{IsRuleYear};
ghost use Rattle.cal_julian.specs.PersianNames.{persian_reference_year};

use crate::persian_corrections::PersianCorrections;
use crate::persian_months::{days_before_day, days_in_month, month_and_day};
use cal_arith::eras::year_in_only_era;
use cal_arith::{ArithmeticDate, DateFieldsResolver, Steps, YearShapes, Years};
use cal_base::plain_months::{is_plain, plain_ordinal};
use cal_base::scaffold::UnstableSealed;
use cal_base::{Arithmetic, AsCalendar, Calendar, NamedYears, NumberedYear};
use cal_days::RataDie;
use cal_types::{
    CalendarAlgorithm, DateAddError, DateAddOptions, DateDifferenceOptions, DateDuration,
    DateFields, DateFromFieldsError, DateFromFieldsOptions, DateNewError, DayOfMonth, DayOfYear,
    EcmaReferenceYearError, EraYear, LeapStatus, MismatchedCalendarError, Month, MonthError,
    MonthInfo, Overflow, TinyAsciiStr, UnknownEraError, YearAmbiguity, YearInput,
};
use std::cmp::Ordering;
use std::sync::ledger::Ledger;

/// The Persian calendar, or Solar Hijri calendar, as used in Iran.
///
/// A year has six months of 31 days, five of 30, and a last month of 29 days, or 30 in a leap year. Of 33 years, 8
/// are leap years, except for the corrected years. Its only era has the code `ap`, and the era year is the extended
/// year (CLDR, UTS 35). The reference year of a day is 1351, or 1350 from day 11 of month 10 on. CLDR's name for it
/// is `persian`. Dates of two Persian calendars can be compared if the same years are corrected in both.
#[derive(Clone, Copy, Debug)]
pub struct Persian<'t> {
    corrections: PersianCorrections<'t>,
}

impl<'t> Persian<'t> {
    /// Returns the Persian calendar with these corrections.
    ///
    /// ```
    /// let persian = Persian::new(PersianCorrections::none());
    /// let date = Date::from_rata_die(RataDie::new(738946), persian);
    /// assert!(rt; date.era_year().year == 1402);
    /// ```
    pub fn new(corrections: PersianCorrections<'t>) -> Persian<'t>
        ensures { result.corrections ≡ corrections.entry }
    {
        Persian { corrections }
    }
}

/// A date of the Persian calendar: its year, its ordinal month and its day of the month.
#[derive(Clone, Copy, Debug, PartialEq, Eq, PartialOrd, Ord, Hash)]
pub struct PersianDateInner<'t>(ArithmeticDate<Persian<'t>>);

impl<'t> YearShapes for Persian<'t> {
    ghost use Rattle.std.specs.Prelude.{refl};
    ghost use Rattle.cal_julian.specs.PersianList.{persian_years};
    ghost use Rattle.cal_julian.specs.PersianCorrected.{corrected_years};
    ghost use Rattle.cal_julian.specs.laws.PersianLaws.{persian_list-lawful, stored-extended, day_number-near, years-ranged, months-apart, days-covered};

    type YearInfo = NumberedYear;

    ghost years = { λ s. persian_years (corrected_years s) };

    fn year_counted<L: Ledger>(&self, extended_year: i32, steps: &mut Steps<L>) -> NumberedYear {
        steps.tick();
        NumberedYear {
            number: extended_year,
        }
    }

    fn extended_from_year_info(&self, year: NumberedYear) -> i32 {
        year.number
    }

    fn months_in_provided_year(&self, _year: NumberedYear) -> u8 {
        12
    }

    fn days_in_provided_month(&self, year: NumberedYear, month: u8) -> u8 {
        // Only the last month depends on whether the year is a leap year.
        if month == 12 {
            days_in_month(self.corrections.is_leap_year(year.number), month)
        } else {
            days_in_month(true, month)
        }
    }

    fn to_rata_die_inner(&self, year: NumberedYear, month: u8, day: u8) -> RataDie {
        let before = days_before_day(month, day);
        let start = self.corrections.year_start(year.number);
        RataDie::new(start + i64::from(before))
    }

    fn min_months_from(&self, _start: NumberedYear, count: i32) -> i32 {
        12 * count
    }

    fn months_by_number(&self, first: i32, last: i32) -> (i32, u32) {
        (last, 12 * (last - first) as u32)
    }

    fn ordinal_from_month(
        &self,
        _year: NumberedYear,
        month: Month,
        _overflow: Overflow,
    ) -> Result<u8, MonthError> {
        plain_ordinal(month, 12)
    }

    fn month_from_ordinal(&self, _year: NumberedYear, ordinal_month: u8) -> Month {
        Month::new(ordinal_month)
    }

    fn ordinal_in_other_year(
        &self,
        _year: NumberedYear,
        ordinal_month: u8,
        _other: NumberedYear,
        _overflow: Overflow,
    ) -> Option<u8> {
        Some(ordinal_month)
    }

    ghost numbered = { λ s y h. refl };

    ghost lawful = { λ s. persian_list-lawful (corrected_years s) };

    ghost equal = { λ a b. refl };

    ghost ordered = { λ a b. refl };

    ghost stored_from = { λ s y h. stored-extended y.number };

    ghost near = { λ s t. day_number-near (corrected_years s) s.corrections.known t };

    ghost ranged = { λ s t. years-ranged (corrected_years s) s.corrections.known t };

    ghost apart = { λ s t u. months-apart (corrected_years s) s.corrections.known t u };

    ghost covered = { λ s t. days-covered (corrected_years s) s.corrections.known t };
}

impl<'t> Years for Persian<'t> {
    fn year_info_from_extended(&self, extended_year: i32) -> NumberedYear {
        NumberedYear {
            number: extended_year,
        }
    }

    fn year_containing_rd(&self, rd: RataDie) -> NumberedYear {
        NumberedYear {
            number: self.corrections.year_and_day_from_fixed(rd).0,
        }
    }

    fn year_month_day(&self, rd: RataDie) -> (NumberedYear, u8, u8) {
        let (extended_year, day_of_year) = self.corrections.year_and_day_from_fixed(rd);
        let (month, day) = month_and_day(day_of_year);
        (
            NumberedYear {
                number: extended_year,
            },
            month,
            day,
        )
    }
}

/// Returns the reference year of a day of a month, 1 to 12: the latest year in which the day falls on or before
/// 1972-12-31 of the ISO calendar.
fn reference_year(month: u8, day: u8) -> i32
    ensures year { result ≡ persian_reference_year month day }
    ensures range { IsRuleYear result }
{
    if month >= 11 || month == 10 && day >= 11 {
        1350
    } else {
        1351
    }
}

impl<'t> DateFieldsResolver for Persian<'t> {
    ghost use Rattle.cal_types.specs.PlainMonths.{is_plain_month};
    ghost use Rattle.std.specs.Prelude.{codes};
    ghost use Rattle.cal_types.proofs.EraLemmas.{only_era_reads-in_range, only_era_reads-near};
    ghost use Rattle.cal_types.proofs.YearNameLemmas.{reference_of_known-stands, reference_of_known-tested};
    ghost use Rattle.cal_julian.specs.PersianCorrected.{corrected_years};
    ghost use Rattle.cal_julian.specs.laws.PersianLaws.{persian_list-plain};
    ghost use Rattle.cal_julian.specs.PersianNames.{persian_names, persian_reference_year};

    ghost names = { λ _. persian_names };

    fn extended_year_from_era_year_unchecked(
        &self,
        era: &[u8],
        era_year: i32,
    ) -> Result<i32, UnknownEraError> {
        year_in_only_era(b"ap", era, era_year)
    }

    fn reference_year_from_month_day(
        &self,
        month: Month,
        day: u8,
    ) -> Result<NumberedYear, EcmaReferenceYearError> {
        if is_plain(month, 12) {
            Ok(NumberedYear {
                number: reference_year(month.number(), day),
            })
        } else {
            Err(EcmaReferenceYearError::MonthNotInCalendar)
        }
    }

    ghost era_in_range = { λ _ era n y. only_era_reads-in_range (codes "ap") era n y };

    ghost era_near = { λ _ era n y. only_era_reads-near (codes "ap") era n y };

    ghost reference_of_kind = { λ s m d. reference_of_known-tested (is_plain_month 12 m) _
        (persian_reference_year m.number d) ((persian_list-plain (corrected_years s)).kind m) };

    ghost reference_of_leap_month = { λ _ m d e. reference_of_known-stands (is_plain_month 12 m)
        (persian_reference_year m.number d) e };
}

impl<'t> NamedYears for Persian<'t> {
    ghost use Rattle.std.specs.Prelude.{refl};
    ghost use Rattle.std.specs.Cmp.{on_equiv, int_eq_equiv};
    ghost use Rattle.std.specs.Cmp.Lexicographic.{lists_equiv};
    ghost use Rattle.cal_types.specs.declared.year.YearInfo.TheVariants.{Era};
    ghost use Rattle.cal_julian.specs.PersianCorrected.{are_corrected_alike, corrected_years};
    ghost use Rattle.cal_julian.specs.laws.PersianLaws.{years-shared};
    ghost use Rattle.cal_julian.specs.PersianNames.{persian_era_year};
    ghost use Rattle.cal_julian.specs.PersianRule.{is_persian_leap};

    type Year = EraYear;

    ghost is_leap_year = { λ s y. is_persian_leap (corrected_years s) y };

    ghost year_named = { λ _ y. Era (persian_era_year y) };

    ghost compatible = { λ s t. are_corrected_alike s t };

    fn owns_year(&self, year: NumberedYear) -> bool {
        year.can_be_named()
    }

    fn is_leap(&self, year: NumberedYear) -> bool {
        self.corrections.is_leap_year(year.number)
    }

    fn named_year(&self, year: NumberedYear) -> EraYear {
        EraYear {
            year: year.number,
            extended_year: year.number,
            era: TinyAsciiStr::of_text(b"ap"),
            era_index: Some(0),
            ambiguity: YearAmbiguity::CenturyRequired,
        }
    }

    fn shown_month(
        &self,
        _year: NumberedYear,
        _ordinal_month: u8,
        month: Month,
    ) -> (LeapStatus, Month) {
        (LeapStatus::Normal, month)
    }

    fn year_offset(&self) -> i32 {
        0
    }

    fn is_compatible(&self, other: &Self) -> bool {
        self.corrections.years() == other.corrections.years()
    }

    ghost tested = { λ _ _. (λ _. refl, λ _. refl) };

    ghost named = { λ _ y. refl };

    ghost alike = { on_equiv corrected_years (lists_equiv int_eq_equiv) };

    ghost shared = { λ s t y h given. years-shared (corrected_years s) (corrected_years t) h y given };
}

impl<'t> UnstableSealed for Persian<'t> {}

impl<'t> Calendar for Persian<'t> {
    ghost use Rattle.std.specs.Prelude.{false, refl, codes, Some};
    ghost use Rattle.std.specs.Cmp.{int_eq_equiv};
    ghost use Rattle.std.specs.Cmp.Lexicographic.{lists_equiv};
    ghost use Rattle.cal_errors.specs.declared.algorithm.CalendarAlgorithm.TheVariants as algorithms;
    ghost use Rattle.cal_base.specs.laws.NumberedYears.{numbered_equal, numbered_ordered};
    ghost use Rattle.cal_julian.specs.PersianCorrected.{are_corrected_alike, corrected_years};
    ghost use Rattle.cal_julian.specs.PersianList.{persian_list};
    ghost use Rattle.cal_julian.specs.PersianSystem.{persian_system, persian_date, persian_belongs};
    ghost use Rattle.cal_julian.specs.laws.PersianLaws.{persian_list-lawful, years-ranged, days-covered};
    ghost use Rattle.cal_julian.specs.laws.PersianSystemLaws.{persian_belongs-dated, persian_alike-back, persian_alike-on, persian_belongs-shared, persian_day-shared};

    type DateInner = PersianDateInner<'t>;

    type Year = EraYear;

    type DateCompatibilityError = MismatchedCalendarError;

    ghost system = { λ s. persian_system s };

    ghost date_of = { λ _ d. persian_date d };

    ghost belongs = { λ s d. persian_belongs s d };

    ghost compatible = { λ s t. are_corrected_alike s t };

    ghost is_cheap = { λ _. false };

    ghost algorithm = { λ _. Some algorithms.Persian };

    ghost name = { λ _. codes "Persian" };

    fn owns(&self, date: &PersianDateInner<'t>) -> bool {
        Arithmetic(*self).owns(&date.0)
    }

    fn new_date(
        &self,
        year: YearInput<'_>,
        month: Month,
        day: u8,
    ) -> Result<PersianDateInner<'t>, DateNewError> {
        Ok(PersianDateInner(Arithmetic(*self).new_date(year, month, day)?))
    }

    fn from_fields(
        &self,
        fields: DateFields<'_>,
        options: DateFromFieldsOptions,
    ) -> Result<PersianDateInner<'t>, DateFromFieldsError> {
        Ok(PersianDateInner(Arithmetic(*self).from_fields(fields, options)?))
    }

    fn has_cheap_iso_conversion(&self) -> bool {
        false
    }

    fn from_rata_die(&self, rd: RataDie) -> PersianDateInner<'t> {
        PersianDateInner(Arithmetic(*self).from_rata_die(rd))
    }

    fn to_rata_die(&self, date: &PersianDateInner<'t>) -> RataDie {
        Arithmetic(*self).to_rata_die(&date.0)
    }

    fn months_in_year(&self, date: &PersianDateInner<'t>) -> u8 {
        Arithmetic(*self).months_in_year(&date.0)
    }

    fn days_in_year(&self, date: &PersianDateInner<'t>) -> u16 {
        Arithmetic(*self).days_in_year(&date.0)
    }

    fn days_in_month(&self, date: &PersianDateInner<'t>) -> u8 {
        Arithmetic(*self).days_in_month(&date.0)
    }

    fn is_in_leap_year(&self, date: &PersianDateInner<'t>) -> bool {
        Arithmetic(*self).is_in_leap_year(&date.0)
    }

    fn year_info(&self, date: &PersianDateInner<'t>) -> EraYear {
        Arithmetic(*self).year_info(&date.0)
    }

    fn extended_year(&self, date: &PersianDateInner<'t>) -> i32 {
        Arithmetic(*self).extended_year(&date.0)
    }

    fn month(&self, date: &PersianDateInner<'t>) -> MonthInfo {
        Arithmetic(*self).month(&date.0)
    }

    fn day_of_month(&self, date: &PersianDateInner<'t>) -> DayOfMonth {
        Arithmetic(*self).day_of_month(&date.0)
    }

    fn day_of_year(&self, date: &PersianDateInner<'t>) -> DayOfYear {
        Arithmetic(*self).day_of_year(&date.0)
    }

    #[inline(always)]
    fn add(
        &self,
        date: &PersianDateInner<'t>,
        duration: DateDuration,
        options: DateAddOptions,
    ) -> Result<PersianDateInner<'t>, DateAddError> {
        Ok(PersianDateInner(Arithmetic(*self).add(&date.0, duration, options)?))
    }

    fn until(
        &self,
        date1: &PersianDateInner<'t>,
        date2: &PersianDateInner<'t>,
        options: DateDifferenceOptions,
    ) -> DateDuration {
        Arithmetic(*self).until(&date1.0, &date2.0, options)
    }

    fn until_counted<L: Ledger>(
        &self,
        date1: &PersianDateInner<'t>,
        date2: &PersianDateInner<'t>,
        options: DateDifferenceOptions,
        steps: &mut Steps<L>,
    ) -> DateDuration {
        Arithmetic(*self).until_counted(&date1.0, &date2.0, options, steps)
    }

    fn check_date_compatibility(&self, other: &Self) -> Result<(), MismatchedCalendarError> {
        if self.is_compatible(other) {
            Ok(())
        } else {
            Err(MismatchedCalendarError)
        }
    }

    fn calendar_algorithm(&self) -> Option<CalendarAlgorithm> {
        Some(CalendarAlgorithm::Persian)
    }

    fn debug_name(&self) -> &'static str {
        "Persian"
    }

    ghost lawful = { λ s. persian_list-lawful (corrected_years s) };

    ghost dated = { λ s d h. persian_belongs-dated s d h };

    ghost ranged = { λ s t h. (years-ranged (corrected_years s) s.corrections.known t h).0 };

    ghost shifted = { λ s t h. (years-ranged (corrected_years s) s.corrections.known t h).1 };

    ghost covered = { λ s t. days-covered (corrected_years s) s.corrections.known t };

    ghost named = { λ _ t. refl };

    ghost equal_days = { λ s a b h k. numbered_equal (persian_list (corrected_years s)) _ _ h k };

    ghost ordered_days = { λ s a b h k. numbered_ordered (persian_list (corrected_years s)) _ _ h k };

    ghost refusal = { λ _ _ _. record {} };

    ghost compatible_itself = { λ s. (lists_equiv int_eq_equiv).refl (corrected_years s) };

    ghost compatible_back = { λ s t h. persian_alike-back s t h };

    ghost compatible_on = { λ s t u h k. persian_alike-on s t u h k };

    ghost shared = { λ s t d h k. persian_belongs-shared s t d h k };

    ghost shared_day = { λ s t d h k. persian_day-shared s t d h };
}

impl<'t> AsCalendar for Persian<'t> {
    type Calendar = Persian<'t>;

    ghost cal_of = { λ c. c };

    fn as_calendar(&self) -> &Persian<'t> {
        self
    }
}
