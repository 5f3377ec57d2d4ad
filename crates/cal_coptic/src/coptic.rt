//! The Coptic calendar (Reingold and Dershowitz, Calendrical Calculations, chapter 4).

use crate::coptic_year::{
    coptic_date, day_number, days_in_month, is_leap, month_and_day, reference_year,
};
use cal_arith::eras::year_in_only_era;
use cal_arith::{ArithmeticDate, DateFieldsResolver, Steps, YearShapes, Years};
use cal_base::plain_months::{is_plain, plain_ordinal};
use cal_base::scaffold::UnstableSealed;
use cal_base::{Arithmetic, AsCalendar, Calendar, NamedYears, NumberedYear};
use cal_days::{RataDie, coptic};
use cal_types::{
    CalendarAlgorithm, DateAddError, DateAddOptions, DateDifferenceOptions, DateDuration,
    DateFields, DateFromFieldsError, DateFromFieldsOptions, DateNewError, DayOfMonth, DayOfYear,
    EcmaReferenceYearError, EraYear, LeapStatus, Month, MonthError, MonthInfo, Overflow,
    TinyAsciiStr, UnknownEraError, YearAmbiguity, YearInput,
};
use std::convert::Infallible;
use std::sync::ledger::Ledger;

/// The Coptic calendar, in the Era of the Martyrs.
///
/// A year has twelve months of 30 days, and a thirteenth month of 5 epagomenal days, or 6 in every fourth year. Its
/// only era has the code `am`, and the era year is the extended year, even before year 1. The reference year of a day
/// is 1689 up to day 22 of month 4, otherwise 1688, but 1687 for the sixth epagomenal day. CLDR's name for it is
/// `coptic`.
#[derive(Clone, Copy, Debug, Default, PartialEq, Eq, PartialOrd, Ord, Hash)]
pub struct Coptic;

/// A date of the Coptic calendar: its year, its ordinal month and its day of the month.
#[derive(Clone, Copy, Debug, PartialEq, Eq, PartialOrd, Ord, Hash)]
pub struct CopticDateInner(ArithmeticDate<Coptic>);

impl YearShapes for Coptic {
    ghost use Rattle.std.specs.Prelude.{refl};
    ghost use Rattle.cal_coptic.specs.CopticList.{coptic_years};
    ghost use Rattle.cal_coptic.specs.laws.CopticLaws.{coptic_list-bounded, coptic_list-lawful, stored-extended, day_number-near, years-ranged, days-covered};

    type YearInfo = NumberedYear;

    ghost years = { λ _. coptic_years };

    fn year_counted<L: Ledger>(&self, extended_year: i32, steps: &mut Steps<L>) -> NumberedYear {
        steps.tick();
        NumberedYear {
            number: extended_year,
        }
    }

    fn extended_from_year_info(&self, year: NumberedYear) -> i32 {
        year.number
    }

    fn months_in_provided_year(&self, _year: NumberedYear) -> u8 {
        13
    }

    fn days_in_provided_month(&self, year: NumberedYear, month: u8) -> u8 {
        days_in_month(year, month)
    }

    fn to_rata_die_inner(&self, year: NumberedYear, month: u8, day: u8) -> RataDie {
        day_number(year, month, day)
    }

    fn min_months_from(&self, _start: NumberedYear, count: i32) -> i32 {
        13 * count
    }

    fn months_by_number(&self, first: i32, last: i32) -> (i32, u32) {
        (last, 13 * (last - first) as u32)
    }

    fn ordinal_from_month(
        &self,
        _year: NumberedYear,
        month: Month,
        _overflow: Overflow,
    ) -> Result<u8, MonthError> {
        plain_ordinal(month, 13)
    }

    fn month_from_ordinal(&self, _year: NumberedYear, ordinal_month: u8) -> Month {
        Month::new(ordinal_month)
    }

    ghost numbered = { λ s y h. refl };

    ghost lawful = { λ s. coptic_list-lawful };

    ghost equal = { λ a b. refl };

    ghost ordered = { λ a b. refl };

    ghost stored_from = { λ s y h. stored-extended y.number };

    ghost near = { λ s t. day_number-near t };

    ghost ranged = { λ s t. years-ranged t };

    ghost apart = { λ s t u. coptic_list-bounded.apart t u };

    ghost covered = { λ s t. days-covered t };
}

impl Years for Coptic {
    fn year_info_from_extended(&self, extended_year: i32) -> NumberedYear {
        NumberedYear {
            number: extended_year,
        }
    }

    fn year_containing_rd(&self, rd: RataDie) -> NumberedYear {
        NumberedYear {
            number: coptic::year_from_fixed(rd),
        }
    }

    fn year_month_day(&self, rd: RataDie) -> (NumberedYear, u8, u8) {
        coptic_date(rd)
    }

    fn month_and_day(&self, _year: NumberedYear, day_of_year: u16) -> (u8, u8) {
        month_and_day(day_of_year)
    }

    fn estimated_years(&self, _from: NumberedYear, months: u32) -> u32 {
        months / 13
    }
}

impl DateFieldsResolver for Coptic {
    ghost use Rattle.std.specs.Prelude.{codes};
    ghost use Rattle.cal_types.specs.PlainMonths.{is_plain_month};
    ghost use Rattle.cal_types.proofs.EraLemmas.{only_era_reads-in_range, only_era_reads-near};
    ghost use Rattle.cal_types.proofs.YearNameLemmas.{reference_of_known-stands, reference_of_known-tested};
    ghost use Rattle.cal_coptic.specs.laws.CopticLaws.{coptic_list-plain};
    ghost use Rattle.cal_coptic.specs.CopticNames.{coptic_names, coptic_reference_year};

    ghost names = { λ _. coptic_names };

    fn extended_year_from_era_year_unchecked(
        &self,
        era: &[u8],
        era_year: i32,
    ) -> Result<i32, UnknownEraError> {
        year_in_only_era(b"am", era, era_year)
    }

    fn reference_year_from_month_day(
        &self,
        month: Month,
        day: u8,
    ) -> Result<NumberedYear, EcmaReferenceYearError> {
        if is_plain(month, 13) {
            Ok(reference_year(month.number(), day))
        } else {
            Err(EcmaReferenceYearError::MonthNotInCalendar)
        }
    }

    ghost era_in_range = { λ _ era n y. only_era_reads-in_range (codes "am") era n y };

    ghost era_near = { λ _ era n y. only_era_reads-near (codes "am") era n y };

    ghost reference_of_kind = { λ _ m d. reference_of_known-tested (is_plain_month 13 m) _
        (coptic_reference_year m.number d) (coptic_list-plain.kind m) };

    ghost reference_of_leap_month = { λ _ m d e. reference_of_known-stands (is_plain_month 13 m)
        (coptic_reference_year m.number d) e };
}

impl NamedYears for Coptic {
    ghost use Rattle.std.specs.Prelude.{refl};
    ghost use Rattle.cal_types.specs.declared.year.YearInfo.TheVariants.{Era};
    ghost use Rattle.cal_base.specs.laws.Compatibility.{all_alike};
    ghost use Rattle.cal_days.specs.Coptic.{coptic_leap};
    ghost use Rattle.cal_coptic.specs.CopticEra.{coptic_era_year};

    type Year = EraYear;

    ghost is_leap_year = { λ _ y. coptic_leap y };

    ghost year_named = { λ _ y. Era (coptic_era_year y) };

    fn owns_year(&self, year: NumberedYear) -> bool {
        year.can_be_named()
    }

    fn is_leap(&self, year: NumberedYear) -> bool {
        is_leap(year)
    }

    fn named_year(&self, year: NumberedYear) -> EraYear {
        EraYear {
            year: year.number,
            extended_year: year.number,
            era: TinyAsciiStr::of_text(b"am"),
            era_index: Some(0),
            ambiguity: YearAmbiguity::CenturyRequired,
        }
    }

    fn shown_month(
        &self,
        _year: NumberedYear,
        _ordinal_month: u8,
        month: Month,
    ) -> (LeapStatus, Month) {
        (LeapStatus::Normal, month)
    }

    fn year_offset(&self) -> i32 {
        0
    }

    fn is_compatible(&self, _other: &Self) -> bool {
        true
    }

    ghost tested = { λ _ _. (λ _. refl, λ _. refl) };

    ghost named = { λ _ y. refl };

    ghost alike = { all_alike };

    ghost shared = { λ _ _ _ _ given. record { given = given; start = refl; months = refl } };
}

impl UnstableSealed for Coptic {}

impl Calendar for Coptic {
    ghost use Rattle.std.specs.Prelude.{true, false, refl, codes, Some};
    ghost use Rattle.cal_errors.specs.declared.algorithm.CalendarAlgorithm.TheVariants.{Coptic as coptic};
    ghost use Rattle.cal_base.specs.laws.Compatibility.{never_refused};
    ghost use Rattle.cal_base.specs.laws.NumberedYears.{numbered_equal, numbered_ordered};
    ghost use Rattle.cal_coptic.specs.CopticList.{coptic_list};
    ghost use Rattle.cal_coptic.specs.CopticSystem.{coptic_system, coptic_date, coptic_belongs};
    ghost use Rattle.cal_coptic.specs.laws.CopticLaws.{coptic_list-lawful, years-ranged, days-covered};
    ghost use Rattle.cal_coptic.specs.laws.CopticSystemLaws.{coptic_belongs-dated};

    type DateInner = CopticDateInner;

    type Year = EraYear;

    type DateCompatibilityError = Infallible;

    ghost system = { λ _. coptic_system };

    ghost date_of = { λ _ d. coptic_date d };

    ghost belongs = { λ _ d. coptic_belongs d };

    ghost compatible = { λ _ _. true };

    ghost is_cheap = { λ _. false };

    ghost algorithm = { λ _. Some coptic };

    ghost name = { λ _. codes "Coptic" };

    fn owns(&self, date: &CopticDateInner) -> bool {
        Arithmetic(*self).owns(&date.0)
    }

    fn new_date(
        &self,
        year: YearInput<'_>,
        month: Month,
        day: u8,
    ) -> Result<CopticDateInner, DateNewError> {
        Ok(CopticDateInner(Arithmetic(*self).new_date(year, month, day)?))
    }

    fn from_fields(
        &self,
        fields: DateFields<'_>,
        options: DateFromFieldsOptions,
    ) -> Result<CopticDateInner, DateFromFieldsError> {
        Ok(CopticDateInner(Arithmetic(*self).from_fields(fields, options)?))
    }

    fn has_cheap_iso_conversion(&self) -> bool {
        false
    }

    fn from_rata_die(&self, rd: RataDie) -> CopticDateInner {
        CopticDateInner(Arithmetic(*self).from_rata_die(rd))
    }

    fn to_rata_die(&self, date: &CopticDateInner) -> RataDie {
        Arithmetic(*self).to_rata_die(&date.0)
    }

    fn months_in_year(&self, date: &CopticDateInner) -> u8 {
        Arithmetic(*self).months_in_year(&date.0)
    }

    fn days_in_year(&self, date: &CopticDateInner) -> u16 {
        Arithmetic(*self).days_in_year(&date.0)
    }

    fn days_in_month(&self, date: &CopticDateInner) -> u8 {
        Arithmetic(*self).days_in_month(&date.0)
    }

    fn is_in_leap_year(&self, date: &CopticDateInner) -> bool {
        Arithmetic(*self).is_in_leap_year(&date.0)
    }

    fn year_info(&self, date: &CopticDateInner) -> EraYear {
        Arithmetic(*self).year_info(&date.0)
    }

    fn extended_year(&self, date: &CopticDateInner) -> i32 {
        Arithmetic(*self).extended_year(&date.0)
    }

    fn month(&self, date: &CopticDateInner) -> MonthInfo {
        Arithmetic(*self).month(&date.0)
    }

    fn day_of_month(&self, date: &CopticDateInner) -> DayOfMonth {
        Arithmetic(*self).day_of_month(&date.0)
    }

    fn day_of_year(&self, date: &CopticDateInner) -> DayOfYear {
        Arithmetic(*self).day_of_year(&date.0)
    }

    #[inline(always)]
    fn add(
        &self,
        date: &CopticDateInner,
        duration: DateDuration,
        options: DateAddOptions,
    ) -> Result<CopticDateInner, DateAddError> {
        Ok(CopticDateInner(Arithmetic(*self).add(&date.0, duration, options)?))
    }

    fn until(
        &self,
        date1: &CopticDateInner,
        date2: &CopticDateInner,
        options: DateDifferenceOptions,
    ) -> DateDuration {
        Arithmetic(*self).until(&date1.0, &date2.0, options)
    }

    fn until_counted<L: Ledger>(
        &self,
        date1: &CopticDateInner,
        date2: &CopticDateInner,
        options: DateDifferenceOptions,
        steps: &mut Steps<L>,
    ) -> DateDuration {
        Arithmetic(*self).until_counted(&date1.0, &date2.0, options, steps)
    }

    fn check_date_compatibility(&self, _other: &Self) -> Result<(), Infallible> {
        Ok(())
    }

    fn calendar_algorithm(&self) -> Option<CalendarAlgorithm> {
        Some(CalendarAlgorithm::Coptic)
    }

    fn debug_name(&self) -> &'static str {
        "Coptic"
    }

    ghost lawful = { λ _. coptic_list-lawful };

    ghost dated = { λ _ d h. coptic_belongs-dated d h };

    ghost ranged = { λ _ t h. (years-ranged t h).0 };

    ghost shifted = { λ _ t h. (years-ranged t h).1 };

    ghost covered = { λ _ t. days-covered t };

    ghost named = { λ _ t. refl };

    ghost equal_days = { λ _ a b h k. numbered_equal coptic_list _ _ h k };

    ghost ordered_days = { λ _ a b h k. numbered_ordered coptic_list _ _ h k };

    ghost refusal = { λ _ _ h. never_refused h };

    ghost compatible_itself = { λ _. refl };

    ghost compatible_back = { λ _ _ h. h };

    ghost compatible_on = { λ _ _ _ h k. k };

    ghost shared = { λ _ _ _ h k. k };

    ghost shared_day = { λ _ _ _ h k. refl };
}

impl AsCalendar for Coptic {
    type Calendar = Coptic;

    ghost cal_of = { λ c. c };

    fn as_calendar(&self) -> &Coptic {
        self
    }
}
