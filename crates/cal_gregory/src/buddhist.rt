//! The Buddhist calendar.

use cal_arith::eras::year_in_only_era;
use cal_arith::{ArithmeticDate, Steps};
use cal_base::scaffold::UnstableSealed;
use cal_base::{AbstractGregorian, AsCalendar, Calendar, GregorianYears, IsoDateInner};
use cal_days::RataDie;
use cal_types::{
    CalendarAlgorithm, DateAddError, DateAddOptions, DateDifferenceOptions, DateDuration,
    DateFields, DateFromFieldsError, DateFromFieldsOptions, DateNewError, DayOfMonth, DayOfYear,
    EraYear, Month, MonthInfo, TinyAsciiStr, UnknownEraError, YearAmbiguity, YearInput,
};
use std::convert::Infallible;
use std::sync::ledger::Ledger;

/// The Buddhist calendar, as used in Thailand: the ISO calendar with years that are counted from ISO year -543.
///
/// Extended year 2515 is ISO year 1972. Its only era has the code `be`, and the era year is the extended year (CLDR,
/// UTS 35). It is proleptic, and has the months, leap years and reference years of the ISO calendar. CLDR's name for
/// it is `buddhist`.
#[derive(Clone, Copy, Debug, Default)]
pub struct Buddhist;

/// A date of the Buddhist calendar: its year, its ordinal month and its day of the month.
#[derive(Clone, Copy, Debug, PartialEq, Eq, PartialOrd, Ord, Hash)]
pub struct BuddhistDateInner(ArithmeticDate<AbstractGregorian<BuddhistEraYears>>);

/// The years of the Buddhist calendar, counted from ISO year -543 in the only era `be`.
#[derive(Clone, Copy, Debug)]
pub struct BuddhistEraYears;

impl GregorianYears for BuddhistEraYears {
    ghost use Rattle.std.specs.Prelude.{codes, refl, Some};
    ghost use Rattle.cal_errors.specs.declared.algorithm.CalendarAlgorithm.TheVariants as algorithms;
    ghost use Rattle.cal_types.specs.Eras.{only_era_reads};
    ghost use Rattle.cal_types.proofs.EraLemmas.{only_era_reads-in_range, only_era_reads-near};
    ghost use Rattle.cal_base.specs.laws.OffsetListLaws.{true-offset};
    ghost use Rattle.cal_gregory.specs.BuddhistEra.{buddhist_offset, buddhist_era_year};

    ghost offset = { λ _. buddhist_offset };

    ghost reads = { λ _. only_era_reads (codes "be") };

    ghost era_year = { λ _ t. buddhist_era_year t.year };

    ghost algorithm = { λ _. Some algorithms.Buddhist };

    ghost name = { λ _. codes "Buddhist" };

    fn year_offset(&self) -> i32 {
        -543
    }

    fn extended_from_era_year(&self, era: &[u8], year_of_era: i32) -> Result<i32, UnknownEraError> {
        year_in_only_era(b"be", era, year_of_era)
    }

    fn era_year_from_extended(&self, extended_year: i32, _month: u8, _day: u8) -> EraYear {
        EraYear {
            year: extended_year,
            extended_year,
            era: TinyAsciiStr::of_text(b"be"),
            era_index: Some(0),
            ambiguity: YearAmbiguity::CenturyRequired,
        }
    }

    fn calendar_algorithm(&self) -> Option<CalendarAlgorithm> {
        Some(CalendarAlgorithm::Buddhist)
    }

    fn debug_name(&self) -> &'static str {
        "Buddhist"
    }

    ghost offset_bound = { λ _. true-offset buddhist_offset refl };

    ghost era_in_range = { λ _ era n y. only_era_reads-in_range (codes "be") era n y };

    ghost era_near = { λ _ era n y. only_era_reads-near (codes "be") era n y };

    ghost named = { λ _ t. refl };
}

impl UnstableSealed for Buddhist {}

impl Calendar for Buddhist {
    ghost use Rattle.std.specs.Prelude.{true, refl, codes, Some};
    ghost use Rattle.std.proofs.Common.{ap};
    ghost use Rattle.cal_errors.specs.declared.algorithm.CalendarAlgorithm.TheVariants as algorithms;
    ghost use Rattle.cal_base.specs.laws.Compatibility.{never_refused};
    ghost use Rattle.cal_base.specs.laws.OffsetListLaws.{offset_list-lawful, offset_list-ranged, offset_list-shifted, offset_list-covered, true-offset};
    ghost use Rattle.cal_base.specs.laws.OffsetSystemLaws.{kept-dated, kept-equal, kept-ordered};
    ghost use Rattle.cal_gregory.specs.BuddhistSystem.{buddhist_system, buddhist_date, buddhist_belongs};
    ghost use Rattle.cal_gregory.specs.BuddhistEra.{buddhist_offset};

    type DateInner = BuddhistDateInner;

    type Year = EraYear;

    type DateCompatibilityError = Infallible;

    ghost system = { λ _. buddhist_system };

    ghost date_of = { λ _ d. buddhist_date d };

    ghost belongs = { λ _ d. buddhist_belongs d };

    ghost compatible = { λ _ _. true };

    ghost is_cheap = { λ _. true };

    ghost algorithm = { λ _. Some algorithms.Buddhist };

    ghost name = { λ _. codes "Buddhist" };

    fn owns(&self, date: &BuddhistDateInner) -> bool {
        AbstractGregorian(BuddhistEraYears).owns(&date.0)
    }

    fn new_date(
        &self,
        year: YearInput<'_>,
        month: Month,
        day: u8,
    ) -> Result<BuddhistDateInner, DateNewError> {
        Ok(BuddhistDateInner(AbstractGregorian(BuddhistEraYears).new_date(year, month, day)?))
    }

    fn from_fields(
        &self,
        fields: DateFields<'_>,
        options: DateFromFieldsOptions,
    ) -> Result<BuddhistDateInner, DateFromFieldsError> {
        Ok(BuddhistDateInner(AbstractGregorian(BuddhistEraYears).from_fields(fields, options)?))
    }

    fn has_cheap_iso_conversion(&self) -> bool {
        true
    }

    fn from_iso(&self, iso: IsoDateInner) -> BuddhistDateInner {
        BuddhistDateInner(AbstractGregorian(BuddhistEraYears).from_iso(iso))
    }

    fn to_iso(&self, date: &BuddhistDateInner) -> IsoDateInner {
        AbstractGregorian(BuddhistEraYears).to_iso(&date.0)
    }

    fn from_rata_die(&self, rd: RataDie) -> BuddhistDateInner {
        BuddhistDateInner(AbstractGregorian(BuddhistEraYears).from_rata_die(rd))
    }

    fn to_rata_die(&self, date: &BuddhistDateInner) -> RataDie {
        AbstractGregorian(BuddhistEraYears).to_rata_die(&date.0)
    }

    fn months_in_year(&self, date: &BuddhistDateInner) -> u8 {
        AbstractGregorian(BuddhistEraYears).months_in_year(&date.0)
    }

    fn days_in_year(&self, date: &BuddhistDateInner) -> u16 {
        AbstractGregorian(BuddhistEraYears).days_in_year(&date.0)
    }

    fn days_in_month(&self, date: &BuddhistDateInner) -> u8 {
        AbstractGregorian(BuddhistEraYears).days_in_month(&date.0)
    }

    fn is_in_leap_year(&self, date: &BuddhistDateInner) -> bool {
        AbstractGregorian(BuddhistEraYears).is_in_leap_year(&date.0)
    }

    fn year_info(&self, date: &BuddhistDateInner) -> EraYear {
        AbstractGregorian(BuddhistEraYears).year_info(&date.0)
    }

    fn extended_year(&self, date: &BuddhistDateInner) -> i32 {
        AbstractGregorian(BuddhistEraYears).extended_year(&date.0)
    }

    fn month(&self, date: &BuddhistDateInner) -> MonthInfo {
        AbstractGregorian(BuddhistEraYears).month(&date.0)
    }

    fn day_of_month(&self, date: &BuddhistDateInner) -> DayOfMonth {
        AbstractGregorian(BuddhistEraYears).day_of_month(&date.0)
    }

    fn day_of_year(&self, date: &BuddhistDateInner) -> DayOfYear {
        AbstractGregorian(BuddhistEraYears).day_of_year(&date.0)
    }

    #[inline(always)]
    fn add(
        &self,
        date: &BuddhistDateInner,
        duration: DateDuration,
        options: DateAddOptions,
    ) -> Result<BuddhistDateInner, DateAddError> {
        Ok(BuddhistDateInner(AbstractGregorian(BuddhistEraYears).add(&date.0, duration, options)?))
    }

    fn until(
        &self,
        date1: &BuddhistDateInner,
        date2: &BuddhistDateInner,
        options: DateDifferenceOptions,
    ) -> DateDuration {
        AbstractGregorian(BuddhistEraYears).until(&date1.0, &date2.0, options)
    }

    fn until_counted<L: Ledger>(
        &self,
        date1: &BuddhistDateInner,
        date2: &BuddhistDateInner,
        options: DateDifferenceOptions,
        steps: &mut Steps<L>,
    ) -> DateDuration {
        AbstractGregorian(BuddhistEraYears).until_counted(&date1.0, &date2.0, options, steps)
    }

    fn check_date_compatibility(&self, _other: &Self) -> Result<(), Infallible> {
        Ok(())
    }

    fn calendar_algorithm(&self) -> Option<CalendarAlgorithm> {
        AbstractGregorian(BuddhistEraYears).calendar_algorithm()
    }

    fn debug_name(&self) -> &'static str {
        AbstractGregorian(BuddhistEraYears).debug_name()
    }

    ghost lawful = { λ _. offset_list-lawful buddhist_offset };

    ghost dated = { λ _ d h. kept-dated buddhist_offset d.0.parts h };

    ghost ranged = { λ _. offset_list-ranged buddhist_offset (true-offset buddhist_offset refl) };

    ghost shifted = { λ _. offset_list-shifted buddhist_offset (true-offset buddhist_offset refl) };

    ghost covered = { λ _. offset_list-covered buddhist_offset (true-offset buddhist_offset refl) };

    ghost named = { λ _ t. refl };

    ghost equal_days = { λ _ a b h k. kept-equal buddhist_offset a.0.parts b.0.parts h k };

    ghost ordered_days = { λ _ a b h k. ap Some (kept-ordered buddhist_offset a.0.parts b.0.parts h k) };

    ghost refusal = { λ _ _ h. never_refused h };

    ghost compatible_itself = { λ _. refl };

    ghost compatible_back = { λ _ _ h. h };

    ghost compatible_on = { λ _ _ _ h k. k };

    ghost shared = { λ _ _ _ h k. k };

    ghost shared_day = { λ _ _ _ h k. refl };
}

impl AsCalendar for Buddhist {
    type Calendar = Buddhist;

    ghost cal_of = { λ c. c };

    fn as_calendar(&self) -> &Buddhist {
        self
    }
}
