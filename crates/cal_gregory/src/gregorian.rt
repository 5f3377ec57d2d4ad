//! The Gregorian calendar.

ghost use Rattle.std.specs.Prelude.{◌≡◌};
ghost use Rattle.cal_days.specs.Day.{IsFieldYear};
ghost use Rattle.cal_gregory.specs.CommonEra.{common_era_ambiguity, common_era_year};

use cal_arith::eras::year_in_common_era;
use cal_arith::{ArithmeticDate, Steps};
use cal_base::scaffold::UnstableSealed;
use cal_base::{AbstractGregorian, AsCalendar, Calendar, GregorianYears, IsoDateInner};
use cal_days::RataDie;
use cal_types::{
    CalendarAlgorithm, DateAddError, DateAddOptions, DateDifferenceOptions, DateDuration,
    DateFields, DateFromFieldsError, DateFromFieldsOptions, DateNewError, DayOfMonth, DayOfYear,
    EraYear, Month, MonthInfo, TinyAsciiStr, UnknownEraError, YearAmbiguity, YearInput,
};
use std::convert::Infallible;
use std::sync::ledger::Ledger;

/// The Gregorian calendar: the ISO calendar with the eras `ce` and `bce` (CLDR, UTS 35).
///
/// It is proleptic, and extended year 0 is 1 BCE. Years may be given in `ce` or `ad`, and in `bce` or `bc`. It has
/// the months, leap years and reference years of the ISO calendar. CLDR's name for it is `gregory`.
#[derive(Clone, Copy, Debug, Default)]
pub struct Gregorian;

/// A date of the Gregorian calendar: its year, its ordinal month and its day of the month.
#[derive(Clone, Copy, Debug, PartialEq, Eq, PartialOrd, Ord, Hash)]
pub struct GregorianDateInner(ArithmeticDate<AbstractGregorian<CommonEraYears>>);

/// Returns how much of a year of the Common Era a reader needs.
fn common_era_ambiguity(year: i32) -> YearAmbiguity
    ensures { result ≡ common_era_ambiguity year }
{
    match year {
        ..=999 => YearAmbiguity::EraAndCenturyRequired,
        1950..=2049 => YearAmbiguity::Unambiguous,
        _ => YearAmbiguity::CenturyRequired,
    }
}

/// Returns the era year of an extended year from -1040000 to 1040000: in `ce`, or in `bce` before year 1.
pub(crate) fn era_year(year: i32) -> EraYear
    requires { IsFieldYear year }
    ensures { result ≡ common_era_year year }
{
    if year < 1 {
        EraYear {
            year: 1 - year,
            extended_year: year,
            era: TinyAsciiStr::of_text(b"bce"),
            era_index: Some(0),
            ambiguity: YearAmbiguity::EraAndCenturyRequired,
        }
    } else {
        EraYear {
            year,
            extended_year: year,
            era: TinyAsciiStr::of_text(b"ce"),
            era_index: Some(1),
            ambiguity: common_era_ambiguity(year),
        }
    }
}

/// The years of the Gregorian calendar: the ISO years, in the eras `ce` and `bce`.
#[derive(Clone, Copy, Debug)]
pub struct CommonEraYears;

impl GregorianYears for CommonEraYears {
    ghost use Rattle.std.specs.Prelude.{codes, pos, refl, Some};
    ghost use Rattle.cal_errors.specs.declared.algorithm.CalendarAlgorithm.TheVariants.{Gregory};
    ghost use Rattle.cal_types.specs.Eras.{common_era_reads};
    ghost use Rattle.cal_types.proofs.EraLemmas.{common_era_reads-in_range, common_era_reads-near};
    ghost use Rattle.cal_base.specs.laws.OffsetListLaws.{true-offset};
    ghost use Rattle.cal_gregory.specs.laws.CommonEraLaws.{common_era-named};

    ghost offset = { λ _. pos 0 };

    ghost reads = { λ _. common_era_reads };

    ghost era_year = { λ _ t. common_era_year t.year };

    ghost algorithm = { λ _. Some Gregory };

    ghost name = { λ _. codes "Gregorian" };

    fn year_offset(&self) -> i32 {
        0
    }

    fn extended_from_era_year(&self, era: &[u8], year_of_era: i32) -> Result<i32, UnknownEraError> {
        year_in_common_era(era, year_of_era)
    }

    fn era_year_from_extended(&self, extended_year: i32, _month: u8, _day: u8) -> EraYear {
        era_year(extended_year)
    }

    fn calendar_algorithm(&self) -> Option<CalendarAlgorithm> {
        Some(CalendarAlgorithm::Gregory)
    }

    fn debug_name(&self) -> &'static str {
        "Gregorian"
    }

    ghost offset_bound = { λ _. true-offset (pos 0) refl };

    ghost era_in_range = { λ _ era n y. common_era_reads-in_range era n y };

    ghost era_near = { λ _ era n y. common_era_reads-near era n y };

    ghost named = { λ _ t. common_era-named t };
}

impl UnstableSealed for Gregorian {}

impl Calendar for Gregorian {
    ghost use Rattle.std.specs.Prelude.{pos, true, refl, codes, Some};
    ghost use Rattle.std.proofs.Common.{ap};
    ghost use Rattle.cal_errors.specs.declared.algorithm.CalendarAlgorithm.TheVariants.{Gregory};
    ghost use Rattle.cal_base.specs.laws.Compatibility.{never_refused};
    ghost use Rattle.cal_base.specs.laws.OffsetListLaws.{offset_list-lawful, offset_list-ranged, offset_list-shifted, offset_list-covered, true-offset};
    ghost use Rattle.cal_base.specs.laws.OffsetSystemLaws.{kept-dated, kept-equal, kept-ordered};
    ghost use Rattle.cal_gregory.specs.GregorianSystem.{gregorian_system, gregorian_date, gregorian_belongs};
    ghost use Rattle.cal_gregory.specs.laws.CommonEraLaws.{common_era-named};

    type DateInner = GregorianDateInner;

    type Year = EraYear;

    type DateCompatibilityError = Infallible;

    ghost system = { λ _. gregorian_system };

    ghost date_of = { λ _ d. gregorian_date d };

    ghost belongs = { λ _ d. gregorian_belongs d };

    ghost compatible = { λ _ _. true };

    ghost is_cheap = { λ _. true };

    ghost algorithm = { λ _. Some Gregory };

    ghost name = { λ _. codes "Gregorian" };

    fn owns(&self, date: &GregorianDateInner) -> bool {
        AbstractGregorian(CommonEraYears).owns(&date.0)
    }

    fn new_date(
        &self,
        year: YearInput<'_>,
        month: Month,
        day: u8,
    ) -> Result<GregorianDateInner, DateNewError> {
        Ok(GregorianDateInner(AbstractGregorian(CommonEraYears).new_date(year, month, day)?))
    }

    fn from_fields(
        &self,
        fields: DateFields<'_>,
        options: DateFromFieldsOptions,
    ) -> Result<GregorianDateInner, DateFromFieldsError> {
        Ok(GregorianDateInner(AbstractGregorian(CommonEraYears).from_fields(fields, options)?))
    }

    fn has_cheap_iso_conversion(&self) -> bool {
        true
    }

    fn from_iso(&self, iso: IsoDateInner) -> GregorianDateInner {
        GregorianDateInner(AbstractGregorian(CommonEraYears).from_iso(iso))
    }

    fn to_iso(&self, date: &GregorianDateInner) -> IsoDateInner {
        AbstractGregorian(CommonEraYears).to_iso(&date.0)
    }

    fn from_rata_die(&self, rd: RataDie) -> GregorianDateInner {
        GregorianDateInner(AbstractGregorian(CommonEraYears).from_rata_die(rd))
    }

    fn to_rata_die(&self, date: &GregorianDateInner) -> RataDie {
        AbstractGregorian(CommonEraYears).to_rata_die(&date.0)
    }

    fn months_in_year(&self, date: &GregorianDateInner) -> u8 {
        AbstractGregorian(CommonEraYears).months_in_year(&date.0)
    }

    fn days_in_year(&self, date: &GregorianDateInner) -> u16 {
        AbstractGregorian(CommonEraYears).days_in_year(&date.0)
    }

    fn days_in_month(&self, date: &GregorianDateInner) -> u8 {
        AbstractGregorian(CommonEraYears).days_in_month(&date.0)
    }

    fn is_in_leap_year(&self, date: &GregorianDateInner) -> bool {
        AbstractGregorian(CommonEraYears).is_in_leap_year(&date.0)
    }

    fn year_info(&self, date: &GregorianDateInner) -> EraYear {
        AbstractGregorian(CommonEraYears).year_info(&date.0)
    }

    fn extended_year(&self, date: &GregorianDateInner) -> i32 {
        AbstractGregorian(CommonEraYears).extended_year(&date.0)
    }

    fn month(&self, date: &GregorianDateInner) -> MonthInfo {
        AbstractGregorian(CommonEraYears).month(&date.0)
    }

    fn day_of_month(&self, date: &GregorianDateInner) -> DayOfMonth {
        AbstractGregorian(CommonEraYears).day_of_month(&date.0)
    }

    fn day_of_year(&self, date: &GregorianDateInner) -> DayOfYear {
        AbstractGregorian(CommonEraYears).day_of_year(&date.0)
    }

    #[inline(always)]
    fn add(
        &self,
        date: &GregorianDateInner,
        duration: DateDuration,
        options: DateAddOptions,
    ) -> Result<GregorianDateInner, DateAddError> {
        Ok(GregorianDateInner(AbstractGregorian(CommonEraYears).add(&date.0, duration, options)?))
    }

    fn until(
        &self,
        date1: &GregorianDateInner,
        date2: &GregorianDateInner,
        options: DateDifferenceOptions,
    ) -> DateDuration {
        AbstractGregorian(CommonEraYears).until(&date1.0, &date2.0, options)
    }

    fn until_counted<L: Ledger>(
        &self,
        date1: &GregorianDateInner,
        date2: &GregorianDateInner,
        options: DateDifferenceOptions,
        steps: &mut Steps<L>,
    ) -> DateDuration {
        AbstractGregorian(CommonEraYears).until_counted(&date1.0, &date2.0, options, steps)
    }

    fn check_date_compatibility(&self, _other: &Self) -> Result<(), Infallible> {
        Ok(())
    }

    fn calendar_algorithm(&self) -> Option<CalendarAlgorithm> {
        AbstractGregorian(CommonEraYears).calendar_algorithm()
    }

    fn debug_name(&self) -> &'static str {
        AbstractGregorian(CommonEraYears).debug_name()
    }

    ghost lawful = { λ _. offset_list-lawful (pos 0) };

    ghost dated = { λ _ d h. kept-dated (pos 0) d.0.parts h };

    ghost ranged = { λ _. offset_list-ranged (pos 0) (true-offset (pos 0) refl) };

    ghost shifted = { λ _. offset_list-shifted (pos 0) (true-offset (pos 0) refl) };

    ghost covered = { λ _. offset_list-covered (pos 0) (true-offset (pos 0) refl) };

    ghost named = { λ _ t. common_era-named t };

    ghost equal_days = { λ _ a b h k. kept-equal (pos 0) a.0.parts b.0.parts h k };

    ghost ordered_days = { λ _ a b h k. ap Some (kept-ordered (pos 0) a.0.parts b.0.parts h k) };

    ghost refusal = { λ _ _ h. never_refused h };

    ghost compatible_itself = { λ _. refl };

    ghost compatible_back = { λ _ _ h. h };

    ghost compatible_on = { λ _ _ _ h k. k };

    ghost shared = { λ _ _ _ h k. k };

    ghost shared_day = { λ _ _ _ h k. refl };
}

impl AsCalendar for Gregorian {
    type Calendar = Gregorian;

    ghost cal_of = { λ c. c };

    fn as_calendar(&self) -> &Gregorian {
        self
    }
}
