//! The calendar of the Republic of China.

ghost use Rattle.std.specs.Prelude.{◌≡◌};
ghost use Rattle.cal_days.specs.Day.{IsFieldYear};
ghost use Rattle.cal_arith.specs.FieldNames.{era_read};
ghost use Rattle.cal_gregory.specs.RocEra.{roc_era_year, roc_reads};

use cal_arith::{ArithmeticDate, Steps};
use cal_base::scaffold::UnstableSealed;
use cal_base::{AbstractGregorian, AsCalendar, Calendar, GregorianYears, IsoDateInner};
use cal_days::RataDie;
use cal_types::{
    CalendarAlgorithm, DateAddError, DateAddOptions, DateDifferenceOptions, DateDuration,
    DateFields, DateFromFieldsError, DateFromFieldsOptions, DateNewError, DayOfMonth, DayOfYear,
    EraYear, Month, MonthInfo, TinyAsciiStr, UnknownEraError, YearAmbiguity, YearInput,
};
use std::convert::Infallible;
use std::sync::ledger::Ledger;

/// The calendar of the Republic of China, or Minguo calendar: the ISO calendar with years that are counted from ISO
/// year 1911.
///
/// Extended year 1 is ISO year 1912, and the first year of the era `roc`. Extended year 0 is the first year of the
/// era `broc`, which counts back (CLDR, UTS 35). It is proleptic, and has the months, leap years and reference years
/// of the ISO calendar. CLDR's name for it is `roc`.
#[derive(Clone, Copy, Debug, Default)]
pub struct Roc;

/// A date of the calendar of the Republic of China: its year, its ordinal month and its day of the month.
#[derive(Clone, Copy, Debug, PartialEq, Eq, PartialOrd, Ord, Hash)]
pub struct RocDateInner(ArithmeticDate<AbstractGregorian<MinguoYears>>);

/// Returns the extended year of an era year, -1040000 to 1040000, in the era `roc`, or in the era `broc`, which
/// counts back: year 1 of `broc` is extended year 0.
///
/// # Errors
///
/// - [`UnknownEraError`] if the code is neither `roc` nor `broc`.
fn year_in_minguo_era(era: &[u8], year: i32) -> Result<i32, UnknownEraError>
    requires { IsFieldYear year }
    ensures { result ≡ era_read (roc_reads era.now year) }
{
    if era == b"roc".as_slice() {
        Ok(year)
    } else if era == b"broc".as_slice() {
        Ok(1 - year)
    } else {
        Err(UnknownEraError)
    }
}

/// Returns the era year of an extended year from -1040000 to 1040000: in `roc`, or in `broc` before year 1.
fn era_year(year: i32) -> EraYear
    requires { IsFieldYear year }
    ensures { result ≡ roc_era_year year }
{
    if year < 1 {
        EraYear {
            year: 1 - year,
            extended_year: year,
            era: TinyAsciiStr::of_text(b"broc"),
            era_index: Some(0),
            ambiguity: YearAmbiguity::EraAndCenturyRequired,
        }
    } else {
        EraYear {
            year,
            extended_year: year,
            era: TinyAsciiStr::of_text(b"roc"),
            era_index: Some(1),
            ambiguity: YearAmbiguity::CenturyRequired,
        }
    }
}

/// The years of the calendar of the Republic of China, counted from ISO year 1911 in the eras `roc` and `broc`.
#[derive(Clone, Copy, Debug)]
pub struct MinguoYears;

impl GregorianYears for MinguoYears {
    ghost use Rattle.std.specs.Prelude.{codes, refl, Some};
    ghost use Rattle.cal_errors.specs.declared.algorithm.CalendarAlgorithm.TheVariants as algorithms;
    ghost use Rattle.cal_base.specs.laws.OffsetListLaws.{true-offset};
    ghost use Rattle.cal_gregory.specs.RocEra.{roc_offset, roc_era_year, roc_reads};
    ghost use Rattle.cal_gregory.specs.laws.RocEraLaws.{roc_era-named, roc_reads-in_range, roc_reads-near};

    ghost offset = { λ _. roc_offset };

    ghost reads = { λ _. roc_reads };

    ghost era_year = { λ _ t. roc_era_year t.year };

    ghost algorithm = { λ _. Some algorithms.Roc };

    ghost name = { λ _. codes "ROC" };

    fn year_offset(&self) -> i32 {
        1911
    }

    fn extended_from_era_year(&self, era: &[u8], year_of_era: i32) -> Result<i32, UnknownEraError> {
        year_in_minguo_era(era, year_of_era)
    }

    fn era_year_from_extended(&self, extended_year: i32, _month: u8, _day: u8) -> EraYear {
        era_year(extended_year)
    }

    fn calendar_algorithm(&self) -> Option<CalendarAlgorithm> {
        Some(CalendarAlgorithm::Roc)
    }

    fn debug_name(&self) -> &'static str {
        "ROC"
    }

    ghost offset_bound = { λ _. true-offset roc_offset refl };

    ghost era_in_range = { λ _ era n y. roc_reads-in_range era n y };

    ghost era_near = { λ _ era n y. roc_reads-near era n y };

    ghost named = { λ _ t. roc_era-named t };
}

impl UnstableSealed for Roc {}

impl Calendar for Roc {
    ghost use Rattle.std.specs.Prelude.{true, refl, codes, Some};
    ghost use Rattle.std.proofs.Common.{ap};
    ghost use Rattle.cal_errors.specs.declared.algorithm.CalendarAlgorithm.TheVariants as algorithms;
    ghost use Rattle.cal_base.specs.laws.Compatibility.{never_refused};
    ghost use Rattle.cal_base.specs.laws.OffsetListLaws.{offset_list-lawful, offset_list-ranged, offset_list-shifted, offset_list-covered, true-offset};
    ghost use Rattle.cal_base.specs.laws.OffsetSystemLaws.{kept-dated, kept-equal, kept-ordered};
    ghost use Rattle.cal_gregory.specs.RocSystem.{roc_system, roc_date, roc_belongs};
    ghost use Rattle.cal_gregory.specs.RocEra.{roc_offset};
    ghost use Rattle.cal_gregory.specs.laws.RocEraLaws.{roc_era-named};

    type DateInner = RocDateInner;

    type Year = EraYear;

    type DateCompatibilityError = Infallible;

    ghost system = { λ _. roc_system };

    ghost date_of = { λ _ d. roc_date d };

    ghost belongs = { λ _ d. roc_belongs d };

    ghost compatible = { λ _ _. true };

    ghost is_cheap = { λ _. true };

    ghost algorithm = { λ _. Some algorithms.Roc };

    ghost name = { λ _. codes "ROC" };

    fn owns(&self, date: &RocDateInner) -> bool {
        AbstractGregorian(MinguoYears).owns(&date.0)
    }

    fn new_date(
        &self,
        year: YearInput<'_>,
        month: Month,
        day: u8,
    ) -> Result<RocDateInner, DateNewError> {
        Ok(RocDateInner(AbstractGregorian(MinguoYears).new_date(year, month, day)?))
    }

    fn from_fields(
        &self,
        fields: DateFields<'_>,
        options: DateFromFieldsOptions,
    ) -> Result<RocDateInner, DateFromFieldsError> {
        Ok(RocDateInner(AbstractGregorian(MinguoYears).from_fields(fields, options)?))
    }

    fn has_cheap_iso_conversion(&self) -> bool {
        true
    }

    fn from_iso(&self, iso: IsoDateInner) -> RocDateInner {
        RocDateInner(AbstractGregorian(MinguoYears).from_iso(iso))
    }

    fn to_iso(&self, date: &RocDateInner) -> IsoDateInner {
        AbstractGregorian(MinguoYears).to_iso(&date.0)
    }

    fn from_rata_die(&self, rd: RataDie) -> RocDateInner {
        RocDateInner(AbstractGregorian(MinguoYears).from_rata_die(rd))
    }

    fn to_rata_die(&self, date: &RocDateInner) -> RataDie {
        AbstractGregorian(MinguoYears).to_rata_die(&date.0)
    }

    fn months_in_year(&self, date: &RocDateInner) -> u8 {
        AbstractGregorian(MinguoYears).months_in_year(&date.0)
    }

    fn days_in_year(&self, date: &RocDateInner) -> u16 {
        AbstractGregorian(MinguoYears).days_in_year(&date.0)
    }

    fn days_in_month(&self, date: &RocDateInner) -> u8 {
        AbstractGregorian(MinguoYears).days_in_month(&date.0)
    }

    fn is_in_leap_year(&self, date: &RocDateInner) -> bool {
        AbstractGregorian(MinguoYears).is_in_leap_year(&date.0)
    }

    fn year_info(&self, date: &RocDateInner) -> EraYear {
        AbstractGregorian(MinguoYears).year_info(&date.0)
    }

    fn extended_year(&self, date: &RocDateInner) -> i32 {
        AbstractGregorian(MinguoYears).extended_year(&date.0)
    }

    fn month(&self, date: &RocDateInner) -> MonthInfo {
        AbstractGregorian(MinguoYears).month(&date.0)
    }

    fn day_of_month(&self, date: &RocDateInner) -> DayOfMonth {
        AbstractGregorian(MinguoYears).day_of_month(&date.0)
    }

    fn day_of_year(&self, date: &RocDateInner) -> DayOfYear {
        AbstractGregorian(MinguoYears).day_of_year(&date.0)
    }

    #[inline(always)]
    fn add(
        &self,
        date: &RocDateInner,
        duration: DateDuration,
        options: DateAddOptions,
    ) -> Result<RocDateInner, DateAddError> {
        Ok(RocDateInner(AbstractGregorian(MinguoYears).add(&date.0, duration, options)?))
    }

    fn until(
        &self,
        date1: &RocDateInner,
        date2: &RocDateInner,
        options: DateDifferenceOptions,
    ) -> DateDuration {
        AbstractGregorian(MinguoYears).until(&date1.0, &date2.0, options)
    }

    fn until_counted<L: Ledger>(
        &self,
        date1: &RocDateInner,
        date2: &RocDateInner,
        options: DateDifferenceOptions,
        steps: &mut Steps<L>,
    ) -> DateDuration {
        AbstractGregorian(MinguoYears).until_counted(&date1.0, &date2.0, options, steps)
    }

    fn check_date_compatibility(&self, _other: &Self) -> Result<(), Infallible> {
        Ok(())
    }

    fn calendar_algorithm(&self) -> Option<CalendarAlgorithm> {
        AbstractGregorian(MinguoYears).calendar_algorithm()
    }

    fn debug_name(&self) -> &'static str {
        AbstractGregorian(MinguoYears).debug_name()
    }

    ghost lawful = { λ _. offset_list-lawful roc_offset };

    ghost dated = { λ _ d h. kept-dated roc_offset d.0.parts h };

    ghost ranged = { λ _. offset_list-ranged roc_offset (true-offset roc_offset refl) };

    ghost shifted = { λ _. offset_list-shifted roc_offset (true-offset roc_offset refl) };

    ghost covered = { λ _. offset_list-covered roc_offset (true-offset roc_offset refl) };

    ghost named = { λ _ t. roc_era-named t };

    ghost equal_days = { λ _ a b h k. kept-equal roc_offset a.0.parts b.0.parts h k };

    ghost ordered_days = { λ _ a b h k. ap Some (kept-ordered roc_offset a.0.parts b.0.parts h k) };

    ghost refusal = { λ _ _ h. never_refused h };

    ghost compatible_itself = { λ _. refl };

    ghost compatible_back = { λ _ _ h. h };

    ghost compatible_on = { λ _ _ _ h k. k };

    ghost shared = { λ _ _ _ h k. k };

    ghost shared_day = { λ _ _ _ h k. refl };
}

impl AsCalendar for Roc {
    type Calendar = Roc;

    ghost cal_of = { λ c. c };

    fn as_calendar(&self) -> &Roc {
        self
    }
}
