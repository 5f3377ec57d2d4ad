//! The ISO calendar.

use crate::abstract_gregorian::AbstractGregorian;
use crate::calendar::{AsCalendar, Calendar};
use crate::gregorian_years::GregorianYears;
use crate::scaffold::UnstableSealed;
use cal_arith::eras::year_in_only_era;
use cal_arith::{ArithmeticDate, Steps};
use cal_days::RataDie;
use cal_types::{
    CalendarAlgorithm, DateAddError, DateAddOptions, DateDifferenceOptions, DateDuration,
    DateFields, DateFromFieldsError, DateFromFieldsOptions, DateNewError, DayOfMonth, DayOfYear,
    EraYear, Month, MonthInfo, TinyAsciiStr, UnknownEraError, YearAmbiguity, YearInput,
};
use std::convert::Infallible;
use std::sync::ledger::Ledger;

/// The ISO calendar: the proleptic Gregorian calendar with astronomical year numbers (ISO 8601).
///
/// Its only era has the code `default`, and the era year is the extended year. A year has the plain months 1 to 12.
/// February has 29 days if 4 divides the year, except for years that 100 but not 400 divides. Every month has the
/// reference year 1972. CLDR names no algorithm for this calendar, so `calendar_algorithm` returns `None`.
#[derive(Clone, Copy, Debug, Default, PartialEq, Eq, PartialOrd, Ord, Hash)]
pub struct Iso;

impl Iso {
    /// Returns the ISO calendar.
    ///
    /// ```
    /// let inner = Iso::new().from_rata_die(RataDie::new(738946));
    /// let date = Date::from_raw(inner, Iso::new());
    /// assert!(rt; date.to_rata_die().to_i64_date() == 738946); // 2024-03-01
    /// ```
    pub fn new() -> Iso {
        Iso
    }
}

/// A date of the ISO calendar: its year, its ordinal month and its day of the month.
#[derive(Clone, Copy, Debug, PartialEq, Eq, PartialOrd, Ord, Hash)]
pub struct IsoDateInner(pub(crate) ArithmeticDate<AbstractGregorian<IsoYears>>);

/// The years of the ISO calendar: the ISO years, in the only era `default`.
#[derive(Clone, Copy, Debug)]
pub struct IsoYears;

impl GregorianYears for IsoYears {
    ghost use Rattle.std.specs.Prelude.{codes, pos, Some, None, refl};
    ghost use Rattle.cal_types.specs.Eras.{only_era_reads};
    ghost use Rattle.cal_types.proofs.EraLemmas.{only_era_reads-in_range, only_era_reads-near};
    ghost use Rattle.cal_base.specs.IsoEra.{iso_era_year};
    ghost use Rattle.cal_base.specs.laws.OffsetListLaws.{true-offset};

    ghost offset = { λ _. pos 0 };

    ghost reads = { λ _. only_era_reads (codes "default") };

    ghost era_year = { λ _ t. iso_era_year t };

    ghost algorithm = { λ _. None };

    ghost name = { λ _. codes "ISO" };

    fn year_offset(&self) -> i32 {
        0
    }

    fn extended_from_era_year(&self, era: &[u8], era_year: i32) -> Result<i32, UnknownEraError> {
        year_in_only_era(b"default", era, era_year)
    }

    fn era_year_from_extended(&self, extended_year: i32, _month: u8, _day: u8) -> EraYear {
        EraYear {
            year: extended_year,
            extended_year,
            era: TinyAsciiStr::of_text(b"default"),
            era_index: Some(0),
            ambiguity: YearAmbiguity::Unambiguous,
        }
    }

    fn calendar_algorithm(&self) -> Option<CalendarAlgorithm> {
        None
    }

    fn debug_name(&self) -> &'static str {
        "ISO"
    }

    ghost offset_bound = { λ _. true-offset (pos 0) refl };

    ghost era_in_range = { λ _ era n y. only_era_reads-in_range (codes "default") era n y };

    ghost era_near = { λ _ era n y. only_era_reads-near (codes "default") era n y };

    ghost named = { λ _ t. refl };
}

impl UnstableSealed for Iso {}

impl Calendar for Iso {
    ghost use Rattle.std.specs.Prelude.{pos, true, refl, codes, None, Some};
    ghost use Rattle.std.proofs.Common.{ap};
    ghost use Rattle.cal_base.specs.IsoSystem.{iso_system, iso_date, iso_belongs};
    ghost use Rattle.cal_base.specs.laws.Compatibility.{never_refused};
    ghost use Rattle.cal_base.specs.laws.OffsetListLaws.{offset_list-lawful, offset_list-ranged, offset_list-shifted, offset_list-covered, true-offset};
    ghost use Rattle.cal_base.specs.laws.OffsetSystemLaws.{kept-dated, kept-equal, kept-ordered};

    type DateInner = IsoDateInner;

    type Year = EraYear;

    type DateCompatibilityError = Infallible;

    ghost system = { λ _. iso_system };

    ghost date_of = { λ _ d. iso_date d };

    ghost belongs = { λ _ d. iso_belongs d };

    ghost compatible = { λ _ _. true };

    ghost is_cheap = { λ _. true };

    ghost algorithm = { λ _. None };

    ghost name = { λ _. codes "ISO" };

    fn owns(&self, date: &IsoDateInner) -> bool {
        AbstractGregorian(IsoYears).owns(&date.0)
    }

    fn new_date(
        &self,
        year: YearInput<'_>,
        month: Month,
        day: u8,
    ) -> Result<IsoDateInner, DateNewError> {
        Ok(IsoDateInner(AbstractGregorian(IsoYears).new_date(year, month, day)?))
    }

    fn from_fields(
        &self,
        fields: DateFields<'_>,
        options: DateFromFieldsOptions,
    ) -> Result<IsoDateInner, DateFromFieldsError> {
        Ok(IsoDateInner(AbstractGregorian(IsoYears).from_fields(fields, options)?))
    }

    fn has_cheap_iso_conversion(&self) -> bool {
        true
    }

    fn from_iso(&self, iso: IsoDateInner) -> IsoDateInner {
        iso
    }

    fn to_iso(&self, date: &IsoDateInner) -> IsoDateInner {
        *date
    }

    fn from_rata_die(&self, rd: RataDie) -> IsoDateInner {
        IsoDateInner(AbstractGregorian(IsoYears).from_rata_die(rd))
    }

    fn to_rata_die(&self, date: &IsoDateInner) -> RataDie {
        AbstractGregorian(IsoYears).to_rata_die(&date.0)
    }

    fn months_in_year(&self, date: &IsoDateInner) -> u8 {
        AbstractGregorian(IsoYears).months_in_year(&date.0)
    }

    fn days_in_year(&self, date: &IsoDateInner) -> u16 {
        AbstractGregorian(IsoYears).days_in_year(&date.0)
    }

    fn days_in_month(&self, date: &IsoDateInner) -> u8 {
        AbstractGregorian(IsoYears).days_in_month(&date.0)
    }

    fn is_in_leap_year(&self, date: &IsoDateInner) -> bool {
        AbstractGregorian(IsoYears).is_in_leap_year(&date.0)
    }

    fn year_info(&self, date: &IsoDateInner) -> EraYear {
        AbstractGregorian(IsoYears).year_info(&date.0)
    }

    fn extended_year(&self, date: &IsoDateInner) -> i32 {
        AbstractGregorian(IsoYears).extended_year(&date.0)
    }

    fn month(&self, date: &IsoDateInner) -> MonthInfo {
        AbstractGregorian(IsoYears).month(&date.0)
    }

    fn day_of_month(&self, date: &IsoDateInner) -> DayOfMonth {
        AbstractGregorian(IsoYears).day_of_month(&date.0)
    }

    fn day_of_year(&self, date: &IsoDateInner) -> DayOfYear {
        AbstractGregorian(IsoYears).day_of_year(&date.0)
    }

    #[inline(always)]
    fn add(
        &self,
        date: &IsoDateInner,
        duration: DateDuration,
        options: DateAddOptions,
    ) -> Result<IsoDateInner, DateAddError> {
        Ok(IsoDateInner(AbstractGregorian(IsoYears).add(&date.0, duration, options)?))
    }

    fn until(
        &self,
        date1: &IsoDateInner,
        date2: &IsoDateInner,
        options: DateDifferenceOptions,
    ) -> DateDuration {
        AbstractGregorian(IsoYears).until(&date1.0, &date2.0, options)
    }

    fn until_counted<L: Ledger>(
        &self,
        date1: &IsoDateInner,
        date2: &IsoDateInner,
        options: DateDifferenceOptions,
        steps: &mut Steps<L>,
    ) -> DateDuration {
        AbstractGregorian(IsoYears).until_counted(&date1.0, &date2.0, options, steps)
    }

    fn check_date_compatibility(&self, _other: &Self) -> Result<(), Infallible> {
        Ok(())
    }

    fn calendar_algorithm(&self) -> Option<CalendarAlgorithm> {
        AbstractGregorian(IsoYears).calendar_algorithm()
    }

    fn debug_name(&self) -> &'static str {
        AbstractGregorian(IsoYears).debug_name()
    }

    ghost lawful = { λ _. offset_list-lawful (pos 0) };

    ghost dated = { λ _ d h. kept-dated (pos 0) d.0.parts h };

    ghost ranged = { λ _. offset_list-ranged (pos 0) (true-offset (pos 0) refl) };

    ghost shifted = { λ _. offset_list-shifted (pos 0) (true-offset (pos 0) refl) };

    ghost covered = { λ _. offset_list-covered (pos 0) (true-offset (pos 0) refl) };

    ghost named = { λ _ t. refl };

    ghost equal_days = { λ _ a b h k. kept-equal (pos 0) a.0.parts b.0.parts h k };

    ghost ordered_days = { λ _ a b h k. ap Some (kept-ordered (pos 0) a.0.parts b.0.parts h k) };

    ghost refusal = { λ _ _ h. never_refused h };

    ghost compatible_itself = { λ _. refl };

    ghost compatible_back = { λ _ _ h. h };

    ghost compatible_on = { λ _ _ _ h k. k };

    ghost shared = { λ _ _ _ h k. k };

    ghost shared_day = { λ _ _ _ h k. refl };
}

impl AsCalendar for Iso {
    type Calendar = Iso;

    ghost cal_of = { λ c. c };

    fn as_calendar(&self) -> &Iso {
        self
    }
}
