//! The Japanese calendar.

ghost use Rattle.std.specs.Prelude.{◌≡◌, ◌&&◌, [], Some, codes, int_lt, pos};
ghost use Rattle.cal_days.specs.Day.{IsFieldYear};
ghost use Rattle.cal_types.specs.YearNames.{is_code};
ghost use Rattle.cal_gregory.specs.JapaneseEraList.{IsStartYear, eras_up_to_reiwa, year_printed};
ghost use Rattle.cal_gregory.specs.JapaneseEras.{listed_eras};
ghost use Rattle.cal_gregory.specs.JapaneseSystem.{japanese_up_to_reiwa};

use crate::era_start_date::EraStartDate;
use crate::gregorian;
use crate::japanese_eras::{JapaneseEras, ListedEra};
use cal_arith::eras::year_in_common_era;
use cal_arith::{ArithmeticDate, Steps};
use cal_base::scaffold::UnstableSealed;
use cal_base::{AbstractGregorian, AsCalendar, Calendar, GregorianYears, IsoDateInner};
use cal_days::RataDie;
use cal_types::{
    CalendarAlgorithm, DateAddError, DateAddOptions, DateDifferenceOptions, DateDuration,
    DateFields, DateFromFieldsError, DateFromFieldsOptions, DateNewError, DayOfMonth, DayOfYear,
    EraYear, Month, MonthInfo, UnknownEraError, YearAmbiguity, YearInput,
};
use std::convert::Infallible;
use std::sync::ledger::Ledger;

/// The Japanese calendar: the Gregorian calendar with the eras of Japan (CLDR, UTS 35).
///
/// The era of a date is the last listed era that starts on or before it. Before Meiji, and in the Meiji years below
/// 6, when Japan still used a lunisolar calendar, it is `ce` or `bce` instead. Years may be given in the listed eras,
/// in `ce` or `ad`, and in `bce` or `bc`. Any era year is accepted, even one outside its era. The calendar is
/// proleptic, and has the months, leap years and reference years of the ISO calendar. CLDR's name for it is
/// `japanese`. The default lists the eras up to Reiwa.
#[derive(Clone, Copy, Debug, Default)]
pub struct Japanese {
    eras: JapaneseEras,
}

impl Japanese {
    /// Returns the Japanese calendar with the eras up to Reiwa.
    ///
    /// ```
    /// let date = Date::from_rata_die(RataDie::new(738946), Japanese::new());
    /// assert!(rt; date.era_year().era.as_str() == "reiwa" && date.era_year().year == 6);
    /// ```
    pub fn new() -> Japanese
        ensures value { result ≡ japanese_up_to_reiwa }
        ensures eras { listed_eras result.eras ≡ eras_up_to_reiwa [] }
    {
        Japanese::with_eras(JapaneseEras::up_to_reiwa())
    }

    /// Returns the Japanese calendar with these eras.
    ///
    /// ```
    /// let japanese = Japanese::with_eras(JapaneseEras::up_to_reiwa());
    /// let date = Date::from_rata_die(RataDie::new(738946), japanese);
    /// assert!(rt; date.era_year().year == 6);
    /// ```
    pub fn with_eras(eras: JapaneseEras) -> Japanese
        ensures { result.eras ≡ eras }
    {
        Japanese { eras }
    }
}

/// A date of the Japanese calendar: its year, its ordinal month and its day of the month.
#[derive(Clone, Copy, Debug, PartialEq, Eq, PartialOrd, Ord, Hash)]
pub struct JapaneseDateInner(ArithmeticDate<AbstractGregorian<JapaneseEras>>);

/// Returns whether an era year is one of the Meiji years below 6.
fn is_early_meiji(code: &[u8], number: i32) -> bool
    ensures { result ≡ (is_code code.now (codes "meiji") && int_lt number (pos 6)) }
{
    code == b"meiji".as_slice() && number < 6
}

/// Returns the era year of an extended year in a listed era, or in `ce` or `bce` for the Meiji years below 6.
fn year_in_era(era: ListedEra, year: i32) -> EraYear
    requires year { IsFieldYear year }
    requires start { IsStartYear era.0.year }
    ensures { result ≡ year_printed (Some era) year }
{
    let (start, code, index) = era;
    let number = year - start.year + 1;
    if is_early_meiji(code.as_bytes(), number) {
        gregorian::era_year(year)
    } else {
        EraYear {
            year: number,
            extended_year: year,
            era: code.resize(),
            era_index: Some(index),
            ambiguity: YearAmbiguity::CenturyRequired,
        }
    }
}

/// The ISO years, in the eras of the Gregorian calendar and the listed eras.
impl GregorianYears for JapaneseEras {
    ghost use Rattle.std.specs.Prelude.{codes, pos, refl, Some};
    ghost use Rattle.cal_errors.specs.declared.algorithm.CalendarAlgorithm.TheVariants as algorithms;
    ghost use Rattle.cal_base.specs.laws.OffsetListLaws.{true-offset};
    ghost use Rattle.cal_gregory.specs.JapaneseEraList.{japanese_era_year, japanese_reads};
    ghost use Rattle.cal_gregory.specs.JapaneseEras.{listed_eras};
    ghost use Rattle.cal_gregory.specs.laws.JapaneseLaws.{japanese_era-named, japanese_reads-in_range, japanese_reads-near};

    ghost offset = { λ _. pos 0 };

    ghost reads = { λ s. japanese_reads (listed_eras s) };

    ghost era_year = { λ s t. japanese_era_year (listed_eras s) t };

    ghost algorithm = { λ _. Some algorithms.Japanese };

    ghost name = { λ _. codes "Japanese" };

    fn year_offset(&self) -> i32 {
        0
    }

    fn extended_from_era_year(&self, era: &[u8], year_of_era: i32) -> Result<i32, UnknownEraError> {
        match year_in_common_era(era, year_of_era) {
            Ok(year) => Ok(year),
            Err(_) => match self.with_code(era) {
                Some((start, _, _)) => Ok(year_of_era - 1 + start.year),
                None => Err(UnknownEraError),
            },
        }
    }

    fn era_year_from_extended(&self, extended_year: i32, month: u8, day: u8) -> EraYear {
        let date = EraStartDate {
            year: extended_year,
            month,
            day,
        };
        match self.started_by(date) {
            Some(era) => year_in_era(era, extended_year),
            None => gregorian::era_year(extended_year),
        }
    }

    fn calendar_algorithm(&self) -> Option<CalendarAlgorithm> {
        Some(CalendarAlgorithm::Japanese)
    }

    fn debug_name(&self) -> &'static str {
        "Japanese"
    }

    ghost offset_bound = { λ _. true-offset (pos 0) refl };

    ghost era_in_range = { λ s era n y. japanese_reads-in_range s era n y };

    ghost era_near = { λ s era n y. japanese_reads-near s era n y };

    ghost named = { λ s t. japanese_era-named s t };
}

impl UnstableSealed for Japanese {}

impl Calendar for Japanese {
    ghost use Rattle.std.specs.Prelude.{pos, true, refl, codes, Some};
    ghost use Rattle.std.proofs.Common.{ap};
    ghost use Rattle.cal_errors.specs.declared.algorithm.CalendarAlgorithm.TheVariants as algorithms;
    ghost use Rattle.cal_base.specs.laws.Compatibility.{never_refused};
    ghost use Rattle.cal_base.specs.laws.OffsetListLaws.{offset_list-lawful, offset_list-ranged, offset_list-shifted, offset_list-covered, true-offset};
    ghost use Rattle.cal_base.specs.laws.OffsetSystemLaws.{kept-dated, kept-equal, kept-ordered};
    ghost use Rattle.cal_gregory.specs.JapaneseSystem.{japanese_system, japanese_date, japanese_belongs};
    ghost use Rattle.cal_gregory.specs.laws.JapaneseLaws.{japanese_era-named};

    type DateInner = JapaneseDateInner;

    type Year = EraYear;

    type DateCompatibilityError = Infallible;

    ghost system = { λ s. japanese_system s };

    ghost date_of = { λ _ d. japanese_date d };

    ghost belongs = { λ _ d. japanese_belongs d };

    ghost compatible = { λ _ _. true };

    ghost is_cheap = { λ _. true };

    ghost algorithm = { λ _. Some algorithms.Japanese };

    ghost name = { λ _. codes "Japanese" };

    fn owns(&self, date: &JapaneseDateInner) -> bool {
        AbstractGregorian(self.eras).owns(&date.0)
    }

    fn new_date(
        &self,
        year: YearInput<'_>,
        month: Month,
        day: u8,
    ) -> Result<JapaneseDateInner, DateNewError> {
        Ok(JapaneseDateInner(AbstractGregorian(self.eras).new_date(year, month, day)?))
    }

    fn from_fields(
        &self,
        fields: DateFields<'_>,
        options: DateFromFieldsOptions,
    ) -> Result<JapaneseDateInner, DateFromFieldsError> {
        Ok(JapaneseDateInner(AbstractGregorian(self.eras).from_fields(fields, options)?))
    }

    fn has_cheap_iso_conversion(&self) -> bool {
        true
    }

    fn from_iso(&self, iso: IsoDateInner) -> JapaneseDateInner {
        JapaneseDateInner(AbstractGregorian(self.eras).from_iso(iso))
    }

    fn to_iso(&self, date: &JapaneseDateInner) -> IsoDateInner {
        AbstractGregorian(self.eras).to_iso(&date.0)
    }

    fn from_rata_die(&self, rd: RataDie) -> JapaneseDateInner {
        JapaneseDateInner(AbstractGregorian(self.eras).from_rata_die(rd))
    }

    fn to_rata_die(&self, date: &JapaneseDateInner) -> RataDie {
        AbstractGregorian(self.eras).to_rata_die(&date.0)
    }

    fn months_in_year(&self, date: &JapaneseDateInner) -> u8 {
        AbstractGregorian(self.eras).months_in_year(&date.0)
    }

    fn days_in_year(&self, date: &JapaneseDateInner) -> u16 {
        AbstractGregorian(self.eras).days_in_year(&date.0)
    }

    fn days_in_month(&self, date: &JapaneseDateInner) -> u8 {
        AbstractGregorian(self.eras).days_in_month(&date.0)
    }

    fn is_in_leap_year(&self, date: &JapaneseDateInner) -> bool {
        AbstractGregorian(self.eras).is_in_leap_year(&date.0)
    }

    fn year_info(&self, date: &JapaneseDateInner) -> EraYear {
        AbstractGregorian(self.eras).year_info(&date.0)
    }

    fn extended_year(&self, date: &JapaneseDateInner) -> i32 {
        AbstractGregorian(self.eras).extended_year(&date.0)
    }

    fn month(&self, date: &JapaneseDateInner) -> MonthInfo {
        AbstractGregorian(self.eras).month(&date.0)
    }

    fn day_of_month(&self, date: &JapaneseDateInner) -> DayOfMonth {
        AbstractGregorian(self.eras).day_of_month(&date.0)
    }

    fn day_of_year(&self, date: &JapaneseDateInner) -> DayOfYear {
        AbstractGregorian(self.eras).day_of_year(&date.0)
    }

    #[inline(always)]
    fn add(
        &self,
        date: &JapaneseDateInner,
        duration: DateDuration,
        options: DateAddOptions,
    ) -> Result<JapaneseDateInner, DateAddError> {
        Ok(JapaneseDateInner(AbstractGregorian(self.eras).add(&date.0, duration, options)?))
    }

    fn until(
        &self,
        date1: &JapaneseDateInner,
        date2: &JapaneseDateInner,
        options: DateDifferenceOptions,
    ) -> DateDuration {
        AbstractGregorian(self.eras).until(&date1.0, &date2.0, options)
    }

    fn until_counted<L: Ledger>(
        &self,
        date1: &JapaneseDateInner,
        date2: &JapaneseDateInner,
        options: DateDifferenceOptions,
        steps: &mut Steps<L>,
    ) -> DateDuration {
        AbstractGregorian(self.eras).until_counted(&date1.0, &date2.0, options, steps)
    }

    fn check_date_compatibility(&self, _other: &Self) -> Result<(), Infallible> {
        Ok(())
    }

    fn calendar_algorithm(&self) -> Option<CalendarAlgorithm> {
        AbstractGregorian(self.eras).calendar_algorithm()
    }

    fn debug_name(&self) -> &'static str {
        AbstractGregorian(self.eras).debug_name()
    }

    ghost lawful = { λ _. offset_list-lawful (pos 0) };

    ghost dated = { λ _ d h. kept-dated (pos 0) d.0.parts h };

    ghost ranged = { λ _. offset_list-ranged (pos 0) (true-offset (pos 0) refl) };

    ghost shifted = { λ _. offset_list-shifted (pos 0) (true-offset (pos 0) refl) };

    ghost covered = { λ _. offset_list-covered (pos 0) (true-offset (pos 0) refl) };

    ghost named = { λ s t. japanese_era-named s.eras t };

    ghost equal_days = { λ _ a b h k. kept-equal (pos 0) a.0.parts b.0.parts h k };

    ghost ordered_days = { λ _ a b h k. ap Some (kept-ordered (pos 0) a.0.parts b.0.parts h k) };

    ghost refusal = { λ _ _ h. never_refused h };

    ghost compatible_itself = { λ _. refl };

    ghost compatible_back = { λ _ _ h. h };

    ghost compatible_on = { λ _ _ _ h k. k };

    ghost shared = { λ _ _ _ h k. k };

    ghost shared_day = { λ _ _ _ h k. refl };
}

impl AsCalendar for Japanese {
    type Calendar = Japanese;

    ghost cal_of = { λ c. c };

    fn as_calendar(&self) -> &Japanese {
        self
    }
}
