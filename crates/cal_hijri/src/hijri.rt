//! The Hijri calendar over any rules, and its dates.

ghost use Rattle.std.specs.Prelude.{◌≡◌};
ghost use Rattle.cal_days.specs.Day.{IsFieldYear};
ghost use Rattle.cal_arith.specs.FieldNames.{era_read};
ghost use Rattle.cal_hijri.specs.HijriList.{has_parts_of};
ghost use Rattle.cal_hijri.specs.HijriNames.{hijri_era_year, hijri_reads};

use crate::hijri_table::HijriTable;
use crate::hijri_year::{HijriYear, days_before_month, days_in_month};
use crate::rules::Rules;
use crate::table_rules::{AstronomicalSimulation, UmmAlQura};
use crate::tabular_algorithm::{
    TabularAlgorithm, TabularAlgorithmEpoch, TabularAlgorithmLeapYears,
};
use cal_arith::{ArithmeticDate, DateFieldsResolver, Steps, YearShapes, Years, can_be_named};
use cal_base::plain_months::{is_plain, plain_ordinal};
use cal_base::scaffold::UnstableSealed;
use cal_base::year_days::counted_day;
use cal_base::{Arithmetic, AsCalendar, Calendar, NamedYears};
use cal_days::RataDie;
use cal_types::{
    CalendarAlgorithm, DateAddError, DateAddOptions, DateDifferenceOptions, DateDuration,
    DateFields, DateFromFieldsError, DateFromFieldsOptions, DateNewError, DayOfMonth, DayOfYear,
    EcmaReferenceYearError, EraYear, LeapStatus, Month, MonthError, MonthInfo, Overflow,
    TinyAsciiStr, UnknownEraError, YearAmbiguity, YearInput,
};
use std::sync::ledger::Ledger;

/// The Hijri (Islamic) calendar with rules for its years.
///
/// A year has the plain months 1 to 12. The rules decide which of them have 29 days and which 30. A leap year has 355
/// days. The eras are `ah`, the years from the Hijra on, and `bh`, the years before it, counted back from 1 (CLDR,
/// UTS 35).
#[derive(Clone, Copy, Debug)]
pub struct Hijri<S>(pub S);

impl Hijri<TabularAlgorithm> {
    /// Creates the tabular calendar with a rule of leap years and the first day of year 1.
    ///
    /// ```
    /// let years = TabularAlgorithmLeapYears::TypeII;
    /// let thursday = Hijri::new_tabular(years, TabularAlgorithmEpoch::Thursday);
    /// let date = Date::try_new_hijri_with_calendar(1445, 2, 1, thursday)?;
    /// assert!(rt; date.to_rata_die().to_i64_date() == 738749); // 2023-08-17
    /// ```
    pub const fn new_tabular(
        leap_years: TabularAlgorithmLeapYears,
        epoch: TabularAlgorithmEpoch,
    ) -> Hijri<TabularAlgorithm>
        ensures leap_years { result.0.leap_years ≡ leap_years }
        ensures epoch { result.0.epoch ≡ epoch }
    {
        Hijri(TabularAlgorithm::new(leap_years, epoch))
    }
}

impl<'t> Hijri<UmmAlQura<'t>> {
    /// Creates the Umm al-Qura calendar with a table of years.
    ///
    /// ```
    /// let computed = Hijri::new_umm_al_qura(HijriTable::none());
    /// let date = Date::try_new_hijri_with_calendar(1445, 8, 20, computed)?;
    /// assert!(rt; date.to_rata_die().to_i64_date() == 738946); // 2024-03-01
    /// ```
    pub fn new_umm_al_qura(table: HijriTable<'t>) -> Hijri<UmmAlQura<'t>>
        ensures { result.0.table ≡ table.entry }
    {
        Hijri(UmmAlQura::new(table))
    }
}

impl<'t> Hijri<AstronomicalSimulation<'t>> {
    /// Creates the simulated calendar of Mecca with a table of years.
    ///
    /// ```
    /// let computed = Hijri::new_simulated_mecca(HijriTable::none());
    /// let date = Date::try_new_hijri_with_calendar(1445, 8, 20, computed)?;
    /// assert!(rt; date.to_rata_die().to_i64_date() == 738946); // 2024-03-01
    /// ```
    pub fn new_simulated_mecca(table: HijriTable<'t>) -> Hijri<AstronomicalSimulation<'t>>
        ensures { result.0.table ≡ table.entry }
    {
        Hijri(AstronomicalSimulation::new(table))
    }
}

/// A date of a Hijri calendar: its year, its ordinal month and its day of the month.
///
/// Dates are equal, ordered and hashed by the extended year, the month and the day.
#[derive_where(Clone, Copy, Debug, PartialEq, Eq, PartialOrd, Ord, Hash)]
pub struct HijriDateInner<R: Rules>(ArithmeticDate<Hijri<R>>);

impl HijriYear {
    /// Returns whether another year has the same extended year, first day and months.
    pub(crate) fn has_parts_of(self, other: HijriYear) -> bool
        ensures { result ≡ has_parts_of self other }
    {
        self.extended_year == other.extended_year
            && self.first_day == other.first_day
            && self.long_months == other.long_months
    }
}

impl<R: Rules> YearShapes for Hijri<R> {
    ghost use Rattle.std.specs.Prelude.{refl};
    ghost use Rattle.cal_hijri.specs.HijriList.{hijri_years};
    ghost use Rattle.cal_hijri.specs.laws.HijriShapes.{hijri_list-lawful};
    ghost use Rattle.cal_hijri.specs.laws.HijriBounds.{day_number-near, years-ranged, months-apart, days-covered, stored-extended};

    type YearInfo = HijriYear;

    ghost years = { λ s. hijri_years (R.year_of s.0) };

    fn year_counted<L: Ledger>(&self, extended_year: i32, steps: &mut Steps<L>) -> HijriYear {
        steps.tick();
        self.0.year(extended_year)
    }

    fn extended_from_year_info(&self, year: HijriYear) -> i32 {
        year.extended_year
    }

    fn months_in_provided_year(&self, _year: HijriYear) -> u8 {
        12
    }

    fn days_in_provided_month(&self, year: HijriYear, month: u8) -> u8 {
        days_in_month(year.long_months, month)
    }

    fn to_rata_die_inner(&self, year: HijriYear, month: u8, day: u8) -> RataDie {
        counted_day(
            year.first_day,
            days_before_month(year.long_months, month),
            day,
        )
    }

    fn min_months_from(&self, _start: HijriYear, count: i32) -> i32 {
        12 * count
    }

    fn months_by_number(&self, first: i32, last: i32) -> (i32, u32) {
        (last, 12 * (last - first) as u32)
    }

    fn ordinal_from_month(
        &self,
        _year: HijriYear,
        month: Month,
        _overflow: Overflow,
    ) -> Result<u8, MonthError> {
        plain_ordinal(month, 12)
    }

    fn month_from_ordinal(&self, _year: HijriYear, ordinal_month: u8) -> Month {
        Month::new(ordinal_month)
    }

    ghost numbered = { λ s y h. R.numbered s.0 y h };

    ghost lawful = { λ s. hijri_list-lawful (R.year_of s.0) };

    ghost equal = { λ a b. refl };

    ghost ordered = { λ a b. refl };

    ghost stored_from = { λ s y h. stored-extended y.extended_year };

    ghost near = { λ s t. day_number-near (R.year_of s.0) (R.numbered s.0) (R.joins s.0) t };

    ghost ranged = { λ s t. years-ranged (R.year_of s.0) (R.numbered s.0) (R.joins s.0) t };

    ghost apart = { λ s t u. months-apart (R.year_of s.0) (R.numbered s.0) (R.joins s.0) t u };

    ghost covered = { λ s t. days-covered (R.year_of s.0) (R.numbered s.0) (R.joins s.0) t };
}

impl<R: Rules> Years for Hijri<R> {
    fn year_info_from_extended(&self, extended_year: i32) -> HijriYear {
        self.0.year(extended_year)
    }

    fn year_containing_rd(&self, rd: RataDie) -> HijriYear {
        self.0.year_containing_rd(rd)
    }
}

/// Returns the extended year of an era year, -1040000 to 1040000, in the era `ah` or `bh`.
///
/// # Errors
///
/// - [`UnknownEraError`] if the code is neither `ah` nor `bh`.
fn year_in_era(era: &[u8], year: i32) -> Result<i32, UnknownEraError>
    requires { IsFieldYear year }
    ensures { result ≡ era_read (hijri_reads era.now year) }
{
    if era == b"ah".as_slice() {
        Ok(year)
    } else if era == b"bh".as_slice() {
        Ok(1 - year)
    } else {
        Err(UnknownEraError)
    }
}

impl<R: Rules> DateFieldsResolver for Hijri<R> {
    ghost use Rattle.std.specs.Prelude.{refl};
    ghost use Rattle.cal_hijri.specs.HijriNames.{hijri_names};
    ghost use Rattle.cal_hijri.specs.laws.HijriNameLaws.{hijri_reads-in_range, hijri_reads-near, reference_of_kind as tested_kind, reference_of_leap_month as no_leap_month};
    ghost use Rattle.cal_hijri.specs.laws.HijriShapes.{hijri_list-plain};

    ghost names = { λ s. hijri_names (R.reference s.0) };

    fn extended_year_from_era_year_unchecked(
        &self,
        era: &[u8],
        era_year: i32,
    ) -> Result<i32, UnknownEraError> {
        year_in_era(era, era_year)
    }

    fn reference_year_from_month_day(
        &self,
        month: Month,
        day: u8,
    ) -> Result<HijriYear, EcmaReferenceYearError> {
        if !is_plain(month, 12) {
            return Err(EcmaReferenceYearError::MonthNotInCalendar);
        }
        match self.0.ecma_reference_year(month, day) {
            Ok(year) => Ok(self.0.year(year)),
            Err(e) => Err(e),
        }
    }

    ghost era_in_range = { λ _ era n y. hijri_reads-in_range era n y };

    ghost era_near = { λ _ era n y. hijri_reads-near era n y };

    ghost reference_of_kind = { λ s m d. tested_kind (R.reference s.0) (R.references s.0) m d _
        ((hijri_list-plain (R.year_of s.0)).kind m) };

    ghost reference_of_leap_month = { λ s m d e. no_leap_month (R.reference s.0) (R.references s.0) m d e };
}

/// Returns the era year of an extended year from -1040000 to 1040000: in `ah`, or in `bh` before year 1 (CLDR, UTS
/// 35).
fn era_year(year: i32) -> EraYear
    requires { IsFieldYear year }
    ensures { result ≡ hijri_era_year year }
{
    if year < 1 {
        EraYear {
            year: 1 - year,
            extended_year: year,
            era: TinyAsciiStr::of_text(b"bh"),
            era_index: Some(1),
            ambiguity: YearAmbiguity::CenturyRequired,
        }
    } else {
        EraYear {
            year,
            extended_year: year,
            era: TinyAsciiStr::of_text(b"ah"),
            era_index: Some(0),
            ambiguity: YearAmbiguity::CenturyRequired,
        }
    }
}

impl<R: Rules> NamedYears for Hijri<R> {
    ghost use Rattle.std.specs.Cmp.{on_equiv};
    ghost use Rattle.cal_types.specs.declared.year.YearInfo.TheVariants.{Era};
    ghost use Rattle.cal_hijri.specs.laws.HijriNameLaws.{years-named};
    ghost use Rattle.cal_hijri.specs.HijriSystem.{hijri_leap};
    ghost use Rattle.cal_hijri.specs.laws.SameYears.{has_parts_of-tested};
    ghost use Rattle.cal_hijri.specs.laws.GivenYears.{shared-given};

    type Year = EraYear;

    ghost has_year = { λ s y. has_parts_of (R.year_of s.0 y.extended_year) y };

    ghost is_leap_year = { λ s y. hijri_leap (R.year_of s.0) y };

    ghost year_named = { λ _ y. Era (hijri_era_year y) };

    ghost compatible = { λ s t. R.compatible s.0 t.0 };

    fn owns_year(&self, year: HijriYear) -> bool {
        can_be_named(year.extended_year) && self.0.year(year.extended_year).has_parts_of(year)
    }

    fn is_leap(&self, year: HijriYear) -> bool {
        days_before_month(year.long_months, 13) == 355
    }

    fn named_year(&self, year: HijriYear) -> EraYear {
        era_year(year.extended_year)
    }

    fn shown_month(
        &self,
        _year: HijriYear,
        _ordinal_month: u8,
        month: Month,
    ) -> (LeapStatus, Month) {
        (LeapStatus::Normal, month)
    }

    fn year_offset(&self) -> i32 {
        0
    }

    fn is_compatible(&self, other: &Self) -> bool {
        self.0.check_date_compatibility(&other.0).is_ok()
    }

    ghost tested = { λ s y. has_parts_of-tested (R.year_of s.0) y };

    ghost named = { λ _ y. years-named y };

    ghost alike = { on_equiv (λ s. s.0) R.alike };

    ghost shared = { λ s t y c given. shared-given (R.year_of s.0) (R.year_of t.0) (R.joins s.0) (R.joins t.0)
        (λ n r. R.shared s.0 t.0 n c r) y given };
}

impl<R: Rules> UnstableSealed for Hijri<R> {}

impl<R: Rules> Calendar for Hijri<R> {
    ghost use Rattle.std.specs.Prelude.{false};
    ghost use Rattle.cal_base.specs.laws.NumberedYears.{numbered_equal, numbered_ordered};
    ghost use Rattle.cal_hijri.specs.HijriList.{hijri_list};
    ghost use Rattle.cal_hijri.specs.laws.HijriShapes.{hijri_list-lawful};
    ghost use Rattle.cal_hijri.specs.laws.HijriNameLaws.{years-named};
    ghost use Rattle.cal_hijri.specs.HijriSystem.{hijri_system, kept_date, hijri_belongs};
    ghost use Rattle.cal_hijri.specs.laws.HijriSystemLaws.{alike-back, alike-on, belongs-valid, belongs-dated, belongs-shared, day-shared};
    ghost use Rattle.cal_hijri.specs.laws.HijriBounds.{years-ranged, days-covered};

    type DateInner = HijriDateInner<R>;

    type Year = EraYear;

    type DateCompatibilityError = R::DateCompatibilityError;

    ghost system = { λ s. hijri_system (R.year_of s.0) (R.reference s.0) };

    ghost date_of = { λ _ d. kept_date d.0.parts };

    ghost belongs = { λ s d. hijri_belongs (R.year_of s.0) d.0.parts };

    ghost compatible = { λ s t. R.compatible s.0 t.0 };

    ghost is_cheap = { λ _. false };

    ghost algorithm = { λ s. R.algorithm s.0 };

    ghost name = { λ s. R.name s.0 };

    fn owns(&self, date: &HijriDateInner<R>) -> bool {
        Arithmetic(*self).owns(&date.0)
    }

    fn new_date(
        &self,
        year: YearInput<'_>,
        month: Month,
        day: u8,
    ) -> Result<HijriDateInner<R>, DateNewError> {
        Ok(HijriDateInner(Arithmetic(*self).new_date(year, month, day)?))
    }

    fn from_fields(
        &self,
        fields: DateFields<'_>,
        options: DateFromFieldsOptions,
    ) -> Result<HijriDateInner<R>, DateFromFieldsError> {
        Ok(HijriDateInner(Arithmetic(*self).from_fields(fields, options)?))
    }

    fn has_cheap_iso_conversion(&self) -> bool {
        false
    }

    fn from_rata_die(&self, rd: RataDie) -> HijriDateInner<R> {
        HijriDateInner(Arithmetic(*self).from_rata_die(rd))
    }

    fn to_rata_die(&self, date: &HijriDateInner<R>) -> RataDie {
        Arithmetic(*self).to_rata_die(&date.0)
    }

    fn months_in_year(&self, date: &HijriDateInner<R>) -> u8 {
        Arithmetic(*self).months_in_year(&date.0)
    }

    fn days_in_year(&self, date: &HijriDateInner<R>) -> u16 {
        Arithmetic(*self).days_in_year(&date.0)
    }

    fn days_in_month(&self, date: &HijriDateInner<R>) -> u8 {
        Arithmetic(*self).days_in_month(&date.0)
    }

    fn is_in_leap_year(&self, date: &HijriDateInner<R>) -> bool {
        Arithmetic(*self).is_in_leap_year(&date.0)
    }

    fn year_info(&self, date: &HijriDateInner<R>) -> EraYear {
        Arithmetic(*self).year_info(&date.0)
    }

    fn extended_year(&self, date: &HijriDateInner<R>) -> i32 {
        Arithmetic(*self).extended_year(&date.0)
    }

    fn month(&self, date: &HijriDateInner<R>) -> MonthInfo {
        Arithmetic(*self).month(&date.0)
    }

    fn day_of_month(&self, date: &HijriDateInner<R>) -> DayOfMonth {
        Arithmetic(*self).day_of_month(&date.0)
    }

    fn day_of_year(&self, date: &HijriDateInner<R>) -> DayOfYear {
        Arithmetic(*self).day_of_year(&date.0)
    }

    #[inline(always)]
    fn add(
        &self,
        date: &HijriDateInner<R>,
        duration: DateDuration,
        options: DateAddOptions,
    ) -> Result<HijriDateInner<R>, DateAddError> {
        Ok(HijriDateInner(Arithmetic(*self).add(&date.0, duration, options)?))
    }

    fn until(
        &self,
        date1: &HijriDateInner<R>,
        date2: &HijriDateInner<R>,
        options: DateDifferenceOptions,
    ) -> DateDuration {
        Arithmetic(*self).until(&date1.0, &date2.0, options)
    }

    fn until_counted<L: Ledger>(
        &self,
        date1: &HijriDateInner<R>,
        date2: &HijriDateInner<R>,
        options: DateDifferenceOptions,
        steps: &mut Steps<L>,
    ) -> DateDuration {
        Arithmetic(*self).until_counted(&date1.0, &date2.0, options, steps)
    }

    fn check_date_compatibility(&self, other: &Self) -> Result<(), R::DateCompatibilityError> {
        self.0.check_date_compatibility(&other.0)
    }

    fn calendar_algorithm(&self) -> Option<CalendarAlgorithm> {
        self.0.calendar_algorithm()
    }

    fn debug_name(&self) -> &'static str {
        self.0.debug_name()
    }

    ghost lawful = { λ s. hijri_list-lawful (R.year_of s.0) };

    ghost dated = { λ s d h. belongs-dated (R.year_of s.0) d.0.parts h };

    ghost ranged = { λ s t h. (years-ranged (R.year_of s.0) (R.numbered s.0) (R.joins s.0) t h).0 };

    ghost shifted = { λ s t h. (years-ranged (R.year_of s.0) (R.numbered s.0) (R.joins s.0) t h).1 };

    ghost covered = { λ s t. days-covered (R.year_of s.0) (R.numbered s.0) (R.joins s.0) t };

    ghost named = { λ _ t. years-named t.year };

    ghost equal_days = { λ s a b h k. numbered_equal (hijri_list (R.year_of s.0)) _ _
        (belongs-valid (R.year_of s.0) a.0.parts h) (belongs-valid (R.year_of s.0) b.0.parts k) };

    ghost ordered_days = { λ s a b h k. numbered_ordered (hijri_list (R.year_of s.0)) _ _
        (belongs-valid (R.year_of s.0) a.0.parts h) (belongs-valid (R.year_of s.0) b.0.parts k) };

    ghost refusal = { λ s t h. R.refusal s.0 t.0 h };

    ghost compatible_itself = { λ s. R.alike.refl s.0 };

    ghost compatible_back = { λ s t h. alike-back R.alike s.0 t.0 h };

    ghost compatible_on = { λ s t u h k. alike-on R.alike s.0 t.0 u.0 h k };

    ghost shared = { λ s t d c h. belongs-shared (R.year_of s.0) (R.year_of t.0) (R.numbered s.0) (R.joins s.0)
        (R.joins t.0) (λ y r. R.shared s.0 t.0 y c r) d.0.parts h };

    ghost shared_day = { λ s t d c h. day-shared (R.year_of s.0) (R.year_of t.0) (R.numbered s.0) (R.joins s.0)
        (R.joins t.0) (λ y r. R.shared s.0 t.0 y c r) d.0.parts h };
}

impl<R: Rules> AsCalendar for Hijri<R> {
    type Calendar = Hijri<R>;

    ghost cal_of = { λ c. c };

    fn as_calendar(&self) -> &Hijri<R> {
        self
    }
}
