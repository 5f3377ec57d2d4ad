//! The calendar of the Chinese and Korean kind over any rules, and its dates.

ghost use Rattle.std.specs.Prelude.{◌≡◌};
ghost use Rattle.cal_days.specs.Day.{IsFieldYear};
ghost use Rattle.cal_east_asian.specs.EastAsianSystem.{cyclic_year as year_of_cycle};

use crate::east_asian_months::{
    days_before_month, days_in_month, is_east_asian, leap_status, month_in_place, months_in_year,
    place_of_month,
};
use crate::east_asian_traditional_year::EastAsianTraditionalYear;
use crate::mean_moons::{MONTH, YEAR};
use crate::rules::Rules;
use crate::same_rows::is_same_year;
use cal_arith::{ArithmeticDate, DateFieldsResolver, Steps, YearShapes, Years, can_be_named};
use cal_base::scaffold::UnstableSealed;
use cal_base::year_days::counted_day;
use cal_base::{Arithmetic, AsCalendar, Calendar, NamedYears};
use cal_days::RataDie;
use cal_types::{
    CalendarAlgorithm, CyclicYear, DateAddError, DateAddOptions, DateDifferenceOptions,
    DateDuration, DateFields, DateFromFieldsError, DateFromFieldsOptions, DateNewError, DayOfMonth,
    DayOfYear, EcmaReferenceYearError, LeapStatus, Month, MonthError, MonthInfo, Overflow,
    UnknownEraError, YearInput,
};
use std::sync::ledger::Ledger;

/// A calendar of the Chinese kind with rules for its years.
///
/// Years are named by the cycle of sixty years, and numbered by the ISO year in which they start. A year has the plain
/// months 1 to 12, and a leap year also a leap month, which has the number of the month before it. With
/// [`Overflow::Constrain`], the plain month of its number replaces a leap month that doesn't occur in a year.
#[derive(Clone, Copy, Debug)]
pub struct EastAsianTraditional<R>(pub R);

/// The length of a mean month, in milliseconds.
const MEAN_MONTH: u64 = MONTH as u64;

/// The length of a mean year, in milliseconds.
const MEAN_YEAR: u64 = YEAR as u64;

/// A date of a Chinese or Korean calendar: its year, its ordinal month and its day of the month.
///
/// Dates are equal, ordered and hashed by the number of the year, the ordinal month and the day.
#[derive_where(Clone, Copy, Debug, PartialEq, Eq, PartialOrd, Ord, Hash)]
pub struct ChineseDateInner<R: Rules>(ArithmeticDate<EastAsianTraditional<R>>);

impl<R: Rules> YearShapes for EastAsianTraditional<R> {
    ghost use Rattle.std.specs.Prelude.{refl};
    ghost use Rattle.cal_east_asian.specs.EastAsianList.{east_asian_years};
    ghost use Rattle.cal_east_asian.specs.laws.EastAsianListLaws.{east_asian_list-lawful};
    ghost use Rattle.cal_east_asian.specs.laws.EastAsianStartLaws.{stored-extended, day_number-near, years-ranged, months-apart, days-covered};

    type YearInfo = EastAsianTraditionalYear;

    ghost years = { λ s. east_asian_years (R.year_of s.0) };

    fn year_counted<L: Ledger>(
        &self,
        extended_year: i32,
        steps: &mut Steps<L>,
    ) -> EastAsianTraditionalYear {
        steps.tick();
        self.0.year(extended_year)
    }

    fn extended_from_year_info(&self, year: EastAsianTraditionalYear) -> i32 {
        year.related_iso
    }

    fn months_in_provided_year(&self, year: EastAsianTraditionalYear) -> u8 {
        months_in_year(year.leap_month)
    }

    fn days_in_provided_month(&self, year: EastAsianTraditionalYear, month: u8) -> u8 {
        days_in_month(year.long_months, month)
    }

    fn to_rata_die_inner(&self, year: EastAsianTraditionalYear, month: u8, day: u8) -> RataDie {
        counted_day(
            year.new_year,
            days_before_month(year.long_months, month),
            day,
        )
    }

    fn min_months_from(&self, _start: EastAsianTraditionalYear, count: i32) -> i32 {
        12 * count + count / 3
    }

    fn months_by_number(&self, first: i32, last: i32) -> (i32, u32) {
        self.0.months_by_number(first, last)
    }

    fn ordinal_from_month(
        &self,
        year: EastAsianTraditionalYear,
        month: Month,
        overflow: Overflow,
    ) -> Result<u8, MonthError> {
        place_of_month(year.leap_month, month, overflow)
    }

    fn month_from_ordinal(&self, year: EastAsianTraditionalYear, ordinal_month: u8) -> Month {
        month_in_place(year.leap_month, ordinal_month)
    }

    ghost numbered = { λ s y h. (R.lawful s.0).numbered y h };

    ghost lawful = { λ s. east_asian_list-lawful (R.year_of s.0) };

    ghost equal = { λ a b. refl };

    ghost ordered = { λ a b. refl };

    ghost stored_from = { λ s y h. stored-extended y.related_iso };

    ghost near = { λ s t. day_number-near (R.year_of s.0) (R.lawful s.0) t };

    ghost ranged = { λ s t. years-ranged (R.year_of s.0) (R.lawful s.0) t };

    ghost apart = { λ s t u. months-apart (R.year_of s.0) (R.lawful s.0) t u };

    ghost covered = { λ s t. days-covered (R.year_of s.0) (R.lawful s.0) t };
}

impl<R: Rules> Years for EastAsianTraditional<R> {
    fn year_info_from_extended(&self, extended_year: i32) -> EastAsianTraditionalYear {
        self.0.year(extended_year)
    }

    fn year_containing_rd(&self, rd: RataDie) -> EastAsianTraditionalYear {
        self.0.year_containing_rd(rd)
    }

    /// Estimates by the mean month and the mean year, minus two months, since one year may start up to 34 days later
    /// in its ISO year than another.
    fn estimated_years(&self, _from: EastAsianTraditionalYear, months: u32) -> u32 {
        (u64::from(months.saturating_sub(2)) * MEAN_MONTH / MEAN_YEAR) as u32
    }
}

impl<R: Rules> DateFieldsResolver for EastAsianTraditional<R> {
    ghost use Rattle.cal_types.proofs.YearNameLemmas.{no_era-some};
    ghost use Rattle.cal_days.specs.Day.{IsNearEra, IsRuleYear};
    ghost use Rattle.cal_east_asian.specs.EastAsianSystem.{east_asian_names};
    ghost use Rattle.cal_east_asian.specs.laws.EastAsianNameLaws.{reference-of_kind, reference-of_leap_month};

    ghost names = { λ s. east_asian_names (R.reference s.0) };

    fn extended_year_from_era_year_unchecked(
        &self,
        _era: &[u8],
        _era_year: i32,
    ) -> Result<i32, UnknownEraError> {
        Err(UnknownEraError)
    }

    fn reference_year_from_month_day(
        &self,
        month: Month,
        day: u8,
    ) -> Result<EastAsianTraditionalYear, EcmaReferenceYearError> {
        if !is_east_asian(month) {
            return Err(EcmaReferenceYearError::MonthNotInCalendar);
        }
        match self.0.ecma_reference_year(month, day) {
            Ok(related_iso) => Ok(self.0.year(related_iso)),
            Err(error) => Err(error),
        }
    }

    ghost era_in_range = { λ _ _ _ y _. no_era-some IsRuleYear y };

    ghost era_near = { λ _ _ _ y _. no_era-some IsNearEra y };

    ghost reference_of_kind = { λ s m d. reference-of_kind (R.year_of s.0) (R.reference s.0)
        (R.reference_of_kind s.0) m d };

    ghost reference_of_leap_month = { λ s m d. reference-of_leap_month (R.year_of s.0) (R.reference s.0)
        (R.reference_of_leap_month s.0) m d };
}

/// Returns the year in the cycle of sixty years.
#[tactic(auto, using(cal_days::proofs::Signed::signed), unfolding(cal_days::specs::Division::floor_mod))]
fn cyclic_year(related_iso: i32) -> CyclicYear
    requires { IsFieldYear related_iso }
    ensures { result ≡ year_of_cycle related_iso }
{
    CyclicYear {
        year: (related_iso - 4).rem_euclid(60) as u8 + 1,
        related_iso,
    }
}

impl<R: Rules> NamedYears for EastAsianTraditional<R> {
    ghost use Rattle.std.specs.Prelude.{refl};
    ghost use Rattle.std.proofs.lemmas.Cmp.{on_equiv};
    ghost use Rattle.cal_types.specs.declared.year.YearInfo.TheVariants.{Cyclic};
    ghost use Rattle.cal_east_asian.specs.EastAsianSystem.{cyclic_year as year_of_cycle, east_asian_leap, east_asian_leap_status};
    ghost use Rattle.cal_east_asian.specs.SameYears.{same_year};
    ghost use Rattle.cal_east_asian.specs.laws.SameYearLaws.{same_year-tested};
    ghost use Rattle.cal_east_asian.specs.laws.EastAsianGivenLaws.{shared-given};

    type Year = CyclicYear;

    ghost has_year = { λ s y. same_year (R.year_of s.0 y.related_iso) y };

    ghost is_leap_year = { λ s y. east_asian_leap (R.year_of s.0) y };

    ghost year_named = { λ _ y. Cyclic (year_of_cycle y) };

    ghost leap_status = { λ s y i. east_asian_leap_status (R.year_of s.0) y i };

    ghost compatible = { λ s t. R.compatible s.0 t.0 };

    fn owns_year(&self, year: EastAsianTraditionalYear) -> bool {
        can_be_named(year.related_iso) && is_same_year(self.0.year(year.related_iso), year)
    }

    fn is_leap(&self, year: EastAsianTraditionalYear) -> bool {
        year.leap_month != 0
    }

    fn named_year(&self, year: EastAsianTraditionalYear) -> CyclicYear {
        cyclic_year(year.related_iso)
    }

    fn shown_month(
        &self,
        year: EastAsianTraditionalYear,
        ordinal_month: u8,
        month: Month,
    ) -> (LeapStatus, Month) {
        (leap_status(year.leap_month, ordinal_month), month)
    }

    fn year_offset(&self) -> i32 {
        0
    }

    fn is_compatible(&self, other: &Self) -> bool {
        self.0.check_date_compatibility(&other.0).is_ok()
    }

    ghost tested = { λ s y. same_year-tested (R.year_of s.0) y };

    ghost named = { λ _ y. refl };

    ghost alike = { on_equiv (λ s. s.0) R.alike };

    ghost shared = { λ s t y c given. shared-given (R.year_of s.0) (R.year_of t.0) (R.lawful s.0) (R.lawful t.0)
        (λ n r. R.shared s.0 t.0 n c r) y given };
}

impl<R: Rules> UnstableSealed for EastAsianTraditional<R> {}

impl<R: Rules> Calendar for EastAsianTraditional<R> {
    ghost use Rattle.std.specs.Prelude.{false, refl};
    ghost use Rattle.std.proofs.Common.{sym, ◌∙◌};
    ghost use Rattle.cal_base.specs.laws.NumberedYears.{numbered_equal, numbered_ordered};
    ghost use Rattle.cal_east_asian.specs.EastAsianList.{east_asian_list};
    ghost use Rattle.cal_east_asian.specs.laws.EastAsianListLaws.{east_asian_list-lawful};
    ghost use Rattle.cal_east_asian.specs.EastAsianSystem.{east_asian_system, kept_date, east_asian_belongs};
    ghost use Rattle.cal_east_asian.specs.laws.EastAsianGivenLaws.{belongs-valid, belongs-dated, belongs-shared, day-shared};
    ghost use Rattle.cal_east_asian.specs.laws.EastAsianStartLaws.{years-ranged, days-covered};

    type DateInner = ChineseDateInner<R>;

    type Year = CyclicYear;

    type DateCompatibilityError = R::DateCompatibilityError;

    ghost system = { λ s. east_asian_system (R.year_of s.0) (R.reference s.0) };

    ghost date_of = { λ _ d. kept_date d.0.parts };

    ghost belongs = { λ s d. east_asian_belongs (R.year_of s.0) d.0.parts };

    ghost compatible = { λ s t. R.compatible s.0 t.0 };

    ghost is_cheap = { λ _. false };

    ghost algorithm = { λ s. R.algorithm s.0 };

    ghost name = { λ s. R.name s.0 };

    fn owns(&self, date: &ChineseDateInner<R>) -> bool {
        Arithmetic(*self).owns(&date.0)
    }

    fn new_date(
        &self,
        year: YearInput<'_>,
        month: Month,
        day: u8,
    ) -> Result<ChineseDateInner<R>, DateNewError> {
        Ok(ChineseDateInner(Arithmetic(*self).new_date(year, month, day)?))
    }

    fn from_fields(
        &self,
        fields: DateFields<'_>,
        options: DateFromFieldsOptions,
    ) -> Result<ChineseDateInner<R>, DateFromFieldsError> {
        Ok(ChineseDateInner(Arithmetic(*self).from_fields(fields, options)?))
    }

    fn has_cheap_iso_conversion(&self) -> bool {
        false
    }

    fn from_rata_die(&self, rd: RataDie) -> ChineseDateInner<R> {
        ChineseDateInner(Arithmetic(*self).from_rata_die(rd))
    }

    fn to_rata_die(&self, date: &ChineseDateInner<R>) -> RataDie {
        Arithmetic(*self).to_rata_die(&date.0)
    }

    fn months_in_year(&self, date: &ChineseDateInner<R>) -> u8 {
        Arithmetic(*self).months_in_year(&date.0)
    }

    fn days_in_year(&self, date: &ChineseDateInner<R>) -> u16 {
        Arithmetic(*self).days_in_year(&date.0)
    }

    fn days_in_month(&self, date: &ChineseDateInner<R>) -> u8 {
        Arithmetic(*self).days_in_month(&date.0)
    }

    fn is_in_leap_year(&self, date: &ChineseDateInner<R>) -> bool {
        Arithmetic(*self).is_in_leap_year(&date.0)
    }

    fn year_info(&self, date: &ChineseDateInner<R>) -> CyclicYear {
        Arithmetic(*self).year_info(&date.0)
    }

    fn extended_year(&self, date: &ChineseDateInner<R>) -> i32 {
        Arithmetic(*self).extended_year(&date.0)
    }

    fn month(&self, date: &ChineseDateInner<R>) -> MonthInfo {
        Arithmetic(*self).month(&date.0)
    }

    fn day_of_month(&self, date: &ChineseDateInner<R>) -> DayOfMonth {
        Arithmetic(*self).day_of_month(&date.0)
    }

    fn day_of_year(&self, date: &ChineseDateInner<R>) -> DayOfYear {
        Arithmetic(*self).day_of_year(&date.0)
    }

    #[inline(always)]
    fn add(
        &self,
        date: &ChineseDateInner<R>,
        duration: DateDuration,
        options: DateAddOptions,
    ) -> Result<ChineseDateInner<R>, DateAddError> {
        Ok(ChineseDateInner(Arithmetic(*self).add(&date.0, duration, options)?))
    }

    fn until(
        &self,
        date1: &ChineseDateInner<R>,
        date2: &ChineseDateInner<R>,
        options: DateDifferenceOptions,
    ) -> DateDuration {
        Arithmetic(*self).until(&date1.0, &date2.0, options)
    }

    fn until_counted<L: Ledger>(
        &self,
        date1: &ChineseDateInner<R>,
        date2: &ChineseDateInner<R>,
        options: DateDifferenceOptions,
        steps: &mut Steps<L>,
    ) -> DateDuration {
        Arithmetic(*self).until_counted(&date1.0, &date2.0, options, steps)
    }

    fn check_date_compatibility(&self, other: &Self) -> Result<(), R::DateCompatibilityError> {
        self.0.check_date_compatibility(&other.0)
    }

    fn calendar_algorithm(&self) -> Option<CalendarAlgorithm> {
        self.0.calendar_algorithm()
    }

    fn debug_name(&self) -> &'static str {
        self.0.debug_name()
    }

    ghost lawful = { λ s. east_asian_list-lawful (R.year_of s.0) };

    ghost dated = { λ s d h. belongs-dated (R.year_of s.0) d.0.parts h };

    ghost ranged = { λ s t h. (years-ranged (R.year_of s.0) (R.lawful s.0) t h).0 };

    ghost shifted = { λ s t h. (years-ranged (R.year_of s.0) (R.lawful s.0) t h).1 };

    ghost covered = { λ s t. days-covered (R.year_of s.0) (R.lawful s.0) t };

    ghost named = { λ _ t. refl };

    ghost equal_days = { λ s a b h k. numbered_equal (east_asian_list (R.year_of s.0)) _ _
        (belongs-valid (R.year_of s.0) a.0.parts h) (belongs-valid (R.year_of s.0) b.0.parts k) };

    ghost ordered_days = { λ s a b h k. numbered_ordered (east_asian_list (R.year_of s.0)) _ _
        (belongs-valid (R.year_of s.0) a.0.parts h) (belongs-valid (R.year_of s.0) b.0.parts k) };

    ghost refusal = { λ s t h. R.refusal s.0 t.0 h };

    ghost compatible_itself = { λ s. R.alike.refl s.0 };

    ghost compatible_back = { λ s t h. sym (R.alike.symm s.0 t.0) ∙ h };

    ghost compatible_on = { λ s t u h k. R.alike.congr s.0 t.0 u.0 h ∙ k };

    ghost shared = { λ s t d c h. belongs-shared (R.year_of s.0) (R.year_of t.0) (R.lawful s.0) (R.lawful t.0)
        (λ y r. R.shared s.0 t.0 y c r) d.0.parts h };

    ghost shared_day = { λ s t d c h. day-shared (R.year_of s.0) (R.year_of t.0) (R.lawful s.0) (R.lawful t.0)
        (λ y r. R.shared s.0 t.0 y c r) d.0.parts h };
}

impl<R: Rules> AsCalendar for EastAsianTraditional<R> {
    type Calendar = EastAsianTraditional<R>;

    ghost cal_of = { λ c. c };

    fn as_calendar(&self) -> &EastAsianTraditional<R> {
        self
    }
}
