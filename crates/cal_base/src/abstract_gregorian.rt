//! The Gregorian calendars: they have the months of the proleptic Gregorian calendar, and count the ISO years from a
//! year of their own.

use crate::calendar::{AsCalendar, Calendar};
use crate::gregorian_years::GregorianYears;
use crate::iso::IsoDateInner;
use crate::iso_days::{days_in_iso_month, is_leap, iso_date, iso_day_number};
use crate::numbered_year::NumberedYear;
use crate::plain_months::{is_plain, plain_ordinal};
use crate::scaffold::UnstableSealed;
use cal_arith::{ArithmeticDate, DateFieldsResolver, Steps, YearShapes, Years};
use cal_days::{RataDie, gregorian};
use cal_types::{
    CalendarAlgorithm, DateAddError, DateAddOptions, DateDifferenceOptions, DateDuration,
    DateFields, DateFromFieldsError, DateFromFieldsOptions, DateNewError, DayOfMonth, DayOfYear,
    EcmaReferenceYearError, EraYear, LeapStatus, Month, MonthError, MonthInfo, Overflow,
    UnknownEraError, YearInput,
};
use std::convert::Infallible;
use std::sync::ledger::Ledger;

/// A calendar with the months of the proleptic Gregorian calendar, whose years are counted by `Y`.
///
/// Its dates store the ISO year.
#[derive(Clone, Copy, Debug)]
pub struct AbstractGregorian<Y: GregorianYears>(pub Y);

impl<Y: GregorianYears> YearShapes for AbstractGregorian<Y> {
    ghost use Rattle.std.specs.Prelude.{refl};
    ghost use Rattle.cal_types.proofs.RenumberedBoundLemmas.{near-renumbered, ranged-renumbered, apart-renumbered, covered-renumbered};
    ghost use Rattle.cal_base.specs.GregorianList.{gregorian_list};
    ghost use Rattle.cal_base.specs.laws.GregorianLaws.{gregorian_list-bounded};
    ghost use Rattle.cal_base.specs.OffsetList.{offset_years};
    ghost use Rattle.cal_base.specs.laws.OffsetListLaws.{extended_year-iso, number-extended, offset_list-lawful};

    type YearInfo = NumberedYear;

    ghost years = { λ s. offset_years (Y.offset s.0) };

    fn year_counted<L: Ledger>(&self, extended_year: i32, steps: &mut Steps<L>) -> NumberedYear {
        steps.tick();
        self.year_info_from_extended(extended_year)
    }

    fn extended_from_year_info(&self, year: NumberedYear) -> i32 {
        year.number - self.0.year_offset()
    }

    fn months_in_provided_year(&self, _year: NumberedYear) -> u8 {
        12
    }

    fn days_in_provided_month(&self, year: NumberedYear, month: u8) -> u8 {
        days_in_iso_month(year, month)
    }

    fn to_rata_die_inner(&self, year: NumberedYear, month: u8, day: u8) -> RataDie {
        RataDie::new(iso_day_number(year.number, month, day))
    }

    fn min_months_from(&self, _start: NumberedYear, count: i32) -> i32 {
        12 * count
    }

    fn months_by_number(&self, first: i32, last: i32) -> (i32, u32) {
        (last, 12 * (last - first) as u32)
    }

    fn ordinal_from_month(
        &self,
        _year: NumberedYear,
        month: Month,
        _overflow: Overflow,
    ) -> Result<u8, MonthError> {
        plain_ordinal(month, 12)
    }

    fn month_from_ordinal(&self, _year: NumberedYear, ordinal_month: u8) -> Month {
        Month::new(ordinal_month)
    }

    fn ordinal_in_other_year(
        &self,
        _year: NumberedYear,
        ordinal_month: u8,
        _other: NumberedYear,
        _overflow: Overflow,
    ) -> Option<u8> {
        Some(ordinal_month)
    }

    ghost numbered = { λ s y h. extended_year-iso (Y.offset s.0) y };

    ghost lawful = { λ s. offset_list-lawful (Y.offset s.0) };

    ghost equal = { λ a b. refl };

    ghost ordered = { λ a b. refl };

    ghost stored_from = { λ s y h. number-extended (Y.offset s.0) y };

    ghost near = { λ s.
        near-renumbered (Y.offset s.0) (Y.offset_bound s.0) gregorian_list gregorian_list-bounded };

    ghost ranged = { λ s.
        ranged-renumbered (Y.offset s.0) (Y.offset_bound s.0) gregorian_list gregorian_list-bounded };

    ghost apart = { λ s.
        apart-renumbered (Y.offset s.0) (Y.offset_bound s.0) gregorian_list gregorian_list-bounded };

    ghost covered = { λ s.
        covered-renumbered (Y.offset s.0) (Y.offset_bound s.0) gregorian_list gregorian_list-bounded };
}

impl<Y: GregorianYears> Years for AbstractGregorian<Y> {
    fn year_info_from_extended(&self, extended_year: i32) -> NumberedYear {
        NumberedYear {
            number: extended_year + self.0.year_offset(),
        }
    }

    fn year_containing_rd(&self, rd: RataDie) -> NumberedYear {
        NumberedYear {
            number: gregorian::year_from_fixed(rd),
        }
    }

    fn year_month_day(&self, rd: RataDie) -> (NumberedYear, u8, u8) {
        let (number, month, day) = iso_date(rd);
        (NumberedYear { number }, month, day)
    }
}

impl<Y: GregorianYears> DateFieldsResolver for AbstractGregorian<Y> {
    ghost use Rattle.std.specs.Prelude.{pos, ◌-ℤ◌};
    ghost use Rattle.cal_types.specs.PlainMonths.{is_plain_month};
    ghost use Rattle.cal_types.proofs.YearNameLemmas.{reference_of_known-stands, reference_of_known-tested};
    ghost use Rattle.cal_base.specs.OffsetSystem.{offset_names};
    ghost use Rattle.cal_base.specs.laws.OffsetListLaws.{offset_list-plain};

    ghost names = { λ s. offset_names (Y.offset s.0) (Y.reads s.0) };

    fn extended_year_from_era_year_unchecked(
        &self,
        era: &[u8],
        era_year: i32,
    ) -> Result<i32, UnknownEraError> {
        self.0.extended_from_era_year(era, era_year)
    }

    fn reference_year_from_month_day(
        &self,
        month: Month,
        _day: u8,
    ) -> Result<NumberedYear, EcmaReferenceYearError> {
        if is_plain(month, 12) {
            Ok(NumberedYear { number: 1972 })
        } else {
            Err(EcmaReferenceYearError::MonthNotInCalendar)
        }
    }

    ghost era_in_range = { λ s era n y. Y.era_in_range s.0 era n y };

    ghost era_near = { λ s era n y. Y.era_near s.0 era n y };

    ghost reference_of_kind = { λ s m d. reference_of_known-tested (is_plain_month 12 m) _ (pos 1972 -ℤ Y.offset s.0)
        ((offset_list-plain (Y.offset s.0)).kind m) };

    ghost reference_of_leap_month = { λ s m d e.
        reference_of_known-stands (is_plain_month 12 m) (pos 1972 -ℤ Y.offset s.0) e };
}

impl<Y: GregorianYears> UnstableSealed for AbstractGregorian<Y> {}

impl<Y: GregorianYears> Calendar for AbstractGregorian<Y> {
    ghost use Rattle.std.specs.Prelude.{true, refl, Some};
    ghost use Rattle.std.proofs.Common.{ap};
    ghost use Rattle.cal_base.specs.OffsetSystem.{offset_system, offset_date, kept_belongs};
    ghost use Rattle.cal_base.specs.laws.Compatibility.{never_refused};
    ghost use Rattle.cal_base.specs.laws.OffsetListLaws.{offset_list-lawful, offset_list-ranged, offset_list-shifted, offset_list-covered};
    ghost use Rattle.cal_base.specs.laws.OffsetSystemLaws.{kept-dated, kept-equal, kept-ordered, kept-shared};

    type DateInner = ArithmeticDate<AbstractGregorian<Y>>;

    type Year = EraYear;

    type DateCompatibilityError = Infallible;

    ghost system = { λ s. offset_system (Y.offset s.0) (Y.reads s.0) (Y.era_year s.0) };

    ghost date_of = { λ s d. offset_date (Y.offset s.0) d.parts };

    ghost belongs = { λ _ d. kept_belongs d.parts };

    ghost compatible = { λ _ _. true };

    ghost is_cheap = { λ _. true };

    ghost algorithm = { λ s. Y.algorithm s.0 };

    ghost name = { λ s. Y.name s.0 };

    fn owns(&self, date: &ArithmeticDate<AbstractGregorian<Y>>) -> bool {
        if !date.year().can_be_named() {
            return false;
        }
        date.is_date_of(self)
    }

    fn new_date(
        &self,
        year: YearInput<'_>,
        month: Month,
        day: u8,
    ) -> Result<ArithmeticDate<AbstractGregorian<Y>>, DateNewError> {
        ArithmeticDate::<AbstractGregorian<Y>>::from_input_year_month_code_day(
            year, month, day, self,
        )
    }

    fn from_fields(
        &self,
        fields: DateFields<'_>,
        options: DateFromFieldsOptions,
    ) -> Result<ArithmeticDate<AbstractGregorian<Y>>, DateFromFieldsError> {
        ArithmeticDate::<AbstractGregorian<Y>>::from_fields(fields, options, self)
    }

    fn has_cheap_iso_conversion(&self) -> bool {
        true
    }

    fn from_iso(&self, iso: IsoDateInner) -> ArithmeticDate<AbstractGregorian<Y>> {
        iso.0.cast()
    }

    fn to_iso(&self, date: &ArithmeticDate<AbstractGregorian<Y>>) -> IsoDateInner {
        IsoDateInner(date.cast())
    }

    fn from_rata_die(&self, rd: RataDie) -> ArithmeticDate<AbstractGregorian<Y>> {
        ArithmeticDate::<AbstractGregorian<Y>>::from_rata_die(rd, self)
    }

    fn to_rata_die(&self, date: &ArithmeticDate<AbstractGregorian<Y>>) -> RataDie {
        date.to_rata_die(self)
    }

    fn months_in_year(&self, date: &ArithmeticDate<AbstractGregorian<Y>>) -> u8 {
        date.months_in_year(self)
    }

    fn days_in_year(&self, date: &ArithmeticDate<AbstractGregorian<Y>>) -> u16 {
        date.days_in_year(self)
    }

    fn days_in_month(&self, date: &ArithmeticDate<AbstractGregorian<Y>>) -> u8 {
        date.days_in_month(self)
    }

    fn is_in_leap_year(&self, date: &ArithmeticDate<AbstractGregorian<Y>>) -> bool {
        is_leap(date.year())
    }

    fn year_info(&self, date: &ArithmeticDate<AbstractGregorian<Y>>) -> EraYear {
        self.0
            .era_year_from_extended(date.extended_year(self), date.month(), date.day())
    }

    fn extended_year(&self, date: &ArithmeticDate<AbstractGregorian<Y>>) -> i32 {
        date.extended_year(self)
    }

    fn month(&self, date: &ArithmeticDate<AbstractGregorian<Y>>) -> MonthInfo {
        let month = date.month_in_calendar(self);
        MonthInfo::new(date.month(), month, LeapStatus::Normal, month)
    }

    fn day_of_month(&self, date: &ArithmeticDate<AbstractGregorian<Y>>) -> DayOfMonth {
        DayOfMonth(date.day())
    }

    fn day_of_year(&self, date: &ArithmeticDate<AbstractGregorian<Y>>) -> DayOfYear {
        DayOfYear(date.day_of_year(self))
    }

    #[inline(always)]
    fn add(
        &self,
        date: &ArithmeticDate<AbstractGregorian<Y>>,
        duration: DateDuration,
        options: DateAddOptions,
    ) -> Result<ArithmeticDate<AbstractGregorian<Y>>, DateAddError> {
        date.added_shifted(duration, self, options, self.0.year_offset())
    }

    fn until(
        &self,
        date1: &ArithmeticDate<AbstractGregorian<Y>>,
        date2: &ArithmeticDate<AbstractGregorian<Y>>,
        options: DateDifferenceOptions,
    ) -> DateDuration {
        date1.until(date2, self, options)
    }

    fn until_counted<L: Ledger>(
        &self,
        date1: &ArithmeticDate<AbstractGregorian<Y>>,
        date2: &ArithmeticDate<AbstractGregorian<Y>>,
        options: DateDifferenceOptions,
        steps: &mut Steps<L>,
    ) -> DateDuration {
        date1.until_counted(date2, self, options, steps)
    }

    fn check_date_compatibility(&self, _other: &Self) -> Result<(), Infallible> {
        Ok(())
    }

    fn calendar_algorithm(&self) -> Option<CalendarAlgorithm> {
        self.0.calendar_algorithm()
    }

    fn debug_name(&self) -> &'static str {
        self.0.debug_name()
    }

    ghost lawful = { λ s. offset_list-lawful (Y.offset s.0) };

    ghost dated = { λ s d h. kept-dated (Y.offset s.0) d.parts h };

    ghost ranged = { λ s. offset_list-ranged (Y.offset s.0) (Y.offset_bound s.0) };

    ghost shifted = { λ s. offset_list-shifted (Y.offset s.0) (Y.offset_bound s.0) };

    ghost covered = { λ s. offset_list-covered (Y.offset s.0) (Y.offset_bound s.0) };

    ghost named = { λ s t. Y.named s.0 t };

    ghost equal_days = { λ s a b h k. kept-equal (Y.offset s.0) a.parts b.parts h k };

    ghost ordered_days = { λ s a b h k. ap Some (kept-ordered (Y.offset s.0) a.parts b.parts h k) };

    ghost refusal = { λ _ _ h. never_refused h };

    ghost compatible_itself = { λ _. refl };

    ghost compatible_back = { λ _ _ h. h };

    ghost compatible_on = { λ _ _ _ h k. k };

    ghost shared = { λ _ _ _ h k. k };

    ghost shared_day = { λ s t d h k. kept-shared (Y.offset s.0) (Y.offset t.0) d.parts };
}

impl<Y: GregorianYears> AsCalendar for AbstractGregorian<Y> {
    type Calendar = AbstractGregorian<Y>;

    ghost cal_of = { λ c. c };

    fn as_calendar(&self) -> &AbstractGregorian<Y> {
        self
    }
}
