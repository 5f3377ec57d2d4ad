//! The calendar of any years that implement [`NamedYears`]: every call is made from the arithmetic of dates.

ghost use Rattle.std.specs.Prelude.{◌≡◌, IsTrue};
ghost use Rattle.cal_arith.specs.Dates.{Belongs};
ghost use Rattle.cal_base.specs.OwnYears.{IsOwnYear, is_own_date};

use crate::calendar::{AsCalendar, Calendar};
use crate::named_years::NamedYears;
use crate::scaffold::UnstableSealed;
use cal_arith::{ArithmeticDate, Steps};
use cal_days::RataDie;
use cal_types::{
    CalendarAlgorithm, DateAddError, DateAddOptions, DateDifferenceOptions, DateDuration,
    DateFields, DateFromFieldsError, DateFromFieldsOptions, DateNewError, DayOfMonth, DayOfYear,
    Month, MonthInfo, YearInput,
};
use std::sync::ledger::Ledger;

/// The calendar with the years of `C`.
///
/// Calendars delegate their calls to it, except for the algorithm, the name and the compatibility error. Here these
/// are `None`, `Arithmetic` and [`Incompatible`].
#[derive(Clone, Copy, Debug)]
pub struct Arithmetic<C>(pub C);

/// The error for two calendars whose dates can't be compared.
#[derive(Clone, Copy, Debug, PartialEq, Eq)]
pub struct Incompatible;

/// Returns a copy of a date that is one of the calendar's own.
fn own_date<C: NamedYears>(date: &ArithmeticDate<C>, cal: &C) -> ArithmeticDate<C>
    requires { IsTrue (is_own_date (C.years cal.now) (C.has_year cal.now) date.now.parts) }
    ensures same { result ≡ date.now }
    ensures belongs { Belongs (C.years cal.now) result.parts }
    ensures year { IsOwnYear (C.years cal.now) result.parts.year }
{
    copy_of(date)
}

/// Returns a copy of a value.
fn copy_of<T: Copy>(value: &T) -> T
    ensures { result ≡ value.now }
{
    *value
}

impl<C: NamedYears> UnstableSealed for Arithmetic<C> {}

impl<C: NamedYears> Calendar for Arithmetic<C> {
    ghost use Rattle.std.specs.Prelude.{Some, None, codes, false};
    ghost use Rattle.std.proofs.Common.{ap, sym, ◌∙◌};
    ghost use Rattle.cal_arith.specs.Dates.{date_of as date_in};
    ghost use Rattle.cal_base.specs.OwnYears.{own_system};
    ghost use Rattle.cal_base.specs.laws.OwnYearLaws.{own_dated, own_year, own_shared, shared_day, days_equal, days_ordered};

    type DateInner = ArithmeticDate<C>;

    type Year = C::Year;

    type DateCompatibilityError = Incompatible;

    ghost system = { λ s. own_system (C.years s.0) (C.names s.0) (C.is_leap_year s.0) (C.year_named s.0)
        (C.leap_status s.0) (C.formatted_month s.0) };

    ghost date_of = { λ s d. date_in (C.years s.0) d.parts };

    ghost belongs = { λ s d. is_own_date (C.years s.0) (C.has_year s.0) d.parts };

    ghost compatible = { λ s t. C.compatible s.0 t.0 };

    ghost is_cheap = { λ _. false };

    ghost algorithm = { λ _. None };

    ghost name = { λ _. codes "Arithmetic" };

    fn owns(&self, date: &ArithmeticDate<C>) -> bool {
        self.0.owns_year(copy_of(date).year()) && copy_of(date).is_date_of(&self.0)
    }

    fn new_date(
        &self,
        year: YearInput<'_>,
        month: Month,
        day: u8,
    ) -> Result<ArithmeticDate<C>, DateNewError> {
        ArithmeticDate::<C>::from_input_year_month_code_day(year, month, day, &self.0)
    }

    fn from_fields(
        &self,
        fields: DateFields<'_>,
        options: DateFromFieldsOptions,
    ) -> Result<ArithmeticDate<C>, DateFromFieldsError> {
        ArithmeticDate::<C>::from_fields(fields, options, &self.0)
    }

    fn has_cheap_iso_conversion(&self) -> bool {
        false
    }

    fn from_rata_die(&self, rd: RataDie) -> ArithmeticDate<C> {
        ArithmeticDate::<C>::from_rata_die(rd, &self.0)
    }

    fn to_rata_die(&self, date: &ArithmeticDate<C>) -> RataDie {
        own_date(date, &self.0).to_rata_die(&self.0)
    }

    fn months_in_year(&self, date: &ArithmeticDate<C>) -> u8 {
        own_date(date, &self.0).months_in_year(&self.0)
    }

    fn days_in_year(&self, date: &ArithmeticDate<C>) -> u16 {
        own_date(date, &self.0).days_in_year(&self.0)
    }

    fn days_in_month(&self, date: &ArithmeticDate<C>) -> u8 {
        own_date(date, &self.0).days_in_month(&self.0)
    }

    fn is_in_leap_year(&self, date: &ArithmeticDate<C>) -> bool {
        self.0.is_leap(own_date(date, &self.0).year())
    }

    fn year_info(&self, date: &ArithmeticDate<C>) -> C::Year {
        self.0.named_year(own_date(date, &self.0).year())
    }

    fn extended_year(&self, date: &ArithmeticDate<C>) -> i32 {
        own_date(date, &self.0).extended_year(&self.0)
    }

    fn month(&self, date: &ArithmeticDate<C>) -> MonthInfo {
        let year = own_date(date, &self.0).year();
        let place = own_date(date, &self.0).month();
        let month = own_date(date, &self.0).month_in_calendar(&self.0);
        let (status, formatted) = self.0.shown_month(year, place, month);
        MonthInfo::new(place, month, status, formatted)
    }

    fn day_of_month(&self, date: &ArithmeticDate<C>) -> DayOfMonth {
        DayOfMonth(own_date(date, &self.0).day())
    }

    fn day_of_year(&self, date: &ArithmeticDate<C>) -> DayOfYear {
        DayOfYear(own_date(date, &self.0).day_of_year(&self.0))
    }

    #[inline(always)]
    fn add(
        &self,
        date: &ArithmeticDate<C>,
        duration: DateDuration,
        options: DateAddOptions,
    ) -> Result<ArithmeticDate<C>, DateAddError> {
        own_date(date, &self.0).added_shifted(duration, &self.0, options, self.0.year_offset())
    }

    fn until(
        &self,
        date1: &ArithmeticDate<C>,
        date2: &ArithmeticDate<C>,
        options: DateDifferenceOptions,
    ) -> DateDuration {
        own_date(date1, &self.0).until(&own_date(date2, &self.0), &self.0, options)
    }

    fn until_counted<L: Ledger>(
        &self,
        date1: &ArithmeticDate<C>,
        date2: &ArithmeticDate<C>,
        options: DateDifferenceOptions,
        steps: &mut Steps<L>,
    ) -> DateDuration {
        own_date(date1, &self.0).until_counted(&own_date(date2, &self.0), &self.0, options, steps)
    }

    fn check_date_compatibility(&self, other: &Self) -> Result<(), Incompatible> {
        if self.0.is_compatible(&other.0) {
            Ok(())
        } else {
            Err(Incompatible)
        }
    }

    fn calendar_algorithm(&self) -> Option<CalendarAlgorithm> {
        None
    }

    fn debug_name(&self) -> &'static str {
        "Arithmetic"
    }

    ghost lawful = { λ s. C.lawful s.0 };

    ghost dated = { λ s d. own_dated (C.years s.0) (C.ranged s.0) (C.has_year s.0) (C.tested s.0)
        d.parts };

    ghost ranged = { λ s t h. (C.ranged s.0 t h).0 };

    ghost shifted = { λ s t h. (C.ranged s.0 t h).1 };

    ghost covered = { λ s. C.covered s.0 };

    ghost named = { λ s t. C.named s.0 t.year };

    ghost equal_days = { λ s a b h k. days_equal (C.years s.0) (C.ranged s.0) (C.has_year s.0) (C.tested s.0)
        C.YearInfo.stored (C.stored_from s.0) a.parts b.parts h k C.YearInfo.eq C.equal };

    ghost ordered_days = { λ s a b h k. ap Some
        (days_ordered (C.years s.0) (C.ranged s.0) (C.has_year s.0) (C.tested s.0)
        C.YearInfo.stored (C.stored_from s.0) a.parts b.parts h k C.YearInfo.cmp C.ordered) };

    ghost refusal = { λ _ _ _. record {} };

    ghost compatible_itself = { λ s. C.alike.refl s.0 };

    ghost compatible_back = { λ s t h. sym (C.alike.symm s.0 t.0) ∙ h };

    ghost compatible_on = { λ s t u h k. C.alike.congr s.0 t.0 u.0 h ∙ k };

    ghost shared = { λ s t d h k.
        let parts = d.parts in
        let own = own_year (C.years s.0) (C.ranged s.0) (C.has_year s.0) (C.tested s.0) parts k in
        own_shared (C.years s.0) (C.years t.0) parts (C.shared s.0 t.0 parts.year h own.given)
        (C.has_year s.0) (C.has_year t.0) (C.tested t.0 parts.year) k };

    ghost shared_day = { λ s t d h k.
        let parts = d.parts in
        let own = own_year (C.years s.0) (C.ranged s.0) (C.has_year s.0) (C.tested s.0) parts k in
        shared_day (C.years s.0) (C.years t.0) parts (C.shared s.0 t.0 parts.year h own.given) };
}

impl<C: NamedYears> AsCalendar for Arithmetic<C> {
    type Calendar = Arithmetic<C>;

    ghost cal_of = { λ c. c };

    fn as_calendar(&self) -> &Arithmetic<C> {
        self
    }
}
