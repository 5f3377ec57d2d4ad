//! The Ethiopian calendar (Reingold and Dershowitz, Calendrical Calculations, chapter 4).

ghost use Rattle.std.specs.Prelude.{◌≡◌};
ghost use Rattle.cal_days.specs.Day.{IsFieldYear};
ghost use Rattle.cal_types.specs.RenumberedBounds.{IsShift};
ghost use Rattle.cal_arith.specs.FieldNames.{era_read};
ghost use Rattle.cal_coptic.specs.EthiopianEra.{ethiopian_era_year, world_era_year};
ghost use Rattle.cal_coptic.specs.EthiopianList.{coptic_offset, is_same_style};
ghost use Rattle.cal_coptic.specs.EthiopianNames.{incarnation_reads};

use crate::coptic_year::{
    can_be_named_from, coptic_date, day_number, days_in_month, is_leap, month_and_day,
    reference_year,
};
use cal_arith::eras::year_in_only_era;
use cal_arith::{ArithmeticDate, DateFieldsResolver, Steps, YearShapes, Years};
use cal_base::plain_months::{is_plain, plain_ordinal};
use cal_base::scaffold::UnstableSealed;
use cal_base::{Arithmetic, AsCalendar, Calendar, NamedYears, NumberedYear};
use cal_days::{RataDie, coptic};
use cal_types::{
    CalendarAlgorithm, DateAddError, DateAddOptions, DateDifferenceOptions, DateDuration,
    DateFields, DateFromFieldsError, DateFromFieldsOptions, DateNewError, DayOfMonth, DayOfYear,
    EcmaReferenceYearError, EraYear, LeapStatus, Month, MonthError, MonthInfo, Overflow,
    TinyAsciiStr, UnknownEraError, YearAmbiguity, YearInput,
};
use std::convert::Infallible;
use std::sync::ledger::Ledger;

/// The era style: the era from which the Ethiopian calendar counts its years.
#[derive(Clone, Copy, Debug, PartialEq, Eq, PartialOrd, Ord, Hash)]
pub enum EthiopianEraStyle {
    /// The Incarnation Era, whose code is `am`. The years before it are in the Era of the World.
    AmeteMihret,
    /// The Era of the World, whose code is `aa` and which begins 5500 years earlier.
    AmeteAlem,
}

/// The Ethiopian calendar, in one of two era styles.
///
/// It has the months, the leap years and the reference years of the Coptic calendar. In the style Amete Mihret,
/// extended year 1 is the first year of the Incarnation Era (`am`), and the years before it are in the Era of the
/// World (`aa`). Years may be given in both eras. In the style Amete Alem, every year is in `aa`. Dates of the two
/// styles can be compared. CLDR's names for the styles are `ethiopic` and `ethioaa`.
#[derive(Clone, Copy, Debug, PartialEq, Eq, PartialOrd, Ord, Hash)]
pub struct Ethiopian {
    era_style: EthiopianEraStyle,
}

/// A date of the Ethiopian calendar: its Coptic year, its ordinal month and its day of the month.
#[derive(Clone, Copy, Debug, PartialEq, Eq, PartialOrd, Ord, Hash)]
pub struct EthiopianDateInner(ArithmeticDate<Ethiopian>);

impl EthiopianEraStyle {
    /// Returns the Coptic year minus the extended year.
    fn coptic_offset(self) -> i32
        ensures value { result ≡ coptic_offset self }
        ensures range { IsShift result }
    {
        match self {
            EthiopianEraStyle::AmeteMihret => -276,
            EthiopianEraStyle::AmeteAlem => -5776,
        }
    }

    /// Returns whether two styles are equal.
    fn is_same_as(self, other: EthiopianEraStyle) -> bool
        ensures { result ≡ is_same_style self other }
    {
        self == other
    }
}

impl Ethiopian {
    /// Returns the Ethiopian calendar in the style Amete Mihret.
    ///
    /// ```
    /// let date = Date::from_rata_die(RataDie::new(738946), Ethiopian::new());
    /// assert!(rt; date.era_year().year == 2016);
    /// ```
    pub fn new() -> Ethiopian
        ensures { result.era_style ≡ EthiopianEraStyle.AmeteMihret }
    {
        Ethiopian::new_with_era_style(EthiopianEraStyle::AmeteMihret)
    }

    /// Returns the Ethiopian calendar in a style.
    ///
    /// ```
    /// let style = EthiopianEraStyle::AmeteAlem;
    /// let date = Date::from_rata_die(RataDie::new(738946), Ethiopian::new_with_era_style(style));
    /// assert!(rt; date.era_year().year == 7516);
    /// ```
    pub fn new_with_era_style(era_style: EthiopianEraStyle) -> Ethiopian
        ensures { result.era_style ≡ era_style }
    {
        Ethiopian { era_style }
    }

    /// Returns the style of the calendar.
    ///
    /// ```
    /// let ethiopian = Ethiopian::new_with_era_style(EthiopianEraStyle::AmeteAlem);
    /// assert!(rt; ethiopian.era_style() == EthiopianEraStyle::AmeteAlem);
    /// ```
    pub fn era_style(&self) -> EthiopianEraStyle
        ensures { result ≡ self.now.era_style }
    {
        self.era_style
    }
}

/// The default is the style Amete Mihret.
impl Default for Ethiopian {
    ghost use Rattle.cal_coptic.specs.declared.ethiopian.EthiopianEraStyle.TheVariants.{AmeteMihret};

    ghost is_default = { λ c. c.era_style ≡ AmeteMihret };

    fn default() -> Ethiopian {
        Ethiopian::new()
    }
}

impl YearShapes for Ethiopian {
    ghost use Rattle.std.specs.Prelude.{refl};
    ghost use Rattle.cal_types.proofs.RenumberedBoundLemmas.{near-renumbered, ranged-renumbered, apart-renumbered, covered-renumbered};
    ghost use Rattle.cal_coptic.specs.CopticList.{coptic_list};
    ghost use Rattle.cal_coptic.specs.laws.CopticLaws.{coptic_list-bounded};
    ghost use Rattle.cal_types.proofs.CountedDateLemmas.{counted_year, stored_year};
    ghost use Rattle.cal_coptic.specs.EthiopianList.{coptic_offset, ethiopian_years};
    ghost use Rattle.cal_coptic.specs.laws.EthiopianLaws.{coptic_offset-small, ethiopian_list-lawful};

    type YearInfo = NumberedYear;

    ghost years = { λ s. ethiopian_years (coptic_offset s.era_style) };

    fn year_counted<L: Ledger>(&self, extended_year: i32, steps: &mut Steps<L>) -> NumberedYear {
        steps.tick();
        self.year_info_from_extended(extended_year)
    }

    fn extended_from_year_info(&self, year: NumberedYear) -> i32 {
        year.number - self.era_style.coptic_offset()
    }

    fn months_in_provided_year(&self, _year: NumberedYear) -> u8 {
        13
    }

    fn days_in_provided_month(&self, year: NumberedYear, month: u8) -> u8 {
        days_in_month(year, month)
    }

    fn to_rata_die_inner(&self, year: NumberedYear, month: u8, day: u8) -> RataDie {
        day_number(year, month, day)
    }

    fn min_months_from(&self, _start: NumberedYear, count: i32) -> i32 {
        13 * count
    }

    fn months_by_number(&self, first: i32, last: i32) -> (i32, u32) {
        (last, 13 * (last - first) as u32)
    }

    fn ordinal_from_month(
        &self,
        _year: NumberedYear,
        month: Month,
        _overflow: Overflow,
    ) -> Result<u8, MonthError> {
        plain_ordinal(month, 13)
    }

    fn month_from_ordinal(&self, _year: NumberedYear, ordinal_month: u8) -> Month {
        Month::new(ordinal_month)
    }

    ghost numbered = { λ s y h. counted_year (coptic_offset s.era_style) y };

    ghost lawful = { λ s. ethiopian_list-lawful (coptic_offset s.era_style) };

    ghost equal = { λ a b. refl };

    ghost ordered = { λ a b. refl };

    ghost stored_from = { λ s y h. stored_year (coptic_offset s.era_style) y.number };

    ghost near = { λ s. near-renumbered (coptic_offset s.era_style) (coptic_offset-small s.era_style)
        coptic_list coptic_list-bounded };

    ghost ranged = { λ s. ranged-renumbered (coptic_offset s.era_style) (coptic_offset-small s.era_style)
        coptic_list coptic_list-bounded };

    ghost apart = { λ s. apart-renumbered (coptic_offset s.era_style) (coptic_offset-small s.era_style)
        coptic_list coptic_list-bounded };

    ghost covered = { λ s. covered-renumbered (coptic_offset s.era_style) (coptic_offset-small s.era_style)
        coptic_list coptic_list-bounded };
}

impl Years for Ethiopian {
    fn year_info_from_extended(&self, extended_year: i32) -> NumberedYear {
        NumberedYear {
            number: extended_year + self.era_style.coptic_offset(),
        }
    }

    fn year_containing_rd(&self, rd: RataDie) -> NumberedYear {
        NumberedYear {
            number: coptic::year_from_fixed(rd),
        }
    }

    fn year_month_day(&self, rd: RataDie) -> (NumberedYear, u8, u8) {
        coptic_date(rd)
    }

    fn month_and_day(&self, _year: NumberedYear, day_of_year: u16) -> (u8, u8) {
        month_and_day(day_of_year)
    }

    fn estimated_years(&self, _from: NumberedYear, months: u32) -> u32 {
        months / 13
    }
}

/// Returns the extended year, counted from the Incarnation Era, of an era year, -1040000 to 1040000, in the
/// Incarnation Era (`am`) or the Era of the World (`aa`).
///
/// # Errors
///
/// - [`UnknownEraError`] if the code is neither `am` nor `aa`.
fn year_from_incarnation(era: &[u8], year: i32) -> Result<i32, UnknownEraError>
    requires { IsFieldYear year }
    ensures { result ≡ era_read (incarnation_reads era.now year) }
{
    if era == b"am".as_slice() {
        Ok(year)
    } else if era == b"aa".as_slice() {
        Ok(year - 5500)
    } else {
        Err(UnknownEraError)
    }
}

impl DateFieldsResolver for Ethiopian {
    ghost use Rattle.std.specs.Prelude.{◌-ℤ◌};
    ghost use Rattle.cal_types.specs.PlainMonths.{is_plain_month};
    ghost use Rattle.cal_types.proofs.YearNameLemmas.{reference_of_known-stands, reference_of_known-tested};
    ghost use Rattle.cal_coptic.specs.CopticNames.{coptic_reference_year};
    ghost use Rattle.cal_coptic.specs.EthiopianList.{coptic_offset};
    ghost use Rattle.cal_coptic.specs.EthiopianNames.{ethiopian_names};
    ghost use Rattle.cal_coptic.specs.laws.EthiopianLaws.{ethiopian_list-plain, ethiopian_reads-near, ethiopian_reads-in_range};

    ghost names = { λ s. ethiopian_names s.era_style };

    fn extended_year_from_era_year_unchecked(
        &self,
        era: &[u8],
        era_year: i32,
    ) -> Result<i32, UnknownEraError> {
        match self.era_style {
            EthiopianEraStyle::AmeteMihret => year_from_incarnation(era, era_year),
            EthiopianEraStyle::AmeteAlem => year_in_only_era(b"aa", era, era_year),
        }
    }

    fn reference_year_from_month_day(
        &self,
        month: Month,
        day: u8,
    ) -> Result<NumberedYear, EcmaReferenceYearError> {
        if is_plain(month, 13) {
            Ok(reference_year(month.number(), day))
        } else {
            Err(EcmaReferenceYearError::MonthNotInCalendar)
        }
    }

    ghost era_in_range = { λ s era n y. ethiopian_reads-in_range s.era_style era n y };

    ghost era_near = { λ s era n y. ethiopian_reads-near s.era_style era n y };

    ghost reference_of_kind = { λ s m d. reference_of_known-tested (is_plain_month 13 m) _
        (coptic_reference_year m.number d -ℤ coptic_offset s.era_style)
        ((ethiopian_list-plain (coptic_offset s.era_style)).kind m) };

    ghost reference_of_leap_month = { λ s m d e. reference_of_known-stands (is_plain_month 13 m)
        (coptic_reference_year m.number d -ℤ coptic_offset s.era_style) e };
}

/// Returns a year of the Era of the World, with its extended year.
fn world_year(year: i32, extended_year: i32) -> EraYear
    ensures { result ≡ world_era_year year extended_year }
{
    EraYear {
        year,
        extended_year,
        era: TinyAsciiStr::of_text(b"aa"),
        era_index: Some(0),
        ambiguity: YearAmbiguity::CenturyRequired,
    }
}

/// Returns the era year of an extended year from -1040000 to 1040000.
fn era_year(style: EthiopianEraStyle, year: i32) -> EraYear
    requires { IsFieldYear year }
    ensures { result ≡ ethiopian_era_year style year }
{
    match style {
        EthiopianEraStyle::AmeteMihret if year < 1 => world_year(year + 5500, year),
        EthiopianEraStyle::AmeteMihret => EraYear {
            year,
            extended_year: year,
            era: TinyAsciiStr::of_text(b"am"),
            era_index: Some(1),
            ambiguity: YearAmbiguity::CenturyRequired,
        },
        EthiopianEraStyle::AmeteAlem => world_year(year, year),
    }
}

impl NamedYears for Ethiopian {
    ghost use Rattle.std.specs.Prelude.{◌+ℤ◌};
    ghost use Rattle.cal_types.specs.declared.year.YearInfo.TheVariants.{Era};
    ghost use Rattle.cal_days.specs.Coptic.{coptic_leap};
    ghost use Rattle.cal_coptic.specs.EthiopianEra.{ethiopian_era_year};
    ghost use Rattle.cal_coptic.specs.EthiopianList.{coptic_offset, is_same_style};
    ghost use Rattle.cal_coptic.specs.laws.EthiopianLaws.{ethiopian_year-named, is_year-of_both, style_years-shared, styles_alike};

    type Year = EraYear;

    ghost is_leap_year = { λ s y. coptic_leap (y +ℤ coptic_offset s.era_style) };

    ghost year_named = { λ s y. Era (ethiopian_era_year s.era_style y) };

    // Years of equal styles have the same extended years. Further below, dates of both styles can be compared.
    ghost compatible = { λ s t. is_same_style s.era_style t.era_style };

    fn owns_year(&self, year: NumberedYear) -> bool {
        can_be_named_from(year, self.era_style.coptic_offset())
    }

    fn is_leap(&self, year: NumberedYear) -> bool {
        is_leap(year)
    }

    fn named_year(&self, year: NumberedYear) -> EraYear {
        era_year(self.era_style, self.extended_from_year_info(year))
    }

    fn shown_month(
        &self,
        _year: NumberedYear,
        _ordinal_month: u8,
        month: Month,
    ) -> (LeapStatus, Month) {
        (LeapStatus::Normal, month)
    }

    fn year_offset(&self) -> i32 {
        self.era_style.coptic_offset()
    }

    fn is_compatible(&self, other: &Self) -> bool {
        self.era_style.is_same_as(other.era_style)
    }

    ghost tested = { λ s y. is_year-of_both (coptic_offset s.era_style) y };

    ghost named = { λ s y. ethiopian_year-named s.era_style y };

    ghost alike = { styles_alike };

    ghost shared = { λ s t y h given. style_years-shared s.era_style t.era_style y h given };
}

impl UnstableSealed for Ethiopian {}

impl Calendar for Ethiopian {
    ghost use Rattle.std.specs.Prelude.{false, true, refl, Some};
    ghost use Rattle.cal_base.specs.laws.Compatibility.{never_refused};
    ghost use Rattle.cal_coptic.specs.EthiopianList.{coptic_offset};
    ghost use Rattle.cal_coptic.specs.laws.EthiopianLaws.{ethiopian_list-lawful, ethiopian_year-named, coptic_offset-small};
    ghost use Rattle.cal_coptic.specs.EthiopianSystem.{ethiopian_algorithm, ethiopian_belongs, ethiopian_date, ethiopian_name, ethiopian_system};
    ghost use Rattle.cal_coptic.specs.laws.EthiopianSystemLaws.{ethiopian_belongs-dated, ethiopian_belongs-shared, ethiopian_dates-equal, ethiopian_dates-ordered, ethiopian_day-shared};
    ghost use Rattle.cal_types.proofs.RenumberedBoundLemmas.{ranged-renumbered, covered-renumbered};
    ghost use Rattle.cal_coptic.specs.CopticList.{coptic_list};
    ghost use Rattle.cal_coptic.specs.laws.CopticLaws.{coptic_list-bounded};

    type DateInner = EthiopianDateInner;

    type Year = EraYear;

    type DateCompatibilityError = Infallible;

    ghost system = { λ s. ethiopian_system s.era_style };

    ghost date_of = { λ s d. ethiopian_date s.era_style d };

    ghost belongs = { λ s d. ethiopian_belongs s.era_style d };

    ghost compatible = { λ _ _. true };

    ghost is_cheap = { λ _. false };

    ghost algorithm = { λ s. Some (ethiopian_algorithm s.era_style) };

    ghost name = { λ s. ethiopian_name s.era_style };

    fn owns(&self, date: &EthiopianDateInner) -> bool {
        Arithmetic(*self).owns(&date.0)
    }

    fn new_date(
        &self,
        year: YearInput<'_>,
        month: Month,
        day: u8,
    ) -> Result<EthiopianDateInner, DateNewError> {
        Ok(EthiopianDateInner(Arithmetic(*self).new_date(year, month, day)?))
    }

    fn from_fields(
        &self,
        fields: DateFields<'_>,
        options: DateFromFieldsOptions,
    ) -> Result<EthiopianDateInner, DateFromFieldsError> {
        Ok(EthiopianDateInner(Arithmetic(*self).from_fields(fields, options)?))
    }

    fn has_cheap_iso_conversion(&self) -> bool {
        false
    }

    fn from_rata_die(&self, rd: RataDie) -> EthiopianDateInner {
        EthiopianDateInner(Arithmetic(*self).from_rata_die(rd))
    }

    fn to_rata_die(&self, date: &EthiopianDateInner) -> RataDie {
        Arithmetic(*self).to_rata_die(&date.0)
    }

    fn months_in_year(&self, date: &EthiopianDateInner) -> u8 {
        Arithmetic(*self).months_in_year(&date.0)
    }

    fn days_in_year(&self, date: &EthiopianDateInner) -> u16 {
        Arithmetic(*self).days_in_year(&date.0)
    }

    fn days_in_month(&self, date: &EthiopianDateInner) -> u8 {
        Arithmetic(*self).days_in_month(&date.0)
    }

    fn is_in_leap_year(&self, date: &EthiopianDateInner) -> bool {
        Arithmetic(*self).is_in_leap_year(&date.0)
    }

    fn year_info(&self, date: &EthiopianDateInner) -> EraYear {
        Arithmetic(*self).year_info(&date.0)
    }

    fn extended_year(&self, date: &EthiopianDateInner) -> i32 {
        Arithmetic(*self).extended_year(&date.0)
    }

    fn month(&self, date: &EthiopianDateInner) -> MonthInfo {
        Arithmetic(*self).month(&date.0)
    }

    fn day_of_month(&self, date: &EthiopianDateInner) -> DayOfMonth {
        Arithmetic(*self).day_of_month(&date.0)
    }

    fn day_of_year(&self, date: &EthiopianDateInner) -> DayOfYear {
        Arithmetic(*self).day_of_year(&date.0)
    }

    #[inline(always)]
    fn add(
        &self,
        date: &EthiopianDateInner,
        duration: DateDuration,
        options: DateAddOptions,
    ) -> Result<EthiopianDateInner, DateAddError> {
        Ok(EthiopianDateInner(Arithmetic(*self).add(&date.0, duration, options)?))
    }

    fn until(
        &self,
        date1: &EthiopianDateInner,
        date2: &EthiopianDateInner,
        options: DateDifferenceOptions,
    ) -> DateDuration {
        Arithmetic(*self).until(&date1.0, &date2.0, options)
    }

    fn until_counted<L: Ledger>(
        &self,
        date1: &EthiopianDateInner,
        date2: &EthiopianDateInner,
        options: DateDifferenceOptions,
        steps: &mut Steps<L>,
    ) -> DateDuration {
        Arithmetic(*self).until_counted(&date1.0, &date2.0, options, steps)
    }

    fn check_date_compatibility(&self, _other: &Self) -> Result<(), Infallible> {
        Ok(())
    }

    fn calendar_algorithm(&self) -> Option<CalendarAlgorithm> {
        match self.era_style {
            EthiopianEraStyle::AmeteMihret => Some(CalendarAlgorithm::Ethiopic),
            EthiopianEraStyle::AmeteAlem => Some(CalendarAlgorithm::Ethioaa),
        }
    }

    fn debug_name(&self) -> &'static str {
        match self.era_style {
            EthiopianEraStyle::AmeteMihret => "Ethiopian",
            EthiopianEraStyle::AmeteAlem => "Ethiopian (Amete Alem)",
        }
    }

    ghost lawful = { λ s. ethiopian_list-lawful (coptic_offset s.era_style) };

    ghost dated = { λ s d h. ethiopian_belongs-dated s.era_style d h };

    ghost ranged = { λ s t h. (ranged-renumbered (coptic_offset s.era_style) (coptic_offset-small s.era_style)
        coptic_list coptic_list-bounded t h).0 };

    ghost shifted = { λ s t h. (ranged-renumbered (coptic_offset s.era_style) (coptic_offset-small s.era_style)
        coptic_list coptic_list-bounded t h).1 };

    ghost covered = { λ s. covered-renumbered (coptic_offset s.era_style) (coptic_offset-small s.era_style)
        coptic_list coptic_list-bounded };

    ghost named = { λ s t. ethiopian_year-named s.era_style t.year };

    ghost equal_days = { λ s a b h k. ethiopian_dates-equal s.era_style a b h k };

    ghost ordered_days = { λ s a b h k. ethiopian_dates-ordered s.era_style a b h k };

    ghost refusal = { λ _ _ h. never_refused h };

    ghost compatible_itself = { λ _. refl };

    ghost compatible_back = { λ _ _ h. h };

    ghost compatible_on = { λ _ _ _ h k. k };

    ghost shared = { λ s t d h k. ethiopian_belongs-shared s.era_style t.era_style d k };

    ghost shared_day = { λ s t d h k. ethiopian_day-shared s.era_style t.era_style d };
}

impl AsCalendar for Ethiopian {
    type Calendar = Ethiopian;

    ghost cal_of = { λ c. c };

    fn as_calendar(&self) -> &Ethiopian {
        self
    }
}
