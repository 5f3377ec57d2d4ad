//! The Julian calendar (Reingold and Dershowitz, Calendrical Calculations, chapter 3).

ghost use Rattle.std.specs.Prelude.{◌≡◌, ◌↔◌, ◌≤◌, IsTrue, neg_ℤ, pos};
ghost use Rattle.cal_days.specs.Day.{IsBetween, IsFieldYear, IsRuleYear, IsValidDay};
ghost use Rattle.cal_days.specs.Julian.{julian_leap};
ghost use Rattle.cal_types.specs.CalendarList.{date, day_number, IsDate, IsOn};
ghost use Rattle.cal_base.specs.GregorianList.{gregorian_month_length};
ghost use Rattle.cal_julian.specs.JulianEra.{julian_era_year};
ghost use Rattle.cal_julian.specs.JulianList.{julian_list};
ghost use Rattle.cal_julian.specs.JulianNames.{julian_reference_year};

use cal_arith::eras::year_in_common_era;
use cal_arith::{ArithmeticDate, DateFieldsResolver, Steps, YearShapes, Years};
use cal_base::gregorian_months::{
    days_from_march, days_in_month, in_march_year, month_and_day_from_march,
};
use cal_base::plain_months::{is_plain, plain_ordinal};
use cal_base::scaffold::UnstableSealed;
use cal_base::{Arithmetic, AsCalendar, Calendar, NamedYears, NumberedYear};
use cal_days::{RataDie, julian};
use cal_types::{
    CalendarAlgorithm, DateAddError, DateAddOptions, DateDifferenceOptions, DateDuration,
    DateFields, DateFromFieldsError, DateFromFieldsOptions, DateNewError, DayOfMonth, DayOfYear,
    EcmaReferenceYearError, EraYear, LeapStatus, Month, MonthError, MonthInfo, Overflow,
    TinyAsciiStr, UnknownEraError, YearAmbiguity, YearInput,
};
use std::convert::Infallible;
use std::sync::ledger::Ledger;

/// The Julian calendar, with astronomical year numbers: year 0 is 1 BCE.
///
/// It has the months of the Gregorian calendar. Every fourth year is a leap year, including centuries. It is
/// proleptic: the rule also applies to the years before 8 CE. Its eras are `ce` and `bce`, which may also be given as
/// `ad` and `bc`. The reference year of a day is 1972, or 1971 from December 19 on. CLDR has no algorithm for it.
#[derive(Clone, Copy, Debug, Default, PartialEq, Eq, PartialOrd, Ord, Hash)]
pub struct Julian;

impl Julian {
    /// Returns the Julian calendar.
    ///
    /// ```
    /// let date = Date::from_rata_die(RataDie::new(738946), Julian::new());
    /// assert!(rt; date.day_of_month().0 == 17); // of February
    /// ```
    pub fn new() -> Julian {
        Julian
    }
}

/// A date of the Julian calendar: its year, its ordinal month and its day of the month.
#[derive(Clone, Copy, Debug, PartialEq, Eq, PartialOrd, Ord, Hash)]
pub struct JulianDateInner(ArithmeticDate<Julian>);

/// Returns whether a year from -8000000 to 8000000 has 366 days.
fn is_leap(year: NumberedYear) -> bool
    requires { IsRuleYear year.number }
    ensures { IsTrue result ↔ IsTrue (julian_leap year.number) }
{
    julian::is_leap_year(year.number)
}

/// Returns the number of days in a month, 1 to 12. Only February depends on whether the year is a leap year.
fn days_in_month_of(year: NumberedYear, month: u8) -> u8
    requires year { IsRuleYear year.number }
    requires month { (1 ≤ month) × (month ≤ 12) }
    ensures { result ≡ gregorian_month_length (julian_leap year.number) month }
{
    days_in_month(month == 2 && is_leap(year), month)
}

/// Returns the day number of a date of a year from -8000000 to 8000000.
fn day_number(year: i32, month: u8, day: u8) -> i64
    requires year { IsRuleYear year }
    requires date { IsDate julian_list (date year month day) }
    ensures value { result ≡ day_number julian_list (date year month day) }
    ensures bound { IsBetween (neg_ℤ (pos 4000000000)) (pos 4000000000) result }
{
    let (march_year, march_month) = in_march_year(year, month);
    let before = days_from_march(march_month) + u16::from(day - 1);
    julian::march_start(march_year).to_i64_date() + i64::from(before)
}

/// Returns the year, the ordinal month and the day of the month of a valid day.
fn date_on(rd: RataDie) -> (i32, u8, u8)
    requires { IsValidDay rd }
    ensures on { IsOn julian_list rd (date result.0 result.1 result.2) }
    ensures year { IsBetween (neg_ℤ (pos 1000000)) (pos 1000000) result.0 }
{
    let (year, since_march) = julian::march_year_and_day_from_fixed(rd);
    let (month, day) = month_and_day_from_march(since_march);
    if month > 12 {
        (year + 1, month - 12, day)
    } else {
        (year, month, day)
    }
}

impl YearShapes for Julian {
    ghost use Rattle.std.specs.Prelude.{refl};
    ghost use Rattle.cal_julian.specs.JulianList.{julian_years};
    ghost use Rattle.cal_julian.specs.laws.JulianLaws.{julian_list-lawful, stored-extended, day_number-near, years-ranged, months-apart, days-covered};

    type YearInfo = NumberedYear;

    ghost years = { λ _. julian_years };

    fn year_counted<L: Ledger>(&self, extended_year: i32, steps: &mut Steps<L>) -> NumberedYear {
        steps.tick();
        NumberedYear {
            number: extended_year,
        }
    }

    fn extended_from_year_info(&self, year: NumberedYear) -> i32 {
        year.number
    }

    fn months_in_provided_year(&self, _year: NumberedYear) -> u8 {
        12
    }

    fn days_in_provided_month(&self, year: NumberedYear, month: u8) -> u8 {
        days_in_month_of(year, month)
    }

    fn to_rata_die_inner(&self, year: NumberedYear, month: u8, day: u8) -> RataDie {
        RataDie::new(day_number(year.number, month, day))
    }

    fn min_months_from(&self, _start: NumberedYear, count: i32) -> i32 {
        12 * count
    }

    fn months_by_number(&self, first: i32, last: i32) -> (i32, u32) {
        (last, 12 * (last - first) as u32)
    }

    fn ordinal_from_month(
        &self,
        _year: NumberedYear,
        month: Month,
        _overflow: Overflow,
    ) -> Result<u8, MonthError> {
        plain_ordinal(month, 12)
    }

    fn month_from_ordinal(&self, _year: NumberedYear, ordinal_month: u8) -> Month {
        Month::new(ordinal_month)
    }

    fn ordinal_in_other_year(
        &self,
        _year: NumberedYear,
        ordinal_month: u8,
        _other: NumberedYear,
        _overflow: Overflow,
    ) -> Option<u8> {
        Some(ordinal_month)
    }

    ghost numbered = { λ s y h. refl };

    ghost lawful = { λ s. julian_list-lawful };

    ghost equal = { λ a b. refl };

    ghost ordered = { λ a b. refl };

    ghost stored_from = { λ s y h. stored-extended y.number };

    ghost near = { λ s t. day_number-near t };

    ghost ranged = { λ s t. years-ranged t };

    ghost apart = { λ s t u. months-apart t u };

    ghost covered = { λ s t. days-covered t };
}

impl Years for Julian {
    fn year_info_from_extended(&self, extended_year: i32) -> NumberedYear {
        NumberedYear {
            number: extended_year,
        }
    }

    fn year_containing_rd(&self, rd: RataDie) -> NumberedYear {
        NumberedYear {
            number: julian::year_from_fixed(rd),
        }
    }

    fn year_month_day(&self, rd: RataDie) -> (NumberedYear, u8, u8) {
        let (extended_year, month, day) = date_on(rd);
        (
            NumberedYear {
                number: extended_year,
            },
            month,
            day,
        )
    }
}

/// Returns the reference year of a day of a month, 1 to 12: the latest year in which the day falls on or before
/// 1972-12-31 of the ISO calendar.
fn reference_year(month: u8, day: u8) -> i32
    ensures year { result ≡ julian_reference_year month day }
    ensures range { IsRuleYear result }
{
    if month == 12 && day >= 19 { 1971 } else { 1972 }
}

impl DateFieldsResolver for Julian {
    ghost use Rattle.cal_types.specs.PlainMonths.{is_plain_month};
    ghost use Rattle.cal_types.proofs.EraLemmas.{common_era_reads-in_range, common_era_reads-near};
    ghost use Rattle.cal_types.proofs.YearNameLemmas.{reference_of_known-stands, reference_of_known-tested};
    ghost use Rattle.cal_julian.specs.laws.JulianLaws.{julian_list-plain};
    ghost use Rattle.cal_julian.specs.JulianNames.{julian_names, julian_reference_year};

    ghost names = { λ _. julian_names };

    fn extended_year_from_era_year_unchecked(
        &self,
        era: &[u8],
        era_year: i32,
    ) -> Result<i32, UnknownEraError> {
        year_in_common_era(era, era_year)
    }

    fn reference_year_from_month_day(
        &self,
        month: Month,
        day: u8,
    ) -> Result<NumberedYear, EcmaReferenceYearError> {
        if is_plain(month, 12) {
            Ok(NumberedYear {
                number: reference_year(month.number(), day),
            })
        } else {
            Err(EcmaReferenceYearError::MonthNotInCalendar)
        }
    }

    ghost era_in_range = { λ _ era n y. common_era_reads-in_range era n y };

    ghost era_near = { λ _ era n y. common_era_reads-near era n y };

    ghost reference_of_kind = { λ _ m d. reference_of_known-tested (is_plain_month 12 m) _
        (julian_reference_year m.number d) (julian_list-plain.kind m) };

    ghost reference_of_leap_month = { λ _ m d e. reference_of_known-stands (is_plain_month 12 m)
        (julian_reference_year m.number d) e };
}

/// Returns the era year of an extended year from -1040000 to 1040000: in `ce`, or in `bce` before year 1 (CLDR, UTS
/// 35).
fn era_year(year: i32) -> EraYear
    requires { IsFieldYear year }
    ensures { result ≡ julian_era_year year }
{
    if year < 1 {
        EraYear {
            year: 1 - year,
            extended_year: year,
            era: TinyAsciiStr::of_text(b"bce"),
            era_index: Some(0),
            ambiguity: YearAmbiguity::EraAndCenturyRequired,
        }
    } else {
        EraYear {
            year,
            extended_year: year,
            era: TinyAsciiStr::of_text(b"ce"),
            era_index: Some(1),
            ambiguity: YearAmbiguity::CenturyRequired,
        }
    }
}

impl NamedYears for Julian {
    ghost use Rattle.std.specs.Prelude.{refl};
    ghost use Rattle.cal_types.specs.declared.year.YearInfo.TheVariants.{Era};
    ghost use Rattle.cal_base.specs.laws.Compatibility.{all_alike};
    ghost use Rattle.cal_days.specs.Julian.{julian_leap};
    ghost use Rattle.cal_julian.specs.JulianEra.{julian_era_year};
    ghost use Rattle.cal_julian.specs.laws.JulianLaws.{julian_year-named};

    type Year = EraYear;

    ghost is_leap_year = { λ _ y. julian_leap y };

    ghost year_named = { λ _ y. Era (julian_era_year y) };

    fn owns_year(&self, year: NumberedYear) -> bool {
        year.can_be_named()
    }

    fn is_leap(&self, year: NumberedYear) -> bool {
        is_leap(year)
    }

    fn named_year(&self, year: NumberedYear) -> EraYear {
        era_year(year.number)
    }

    fn shown_month(
        &self,
        _year: NumberedYear,
        _ordinal_month: u8,
        month: Month,
    ) -> (LeapStatus, Month) {
        (LeapStatus::Normal, month)
    }

    fn year_offset(&self) -> i32 {
        0
    }

    fn is_compatible(&self, _other: &Self) -> bool {
        true
    }

    ghost tested = { λ _ _. (λ _. refl, λ _. refl) };

    ghost named = { λ _ y. julian_year-named y };

    ghost alike = { all_alike };

    ghost shared = { λ _ _ _ _ given. record { given = given; start = refl; months = refl } };
}

impl UnstableSealed for Julian {}

impl Calendar for Julian {
    ghost use Rattle.std.specs.Prelude.{true, false, refl, codes, None};
    ghost use Rattle.cal_base.specs.laws.Compatibility.{never_refused};
    ghost use Rattle.cal_base.specs.laws.NumberedYears.{numbered_equal, numbered_ordered};
    ghost use Rattle.cal_julian.specs.JulianList.{julian_list};
    ghost use Rattle.cal_julian.specs.JulianSystem.{julian_system, julian_date, julian_belongs};
    ghost use Rattle.cal_julian.specs.laws.JulianLaws.{julian_list-lawful, years-ranged, days-covered};
    ghost use Rattle.cal_julian.specs.laws.JulianSystemLaws.{julian_belongs-dated, julian_year_info-named};

    type DateInner = JulianDateInner;

    type Year = EraYear;

    type DateCompatibilityError = Infallible;

    ghost system = { λ _. julian_system };

    ghost date_of = { λ _ d. julian_date d };

    ghost belongs = { λ _ d. julian_belongs d };

    ghost compatible = { λ _ _. true };

    ghost is_cheap = { λ _. false };

    ghost algorithm = { λ _. None };

    ghost name = { λ _. codes "Julian" };

    fn owns(&self, date: &JulianDateInner) -> bool {
        Arithmetic(*self).owns(&date.0)
    }

    fn new_date(
        &self,
        year: YearInput<'_>,
        month: Month,
        day: u8,
    ) -> Result<JulianDateInner, DateNewError> {
        Ok(JulianDateInner(Arithmetic(*self).new_date(year, month, day)?))
    }

    fn from_fields(
        &self,
        fields: DateFields<'_>,
        options: DateFromFieldsOptions,
    ) -> Result<JulianDateInner, DateFromFieldsError> {
        Ok(JulianDateInner(Arithmetic(*self).from_fields(fields, options)?))
    }

    fn has_cheap_iso_conversion(&self) -> bool {
        false
    }

    fn from_rata_die(&self, rd: RataDie) -> JulianDateInner {
        JulianDateInner(Arithmetic(*self).from_rata_die(rd))
    }

    fn to_rata_die(&self, date: &JulianDateInner) -> RataDie {
        Arithmetic(*self).to_rata_die(&date.0)
    }

    fn months_in_year(&self, date: &JulianDateInner) -> u8 {
        Arithmetic(*self).months_in_year(&date.0)
    }

    fn days_in_year(&self, date: &JulianDateInner) -> u16 {
        Arithmetic(*self).days_in_year(&date.0)
    }

    fn days_in_month(&self, date: &JulianDateInner) -> u8 {
        Arithmetic(*self).days_in_month(&date.0)
    }

    fn is_in_leap_year(&self, date: &JulianDateInner) -> bool {
        Arithmetic(*self).is_in_leap_year(&date.0)
    }

    fn year_info(&self, date: &JulianDateInner) -> EraYear {
        Arithmetic(*self).year_info(&date.0)
    }

    fn extended_year(&self, date: &JulianDateInner) -> i32 {
        Arithmetic(*self).extended_year(&date.0)
    }

    fn month(&self, date: &JulianDateInner) -> MonthInfo {
        Arithmetic(*self).month(&date.0)
    }

    fn day_of_month(&self, date: &JulianDateInner) -> DayOfMonth {
        Arithmetic(*self).day_of_month(&date.0)
    }

    fn day_of_year(&self, date: &JulianDateInner) -> DayOfYear {
        Arithmetic(*self).day_of_year(&date.0)
    }

    #[inline(always)]
    fn add(
        &self,
        date: &JulianDateInner,
        duration: DateDuration,
        options: DateAddOptions,
    ) -> Result<JulianDateInner, DateAddError> {
        Ok(JulianDateInner(Arithmetic(*self).add(&date.0, duration, options)?))
    }

    fn until(
        &self,
        date1: &JulianDateInner,
        date2: &JulianDateInner,
        options: DateDifferenceOptions,
    ) -> DateDuration {
        Arithmetic(*self).until(&date1.0, &date2.0, options)
    }

    fn until_counted<L: Ledger>(
        &self,
        date1: &JulianDateInner,
        date2: &JulianDateInner,
        options: DateDifferenceOptions,
        steps: &mut Steps<L>,
    ) -> DateDuration {
        Arithmetic(*self).until_counted(&date1.0, &date2.0, options, steps)
    }

    fn check_date_compatibility(&self, _other: &Self) -> Result<(), Infallible> {
        Ok(())
    }

    fn calendar_algorithm(&self) -> Option<CalendarAlgorithm> {
        None
    }

    fn debug_name(&self) -> &'static str {
        "Julian"
    }

    ghost lawful = { λ _. julian_list-lawful };

    ghost dated = { λ _ d h. julian_belongs-dated d h };

    ghost ranged = { λ _ t h. (years-ranged t h).0 };

    ghost shifted = { λ _ t h. (years-ranged t h).1 };

    ghost covered = { λ _ t. days-covered t };

    ghost named = { λ _ t. julian_year_info-named t };

    ghost equal_days = { λ _ a b h k. numbered_equal julian_list _ _ h k };

    ghost ordered_days = { λ _ a b h k. numbered_ordered julian_list _ _ h k };

    ghost refusal = { λ _ _ h. never_refused h };

    ghost compatible_itself = { λ _. refl };

    ghost compatible_back = { λ _ _ h. h };

    ghost compatible_on = { λ _ _ _ h k. k };

    ghost shared = { λ _ _ _ h k. k };

    ghost shared_day = { λ _ _ _ h k. refl };
}

impl AsCalendar for Julian {
    type Calendar = Julian;

    ghost cal_of = { λ c. c };

    fn as_calendar(&self) -> &Julian {
        self
    }
}
