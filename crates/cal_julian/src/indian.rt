//! The Indian national calendar.
//!
//! Source: the report of India's Calendar Reform Committee (1955), and CLDR (UTS 35) for its era.

ghost use Rattle.std.specs.Prelude.{◌≡◌, ◌+◌, ◌-◌, ◌<◌, ◌≤◌, ◌↔◌, IsTrue, true, if◌then◌else◌, nat_le, neg_ℤ, pos, ◌+ℤ◌, ◌-ℤ◌};
ghost use Rattle.cal_days.specs.Day.{IsBetween, IsRuleYear, IsValidDay};
ghost use Rattle.cal_days.specs.Gregorian.{first_of_march, gregorian_leap};
ghost use Rattle.cal_types.specs.CalendarList.{date, day_number, IsDate, IsOn};
ghost use Rattle.cal_julian.specs.IndianList.{indian_leap, indian_list, indian_month_length, vaisakha_days_before, vaisakha_month};
ghost use Rattle.cal_julian.specs.IndianNames.{indian_reference_year};

use crate::long_months::months_and_day;
use cal_arith::eras::year_in_only_era;
use cal_arith::{ArithmeticDate, DateFieldsResolver, Steps, YearShapes, Years};
use cal_base::plain_months::{is_plain, plain_ordinal};
use cal_base::scaffold::UnstableSealed;
use cal_base::{Arithmetic, AsCalendar, Calendar, NamedYears, NumberedYear};
use cal_days::{RataDie, gregorian};
use cal_types::{
    CalendarAlgorithm, DateAddError, DateAddOptions, DateDifferenceOptions, DateDuration,
    DateFields, DateFromFieldsError, DateFromFieldsOptions, DateNewError, DayOfMonth, DayOfYear,
    EcmaReferenceYearError, EraYear, LeapStatus, Month, MonthError, MonthInfo, Overflow,
    TinyAsciiStr, UnknownEraError, YearAmbiguity, YearInput,
};
use std::convert::Infallible;
use std::sync::ledger::Ledger;

/// The Gregorian year in which a year begins, minus the extended year.
const YEARS_BEHIND: i32 = 78;

/// The number of days from March 1 to April 21, on which month 2, Vaisakha, begins in every year.
const VAISAKHA_AFTER_MARCH: u16 = 51;

/// The Indian national calendar, in the Saka era.
///
/// A year begins on day 81 of a Gregorian year, and is a leap year if that Gregorian year is one. Month 1 has 30
/// days, or 31 in a leap year; months 2 to 6 have 31 days, and months 7 to 12 have 30. Its only era has the code
/// `shaka`, and the era year is the extended year, even before year 1. The reference year of a day is 1894 up to day
/// 10 of month 10, and 1893 after it. CLDR's name for it is `indian`.
#[derive(Clone, Copy, Debug, Default, PartialEq, Eq, PartialOrd, Ord, Hash)]
pub struct Indian;

impl Indian {
    /// Returns the Indian national calendar.
    ///
    /// ```
    /// let date = Date::from_rata_die(RataDie::new(738946), Indian::new());
    /// assert!(rt; date.day_of_month().0 == 11);
    /// ```
    pub fn new() -> Indian {
        Indian
    }
}

/// A date of the Indian calendar: its year, its ordinal month and its day of the month.
#[derive(Clone, Copy, Debug, PartialEq, Eq, PartialOrd, Ord, Hash)]
pub struct IndianDateInner(ArithmeticDate<Indian>);

/// Returns whether a year from -8000000 to 8000000 has 366 days.
fn is_leap(year: NumberedYear) -> bool
    requires { IsRuleYear year.number }
    ensures { IsTrue result ↔ IsTrue (indian_leap year.number) }
{
    gregorian::is_leap_year(year.number + YEARS_BEHIND)
}

/// Returns the number of days in a month, 1 to 12. Only month 1 depends on whether the year is a leap year.
fn days_in_month_of(year: NumberedYear, month: u8) -> u8
    requires year { IsRuleYear year.number }
    requires month { (1 ≤ month) × (month ≤ 12) }
    ensures { result ≡ indian_month_length (indian_leap year.number) month }
{
    if month == 1 {
        days_in_month(is_leap(year), month)
    } else {
        days_in_month(true, month)
    }
}

/// Returns the number of days in a month, 1 to 12, of a leap year or a common year.
fn days_in_month(leap: bool, month: u8) -> u8
    requires { (1 ≤ month) × (month ≤ 12) }
    ensures { result ≡ indian_month_length leap month }
{
    match month {
        1 if leap => 31,
        1 => 30,
        2..=6 => 31,
        _ => 30,
    }
}

/// Returns the year of the last first day of Vaisakha (month 2) on or before the start of a month, and the month's
/// number in the year that begins there, 2 to 13. Month 13 is month 1 of the next year.
///
/// `year`: -8000000 to 8000000. `month`: 1 to 12.
fn in_vaisakha_year(year: i32, month: u8) -> (i32, u8)
    requires year { IsRuleYear year }
    requires month { (1 ≤ month) × (month ≤ 12) }
    ensures month { (2 ≤ result.1) × (result.1 ≤ 13) }
    ensures same { vaisakha_month result.1 ≡ month }
    ensures year { result.0 ≡ (if nat_le result.1 12 then year else year -ℤ pos 1) }
    ensures range { IsBetween (neg_ℤ (pos 8000001)) (pos 8000000) result.0 }
{
    if month == 1 {
        (year - 1, 13)
    } else {
        (year, month)
    }
}

/// Returns the number of days from the first day of Vaisakha to the first day of a month, 2 to 13. Month 13 is month
/// 1 of the next year.
fn days_from_vaisakha(month: u8) -> u16
    requires { (2 ≤ month) × (month ≤ 13) }
    ensures value { result ≡ vaisakha_days_before month }
    ensures bound { result ≤ 335 }
{
    let months = u16::from(month - 2);
    30 * months + months.min(5)
}

/// Returns the month, 2 to 12, and the day of the month of the day that is `day` days after the first day of
/// Vaisakha, 0 to 334.
fn month_and_day_from_vaisakha(day: u16) -> (u8, u8)
    requires { day < 335 }
    ensures month { (2 ≤ result.0) × (result.0 ≤ 12) }
    ensures day { (1 ≤ result.1) × (result.1 ≤ indian_month_length true result.0) }
    ensures value { vaisakha_days_before result.0 + (result.1 - 1) ≡ day }
{
    if day < 155 {
        let (months, day) = months_and_day(day);
        (months + 2, day)
    } else {
        let rest = day - 155;
        ((rest / 30) as u8 + 7, (rest % 30) as u8 + 1)
    }
}

/// Returns the day number of a date of a year from -8000000 to 8000000.
fn day_number(year: i32, month: u8, day: u8) -> i64
    requires year { IsRuleYear year }
    requires date { IsDate indian_list (date year month day) }
    ensures value { result ≡ day_number indian_list (date year month day) }
    ensures bound { IsBetween (neg_ℤ (pos 4000000000)) (pos 4000000000) result }
{
    let (vaisakha_year, vaisakha_month) = in_vaisakha_year(year, month);
    let before = VAISAKHA_AFTER_MARCH + days_from_vaisakha(vaisakha_month) + u16::from(day - 1);
    gregorian::march_start(vaisakha_year + YEARS_BEHIND).to_i64_date() + i64::from(before)
}

/// Returns the year, the ordinal month and the day of the month of a valid day.
fn date_on(rd: RataDie) -> (i32, u8, u8)
    requires { IsValidDay rd }
    ensures on { IsOn indian_list rd (date result.0 result.1 result.2) }
    ensures year { IsBetween (neg_ℤ (pos 1000079)) (pos 999921) result.0 }
{
    let (march_year, since_march) = gregorian::march_year_and_day_from_fixed(rd);
    if since_march < VAISAKHA_AFTER_MARCH {
        return date_before_vaisakha(march_year, since_march as u8);
    }
    let (month, day) = month_and_day_from_vaisakha(since_march - VAISAKHA_AFTER_MARCH);
    (march_year - YEARS_BEHIND, month, day)
}

/// Returns the year, the ordinal month and the day of the month of the day that is `since_march` days, 0 to 50, after
/// March 1 of a Gregorian year from -1000000 to 999999.
fn date_before_vaisakha(march_year: i32, since_march: u8) -> (i32, u8, u8)
    requires year { IsBetween (neg_ℤ (pos 1000000)) (pos 999999) march_year }
    requires day { since_march < 51 }
    ensures on { IsOn indian_list (first_of_march march_year +ℤ pos since_march) (date result.0 result.1 result.2) }
    ensures year { IsBetween (neg_ℤ (pos 1000079)) (pos 999921) result.0 }
{
    let year = march_year - YEARS_BEHIND;
    // The first month begins on March 22, or a day earlier after a leap day.
    let day = since_march + leap_days(march_year);
    if day < 21 {
        (year - 1, 12, day + 10)
    } else {
        (year, 1, day - 20)
    }
}

/// Returns the number of leap days in a Gregorian year, 0 or 1.
fn leap_days(gregorian_year: i32) -> u8
    ensures { result ≡ (if gregorian_leap gregorian_year then 1 else 0) }
{
    if gregorian::is_leap_year(gregorian_year) {
        1
    } else {
        0
    }
}

impl YearShapes for Indian {
    ghost use Rattle.std.specs.Prelude.{refl};
    ghost use Rattle.cal_julian.specs.IndianList.{indian_years};
    ghost use Rattle.cal_julian.specs.laws.IndianLaws.{indian_list-lawful, stored-extended, day_number-near, years-ranged, months-apart, days-covered};

    type YearInfo = NumberedYear;

    ghost years = { λ _. indian_years };

    fn year_counted<L: Ledger>(&self, extended_year: i32, steps: &mut Steps<L>) -> NumberedYear {
        steps.tick();
        NumberedYear {
            number: extended_year,
        }
    }

    fn extended_from_year_info(&self, year: NumberedYear) -> i32 {
        year.number
    }

    fn months_in_provided_year(&self, _year: NumberedYear) -> u8 {
        12
    }

    fn days_in_provided_month(&self, year: NumberedYear, month: u8) -> u8 {
        days_in_month_of(year, month)
    }

    fn to_rata_die_inner(&self, year: NumberedYear, month: u8, day: u8) -> RataDie {
        RataDie::new(day_number(year.number, month, day))
    }

    fn min_months_from(&self, _start: NumberedYear, count: i32) -> i32 {
        12 * count
    }

    fn months_by_number(&self, first: i32, last: i32) -> (i32, u32) {
        (last, 12 * (last - first) as u32)
    }

    fn ordinal_from_month(
        &self,
        _year: NumberedYear,
        month: Month,
        _overflow: Overflow,
    ) -> Result<u8, MonthError> {
        plain_ordinal(month, 12)
    }

    fn month_from_ordinal(&self, _year: NumberedYear, ordinal_month: u8) -> Month {
        Month::new(ordinal_month)
    }

    fn ordinal_in_other_year(
        &self,
        _year: NumberedYear,
        ordinal_month: u8,
        _other: NumberedYear,
        _overflow: Overflow,
    ) -> Option<u8> {
        Some(ordinal_month)
    }

    ghost numbered = { λ s y h. refl };

    ghost lawful = { λ s. indian_list-lawful };

    ghost equal = { λ a b. refl };

    ghost ordered = { λ a b. refl };

    ghost stored_from = { λ s y h. stored-extended y.number };

    ghost near = { λ s t. day_number-near t };

    ghost ranged = { λ s t. years-ranged t };

    ghost apart = { λ s t u. months-apart t u };

    ghost covered = { λ s t. days-covered t };
}

impl Years for Indian {
    fn year_info_from_extended(&self, extended_year: i32) -> NumberedYear {
        NumberedYear {
            number: extended_year,
        }
    }

    fn year_containing_rd(&self, rd: RataDie) -> NumberedYear {
        NumberedYear {
            number: date_on(rd).0,
        }
    }

    fn year_month_day(&self, rd: RataDie) -> (NumberedYear, u8, u8) {
        let (extended_year, month, day) = date_on(rd);
        (
            NumberedYear {
                number: extended_year,
            },
            month,
            day,
        )
    }
}

/// Returns the reference year of a day of a month, 1 to 12: the latest year in which the day falls on or before
/// 1972-12-31 of the ISO calendar.
fn reference_year(month: u8, day: u8) -> i32
    ensures year { result ≡ indian_reference_year month day }
    ensures range { IsRuleYear result }
{
    if month >= 11 || (month == 10 && day >= 11) {
        1893
    } else {
        1894
    }
}

impl DateFieldsResolver for Indian {
    ghost use Rattle.std.specs.Prelude.{codes};
    ghost use Rattle.cal_types.specs.PlainMonths.{is_plain_month};
    ghost use Rattle.cal_types.proofs.EraLemmas.{only_era_reads-in_range, only_era_reads-near};
    ghost use Rattle.cal_types.proofs.YearNameLemmas.{reference_of_known-stands, reference_of_known-tested};
    ghost use Rattle.cal_julian.specs.laws.IndianLaws.{indian_list-plain};
    ghost use Rattle.cal_julian.specs.IndianNames.{indian_names, indian_reference_year};

    ghost names = { λ _. indian_names };

    fn extended_year_from_era_year_unchecked(
        &self,
        era: &[u8],
        era_year: i32,
    ) -> Result<i32, UnknownEraError> {
        year_in_only_era(b"shaka", era, era_year)
    }

    fn reference_year_from_month_day(
        &self,
        month: Month,
        day: u8,
    ) -> Result<NumberedYear, EcmaReferenceYearError> {
        if is_plain(month, 12) {
            Ok(NumberedYear {
                number: reference_year(month.number(), day),
            })
        } else {
            Err(EcmaReferenceYearError::MonthNotInCalendar)
        }
    }

    ghost era_in_range = { λ _ era n y. only_era_reads-in_range (codes "shaka") era n y };

    ghost era_near = { λ _ era n y. only_era_reads-near (codes "shaka") era n y };

    ghost reference_of_kind = { λ _ m d. reference_of_known-tested (is_plain_month 12 m) _
        (indian_reference_year m.number d) (indian_list-plain.kind m) };

    ghost reference_of_leap_month = { λ _ m d e. reference_of_known-stands (is_plain_month 12 m)
        (indian_reference_year m.number d) e };
}

impl NamedYears for Indian {
    ghost use Rattle.std.specs.Prelude.{refl};
    ghost use Rattle.cal_types.specs.declared.year.YearInfo.TheVariants.{Era};
    ghost use Rattle.cal_base.specs.laws.Compatibility.{all_alike};
    ghost use Rattle.cal_julian.specs.IndianList.{indian_leap};
    ghost use Rattle.cal_julian.specs.IndianEra.{indian_era_year};

    type Year = EraYear;

    ghost is_leap_year = { λ _ y. indian_leap y };

    ghost year_named = { λ _ y. Era (indian_era_year y) };

    fn owns_year(&self, year: NumberedYear) -> bool {
        year.can_be_named()
    }

    fn is_leap(&self, year: NumberedYear) -> bool {
        is_leap(year)
    }

    fn named_year(&self, year: NumberedYear) -> EraYear {
        EraYear {
            year: year.number,
            extended_year: year.number,
            era: TinyAsciiStr::of_text(b"shaka"),
            era_index: Some(0),
            ambiguity: YearAmbiguity::CenturyRequired,
        }
    }

    fn shown_month(
        &self,
        _year: NumberedYear,
        _ordinal_month: u8,
        month: Month,
    ) -> (LeapStatus, Month) {
        (LeapStatus::Normal, month)
    }

    fn year_offset(&self) -> i32 {
        0
    }

    fn is_compatible(&self, _other: &Self) -> bool {
        true
    }

    ghost tested = { λ _ _. (λ _. refl, λ _. refl) };

    ghost named = { λ _ y. refl };

    ghost alike = { all_alike };

    ghost shared = { λ _ _ _ _ given. record { given = given; start = refl; months = refl } };
}

impl UnstableSealed for Indian {}

impl Calendar for Indian {
    ghost use Rattle.std.specs.Prelude.{true, false, refl, codes, Some};
    ghost use Rattle.cal_errors.specs.declared.algorithm.CalendarAlgorithm.TheVariants.{Indian as indian};
    ghost use Rattle.cal_base.specs.laws.Compatibility.{never_refused};
    ghost use Rattle.cal_base.specs.laws.NumberedYears.{numbered_equal, numbered_ordered};
    ghost use Rattle.cal_julian.specs.IndianList.{indian_list};
    ghost use Rattle.cal_julian.specs.IndianSystem.{indian_system, indian_date, indian_belongs};
    ghost use Rattle.cal_julian.specs.laws.IndianLaws.{indian_list-lawful, years-ranged, days-covered};
    ghost use Rattle.cal_julian.specs.laws.IndianSystemLaws.{indian_belongs-dated};

    type DateInner = IndianDateInner;

    type Year = EraYear;

    type DateCompatibilityError = Infallible;

    ghost system = { λ _. indian_system };

    ghost date_of = { λ _ d. indian_date d };

    ghost belongs = { λ _ d. indian_belongs d };

    ghost compatible = { λ _ _. true };

    ghost is_cheap = { λ _. false };

    ghost algorithm = { λ _. Some indian };

    ghost name = { λ _. codes "Indian" };

    fn owns(&self, date: &IndianDateInner) -> bool {
        Arithmetic(*self).owns(&date.0)
    }

    fn new_date(
        &self,
        year: YearInput<'_>,
        month: Month,
        day: u8,
    ) -> Result<IndianDateInner, DateNewError> {
        Ok(IndianDateInner(Arithmetic(*self).new_date(year, month, day)?))
    }

    fn from_fields(
        &self,
        fields: DateFields<'_>,
        options: DateFromFieldsOptions,
    ) -> Result<IndianDateInner, DateFromFieldsError> {
        Ok(IndianDateInner(Arithmetic(*self).from_fields(fields, options)?))
    }

    fn has_cheap_iso_conversion(&self) -> bool {
        false
    }

    fn from_rata_die(&self, rd: RataDie) -> IndianDateInner {
        IndianDateInner(Arithmetic(*self).from_rata_die(rd))
    }

    fn to_rata_die(&self, date: &IndianDateInner) -> RataDie {
        Arithmetic(*self).to_rata_die(&date.0)
    }

    fn months_in_year(&self, date: &IndianDateInner) -> u8 {
        Arithmetic(*self).months_in_year(&date.0)
    }

    fn days_in_year(&self, date: &IndianDateInner) -> u16 {
        Arithmetic(*self).days_in_year(&date.0)
    }

    fn days_in_month(&self, date: &IndianDateInner) -> u8 {
        Arithmetic(*self).days_in_month(&date.0)
    }

    fn is_in_leap_year(&self, date: &IndianDateInner) -> bool {
        Arithmetic(*self).is_in_leap_year(&date.0)
    }

    fn year_info(&self, date: &IndianDateInner) -> EraYear {
        Arithmetic(*self).year_info(&date.0)
    }

    fn extended_year(&self, date: &IndianDateInner) -> i32 {
        Arithmetic(*self).extended_year(&date.0)
    }

    fn month(&self, date: &IndianDateInner) -> MonthInfo {
        Arithmetic(*self).month(&date.0)
    }

    fn day_of_month(&self, date: &IndianDateInner) -> DayOfMonth {
        Arithmetic(*self).day_of_month(&date.0)
    }

    fn day_of_year(&self, date: &IndianDateInner) -> DayOfYear {
        Arithmetic(*self).day_of_year(&date.0)
    }

    #[inline(always)]
    fn add(
        &self,
        date: &IndianDateInner,
        duration: DateDuration,
        options: DateAddOptions,
    ) -> Result<IndianDateInner, DateAddError> {
        Ok(IndianDateInner(Arithmetic(*self).add(&date.0, duration, options)?))
    }

    fn until(
        &self,
        date1: &IndianDateInner,
        date2: &IndianDateInner,
        options: DateDifferenceOptions,
    ) -> DateDuration {
        Arithmetic(*self).until(&date1.0, &date2.0, options)
    }

    fn until_counted<L: Ledger>(
        &self,
        date1: &IndianDateInner,
        date2: &IndianDateInner,
        options: DateDifferenceOptions,
        steps: &mut Steps<L>,
    ) -> DateDuration {
        Arithmetic(*self).until_counted(&date1.0, &date2.0, options, steps)
    }

    fn check_date_compatibility(&self, _other: &Self) -> Result<(), Infallible> {
        Ok(())
    }

    fn calendar_algorithm(&self) -> Option<CalendarAlgorithm> {
        Some(CalendarAlgorithm::Indian)
    }

    fn debug_name(&self) -> &'static str {
        "Indian"
    }

    ghost lawful = { λ _. indian_list-lawful };

    ghost dated = { λ _ d h. indian_belongs-dated d h };

    ghost ranged = { λ _ t h. (years-ranged t h).0 };

    ghost shifted = { λ _ t h. (years-ranged t h).1 };

    ghost covered = { λ _ t. days-covered t };

    ghost named = { λ _ t. refl };

    ghost equal_days = { λ _ a b h k. numbered_equal indian_list _ _ h k };

    ghost ordered_days = { λ _ a b h k. numbered_ordered indian_list _ _ h k };

    ghost refusal = { λ _ _ h. never_refused h };

    ghost compatible_itself = { λ _. refl };

    ghost compatible_back = { λ _ _ h. h };

    ghost compatible_on = { λ _ _ _ h k. k };

    ghost shared = { λ _ _ _ h k. k };

    ghost shared_day = { λ _ _ _ h k. refl };
}

impl AsCalendar for Indian {
    type Calendar = Indian;

    ghost cal_of = { λ c. c };

    fn as_calendar(&self) -> &Indian {
        self
    }
}
