//! The traits that a calendar implements for its years. Start at [`Years`].

ghost use Rattle.std.specs.Prelude.{◌≡◌, ℕ, ℤ, ◌+◌, ◌<◌, ◌≤◌, ◌↔◌, ◌≤ℤ◌, ◌<ℤ◌, ◌+ℤ◌, ◌-ℤ◌, pos, neg_ℤ, unsigned_abs, false, Some, Err, IfOk, IsTrue, List};
ghost use Rattle.std.specs.Ordering.{int_cmp, int_eq};
ghost use Rattle.cal_days.specs.Day.{IsBetween, IsValidDay, IsFieldYear, IsRuleYear, IsCoveredYear, IsConstructorYear, IsNearEra};
ghost use Rattle.cal_days.specs.Sums.{total};
ghost use Rattle.cal_types.specs.Month.{MonthParts};
ghost use Rattle.cal_types.specs.MonthParts.{month_parts};
ghost use Rattle.cal_errors.specs.declared.errors.EcmaReferenceYearError.TheVariants.{MonthNotInCalendar, UseRegularIfConstrain};
ghost use Rattle.cal_types.specs.YearNames.{YearNames};
ghost use Rattle.cal_arith.specs.FieldNames.{era_read, seen};
ghost use Rattle.cal_types.specs.CalendarList.{Date, date, month_count, month_at, month_length, month_number, year_length, spot, start_of_year, day_number, IsDate, IsLawful, IsOn, IsValidDate};
ghost use Rattle.cal_arith.specs.Given.{CalendarYears, HasMonth, IsGiven};
ghost use Rattle.cal_arith.specs.Dates.{date_of, ymd, IsGivenDate};
ghost use Rattle.cal_arith.specs.declared.dates.Ymd.{Ymd};
ghost use Rattle.cal_arith.specs.Places.{ordinal_month};

use crate::dates::{Ymd, month_by_month};
use crate::steps::Steps;
use cal_days::RataDie;
use cal_types::{EcmaReferenceYearError, Month, MonthError, Overflow, UnknownEraError};
use std::fmt::Debug;
use std::hash::Hash;
use std::sync::ledger::Ledger;

/// A year that packs into a few bytes together with an ordinal month and a day.
///
/// Each year has a stored number, which it knows without its calendar. It is the ISO year in the Gregorian family,
/// the Coptic year in the Coptic and the Ethiopian calendar, and otherwise the extended year. Years with stored
/// numbers from -1040000 to 1040000 can be packed.
///
/// Unpacking returns exactly the year that was packed, so the packed form must keep all of its data. A Julian year is
/// only a number. A year of a table also has the lengths of its months and its first day. Unpacking has no condition:
/// any packed value unpacks to some year.
///
/// Dates keep the year unpacked, because that is faster to read. Pack dates to store many of them.
///
/// ```text
/// #[derive(Clone, Copy)]
/// struct Year(i32);
///
/// impl PackWithMD for Year {
///     type Packed = [u8; 4];
///
///     fn pack(self, month: u8, day: u8) -> [u8; 4] {
///         (512 * self.0 + 32 * i32::from(month) + i32::from(day)).to_le_bytes()
///     }
///
///     fn unpack_year(packed: [u8; 4]) -> Year {
///         Year(i32::from_le_bytes(packed) >> 9)
///     }
///
///     fn unpack_month(packed: [u8; 4]) -> u8 {
///         ((u32::from_le_bytes(packed) >> 5) & 15) as u8
///     }
///
///     fn unpack_day(packed: [u8; 4]) -> u8 {
///         packed[0] & 31
///     }
///
/// }
/// ```
pub trait PackWithMD: Copy {
    /// A year, an ordinal month and a day, packed into a few bytes.
    type Packed: Copy + Debug;

    /// The stored number of a year.
    ghost stored: { Self → ℤ };

    /// The year, the ordinal month and the day of a packed value.
    ghost unpacked: { Self.Packed → Ymd Self };

    /// Packs the year with an ordinal month from 1 to 13 and a day from 1 to 31. Unpacking returns all three. The
    /// stored number must be from -1040000 to 1040000.
    fn pack(self, month: u8, day: u8) -> Self::Packed
        requires storable { IsFieldYear (stored self) }
        requires month { (1 ≤ month) × (month ≤ 13) }
        requires day { (1 ≤ day) × (day ≤ 31) }
        ensures parts { unpacked result ≡ ymd self month day };

    /// Returns the year of a packed value.
    fn unpack_year(packed: Self::Packed) -> Self
        ensures { result ≡ (unpacked packed).year };

    /// Returns the ordinal month of a packed value.
    fn unpack_month(packed: Self::Packed) -> u8
        ensures { result ≡ (unpacked packed).month };

    /// Returns the day of the month of a packed value.
    fn unpack_day(packed: Self::Packed) -> u8
        ensures { result ≡ (unpacked packed).day };
}

/// The years of a calendar, with their months and the months' lengths. A year can be looked up only at the cost of a
/// tick; [`Years`] has the uncounted look-up.
///
/// Extended years are from -8000000 to 8000000 here. A given year is the calendar's year for one of them.
pub trait YearShapes {
    /// A year of the calendar.
    type YearInfo: Copy + Debug + Hash + Ord + PackWithMD;

    /// The calendar's years: its list by extended years, the maps between extended years and years, and the offset.
    /// The offset is added to an extended year to get the stored number.
    ghost years: { Self → CalendarYears Self.YearInfo };

    /// Returns the year of an extended year, at the cost of one tick.
    fn year_counted<L: Ledger>(&self, extended_year: i32, steps: &mut Steps<L>) -> Self::YearInfo
        requires { IsRuleYear extended_year }
        ensures year { result ≡ (years self.now).year_of extended_year }
        ensures tick { steps.new ≡ steps.old + 1 };

    /// Returns the extended year of a given year.
    fn extended_from_year_info(&self, year: Self::YearInfo) -> i32
        requires { IsGiven (years self.now) year }
        ensures { result ≡ (years self.now).extended year };

    /// Returns the number of months in a given year.
    fn months_in_provided_year(&self, year: Self::YearInfo) -> u8
        requires { IsGiven (years self.now) year }
        ensures { let y = years self.now in result ≡ month_count y.list (y.extended year) };

    /// Returns the length of a given year's month in days. `month` is an ordinal month that the year has.
    fn days_in_provided_month(&self, year: Self::YearInfo, month: u8) -> u8
        requires { HasMonth (years self.now) year month }
        ensures { let y = years self.now in result ≡ month_length y.list (y.extended year) month };

    /// Returns the day number of a date that the calendar has, of a given year, an ordinal month and a day.
    fn to_rata_die_inner(&self, year: Self::YearInfo, month: u8, day: u8) -> RataDie
        requires { IsGivenDate (years self.now) (ymd year month day) }
        ensures { let y = years self.now in result ≡ day_number y.list (date (y.extended year) month day) };

    /// Returns a lower bound for the number of months in `count` years, with the sign of `count`.
    ///
    /// The bound holds for any consecutive years from -8000000 to 8000000, whatever `start` is. `count`: -8000000 to
    /// 8000000.
    fn min_months_from(&self, start: Self::YearInfo, count: i32) -> i32
        requires year { IsGiven (years self.now) start }
        requires count { IsRuleYear count }
        ensures forward { (pos 0 <ℤ result) ↔ (pos 0 <ℤ count) }
        ensures back { (result <ℤ pos 0) ↔ (count <ℤ pos 0) }
        ensures least { (y : ℤ) → IsRuleYear y → IsRuleYear (y +ℤ pos (unsigned_abs count) -ℤ pos 1)
            → unsigned_abs result ≤ total (month_count (years self.now).list) y (unsigned_abs count) };

    /// Returns an extended year from `first` to `last`, and the number of months from the start of `first` to the
    /// start of that year.
    ///
    /// The calendar goes as far as it can count by year numbers alone. The default is `first` itself and 0 months.
    fn months_by_number(&self, first: i32, last: i32) -> (i32, u32)
        requires first { IsRuleYear first }
        requires last { IsRuleYear last }
        requires order { first ≤ℤ last }
        ensures within { IsBetween first last result.0 }
        ensures count { let list = (years self.now).list in
            month_number list result.0 1 ≡ month_number list first 1 +ℤ pos result.1 }
    {
        let _any_year = last;
        (first, 0)
    }

    /// Returns the ordinal month of a month in a given year. Under [`Overflow::Constrain`], another month of the year
    /// stands in for a month that the year lacks.
    ///
    /// # Errors
    ///
    /// - [`MonthError::NotInCalendar`] if the month isn't one of the calendar's months;
    /// - [`MonthError::NotInYear`] under [`Overflow::Reject`] if this year lacks the month.
    fn ordinal_from_month(
        &self,
        year: Self::YearInfo,
        month: Month,
        overflow: Overflow,
    ) -> Result<u8, MonthError>
        requires { IsGiven (years self.now) year }
        ensures { let y = years self.now in
            result ≡ ordinal_month y.list (y.extended year) (month_parts month) overflow };

    /// Returns the month of an ordinal month that a given year has.
    fn month_from_ordinal(&self, year: Self::YearInfo, ordinal_month: u8) -> Month
        requires { HasMonth (years self.now) year ordinal_month }
        ensures { let y = years self.now in month_parts result ≡ month_at y.list (y.extended year) ordinal_month };

    /// Returns the ordinal month in another given year of a given year's month, or of the month that stands in for it
    /// under [`Overflow::Constrain`]. Returns `None` under [`Overflow::Reject`] if the other year lacks the month.
    fn ordinal_in_other_year(
        &self,
        year: Self::YearInfo,
        ordinal_month: u8,
        other: Self::YearInfo,
        overflow: Overflow,
    ) -> Option<u8>
        requires month { HasMonth (years self.now) year ordinal_month }
        requires other { IsGiven (years self.now) other }
        ensures { let y = years self.now in
            result ≡ spot y.list (y.extended other) (month_at y.list (y.extended year) ordinal_month) overflow }
    {
        let month = self.month_from_ordinal(year, ordinal_month);
        self.ordinal_from_month(other, month, overflow).ok()
    }

    /// Looking up an extended year returns a year with that extended year.
    ghost numbered: { (s : Self) (y : ℤ) → IsRuleYear y → (years s).extended ((years s).year_of y) ≡ y };

    /// The list is lawful: each year has 12 or 13 months of 1 to 31 days, in rising order, all of them months of the
    /// calendar. Under [`Overflow::Constrain`], each month of the calendar has an ordinal month in each year.
    ghost lawful: { (s : Self) → IsLawful (years s).list };

    /// Years are equal exactly if their stored numbers are, and ordered as they are.
    ghost equal: { (a b : Self.YearInfo) →
        Self.YearInfo.eq a b ≡ int_eq (Self.YearInfo.stored a) (Self.YearInfo.stored b) };

    ghost ordered: { (a b : Self.YearInfo) →
        Self.YearInfo.cmp a b ≡ int_cmp (Self.YearInfo.stored a) (Self.YearInfo.stored b) };

    /// The stored number of a given year is its extended year plus the offset.
    ghost stored_from: { (s : Self) (y : Self.YearInfo) → IsGiven (years s) y →
        Self.YearInfo.stored y ≡ (years s).extended y +ℤ (years s).offset };

    /// The day numbers of dates in years from -8000000 to 8000000 are from -4000000000 to 4000000000.
    ghost near: { (s : Self) (t : Date) → IsRuleYear t.year → IsDate (years s).list t →
        IsBetween (neg_ℤ (pos 4000000000)) (pos 4000000000) (day_number (years s).list t) };

    /// The extended years of valid days are from -1040000 to 1040000, and so are their sums with the offset.
    ghost ranged: { (s : Self) (t : Date) → IsValidDate (years s).list t →
        IsFieldYear t.year × IsFieldYear (t.year +ℤ (years s).offset) };

    /// Dates with valid days are at most 27040000 months apart, as many as 2080000 years of 13 months have.
    ghost apart: { (s : Self) (t u : Date) → IsValidDate (years s).list t → IsValidDate (years s).list u →
        let number = month_number (years s).list in
        unsigned_abs (number u.year u.month -ℤ number t.year t.month) ≤ 27040000 };

    /// The days of years from -980000 to 980000 are valid.
    ghost covered: { (s : Self) (t : Date) → IsCoveredYear t.year →
        IsDate (years s).list t → IsValidDay (day_number (years s).list t) };
}

/// The years of a calendar, which are looked up by extended year and by day.
pub trait Years: YearShapes {
    /// Returns the year of an extended year from -8000000 to 8000000.
    fn year_info_from_extended(&self, extended_year: i32) -> Self::YearInfo
        requires { IsRuleYear extended_year }
        ensures { result ≡ (Self.years self.now).year_of extended_year };

    /// Estimates how many years `months` months are, counted from the first month of a given year. An estimate never
    /// makes a sum wrong. The closer it is from below, the fewer years are looked up.
    ///
    /// `months`: at most 200000000.
    fn estimated_years(&self, from: Self::YearInfo, months: u32) -> u32
        requires from { IsGiven (Self.years self.now) from }
        requires months { months ≤ 200000000 }
    {
        let _any_year = from;
        months / 12
    }

    /// Returns the year that contains a valid day. Its extended year and its stored number are from -1040000 to
    /// 1040000.
    fn year_containing_rd(&self, rd: RataDie) -> Self::YearInfo
        requires { IsValidDay rd }
        ensures year { IsGiven (Self.years self.now) result }
        ensures range { IsFieldYear ((Self.years self.now).extended result) }
        ensures storable { IsFieldYear (Self.YearInfo.stored result) }
        ensures first { let y = Self.years self.now in start_of_year y.list (y.extended result) ≤ℤ rd }
        ensures last { let y = Self.years self.now in let number = y.extended result in
            rd <ℤ (start_of_year y.list number +ℤ pos (year_length y.list number)) };

    /// Returns the date of a valid day: its year, ordinal month and day of the month.
    fn year_month_day(&self, rd: RataDie) -> (Self::YearInfo, u8, u8)
        requires { IsValidDay rd }
        ensures year { IsGiven (Self.years self.now) result.0 }
        ensures on { let y = Self.years self.now in IsOn y.list rd (date_of y (ymd result.0 result.1 result.2)) }
    {
        let year = self.year_containing_rd(rd);
        let since = rd.since(self.to_rata_die_inner(year, 1, 1));
        let day_of_year = since as u16;
        let (month, day) = self.month_and_day(year, day_of_year);
        (year, month, day)
    }

    /// Returns the ordinal month and the day of the month for a day of a given year. `day_of_year` counts from 0.
    fn month_and_day(&self, year: Self::YearInfo, day_of_year: u16) -> (u8, u8)
        requires year { IsGiven (Self.years self.now) year }
        requires within { let y = Self.years self.now in day_of_year < year_length y.list (y.extended year) }
        ensures { let y = Self.years self.now in let day = start_of_year y.list (y.extended year) +ℤ pos day_of_year in
            IsOn y.list day (date_of y (ymd year result.0 result.1)) }
    {
        month_by_month(year, day_of_year, self)
    }
}

/// A calendar that can name its years by eras, and has reference years for dates without a year.
pub trait DateFieldsResolver: Years {
    /// How the calendar reads eras, and its reference years.
    ghost names: { Self → YearNames };

    /// Returns the extended year of an era year from -1040000 to 1040000, in the era of a code (CLDR, UTS 35).
    ///
    /// The extended year is from -8000000 to 8000000. For an era year from -9999 to 9999 it is from -20000 to 20000, so
    /// its days are valid.
    ///
    /// # Errors
    ///
    /// - [`UnknownEraError`] if the code isn't one of the calendar's eras.
    fn extended_year_from_era_year_unchecked(
        &self,
        era: &[u8],
        era_year: i32,
    ) -> Result<i32, UnknownEraError>
        requires { IsFieldYear era_year }
        ensures { result ≡ era_read ((names self.now).reads era.now era_year) };

    /// Returns the reference year of a month and a day: the year of a date without one (ECMAScript Temporal,
    /// `NonISOMonthDayToISOReferenceDate`). The day may be above the month's length.
    ///
    /// # Errors
    ///
    /// - [`EcmaReferenceYearError::MonthNotInCalendar`] exactly if the month isn't one of the calendar's months;
    /// - [`EcmaReferenceYearError::UseRegularIfConstrain`] only for leap months of the calendar;
    /// - [`EcmaReferenceYearError::Unimplemented`] if the calendar has no reference years.
    fn reference_year_from_month_day(
        &self,
        month: Month,
        day: u8,
    ) -> Result<Self::YearInfo, EcmaReferenceYearError>
        ensures year { seen (Self.years self.now).extended result ≡ (names self.now).reference (month_parts month) day }
        ensures given { IfOk result (λ y. IsGiven (Self.years self.now) y) };

    /// The extended year of an era year from -1040000 to 1040000 is from -8000000 to 8000000.
    ghost era_in_range: { (s : Self) (era : List ℕ) (n y : ℤ) → IsFieldYear n
        → (names s).reads era n ≡ Some y → IsRuleYear y };

    /// The extended year of an era year from -9999 to 9999 is from -20000 to 20000, since an era begins within 10000 years
    /// of year 0. So its days are valid.
    ghost era_near: { (s : Self) (era : List ℕ) (n y : ℤ) → IsConstructorYear n
        → (names s).reads era n ≡ Some y → IsNearEra y };

    /// The error `MonthNotInCalendar` occurs exactly for months that aren't the calendar's.
    ghost reference_of_kind: { (s : Self) (m : MonthParts) (d : ℕ)
        → ((names s).reference m d ≡ Err MonthNotInCalendar) ↔ ((Self.years s).list.is_of_kind m ≡ false) };

    /// The error `UseRegularIfConstrain` occurs only for leap months of the calendar.
    ghost reference_of_leap_month: { (s : Self) (m : MonthParts) (d : ℕ)
        → (names s).reference m d ≡ Err UseRegularIfConstrain
        → IsTrue m.is_leap × IsTrue ((Self.years s).list.is_of_kind m) };
}
