//! The rows of a table of Chinese or Korean years, as plain data.

ghost use Rattle.std.specs.Prelude.{◌≡◌, ◌%◌, ◌<◌, ◌^◌, IsTrue, nat_lt, neg_ℤ, pos};
ghost use Rattle.cal_days.specs.Day.{IsRuleYear, is_between};
ghost use Rattle.cal_east_asian.specs.RowParts.{place_or_none};
ghost use Rattle.cal_east_asian.specs.EastAsianRows.{names_year, row_of_year, row_year};
ghost use Rattle.cal_east_asian.specs.EastAsianYear.{is_leap_place, months_of_year};
ghost use Rattle.cal_east_asian.specs.RuleYears.{rule_year};

use crate::east_asian_traditional_year::EastAsianTraditionalYear;
use cal_days::gregorian;

/// A year of an [`EastAsianTable`](crate::EastAsianTable) as plain data, which a `static` can hold.
///
/// A row names a year if every field is within its range. Every year has exactly one row that names it.
/// [`EastAsianTable::try_new`](crate::EastAsianTable::try_new) rejects any other row, and checks whether the rows
/// follow one another.
///
/// The Chinese year 2023 begins on 2023-01-22, 3 days after January 19. Its ordinal month 3 is the leap month 2, and
/// its ordinal months 2, 5, 6, 8, 9, 11 and 13 have 30 days:
///
/// ```
/// static YEAR_2023: EastAsianRow = EastAsianRow {
///     related_iso: 2023,
///     long_months: 0x15b2,
///     leap_month: 3,
///     start_offset: 3,
/// };
/// assert!(rt; YEAR_2023.year().leap_month() == Some(3));
/// ```
#[derive(Clone, Copy, Debug)]
pub struct EastAsianRow {
    /// The number of the year, from -8000000 to 8000000: the ISO year in which it begins.
    pub related_iso: i32,
    /// The months of 30 days: bit 0 is set for the first month, up to bit 11, or bit 12 with a leap month. The other
    /// months have 29 days, and the bits above are 0.
    pub long_months: u16,
    /// The ordinal month of the leap month, from 2 to 13, or 0 without one.
    pub leap_month: u8,
    /// The number of days from January 19 of the ISO year `related_iso` to the first day of the year, 0 to 34.
    pub start_offset: u8,
}

/// Returns whether a leap month may have this ordinal number, which is 0 for no leap month.
fn is_leap_place(place: u8) -> bool
    ensures { result ≡ is_leap_place place }
{
    place == 0 || (2 <= place && place <= 13)
}

/// Returns whether the bits belong to months of a year with this leap month, which is 0 for none.
fn are_bits_of_months(long_months: u16, leap_month: u8) -> bool
    ensures { result ≡ nat_lt long_months (2 ^ months_of_year leap_month) }
{
    if leap_month == 0 {
        long_months < 4096
    } else {
        long_months < 8192
    }
}

/// Returns whether a year is from -8000000 to 8000000.
fn is_rule_year(year: i32) -> bool
    ensures { result ≡ is_between (neg_ℤ (pos 8000000)) (pos 8000000) year }
{
    -8000000 <= year && year <= 8000000
}

/// Returns the ordinal month of a leap month, or 0 if no year can have a leap month there.
fn place_or_none(place: u8) -> u8
    ensures value { result ≡ place_or_none place }
    ensures valid { IsTrue (is_leap_place result) }
{
    if is_leap_place(place) { place } else { 0 }
}

/// Returns the bits of the months of a year with this leap month, which is 0 for none. The bits above them are
/// cleared.
fn bits_of_months(long_months: u16, leap_month: u8) -> u16
    ensures value { result ≡ long_months % 2 ^ months_of_year leap_month }
    ensures few { result < 2 ^ months_of_year leap_month }
{
    if leap_month == 0 {
        long_months % 4096
    } else {
        long_months % 8192
    }
}

/// Returns the nearest year from -8000000 to 8000000.
fn nearest_rule_year(year: i32) -> i32
    ensures value { result ≡ rule_year year }
    ensures range { IsRuleYear result }
{
    year.clamp(-8000000, 8000000)
}

impl EastAsianRow {
    /// Returns the year that the row names.
    ///
    /// If the row names no year, a year number or an offset that is out of range counts as the nearest value within
    /// its range. A leap month that is out of range counts as 0, and so do the bits above the bits of the months.
    ///
    /// # Examples
    ///
    /// ```
    /// static YEAR_2023: EastAsianRow = EastAsianRow {
    ///     related_iso: 2023,
    ///     long_months: 0x15b2,
    ///     leap_month: 3,
    ///     start_offset: 3,
    /// };
    /// assert!(rt; YEAR_2023.year().leap_month() == Some(3));
    /// ```
    pub fn year(self) -> EastAsianTraditionalYear
        ensures { result ≡ row_year self }
    {
        let related_iso = nearest_rule_year(self.related_iso);
        let january_19 = gregorian::year_start(related_iso).to_i64_date() + 18;
        let leap_month = place_or_none(self.leap_month);
        EastAsianTraditionalYear::from_parts(
            related_iso,
            january_19 + i64::from(self.start_offset.min(34)),
            bits_of_months(self.long_months, leap_month),
            leap_month,
        )
    }

    /// Returns whether every field is within its range, so that the row names a year.
    pub(crate) fn names_year(self) -> bool
        ensures { result ≡ names_year self }
    {
        is_rule_year(self.related_iso)
            && is_leap_place(self.leap_month)
            && are_bits_of_months(self.long_months, self.leap_month)
            && self.start_offset <= 34
    }
}

impl EastAsianTraditionalYear {
    /// Returns the row that names this year.
    ///
    /// ```
    /// assert!(rt; qing_year(1900)?.row().leap_month == 9);
    /// ```
    pub fn row(self) -> EastAsianRow
        ensures exact { result ≡ row_of_year self }
        ensures year { row_year result ≡ self }
        ensures named { IsTrue (names_year result) }
    {
        let january_1 = gregorian::year_start(self.related_iso).to_i64_date();
        EastAsianRow {
            related_iso: self.related_iso,
            long_months: self.long_months,
            leap_month: self.leap_month,
            start_offset: (self.new_year - january_1 - 18) as u8,
        }
    }
}
