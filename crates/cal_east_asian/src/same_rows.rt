//! Compares years and rows of tables.

ghost use Rattle.std.specs.Prelude.{◌≡◌};
ghost use Rattle.std.specs.Cmp.Lexicographic.{pointwise};
ghost use Rattle.cal_east_asian.specs.EastAsianRows.{is_same_row, years_of};
ghost use Rattle.cal_east_asian.specs.LengthenedTables.{bits_end, is_equal_year};
ghost use Rattle.cal_east_asian.specs.SameYears.{same_year};

use crate::east_asian_row::EastAsianRow;
use crate::east_asian_traditional_year::EastAsianTraditionalYear;
use cal_types::Row;

/// Returns whether two years have the same number, first day, month lengths and leap month.
pub(crate) fn is_same_year(one: EastAsianTraditionalYear, other: EastAsianTraditionalYear) -> bool
    ensures { result ≡ same_year one other }
{
    one.related_iso == other.related_iso
        && one.new_year == other.new_year
        && one.long_months == other.long_months
        && one.leap_month == other.leap_month
}

/// Returns one more than the greatest bits of the months of a year with this leap month, which is 0 for none.
fn bits_end(leap_month: u8) -> u16
    ensures { result ≡ bits_end leap_month }
{
    if leap_month == 0 { 4096 } else { 8192 }
}

/// Returns whether two years have the same number, first day, month lengths and leap month.
fn is_equal_year(one: EastAsianTraditionalYear, other: EastAsianTraditionalYear) -> bool
    ensures { result ≡ is_equal_year one other }
{
    one.related_iso == other.related_iso
        && one.new_year == other.new_year
        && one.long_months % bits_end(one.leap_month)
            == other.long_months % bits_end(other.leap_month)
        && one.leap_month == other.leap_month
}

impl Row for EastAsianRow {
    ghost use Rattle.cal_east_asian.specs.LengthenedTables.{is_equal_row};

    ghost equal = { is_equal_row };

    fn is_equal_row(self, other: EastAsianRow) -> bool {
        is_equal_year(self.year(), other.year())
    }
}

/// Returns whether two rows have the same year.
fn is_same_row(one: EastAsianRow, other: EastAsianRow) -> bool
    ensures { result ≡ is_same_row one other }
{
    is_same_year(one.year(), other.year())
}

/// Returns whether two lists have the same number of rows, with the same years.
fn are_same_rows(one: &[EastAsianRow], other: &[EastAsianRow]) -> bool
    ensures { result ≡ pointwise is_same_row one.now other.now }
{
    if one.len() != other.len() {
        return false;
    }
    let mut index = 0;
    'rows: while index < one.len() {
        if !is_same_row(one[index], other[index]) {
            return false;
        }
        index += 1;
    }
    true
}

/// Returns whether two tables have the same number of rows, with the same years.
pub(crate) fn have_same_rows(one: &[EastAsianRow], other: &[EastAsianRow]) -> bool
    ensures { result ≡ pointwise same_year (years_of one.now) (years_of other.now) }
{
    are_same_rows(one, other)
}
