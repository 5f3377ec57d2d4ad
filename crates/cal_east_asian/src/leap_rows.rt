//! Counts the rows of a table with a leap month.

ghost use Rattle.std.specs.Prelude.{◌≡◌, ◌≤◌, length};
ghost use Rattle.cal_east_asian.specs.LeapRows.{is_leap_row, leap_rows};

use crate::east_asian_row::EastAsianRow;

/// Returns whether the year of a row has a leap month.
fn is_leap_row(row: EastAsianRow) -> bool
    ensures { result ≡ is_leap_row row }
{
    row.year().leap_month != 0
}

/// Returns the number of rows with a leap month.
pub(crate) fn count_leap_rows(rows: &[EastAsianRow]) -> u32
    requires { length rows.now ≤ 8088 }
    ensures { result ≡ leap_rows rows.now }
{
    rows.iter().filter(|row| is_leap_row(**row)).count() as u32
}
