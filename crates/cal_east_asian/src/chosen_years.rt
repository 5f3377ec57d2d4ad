//! The years of a table: its rows, and computed years.

ghost use Rattle.std.specs.Prelude.{◌≡◌, slice_get};
ghost use Rattle.cal_days.specs.Day.{IsRuleYear};
ghost use Rattle.cal_east_asian.specs.laws.ComputedLaws as computed;
ghost use Rattle.cal_east_asian.specs.EastAsianRows.{years_of};
ghost use Rattle.cal_east_asian.specs.TableYears as table;

use crate::computed_years::computed_year;
use crate::east_asian_row::EastAsianRow;
use crate::east_asian_traditional_year::EastAsianTraditionalYear;
use crate::sides::Side;

/// Returns the year of the row at an index, counted from 0, if there is one.
pub(crate) fn row_at(rows: &[EastAsianRow], index: usize) -> Option<EastAsianTraditionalYear>
    ensures { result ≡ slice_get (years_of rows.now) index }
{
    match rows.get(index) {
        Some(row) => Some(row.year()),
        None => None,
    }
}

/// Returns the row of a year, if it has one. Rows are consecutive, so its index follows from the year of the first
/// row.
fn row_of(rows: &[EastAsianRow], related_iso: i32) -> Option<EastAsianTraditionalYear>
    requires { IsRuleYear related_iso }
    ensures { result ≡ table.row_of (years_of rows.now) related_iso }
{
    match row_at(rows, 0) {
        None => None,
        Some(first) => {
            if related_iso < first.related_iso {
                None
            } else {
                row_at(rows, (related_iso - first.related_iso) as usize)
            }
        }
    }
}

/// Returns the row of a year, or the computed year if it has none.
pub(crate) fn chosen_year(
    side: Side,
    rows: &[EastAsianRow],
    related_iso: i32,
) -> EastAsianTraditionalYear
    requires { IsRuleYear related_iso }
    ensures { result ≡ table.chosen_year (computed.computed_year side) (years_of rows.now) related_iso }
{
    match row_of(rows, related_iso) {
        Some(row) => row,
        None => computed_year(side, related_iso),
    }
}
