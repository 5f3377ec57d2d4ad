//! Counts the months between two years of a table: in closed form for computed years, and from the number of rows
//! with a leap month for rows.

ghost use Rattle.std.specs.Prelude.{◌≡◌, ◌≤◌, ◌-◌, ◌≤ℤ◌, ◌<ℤ◌, ◌+ℤ◌, ℤ, pos, length, take, drop};
ghost use Rattle.cal_days.specs.Day.{IsBetween, IsRuleYear};
ghost use Rattle.cal_types.specs.CalendarList.{month_number};
ghost use Rattle.cal_east_asian.specs.LeapRows.{leap_rows};
ghost use Rattle.cal_east_asian.specs.TableMonths.{AreComputed, IsFirstNumber, table_list};

use crate::chosen_years::row_at;
use crate::computed_years::computed_months_between;
use crate::east_asian_table::EastAsianTable;
use crate::leap_rows::count_leap_rows;

/// Returns the year from `from` to `to` that is nearest to a year.
fn nearest_year(year: i32, from: i32, to: i32) -> i32
    requires { from ≤ℤ to }
    ensures within { IsBetween from to result }
    ensures before { (y : ℤ) → from ≤ℤ y → y <ℤ result → y <ℤ year }
    ensures after { (y : ℤ) → result ≤ℤ y → y <ℤ to → year ≤ℤ y }
{
    if year < from {
        from
    } else if to < year {
        to
    } else {
        year
    }
}

/// Returns the number of months between the first days of two years if all years from `from` up to `to` are computed.
fn months_without_rows(table: &EastAsianTable<'_>, from: i32, to: i32) -> u32
    requires from { IsRuleYear from }
    requires to { IsRuleYear to }
    requires order { from ≤ℤ to }
    requires computed { AreComputed table.now from to }
    ensures { let list = table_list table.now in month_number list to 1 ≡ month_number list from 1 +ℤ pos result }
{
    if from == to {
        return 0;
    }
    computed_months_between(table.side(), from, to) as u32
}

/// Returns the number of rows with a leap month from one index up to another.
fn leap_rows_between(table: &EastAsianTable<'_>, from: usize, to: usize) -> u32
    requires order { from ≤ to }
    requires within { to ≤ length table.now.rows.now }
    ensures { result ≡ leap_rows (take (to - from) (drop from table.now.rows.now)) }
{
    let rows = table.rows();
    if to - from == rows.len() {
        return table.leap_rows();
    }
    count_leap_rows(&rows[from..to])
}

/// Returns the number of months between the first days of two years if every year from `from` up to `to` has a row.
fn months_of_rows(table: &EastAsianTable<'_>, first: i32, from: i32, to: i32) -> u32
    requires first { IsFirstNumber table.now first }
    requires order { from ≤ℤ to }
    requires places { from <ℤ to → (first ≤ℤ from) × (to ≤ℤ (first +ℤ pos (length table.now.rows.now))) }
    ensures { let list = table_list table.now in month_number list to 1 ≡ month_number list from 1 +ℤ pos result }
{
    if from == to {
        return 0;
    }
    let leaps = leap_rows_between(table, (from - first) as usize, (to - first) as usize);
    12 * (to - from) as u32 + leaps
}

/// Returns the number of months between the first days of two years. `first`: the number of the first row.
fn months_beside_rows(table: &EastAsianTable<'_>, first: i32, from: i32, to: i32) -> u32
    requires first { IsFirstNumber table.now first }
    requires from { IsRuleYear from }
    requires to { IsRuleYear to }
    requires order { from ≤ℤ to }
    ensures { let list = table_list table.now in month_number list to 1 ≡ month_number list from 1 +ℤ pos result }
{
    let start = nearest_year(first, from, to);
    let end = nearest_year(first + table.rows().len() as i32, start, to);
    months_without_rows(table, from, start)
        + months_of_rows(table, first, start, end)
        + months_without_rows(table, end, to)
}

/// Returns the number of months from the first day of a year to the first day of another year, which isn't before it.
pub(crate) fn months_between(table: &EastAsianTable<'_>, from: i32, to: i32) -> u32
    requires from { IsRuleYear from }
    requires to { IsRuleYear to }
    requires order { from ≤ℤ to }
    ensures { let list = table_list table.now in month_number list to 1 ≡ month_number list from 1 +ℤ pos result }
{
    match row_at(table.rows(), 0) {
        None => months_without_rows(table, from, to),
        Some(first) => months_beside_rows(table, first.related_iso, from, to),
    }
}
