//! Checks the rows of a table.

ghost use Rattle.std.specs.Prelude.{◌≡◌, ◌↔◌, ◌<◌, ◌+◌, ◌&&◌, ◌||◌, nat_lt, int_le, length, slice_get, Some, IsTrue, IfSome, IsNone, IsOk, MatchOption, MatchResult, pos};
ghost use Rattle.cal_days.specs.Day.{IsBetween};
ghost use Rattle.cal_east_asian.specs.laws.ComputedLaws as computed;
ghost use Rattle.cal_east_asian.specs.EastAsianYears as years;
ghost use Rattle.cal_east_asian.specs.EastAsianRows.{row_year, years_of};
ghost use Rattle.cal_east_asian.specs.RowsAccepted as by_rows;
ghost use Rattle.cal_east_asian.specs.TableYears as table;
ghost use Rattle.cal_east_asian.specs.TableYears.{IsRow};
ghost use Rattle.cal_east_asian.specs.TableAccepted.{IsTableYear, row_before, is_next, follows, joins, ends, leap_by_years, leaps_after, meets, MeetsAll, IsFirstBroken};
ghost use Rattle.cal_errors.specs.declared.errors.TablePart.TheVariants as parts;

use crate::chosen_years::{chosen_year, row_at};
use crate::computed_years::computed_year;
use crate::east_asian_months::days_in_year;
use crate::east_asian_row::EastAsianRow;
use crate::east_asian_traditional_year::EastAsianTraditionalYear;
use crate::sides::Side;
use cal_types::{TableFault, TablePart};

/// Returns the day after the last day of a year.
fn end_day(year: EastAsianTraditionalYear) -> i64
    ensures { result ≡ years.end_day year }
{
    year.new_year + i64::from(days_in_year(year.leap_month, year.long_months))
}

/// Returns whether a year starts on the day after another one.
fn follows(before: EastAsianTraditionalYear, row: EastAsianTraditionalYear) -> bool
    ensures { result ≡ follows before row }
{
    row.new_year == end_day(before)
}

/// Returns the year of the row before the row at an index, if there is one.
fn row_before(rows: &[EastAsianRow], index: usize) -> Option<EastAsianTraditionalYear>
    ensures { result ≡ row_before (years_of rows.now) index }
{
    if index == 0 {
        None
    } else {
        row_at(rows, index - 1)
    }
}

/// Returns whether the year of a row is one more than the year of the row before it, or at least 1912 for the first
/// row.
fn is_next(before: Option<EastAsianTraditionalYear>, row: EastAsianTraditionalYear) -> bool
    requires { IfSome before (λ before. IsTableYear before.related_iso) }
    ensures { result ≡ is_next before row }
{
    match before {
        None => 1912 <= row.related_iso,
        Some(before) => row.related_iso == before.related_iso + 1,
    }
}

/// Returns whether a row starts on the day after the year before it.
fn joins(
    side: Side,
    before: Option<EastAsianTraditionalYear>,
    row: EastAsianTraditionalYear,
) -> bool
    requires { IsTableYear row.related_iso }
    ensures { result ≡ joins (computed.computed_year side) before row }
{
    match before {
        None => follows(computed_year(side, row.related_iso - 1), row),
        Some(before) => follows(before, row),
    }
}

/// Returns whether the computed year after a row starts on the day after it.
fn ends(side: Side, row: EastAsianTraditionalYear) -> bool
    requires { IsTableYear row.related_iso }
    ensures { result ≡ ends (computed.computed_year side) row }
{
    follows(row, computed_year(side, row.related_iso + 1))
}

/// Returns whether one of three years has a leap month.
fn is_one_leap(
    year: EastAsianTraditionalYear,
    before: EastAsianTraditionalYear,
    first: EastAsianTraditionalYear,
) -> bool
    ensures { result ≡ (years.has_leap_month year || (years.has_leap_month before || years.has_leap_month first)) }
{
    year.leap_month != 0 || before.leap_month != 0 || first.leap_month != 0
}

/// Returns whether a year or one of the two years before it has a leap month.
fn is_leap_in_three(side: Side, rows: &[EastAsianRow], related_iso: i32) -> bool
    requires { IsBetween (pos 1912) (pos 10001) related_iso }
    ensures { result ≡ leap_by_years (table.chosen_year (computed.computed_year side) (years_of rows.now)) related_iso }
{
    is_one_leap(
        chosen_year(side, rows, related_iso),
        chosen_year(side, rows, related_iso - 1),
        chosen_year(side, rows, related_iso - 2),
    )
}

/// Returns whether there is a leap month in the three years up to the first year after a row, and also in the three
/// years up to the second year after it.
fn leaps_after(side: Side, rows: &[EastAsianRow], row: EastAsianTraditionalYear) -> bool
    requires { IsTableYear row.related_iso }
    ensures { result ≡ leaps_after (table.chosen_year (computed.computed_year side) (years_of rows.now)) row }
{
    is_leap_in_three(side, rows, row.related_iso + 1)
        && is_leap_in_three(side, rows, row.related_iso + 2)
}

/// Returns whether the year of a row meets [`TablePart::Year`].
fn meets_year(rows: &[EastAsianRow], index: usize, row: EastAsianTraditionalYear) -> bool
    requires { IfSome (row_before (years_of rows.now) index) (λ before. IsTableYear before.related_iso) }
    ensures exact { result ≡ (is_next (row_before (years_of rows.now) index) row && int_le row.related_iso (pos 9999)) }
    ensures year { IsTrue result → IsTableYear row.related_iso }
{
    is_next(row_before(rows, index), row) && row.related_iso <= 9999
}

/// Returns whether a row meets [`TablePart::End`], which is a rule for the last row.
fn meets_end(side: Side, rows: &[EastAsianRow], index: usize, row: EastAsianTraditionalYear) -> bool
    requires within { index < length (years_of rows.now) }
    requires year { IsTableYear row.related_iso }
    ensures { result ≡ meets (computed.computed_year side) (years_of rows.now) index row parts.End }
{
    index + 1 < rows.len() || ends(side, row)
}

/// Returns whether the years after a row meet [`TablePart::Leap`], which is a rule for the last row.
fn has_leaps_after(
    side: Side,
    rows: &[EastAsianRow],
    index: usize,
    row: EastAsianTraditionalYear,
) -> bool
    requires within { index < length (years_of rows.now) }
    requires year { IsTableYear row.related_iso }
    ensures { result ≡ (nat_lt (index + 1) (length (years_of rows.now))
        || leaps_after (table.chosen_year (computed.computed_year side) (years_of rows.now)) row) }
{
    index + 1 < rows.len() || leaps_after(side, rows, row)
}

/// Returns whether there is a leap month in the three years up to the row's year, and for the last row also in the
/// three years up to the first and up to the second year after it.
fn meets_leap(
    side: Side,
    rows: &[EastAsianRow],
    index: usize,
    row: EastAsianTraditionalYear,
) -> bool
    requires within { index < length (years_of rows.now) }
    requires year { IsTableYear row.related_iso }
    ensures { result ≡ meets (computed.computed_year side) (years_of rows.now) index row parts.Leap }
{
    is_leap_in_three(side, rows, row.related_iso) && has_leaps_after(side, rows, index, row)
}

/// Returns the first rule that the year of a row breaks.
fn first_broken_of_year(
    side: Side,
    rows: &[EastAsianRow],
    index: usize,
    row: EastAsianTraditionalYear,
) -> Option<TablePart>
    requires row { IsRow (years_of rows.now) index row }
    requires before { IfSome (row_before (years_of rows.now) index) (λ before. IsTableYear before.related_iso) }
    ensures first { MatchOption result (MeetsAll (computed.computed_year side) (years_of rows.now) index row)
        (IsFirstBroken (computed.computed_year side) (years_of rows.now) index row) }
    ensures year { IsNone result → IsTableYear row.related_iso }
{
    if !meets_year(rows, index, row) {
        return Some(TablePart::Year);
    }
    if !joins(side, row_before(rows, index), row) {
        return Some(TablePart::Join);
    }
    if !meets_end(side, rows, index, row) {
        return Some(TablePart::End);
    }
    if !meets_leap(side, rows, index, row) {
        return Some(TablePart::Leap);
    }
    None
}

/// Returns the row at an index, counted from 0, if there is one.
fn row_in(rows: &[EastAsianRow], index: usize) -> Option<EastAsianRow>
    ensures { result ≡ slice_get rows.now index }
{
    rows.get(index).copied()
}

/// Returns the first rule that a row breaks.
fn first_broken(
    side: Side,
    rows: &[EastAsianRow],
    index: usize,
    row: EastAsianRow,
) -> Option<TablePart>
    requires row { slice_get rows.now index ≡ Some row }
    requires before { IfSome (row_before (years_of rows.now) index) (λ before. IsTableYear before.related_iso) }
    ensures first { MatchOption result (by_rows.MeetsAll (computed.computed_year side) rows.now index row)
        (by_rows.IsFirstBroken (computed.computed_year side) rows.now index row) }
    ensures year { IsNone result → IsTableYear (row_year row).related_iso }
{
    if !row.names_year() {
        return Some(TablePart::Range);
    }
    first_broken_of_year(side, rows, index, row.year())
}

/// Checks rows, and returns the first row that breaks a rule, and the first rule that it breaks.
pub(crate) fn check(side: Side, rows: &[EastAsianRow]) -> Result<(), TableFault>
    ensures first { MatchResult result (λ _. by_rows.IsAccepted (computed.computed_year side) rows.now)
        (by_rows.IsFirstFault (computed.computed_year side) rows.now) }
    ensures exact { IsOk result ↔ by_rows.IsAccepted (computed.computed_year side) rows.now }
{
    let mut index = 0;
    'rows: while let Some(row) = row_in(rows, index) {
        if let Some(part) = first_broken(side, rows, index, row) {
            return Err(TableFault {
                row: index + 1,
                part,
            });
        }
        index += 1;
    }
    Ok(())
}
