//! Tables of the years of a Hijri calendar, as observed or computed elsewhere.

ghost use Rattle.std.specs.Prelude.{◌≡◌, ◌≢◌, ℕ, ◌<◌, ◌+◌, ◌&&◌, ◌||◌, int_le, length, slice_get, [], Some, IsTrue, IfSome, IsNone, IsOk, ◌↔◌, MatchOption, MatchResult, pos};
ghost use Rattle.cal_days.specs.Day.{IsRuleYear};
ghost use Rattle.std.specs.Cmp.Lexicographic.{pointwise};
ghost use Rattle.cal_hijri.specs.HijriRows.{NameYears, is_same_row, row_year, years_of};
ghost use Rattle.cal_hijri.specs.TableFriday as beside;
ghost use Rattle.cal_hijri.specs.TableYears as table;
ghost use Rattle.cal_hijri.specs.LengthenedTables.{is_equal_year, IsLengthenFault, KeepsYears, Lengthens};
ghost use Rattle.cal_hijri.specs.RowsAccepted as by_rows;
ghost use Rattle.cal_hijri.specs.SameRows.{are_same_rows};
ghost use Rattle.cal_hijri.specs.TableAccepted.{IsRow, IsTableYear, row_before, is_next, end_day, follows, joins, ends, meets, MeetsAll, IsAccepted, IsFirstBroken, IsFirstFault};
ghost use Rattle.cal_hijri.specs.declared.hijri_year.HijriYear.{HijriYear};
ghost use Rattle.cal_errors.specs.declared.errors.TablePart.TheVariants as parts;

use crate::hijri_row::HijriRow;
use crate::hijri_year::{HijriYear, days_before_month};
use crate::tabular_algorithm::{
    TabularAlgorithm, TabularAlgorithmEpoch, TabularAlgorithmLeapYears, tabular_year,
};
use cal_types::{LengthenFault, Row, TableFault, TablePart, first_difference};

/// Consecutive years that replace the tabular years of type II with the epoch Friday.
///
/// The years are from 1 to 9999, and each row names its year. Each row starts on the day after the year before it. The
/// tabular year after the last row starts on the day after that row.
#[derive(Clone, Copy, Debug)]
pub struct HijriTable<'t> {
    rows: &'t [HijriRow],
    ghost accepted: { IsAccepted beside.friday_year (years_of rows.now) },
    ghost named: { NameYears rows.now },
}

impl<'t> HijriTable<'t> {
    /// Creates a table without rows: **every year is computed**, as the tabular year. It and its months may begin a
    /// day or more before or after the published ones.
    ///
    /// The crate `published_years` has the table of the published years (`umm_al_qura_table`). For rows of your own,
    /// use [`HijriTable::try_new`].
    ///
    /// ```
    /// let computed = Hijri::new_umm_al_qura(HijriTable::none());
    /// let published = Hijri::new_umm_al_qura(published::umm_al_qura_table());
    /// ```
    pub fn none() -> HijriTable<'t>
        ensures { result.rows.now ≡ [] }
    {
        HijriTable { rows: &[] }
    }

    /// Creates a table from rows that are known to be accepted, without checking them. For constant data, acceptance
    /// can be proved by computation.
    ///
    /// ```text
    /// static ROWS: [HijriRow; 301] = ..; // 1300 to 1600
    /// let table = HijriTable::new(&ROWS);
    /// ```
    pub fn new(rows: &'t [HijriRow]) -> HijriTable<'t>
        requires { by_rows.IsAccepted beside.friday_year rows.now }
        ensures { result.rows.now ≡ rows.now }
    {
        HijriTable { rows }
    }

    /// Creates a table from rows.
    ///
    /// # Errors
    ///
    /// Fails with a [`TableFault`] that names the first row, counted from 1, that breaks a rule, and the first rule
    /// that it breaks:
    ///
    /// - [`TablePart::Range`] if the row names no year: a field is out of its range ([`HijriRow`]).
    /// - [`TablePart::Year`] if the year of the first row is below 1, the year of another row isn't one more than the
    ///   year of the row before it, or a year is above 9999.
    /// - [`TablePart::Join`] if the row doesn't start on the day after the row before it, or the first row doesn't
    ///   start on the day after the tabular year before it.
    /// - [`TablePart::End`] if the tabular year after the last row doesn't start on the day after that row.
    ///
    /// # Examples
    ///
    /// ```
    /// let rows = published::umm_al_qura_table().rows();
    /// let table = HijriTable::try_new(rows)?;
    /// assert!(rt; table.rows().len() == 301); // 1300 to 1600
    /// ```
    pub fn try_new(rows: &'t [HijriRow]) -> Result<HijriTable<'t>, TableFault>
        ensures first { MatchResult result (λ made. made.rows.now ≡ rows.now)
            (by_rows.IsFirstFault beside.friday_year rows.now) }
        ensures exact { IsOk result ↔ by_rows.IsAccepted beside.friday_year rows.now }
    {
        match check(rows) {
            Ok(()) => Ok(HijriTable { rows }),
            Err(fault) => Err(fault),
        }
    }

    /// Creates a table from longer rows, which begin with the rows of this table. Every year that isn't among the
    /// added rows keeps its first day and its months.
    ///
    /// Rows are equal if their years ([`HijriRow::year`]) have the same extended year, first day and months. No
    /// memory is allocated.
    ///
    /// # Errors
    ///
    /// - [`LengthenFault::Differs`] if a row of this table has no equal row in the same place of `rows`, for example
    ///   because there are fewer `rows`. It names the first row without an equal one, counted from 1.
    /// - [`LengthenFault::Table`] otherwise, with the error that [`HijriTable::try_new`] finds in `rows`.
    ///
    /// # Examples
    ///
    /// ```
    /// let table = HijriTable::try_new(&rows[..50])?;
    /// let lengthened = table.lengthened(&rows)?;
    /// ```
    pub fn lengthened<'u>(&self, rows: &'u [HijriRow]) -> Result<HijriTable<'u>, LengthenFault>
        ensures first { MatchResult result (λ made. made.rows.now ≡ rows.now)
            (IsLengthenFault self.now.rows.now rows.now) }
        ensures exact { IsOk result ↔ Lengthens self.now.rows.now rows.now }
        ensures kept { IsOk result → KeepsYears self.now.rows.now rows.now }
    {
        if let Some(row) = first_difference(self.rows, rows) {
            return Err(LengthenFault::Differs { row });
        }
        match HijriTable::try_new(rows) {
            Ok(table) => Ok(table),
            Err(fault) => Err(LengthenFault::Table(fault)),
        }
    }

    /// Returns the rows. Each of them names a year.
    ///
    /// ```
    /// assert!(rt; published::umm_al_qura_table().rows().len() == 301);
    /// ```
    pub fn rows(&self) -> &'t [HijriRow]
        ensures rows { result.now ≡ self.now.rows.now }
        ensures named { NameYears result.now }
    {
        self.rows
    }

    /// Returns whether another table has the same number of rows, with the same extended years, first days and
    /// months.
    pub(crate) fn has_rows_of(&self, other: &HijriTable<'t>) -> bool
        ensures { result ≡ are_same_rows (years_of self.now.rows.now) (years_of other.now.rows.now) }
    {
        are_same_rows(self.rows, other.rows)
    }

    /// Returns the row of a year, or the tabular year if it has none.
    pub(crate) fn year(&self, extended_year: i32) -> HijriYear
        requires { IsRuleYear extended_year }
        ensures chosen { result ≡ table.chosen beside.friday_year (years_of self.now.rows.now) extended_year }
        ensures row { (i : ℕ) (row : HijriYear) → IsRow (years_of self.now.rows.now) i row
            → row.extended_year ≡ extended_year → result ≡ row }
        ensures other { ((i : ℕ) (row : HijriYear) → IsRow (years_of self.now.rows.now) i row
            → row.extended_year ≢ extended_year) → result ≡ beside.friday_year extended_year }
    {
        chosen(self.rows, extended_year)
    }
}

/// Returns whether two years have the same extended year, first day and months.
fn is_equal_year(year: HijriYear, other: HijriYear) -> bool
    ensures { result ≡ is_equal_year year other }
{
    year.extended_year == other.extended_year
        && year.first_day == other.first_day
        && year.long_months % 4096 == other.long_months % 4096
}

impl Row for HijriRow {
    ghost use Rattle.cal_hijri.specs.LengthenedTables.{is_equal_row};

    ghost equal = { is_equal_row };

    fn is_equal_row(self, other: HijriRow) -> bool {
        is_equal_year(self.year(), other.year())
    }
}

/// Returns the row of a year, or the tabular year if it has none.
fn chosen(rows: &[HijriRow], extended_year: i32) -> HijriYear
    requires { IsRuleYear extended_year }
    ensures { result ≡ table.chosen beside.friday_year (years_of rows.now) extended_year }
{
    match row_of(rows, extended_year) {
        Some(row) => row,
        None => friday_year(extended_year),
    }
}

/// Returns whether the years of two rows have the same extended year, first day and months.
fn is_same_row(row: HijriRow, other: HijriRow) -> bool
    ensures { result ≡ is_same_row row other }
{
    row.year().has_parts_of(other.year())
}

/// Returns whether two lists have the same number of rows, with the same extended years, first days and months.
fn are_same_rows(rows: &[HijriRow], others: &[HijriRow]) -> bool
    ensures { result ≡ pointwise is_same_row rows.now others.now }
{
    if rows.len() != others.len() {
        return false;
    }
    let mut index = 0;
    'rows: while index < rows.len() {
        if !is_same_row(rows[index], others[index]) {
            return false;
        }
        index += 1;
    }
    true
}

/// Returns the tabular year of type II with the epoch Friday.
fn friday_year(extended_year: i32) -> HijriYear
    requires { IsRuleYear extended_year }
    ensures { result ≡ beside.friday_year extended_year }
{
    let rules = TabularAlgorithm::new(
        TabularAlgorithmLeapYears::TypeII,
        TabularAlgorithmEpoch::Friday,
    );
    tabular_year(rules, extended_year)
}

/// Returns the row at an index, counted from 0, if there is one.
fn row_in(rows: &[HijriRow], index: usize) -> Option<HijriRow>
    ensures { result ≡ slice_get rows.now index }
{
    rows.get(index).copied()
}

/// Returns the year of the row at an index, counted from 0, if there is one.
fn row_at(rows: &[HijriRow], index: usize) -> Option<HijriYear>
    ensures { result ≡ slice_get (years_of rows.now) index }
{
    match rows.get(index) {
        Some(row) => Some(row.year()),
        None => None,
    }
}

/// Returns the row of a year, if it has one. Rows are consecutive, so its index follows from the year of the first
/// row.
fn row_of(rows: &[HijriRow], extended_year: i32) -> Option<HijriYear>
    requires { IsRuleYear extended_year }
    ensures { result ≡ table.row_of (years_of rows.now) extended_year }
{
    match row_at(rows, 0) {
        None => None,
        Some(first) => {
            if extended_year < first.extended_year {
                None
            } else {
                let place = i64::from(extended_year) - i64::from(first.extended_year);
                row_at(rows, place as usize)
            }
        }
    }
}

/// Returns the day after the last day of a year.
fn end_day(year: HijriYear) -> i64
    ensures { result ≡ end_day year }
{
    year.first_day + i64::from(days_before_month(year.long_months, 13))
}

/// Returns whether a year starts on the day after another one.
fn follows(before: HijriYear, row: HijriYear) -> bool
    ensures { result ≡ follows before row }
{
    row.first_day == end_day(before)
}

/// Returns the year of the row before the row at an index, if there is one.
fn row_before(rows: &[HijriRow], index: usize) -> Option<HijriYear>
    ensures { result ≡ row_before (years_of rows.now) index }
{
    if index == 0 {
        None
    } else {
        row_at(rows, index - 1)
    }
}

/// Returns whether the year of a row is one more than the year of the row before it, or at least 1 for the first row.
fn is_next(before: Option<HijriYear>, row: HijriYear) -> bool
    requires { IfSome before (λ before. IsTableYear before.extended_year) }
    ensures { result ≡ is_next before row }
{
    match before {
        None => 1 <= row.extended_year,
        Some(before) => row.extended_year == before.extended_year + 1,
    }
}

/// Returns whether a row starts on the day after the year before it.
fn joins(before: Option<HijriYear>, row: HijriYear) -> bool
    requires { IsTableYear row.extended_year }
    ensures { result ≡ joins beside.friday_year before row }
{
    match before {
        None => follows(friday_year(row.extended_year - 1), row),
        Some(before) => follows(before, row),
    }
}

/// Returns whether the tabular year after a row starts on the day after it.
fn ends(row: HijriYear) -> bool
    requires { IsTableYear row.extended_year }
    ensures { result ≡ ends beside.friday_year row }
{
    follows(row, friday_year(row.extended_year + 1))
}

/// Returns whether the year of a row meets [`TablePart::Year`].
fn meets_year(rows: &[HijriRow], index: usize, row: HijriYear) -> bool
    requires { IfSome (row_before (years_of rows.now) index) (λ before. IsTableYear before.extended_year) }
    ensures exact { result ≡ (is_next (row_before (years_of rows.now) index) row
        && int_le row.extended_year (pos 9999)) }
    ensures year { IsTrue result → IsTableYear row.extended_year }
{
    is_next(row_before(rows, index), row) && row.extended_year <= 9999
}

/// Returns whether a row meets [`TablePart::End`], which is a rule for the last row.
fn meets_end(rows: &[HijriRow], index: usize, row: HijriYear) -> bool
    requires within { index < length (years_of rows.now) }
    requires year { IsTableYear row.extended_year }
    ensures { result ≡ meets beside.friday_year (years_of rows.now) index row parts.End }
{
    index + 1 < rows.len() || ends(row)
}

/// Returns the first rule that the year of a row breaks.
fn first_broken_of_year(rows: &[HijriRow], index: usize, row: HijriYear) -> Option<TablePart>
    requires row { IsRow (years_of rows.now) index row }
    requires before { IfSome (row_before (years_of rows.now) index) (λ before. IsTableYear before.extended_year) }
    ensures first { MatchOption result (MeetsAll beside.friday_year (years_of rows.now) index row)
        (IsFirstBroken beside.friday_year (years_of rows.now) index row) }
    ensures year { IsNone result → IsTableYear row.extended_year }
{
    if !meets_year(rows, index, row) {
        return Some(TablePart::Year);
    }
    if !joins(row_before(rows, index), row) {
        return Some(TablePart::Join);
    }
    if !meets_end(rows, index, row) {
        return Some(TablePart::End);
    }
    None
}

/// Returns the first rule that a row breaks.
fn first_broken(rows: &[HijriRow], index: usize, row: HijriRow) -> Option<TablePart>
    requires row { slice_get rows.now index ≡ Some row }
    requires before { IfSome (row_before (years_of rows.now) index) (λ before. IsTableYear before.extended_year) }
    ensures first { MatchOption result (by_rows.MeetsAll beside.friday_year rows.now index row)
        (by_rows.IsFirstBroken beside.friday_year rows.now index row) }
    ensures year { IsNone result → IsTableYear (row_year row).extended_year }
{
    if !row.names_year() {
        return Some(TablePart::Range);
    }
    first_broken_of_year(rows, index, row.year())
}

/// Checks rows, and returns the first row that breaks a rule, and the first rule that it breaks.
fn check(rows: &[HijriRow]) -> Result<(), TableFault>
    ensures first { MatchResult result (λ _. by_rows.IsAccepted beside.friday_year rows.now)
        (by_rows.IsFirstFault beside.friday_year rows.now) }
    ensures exact { IsOk result ↔ by_rows.IsAccepted beside.friday_year rows.now }
{
    let mut index = 0;
    'rows: while let Some(row) = row_in(rows, index) {
        if let Some(part) = first_broken(rows, index, row) {
            return Err(TableFault {
                row: index + 1,
                part,
            });
        }
        index += 1;
    }
    Ok(())
}
