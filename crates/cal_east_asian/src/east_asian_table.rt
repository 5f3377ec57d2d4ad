//! Tables of years for China and Korea.

ghost use Rattle.std.specs.Prelude.{◌≡◌, ◌↔◌, [], IsOk, MatchResult};
ghost use Rattle.cal_days.specs.Day.{IsRuleYear};
ghost use Rattle.cal_east_asian.specs.laws.ComputedLaws.{computed_year};
ghost use Rattle.cal_east_asian.specs.EastAsianRows.{NameYears, years_of};
ghost use Rattle.cal_east_asian.specs.LeapRows.{leap_rows as leap_rows_of};
ghost use Rattle.cal_east_asian.specs.LengthenedTables.{IsLengthenFault, KeepsYears, Lengthens};
ghost use Rattle.cal_east_asian.specs.RowsAccepted as by_rows;
ghost use Rattle.cal_east_asian.specs.TableAccepted.{IsAccepted};
ghost use Rattle.cal_east_asian.specs.TableYears as table;
ghost use Rattle.cal_east_asian.specs.TableYears.{HasNoRow, IsRowOf};
ghost use Rattle.cal_east_asian.specs.declared.east_asian_traditional_year.EastAsianTraditionalYear.{EastAsianTraditionalYear};

use crate::chosen_years::chosen_year;
use crate::east_asian_row::EastAsianRow;
use crate::east_asian_traditional_year::EastAsianTraditionalYear;
use crate::leap_rows::count_leap_rows;
use crate::sides::Side;
use crate::table_check::check;
use cal_types::{LengthenFault, TableFault, first_difference};

/// Consecutive years for China or for Korea, which replace the computed years of the same numbers.
///
/// The years are from 1912 to 9999, and each row names its year. Each row starts on the day after the year before it.
/// The computed year after the last row starts on the day after that row. One of any three consecutive years has a
/// leap month.
///
/// [`EastAsianTable::try_new`] checks rows. [`EastAsianTable::none`] creates a table without rows.
#[derive(Clone, Copy, Debug)]
pub struct EastAsianTable<'t> {
    side: Side,
    /// The number of rows with a leap month, so that sums and differences over all rows don't have to read each row.
    leap_rows: u32,
    rows: &'t [EastAsianRow],
    ghost accepted: { IsAccepted (computed_year side) (years_of rows.now) },
    ghost named: { NameYears rows.now },
    ghost counted: { leap_rows ≡ leap_rows_of rows.now },
}

impl<'t> EastAsianTable<'t> {
    /// Creates a table without rows: **every year is computed**, and may begin a day or a month before or after the
    /// published one.
    ///
    /// The crate `published_years` has tables of the published years (`china_table`, `korea_table`). For rows of your own,
    /// use [`EastAsianTable::try_new`].
    ///
    /// ```
    /// let computed = ChineseTraditional::new(EastAsianTable::none(Side::China));
    /// let published = ChineseTraditional::new(published::china_table());
    /// ```
    pub fn none(side: Side) -> EastAsianTable<'t>
        ensures side { result.side ≡ side }
        ensures rows { result.rows.now ≡ [] }
    {
        EastAsianTable {
            side,
            leap_rows: 0,
            rows: &[],
        }
    }

    /// Creates a table from rows that are known to be accepted for a side, without checking them. For constant data,
    /// acceptance can be proved by computation.
    ///
    /// The rows with a leap month are counted; [`EastAsianTable::with_leap_rows`] reads no row.
    ///
    /// ```text
    /// let table = EastAsianTable::new(Side::China, &ROWS);
    /// ```
    pub fn new(side: Side, rows: &'t [EastAsianRow]) -> EastAsianTable<'t>
        requires { by_rows.IsAccepted (computed_year side) rows.now }
        ensures side { result.side ≡ side }
        ensures rows { result.rows.now ≡ rows.now }
    {
        EastAsianTable {
            side,
            leap_rows: count_leap_rows(rows),
            rows,
        }
    }

    /// Creates a table from rows that are known to be accepted for a side, and the number of rows with a leap month.
    /// No row is read.
    ///
    /// ```text
    /// static ROWS: [EastAsianRow; 188] = ..; // 1912 to 2099
    /// let table = EastAsianTable::with_leap_rows(Side::China, &ROWS, 69);
    /// ```
    pub fn with_leap_rows(
        side: Side,
        rows: &'t [EastAsianRow],
        leap_rows: u32,
    ) -> EastAsianTable<'t>
        requires accepted { by_rows.IsAccepted (computed_year side) rows.now }
        requires counted { leap_rows ≡ leap_rows_of rows.now }
        ensures side { result.side ≡ side }
        ensures rows { result.rows.now ≡ rows.now }
    {
        EastAsianTable {
            side,
            leap_rows,
            rows,
        }
    }

    /// Creates a table for a side from rows.
    ///
    /// # Errors
    ///
    /// Fails with a [`TableFault`] that names the first row, counted from 1, that breaks a rule, and the first rule
    /// that it breaks:
    ///
    /// - [`Range`](cal_types::TablePart::Range) if the row names no year: a field is out of its range
    ///   ([`EastAsianRow`]).
    /// - [`Year`](cal_types::TablePart::Year) if the year of the first row is below 1912, the year of another row isn't
    ///   one more than the year of the row before it, or a year is above 9999.
    /// - [`Join`](cal_types::TablePart::Join) if the row doesn't start on the day after the row before it, or the
    ///   first row doesn't start on the day after the computed year before it.
    /// - [`End`](cal_types::TablePart::End) if the computed year after the last row doesn't start on the day after
    ///   that row.
    /// - [`Leap`](cal_types::TablePart::Leap) if neither the row's year nor one of the two years before it has a leap
    ///   month. The last row also breaks this rule if the same holds for the first or the second year after it. A
    ///   year without a row counts as its computed year.
    ///
    /// # Examples
    ///
    /// ```
    /// let rows = published::china_table().rows();
    /// let table = EastAsianTable::try_new(Side::China, rows)?;
    /// assert!(rt; table.rows().len() == 188);
    /// ```
    pub fn try_new(side: Side, rows: &'t [EastAsianRow]) -> Result<EastAsianTable<'t>, TableFault>
        ensures first { MatchResult result (λ made. (made.side ≡ side) × (made.rows.now ≡ rows.now))
            (by_rows.IsFirstFault (computed_year side) rows.now) }
        ensures exact { IsOk result ↔ by_rows.IsAccepted (computed_year side) rows.now }
    {
        match check(side, rows) {
            Ok(()) => Ok(EastAsianTable {
                side,
                leap_rows: count_leap_rows(rows),
                rows,
            }),
            Err(fault) => Err(fault),
        }
    }

    /// Creates a table for the same side from longer rows, which begin with the rows of this table. Every year that
    /// isn't among the added rows keeps its first day and its months.
    ///
    /// Rows are equal if their years ([`EastAsianRow::year`]) have the same number, first day, months and leap month.
    /// No memory is allocated.
    ///
    /// # Errors
    ///
    /// - [`LengthenFault::Differs`] if a row of this table has no equal row in the same place of `rows`, for example
    ///   because there are fewer `rows`. It names the first row without an equal one, counted from 1.
    /// - [`LengthenFault::Table`] otherwise, with the error that [`EastAsianTable::try_new`] finds in `rows`.
    ///
    /// # Examples
    ///
    /// ```
    /// let table = EastAsianTable::try_new(Side::China, &rows[..50])?;
    /// let lengthened = table.lengthened(&rows)?;
    /// ```
    pub fn lengthened<'u>(
        &self,
        rows: &'u [EastAsianRow],
    ) -> Result<EastAsianTable<'u>, LengthenFault>
        ensures first { MatchResult result (λ made. (made.side ≡ self.now.side) × (made.rows.now ≡ rows.now))
            (IsLengthenFault self.now.side self.now.rows.now rows.now) }
        ensures exact { IsOk result ↔ Lengthens self.now.side self.now.rows.now rows.now }
        ensures kept { IsOk result → KeepsYears self.now.side self.now.rows.now rows.now }
    {
        if let Some(row) = first_difference(self.rows, rows) {
            return Err(LengthenFault::Differs { row });
        }
        match EastAsianTable::try_new(self.side, rows) {
            Ok(table) => Ok(table),
            Err(fault) => Err(LengthenFault::Table(fault)),
        }
    }

    /// Returns the side that the table is for.
    ///
    /// ```
    /// assert!(rt; published::korea_table().side() == Side::Korea);
    /// ```
    pub fn side(&self) -> Side
        ensures { result ≡ self.now.side }
    {
        self.side
    }

    /// Returns the rows. Each of them names a year.
    ///
    /// ```
    /// assert!(rt; published::china_table().rows().len() == 188); // 1912 to 2099
    /// ```
    pub fn rows(&self) -> &'t [EastAsianRow]
        ensures rows { result.now ≡ self.now.rows.now }
        ensures named { NameYears result.now }
    {
        self.rows
    }

    /// Returns the number of rows with a leap month.
    pub(crate) fn leap_rows(&self) -> u32
        ensures { result ≡ leap_rows_of self.now.rows.now }
    {
        self.leap_rows
    }

    /// Returns the row of a year from -8000000 to 8000000, or the computed year if it has none.
    pub(crate) fn year(&self, related_iso: i32) -> EastAsianTraditionalYear
        requires { IsRuleYear related_iso }
        ensures exact { result
            ≡ table.chosen_year (computed_year self.now.side) (years_of self.now.rows.now) related_iso }
        ensures row { (row : EastAsianTraditionalYear) → IsRowOf (years_of self.now.rows.now) related_iso row
            → result ≡ row }
        ensures other { HasNoRow (years_of self.now.rows.now) related_iso
            → result ≡ computed_year self.now.side related_iso }
        ensures number { result.related_iso ≡ related_iso }
    {
        chosen_year(self.side, self.rows, related_iso)
    }
}
