//! The rows of tables.
ghost use Rattle.std.specs.Prelude.{◌≡◌, [], MatchResult, Some};
ghost use Rattle.std.specs.Option.{option_map, unwrap_or};
ghost use Rattle.cal_east_asian.specs.EastAsianRows as lunisolar;
ghost use Rattle.cal_hijri.specs.HijriRows as umm_al_qura;
ghost use Rattle.cal_tables.specs.Kinds.{table_contents};
ghost use Rattle.cal_gregory.specs.JapaneseEraList.{eras_up_to_reiwa};
ghost use Rattle.cal_gregory.specs.JapaneseEras.{listed_eras};
ghost use Rattle.request_lines.specs.RowSaid.{row_said};
ghost use Rattle.table_rows.specs.TableRows.{AreAccepted, IsFirstRefused, contents_of, no_rows};

use crate::keeping::{keep, keep_eras, keep_year};
use crate::row_years::{east_asian_row, hijri_row};
use crate::table::{RowFault, Table, TableRefusal};
use cal_east_asian::{EastAsianRow, EastAsianTable, Side};
use cal_errors::TableFault;
use cal_gregory::JapaneseEras;
use cal_hijri::{HijriRow, HijriTable};
use cal_julian::PersianCorrections;
use cal_tables::Tables;
use request_lines::Row;
use std::alloc::Global;

/// The rows of each table, and the eras of Japan if a row named one.
#[derive(Drop)]
pub struct TableRows {
    china: Vec<EastAsianRow>,
    korea: Vec<EastAsianRow>,
    hijri: Vec<HijriRow>,
    persian: Vec<i32>,
    eras: Option<JapaneseEras>,
    ghost china_named: { lunisolar.NameYears china.items },
    ghost korea_named: { lunisolar.NameYears korea.items },
    ghost hijri_named: { umm_al_qura.NameYears hijri.items },
}

/// The result of taking a row line.
#[derive(Clone, Copy, Debug, PartialEq, Eq)]
pub enum Taken {
    /// The row is kept.
    Kept,
    /// The row line is invalid.
    Refused(RowFault),
    /// The row has a year, and there is no memory for it.
    NoMemory,
}

impl TableRows {
    ghost use Rattle.table_rows.specs.RowsSaid.{IsTaken, rows_said};

    /// Creates an empty set of rows. It allocates nothing.
    ///
    /// ```
    /// let rows = TableRows::new(alloc);
    /// assert!(rt; rows.china().is_empty());
    /// ```
    pub fn new(alloc: Global) -> Self
        ensures { rows_said result ≡ no_rows }
    {
        TableRows {
            china: Vec::new(alloc),
            korea: Vec::new(alloc),
            hijri: Vec::new(alloc),
            persian: Vec::new(alloc),
            eras: None,
        }
    }

    /// Takes a row. It is invalid if its year or era doesn't exist, or if it is a second era.
    fn take_row(&mut self, row: Row<'_>) -> Taken
        ensures { IsTaken result (rows_said self.old) (Some (row_said row.entry)) (rows_said self.new) }
    {
        match row {
            Row::China(year) => keep_year(&mut self.china, east_asian_row(&year)),
            Row::Korea(year) => keep_year(&mut self.korea, east_asian_row(&year)),
            Row::Hijri(year) => keep_year(&mut self.hijri, hijri_row(&year)),
            Row::Persian(year) => keep(&mut self.persian, year),
            Row::Era(era) => keep_eras(&mut self.eras, era),
        }
    }

    /// Takes the row of a row line, which is `None` if the line is malformed. A row line is invalid if it is
    /// malformed, its year or era doesn't exist, or it is a second era. Memory is needed only for a row of a year.
    pub fn take(&mut self, row: Option<Row<'_>>) -> Taken
        ensures { IsTaken result (rows_said self.old) (option_map row_said row.entry) (rows_said self.new) }
    {
        match row {
            Some(row) => self.take_row(row),
            None => Taken::Refused(RowFault::Syntax),
        }
    }

    /// Returns the Chinese years, in the order of their lines. They aren't tested, so that they can lengthen a table
    /// ([`EastAsianTable::lengthened`]).
    ///
    /// ```
    /// let rows = TableRows::try_read(alloc, b"row china 1912 698026 lslslslslsls 0\n")?;
    /// assert!(rt; rows.china().len() == 1);
    /// ```
    pub fn china(&self) -> &[EastAsianRow]
        ensures rows { result.now ≡ self.now.china.items }
        ensures named { lunisolar.NameYears result.now }
    {
        &self.china
    }

    /// Returns the Korean years, as [`TableRows::china`] does the Chinese ones.
    ///
    /// ```
    /// let rows = TableRows::try_read(alloc, b"row korea 1912 698026 lslslslslsls 0\n")?;
    /// assert!(rt; rows.korea().len() == 1);
    /// ```
    pub fn korea(&self) -> &[EastAsianRow]
        ensures rows { result.now ≡ self.now.korea.items }
        ensures named { lunisolar.NameYears result.now }
    {
        &self.korea
    }

    /// Returns the years of Umm al-Qura, in the order of their lines. They aren't tested, so that they can lengthen a
    /// table ([`HijriTable::lengthened`]).
    ///
    /// ```
    /// let rows = TableRows::try_read(alloc, b"row hijri 1445 738720 sllslslslsll\n")?;
    /// assert!(rt; rows.umm_al_qura().len() == 1);
    /// ```
    pub fn umm_al_qura(&self) -> &[HijriRow]
        ensures rows { result.now ≡ self.now.hijri.items }
        ensures named { umm_al_qura.NameYears result.now }
    {
        &self.hijri
    }

    /// Returns the tables of these rows. The tables of China, Korea, Umm al-Qura and the corrected Persian years are
    /// tested in this order.
    ///
    /// ```
    /// let rows = TableRows::try_read(alloc, b"row persian 1502\n")?;
    /// let persian = rows.tables()?.persian();
    /// ```
    ///
    /// # Errors
    ///
    /// - [`TableRefusal`] for the first table that isn't accepted, with its first invalid row and part.
    pub fn tables(&self) -> Result<Tables<'_>, TableRefusal>
        ensures { MatchResult result
            (λ t. AreAccepted (rows_said self.now) × (table_contents t ≡ contents_of (rows_said self.now)))
            (λ e. IsFirstRefused (rows_said self.now) e.table e.fault) }
    {
        let china = match EastAsianTable::try_new(Side::China, &self.china) {
            Ok(table) => table,
            Err(fault) => return Err(refusal(Table::China, fault)),
        };
        let korea = match EastAsianTable::try_new(Side::Korea, &self.korea) {
            Ok(table) => table,
            Err(fault) => return Err(refusal(Table::Korea, fault)),
        };
        let hijri = match HijriTable::try_new(&self.hijri) {
            Ok(table) => table,
            Err(fault) => return Err(refusal(Table::Hijri, fault)),
        };
        let persian = match PersianCorrections::try_new(&self.persian) {
            Ok(table) => table,
            Err(fault) => return Err(refusal(Table::Persian, fault)),
        };
        match Tables::try_new(china, korea, hijri, persian, listed(self.eras)) {
            Some(tables) => Ok(tables),
            None => unreachable!(),
        }
    }
}

/// Returns the error for a table with its first fault.
fn refusal(table: Table, fault: TableFault) -> TableRefusal
    ensures table { result.table ≡ table }
    ensures fault { result.fault ≡ fault }
{
    TableRefusal { table, fault }
}

/// Returns the eras that a row named, or the eras up to Reiwa if no row named one.
fn listed(eras: Option<JapaneseEras>) -> JapaneseEras
    ensures { listed_eras result ≡ unwrap_or (option_map listed_eras eras) (eras_up_to_reiwa []) }
{
    match eras {
        Some(eras) => eras,
        None => JapaneseEras::up_to_reiwa(),
    }
}
