//! Appending rows to their tables.

ghost use Rattle.std.specs.Option.{option_map};
ghost use Rattle.cal_gregory.specs.JapaneseEras.{listed_eras};
ghost use Rattle.request_lines.specs.RowSaid.{era_row_said};
ghost use Rattle.table_rows.specs.TableRows.{eras_of_row};
ghost use Rattle.table_rows.specs.RowsSaid.{AreErasKept, IsKept, IsYearKept};

use crate::rows::Taken;
use crate::table::RowFault;
use cal_gregory::{EraStartDate, JapaneseEras};
use request_lines::{EraRow, RowDate};

/// Appends a row to its table.
pub(crate) fn keep<T: Drop>(rows: &mut Vec<T>, row: T) -> Taken
    ensures { IsKept result rows.old.items row rows.new.items }
{
    match rows.push(row) {
        Ok(()) => Taken::Kept,
        Err(_) => Taken::NoMemory,
    }
}

/// Keeps the era of a row. A second era is invalid.
pub(crate) fn keep_eras(eras: &mut Option<JapaneseEras>, row: EraRow<'_>) -> Taken
    ensures { let before = option_map listed_eras eras.old in
        let read = eras_of_row (era_row_said row.entry) in
        AreErasKept result before read (option_map listed_eras eras.new) }
{
    if eras.is_some() {
        return Taken::Refused(RowFault::Syntax);
    }
    let RowDate { year, month, day } = row.start;
    let start = EraStartDate { year, month, day };
    match JapaneseEras::with_last_era(start, row.code(), row.index) {
        Some(listed) => {
            *eras = Some(listed);
            Taken::Kept
        }
        None => Taken::Refused(RowFault::Range),
    }
}

/// Appends the year of a row line to its table if the year exists.
pub(crate) fn keep_year<R: Drop>(rows: &mut Vec<R>, year: Option<R>) -> Taken
    ensures { IsYearKept result year rows.old.items rows.new.items }
{
    match year {
        Some(year) => keep(rows, year),
        None => Taken::Refused(RowFault::Range),
    }
}
