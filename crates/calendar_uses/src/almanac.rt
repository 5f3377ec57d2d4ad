//! An almanac, which has published years of its own.

ghost use Rattle.std.specs.Prelude.{IfOk};
ghost use Rattle.icu_calendar.specs.IsoSystem.{iso_date};
ghost use Rattle.calendar_uses.specs.Almanac.{IsNewYearByRows};

use icu_calendar::rows::{RowsError, TableRefusal, TableRows};
use icu_calendar::{Date, Iso, LunisolarDateError, Month};
use std::alloc::Global;
use thiserror::Error;

/// Why an almanac has no new year.
#[derive(Clone, Copy, Debug, PartialEq, Error)]
pub enum AlmanacError {
    /// The text isn't rows.
    #[error(transparent)]
    Text(RowsError),
    /// The rows aren't accepted.
    #[error(transparent)]
    Rows(TableRefusal),
    /// The year doesn't exist.
    #[error(transparent)]
    Year(LunisolarDateError),
}

/// Returns the Chinese new year of a year, in ISO, with the rows of a text in place of computed years.
///
/// # Errors
///
/// - [`AlmanacError`] if the text isn't rows, if its rows aren't accepted, or if the year doesn't exist.
pub fn new_year_by_rows(alloc: Global, text: &[u8], year: i32) -> Result<Date<Iso>, AlmanacError>
    ensures { IfOk result (λ d. IsNewYearByRows text.now year (iso_date d.inner)) }
{
    let rows = match TableRows::try_read(alloc, text) {
        Ok(rows) => rows,
        Err(fault) => return Err(AlmanacError::Text(fault)),
    };
    let tables = match rows.tables() {
        Ok(tables) => tables,
        Err(refusal) => return Err(AlmanacError::Rows(refusal)),
    };
    match Date::try_new_chinese_traditional(year, Month::new(1), 1, tables.chinese()) {
        Ok(new_year) => Ok(new_year.to_iso()),
        Err(fault) => Err(AlmanacError::Year(fault)),
    }
}
