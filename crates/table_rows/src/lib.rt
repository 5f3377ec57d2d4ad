//! Rows of a caller's own tables. A row is a line of text with one year or one era.
//!
//! | Line | Its row |
//! |---|---|
//! | `row china YEAR START LENGTHS LEAP` | a Chinese year, from 1912 on |
//! | `row korea YEAR START LENGTHS LEAP` | a Korean year, from 1912 on |
//! | `row hijri YEAR START LENGTHS` | a year of Umm al-Qura |
//! | `row persian YEAR` | a leap year of the Persian 33-year rule that is common; the next year is the leap year |
//! | `row era YEAR MONTH DAY CODE INDEX` | an era of Japan after Reiwa, once |
//!
//! - `YEAR` and `START` are an optional `-` and 1 to 9 digits. `START` is the day number of the year's first day
//!   (rata die).
//! - `LENGTHS` has a letter for each month, `s` for 29 days and `l` for 30. It has 12 letters, or 13 in a leap year
//!   of China or Korea.
//! - `LEAP` is the ordinal of the leap month, or 0 if the year has none.
//! - `MONTH`, `DAY` and `INDEX` are numbers up to 255, and `CODE` is 1 to 8 letters `a` to `z`.
//!
//! Lines that are empty or begin with `#` are ignored.
//!
//! Start with [`TableRows::try_read`], which reads a whole text; [`TableRows::take_line`] takes one line.
//! [`TableRows::tables`] tests the rows and returns their tables. [`gather`] reads the row lines at the head of any
//! source.
//!
//! ```
//! let rows = TableRows::try_read(alloc, b"row china 1912 698026 lslslslslsls 0\n")?;
//! let chinese = rows.tables()?.chinese();
//! ```
#![tactic(auto)]

mod errors;
mod gathering;
mod keeping;
pub mod laws;
mod reading;
mod row_years;
mod rows;
mod table;

pub use errors::{RowError, RowsError};
pub use gathering::{Gathered, Stop, gather};
pub use rows::{TableRows, Taken};
pub use table::{RowFault, Table, TableRefusal};
