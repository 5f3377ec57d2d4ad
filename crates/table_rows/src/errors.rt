//! The errors of lines and of texts.

ghost use Rattle.std.specs.Prelude.{◌≡◌, ◌++◌, codes};
ghost use Rattle.table_rows.specs.TableWords.{fault_word};

use crate::table::RowFault;
use std::fmt;
use thiserror::Error;

/// The error of [`TableRows::take_line`](crate::TableRows::take_line).
#[derive(Clone, Copy, Debug, PartialEq, Eq, Error)]
pub enum RowError {
    /// A row line is invalid.
    Row(RowFault),
    /// The line is neither ignored nor a row line.
    NoRow,
    /// The line isn't ignored and has more than 512 bytes.
    LongLine,
    /// The row has a year, and there is no memory for it.
    NoMemory,
}

/// The text for an invalid row line.
fn fault_text(why: RowFault) -> &'static str
    ensures { result.now ≡ codes "table line " ++ fault_word why }
{
    match why {
        RowFault::Syntax => "table line syntax",
        RowFault::Range => "table line range",
        RowFault::Late => "table line late",
    }
}

/// Writes the program's text for the line, without the line's number.
impl fmt::Display for RowError {
    ghost use Rattle.std.specs.Prelude.{Some};
    ghost use Rattle.table_rows.specs.TableWords.{row_error_text};

    ghost output = { λ e. Some (row_error_text e) };

    fn fmt<W: fmt::Write>(&self, f: &mut fmt::Formatter<W>) -> fmt::Result {
        f.write_str(match self {
            RowError::Row(why) => fault_text(*why),
            RowError::NoRow => "err line syntax",
            RowError::LongLine => "err line long",
            RowError::NoMemory => "no memory for rows",
        })
    }
}

/// The error of [`TableRows::try_read`](crate::TableRows::try_read). Lines are counted from 1.
#[derive(Clone, Copy, Debug, PartialEq, Eq, Error)]
pub enum RowsError {
    /// A row line is invalid.
    #[error("table line {line} {why}")]
    Row {
        /// The number of the line.
        line: u64,
        /// What is wrong with it.
        why: RowFault,
    },
    /// A line is neither ignored nor a row line.
    #[error("err line {line} syntax")]
    NoRow {
        /// The number of the line.
        line: u64,
    },
    /// A line isn't ignored and has more than 512 bytes.
    #[error("err line {line} long")]
    LongLine {
        /// The number of the line.
        line: u64,
    },
    /// A row has a year, and there is no memory for it.
    #[error("no memory for rows")]
    NoMemory,
    /// The text has more than 16777216 bytes, and all lines that end within the first 16777216 bytes are taken.
    #[error("text too long")]
    TooLong,
}
