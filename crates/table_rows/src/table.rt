//! Tables, and the faults of rows and tables.

use cal_errors::TableFault;
use std::fmt;
use thiserror::Error;

/// A table, by the second word of its row lines.
#[derive(Clone, Copy, Debug, PartialEq, Eq)]
pub enum Table {
    /// `china`
    China,
    /// `korea`
    Korea,
    /// `hijri`
    Hijri,
    /// `persian`
    Persian,
}

/// Writes the second word of the table's row lines.
impl fmt::Display for Table {
    ghost use Rattle.std.specs.Prelude.{Some};
    ghost use Rattle.table_rows.specs.TableWords.{table_word};

    ghost output = { λ t. Some (table_word t) };

    fn fmt<W: fmt::Write>(&self, f: &mut fmt::Formatter<W>) -> fmt::Result {
        f.write_str(match self {
            Table::China => "china",
            Table::Korea => "korea",
            Table::Hijri => "hijri",
            Table::Persian => "persian",
        })
    }
}

/// The fault of a row line.
#[derive(Clone, Copy, Debug, PartialEq, Eq, Error)]
pub enum RowFault {
    /// The line is malformed, or it names a second era.
    Syntax,
    /// The year or the era doesn't exist.
    Range,
    /// The line comes after a request line.
    Late,
}

/// Writes the word of the fault, as the program does.
impl fmt::Display for RowFault {
    ghost use Rattle.std.specs.Prelude.{Some};
    ghost use Rattle.table_rows.specs.TableWords.{fault_word};

    ghost output = { λ f. Some (fault_word f) };

    fn fmt<W: fmt::Write>(&self, f: &mut fmt::Formatter<W>) -> fmt::Result {
        f.write_str(match self {
            RowFault::Syntax => "syntax",
            RowFault::Range => "range",
            RowFault::Late => "late",
        })
    }
}

/// A table that isn't accepted, with its first invalid row and part.
#[derive(Clone, Copy, Debug, PartialEq, Eq, Error)]
#[error("table {table} {} {}", .fault.row, .fault.part)]
pub struct TableRefusal {
    /// The table.
    pub table: Table,
    /// The number of the row, counted from 1, and its invalid part.
    pub fault: TableFault,
}
