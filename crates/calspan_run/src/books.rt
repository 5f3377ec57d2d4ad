//! Running a command that reads rows and a book as a whole.
ghost use Rattle.std.specs.Prelude.{ℕ, List, Bool, ◌⊎◌};
ghost use Rattle.cal_tables.specs.Kinds.{TableContents, table_contents};
ghost use Rattle.table_rows.specs.RowsSaid.{rows_said};
ghost use Rattle.calspan_run.specs.BookEndings.{EndsBook, EndsInput, EndsOverRows, LacksMemory};
ghost use Rattle.calspan_run.specs.Rules.{book_rules};
ghost use Rattle.calspan_run.specs.Run.{outside};
ghost use Rattle.calspan_run.specs.Serving.{Serves};

use crate::endings::{refuse_row, refuse_table};
use crate::holidays::book_rows::{RowsBefore, read_rows_before};
use crate::status::Status;
use byte_io::{LIMIT, ReadAllError, Sink, Source, read_all};
use cal_tables::Tables;
use std::alloc::Global;
use table_rows::TableRows;

/// A text about a book over tables.
pub(crate) trait BookTask {
    /// The text for a book over some tables, and whether the run ends as refused.
    ghost written: { Self → TableContents → List ℕ → List ℕ × Bool };

    /// Writes the text for a book. Returns `NoMemory` if there is no memory for the book; then nothing is written.
    fn write_book<K: Sink>(
        &self,
        alloc: Global,
        tables: &Tables<'_>,
        book: &[u8],
        sink: &mut K,
    ) -> Status
        ensures { EndsBook (written self.now) (table_contents tables.now) result book.now (K.taken sink.old)
            (K.taken sink.new) (K.faults sink.old) (K.faults sink.new) };
}

/// Writes the text for a book over the tables of the rows, or the line for an invalid table.
fn write_over_rows<T: BookTask, K: Sink>(
    alloc: Global,
    task: &T,
    rows: &TableRows,
    book: &[u8],
    sink: &mut K,
) -> Status
    ensures { EndsOverRows (T.written task.now) (rows_said rows.now) result book.now (K.taken sink.old)
        (K.taken sink.new) (K.faults sink.old) (K.faults sink.new)
        ⊎ LacksMemory result book.now (K.taken sink.old) (K.taken sink.new) }
{
    match rows.tables() {
        Ok(tables) => task.write_book(alloc, &tables, book, sink),
        Err(refusal) => refuse_table(refusal, sink),
    }
}

/// Reads the rows and the book of an input and writes its text, or the line for the first row or table that is invalid.
fn write_input<T: BookTask, K: Sink>(alloc: Global, task: &T, bytes: &[u8], sink: &mut K) -> Status
    ensures { EndsInput (T.written task.now) result bytes.now (K.taken sink.old) (K.taken sink.new)
        (K.faults sink.old) (K.faults sink.new)
        ⊎ LacksMemory result bytes.now (K.taken sink.old) (K.taken sink.new) }
{
    match read_rows_before(alloc, bytes) {
        RowsBefore::Read(rows, book) => write_over_rows(alloc, task, &rows, book, sink),
        RowsBefore::Refused(number, why) => refuse_row(number, why, sink),
        RowsBefore::NoMemory => Status::NoMemory,
    }
}

/// Reads row lines and the book behind them to the end of the source, and writes the text of the book over the tables of
/// the rows. Writes one line instead if a row or a table is invalid.
pub(crate) fn serve_book<T: BookTask, S: Source, K: Sink>(
    alloc: Global,
    task: &T,
    source: &mut S,
    sink: &mut K,
) -> Status
    ensures { Serves (book_rules (T.written task.now)) result
        (outside (S.left source.old) (K.taken sink.old) (S.faults source.old) (K.faults sink.old))
        (outside (S.left source.new) (K.taken sink.new) (S.faults source.new) (K.faults sink.new)) }
{
    match read_all(alloc, source, LIMIT) {
        Ok(bytes) => write_input(alloc, task, &bytes, sink),
        Err(ReadAllError::Fault) => Status::ReadFault,
        Err(ReadAllError::TooLong) => Status::TooLong,
        Err(ReadAllError::NoMemory) => Status::NoMemory,
    }
}
