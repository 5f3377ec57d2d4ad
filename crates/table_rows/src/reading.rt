//! Rows from a line or a whole text.
ghost use Rattle.std.specs.Prelude.{◌≡◌, ◌≢◌, ◌≤◌, ◌↔◌, IsOk, Err, length, if◌then◌else◌};
ghost use Rattle.byte_io.specs.Reader.{limit};
ghost use Rattle.table_rows.specs.Reading.{IsLineTaken, IsRowText, IsTextRead};
ghost use Rattle.table_rows.specs.RowsSaid.{rows_said};

use crate::errors::{RowError, RowsError};
use crate::gathering::{Gathered, LineGathered, Stop, gather, gather_said};
use crate::rows::TableRows;
use byte_io::{LineBuffer, PlainSource, Reader};
use request_lines::is_silent;
use std::alloc::Global;

/// Returns the error for a line that isn't a row line.
fn other_line(long: bool) -> RowError
    ensures { result ≡ (if long then RowError.LongLine else RowError.NoRow) }
{
    if long {
        RowError::LongLine
    } else {
        RowError::NoRow
    }
}

/// Returns the error for a line of a text that isn't a row line.
fn other_line_of(line: u64, long: bool) -> RowsError
    ensures { result ≡ (if long then RowsError.LongLine line else RowsError.NoRow line) }
{
    if long {
        RowsError::LongLine { line }
    } else {
        RowsError::NoRow { line }
    }
}

impl TableRows {
    /// Takes one line, the bytes before its LF. Returns true if its row was added to its table, and false if the line
    /// is ignored: it begins with `#`, or is empty but for a carriage return at its end.
    ///
    /// ```
    /// let mut rows = TableRows::new(alloc);
    /// rows.take_line(b"row persian 1502")?;
    /// ```
    ///
    /// # Errors
    ///
    /// The rows don't change after an error.
    ///
    /// - [`RowError::LongLine`] if the line has more than 512 bytes.
    /// - [`RowError::NoRow`] if the line isn't `row` and doesn't begin with `row `.
    /// - [`RowError::Row`] if the row line is invalid, with its fault.
    /// - [`RowError::NoMemory`] if the row has a year and there is no memory for it. Invalid row lines and eras need no
    ///   memory.
    pub fn take_line(&mut self, line: &[u8]) -> Result<bool, RowError>
        ensures { IsLineTaken result line.now (rows_said self.old) (rows_said self.new) }
    {
        let mut buffer = LineBuffer::new();
        buffer.extend(line);
        if is_silent(&buffer) {
            return Ok(false);
        }
        match gather_said(self, &buffer) {
            LineGathered::GoesOn => Ok(true),
            LineGathered::Request => Err(other_line(buffer.over)),
            LineGathered::Refused(why) => Err(RowError::Row(why)),
            LineGathered::NoMemory => Err(RowError::NoMemory),
        }
    }

    /// Reads the rows of a text. Takes each line as [`TableRows::take_line`] does. Lines end with LFs, and the bytes
    /// after the last LF are a line too.
    ///
    /// ```
    /// let rows = TableRows::try_read(alloc, b"# corrected\nrow persian 1502\nrow persian 1601\n")?;
    /// ```
    ///
    /// # Errors
    ///
    /// The error has the number of the first line that can't be taken, counted from 1. Only lines within the first
    /// 16777216 bytes are read.
    ///
    /// - [`RowsError::Row`] if a row line is invalid, with its fault.
    /// - [`RowsError::LongLine`] if a line has more than 512 bytes.
    /// - [`RowsError::NoRow`] if a line isn't a row line.
    /// - [`RowsError::TooLong`] if all lines that end within 16777216 bytes are taken and the text has more bytes.
    /// - [`RowsError::NoMemory`] if there is no memory for a row of a year. The lines before it are taken.
    pub fn try_read(alloc: Global, text: &[u8]) -> Result<TableRows, RowsError>
        ensures reads { IsTextRead result text.now }
        ensures exact { length text.now ≤ limit → result ≢ Err RowsError.NoMemory → IsOk result ↔ IsRowText text.now }
    {
        let mut rows = TableRows::new(alloc);
        let mut reader = Reader::new();
        let mut line = LineBuffer::new();
        let mut source = PlainSource::new(text);
        match gather(&mut rows, &mut reader, &mut line, &mut source) {
            Gathered::End => Ok(rows),
            Gathered::Request => Err(other_line_of(reader.lines(), line.over)),
            Gathered::LastRequest => Err(other_line_of(reader.lines() + 1, line.over)),
            Gathered::Refused(line, why) => Err(RowsError::Row { line, why }),
            Gathered::Stopped(Stop::NoMemory) => Err(RowsError::NoMemory),
            Gathered::Stopped(Stop::TooLong) => Err(RowsError::TooLong),
            // A text has no faults.
            Gathered::Stopped(Stop::ReadFault) => unreachable!(),
        }
    }
}
