//! The row lines before a book.

ghost use Rattle.std.specs.Prelude.{◌≡◌, ◌∷◌, ◌<◌, ℕ, length, position, true, ◌==◌, IfSome};
ghost use Rattle.byte_io.specs.Lines.{lines_in};
ghost use Rattle.calspan_run.specs.BookRows.{behind_line};

use memchr::memchr;
use std::alloc::Global;
use table_rows::{RowError, RowFault, TableRows};

/// The result of reading the row lines before a book.
#[derive(Drop)]
pub(crate) enum RowsBefore<'b> {
    /// The rows, and the book behind them, which may be empty.
    Read(TableRows, &'b [u8]),
    /// The row line of this number is invalid.
    Refused(u64, RowFault),
    /// A row has a year, and there is no memory for it.
    NoMemory,
}

ghost use Rattle.calspan_run.specs.BooksRead.{AreRowsBefore};

/// Returns the place of the first LF.
fn first_line_feed(bytes: &[u8]) -> Option<usize>
    ensures value { result ≡ position (λ b. b == 10) bytes.now }
    ensures within { IfSome result (λ i. i < length bytes.now) }
{
    memchr(b'\n', bytes)
}

/// Returns the first line, and what follows it.
fn first_line(bytes: &[u8]) -> (&[u8], &[u8])
    requires { 0 < length bytes.now }
    ensures lines { lines_in bytes.now true ≡ result.0.now ∷ lines_in result.1.now true }
    ensures behind { result.1.now ≡ behind_line bytes.now }
    ensures fewer { length result.1.now < length bytes.now }
{
    match first_line_feed(bytes) {
        Some(count) => (&bytes[..count], &bytes[count + 1..]),
        None => (bytes, &bytes[bytes.len()..]),
    }
}

/// Reads the row lines and ignored lines at the start of an input. The book is what follows them.
pub(crate) fn read_rows_before(alloc: Global, bytes: &[u8]) -> RowsBefore<'_>
    ensures { AreRowsBefore result bytes.now }
{
    let mut rows = TableRows::new(alloc);
    let mut number = 1u64;
    let mut rest = bytes;
    'lines: while !rest.is_empty() {
        let (line, behind) = first_line(rest);
        match rows.take_line(line) {
            Ok(_) => {
                rest = behind;
                number += 1;
            }
            Err(RowError::NoRow) => return RowsBefore::Read(rows, rest),
            Err(RowError::LongLine) => return RowsBefore::Read(rows, rest),
            Err(RowError::Row(why)) => return RowsBefore::Refused(number, why),
            Err(RowError::NoMemory) => return RowsBefore::NoMemory,
        }
    }
    RowsBefore::Read(rows, rest)
}
