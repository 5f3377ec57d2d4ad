//! The row lines at the head of the input of `convert`.
ghost use Rattle.std.specs.Prelude.{◌≡◌, ◌≤◌, [], true, ℕ, List, Option, IfNone};
ghost use Rattle.std.specs.Io.KnownBytes.{Consumes, IsAtEnd};
ghost use Rattle.long_lines.specs.Buffer.{Holds};
ghost use Rattle.long_lines.specs.Reader.{IsSpent};
ghost use Rattle.long_lines.specs.declared.reader.LineReader.{LineReader};
ghost use Rattle.table_rows.specs.RowsSaid.{rows_said};

use byte_io::{Filled, Source};
use long_lines::{LineReader, LongLine};
use table_rows::{RowError, RowFault, TableRows};

/// The effect of a line at the head.
#[derive(Clone, Copy)]
pub(crate) enum HeadLine {
    /// The line is a comment, or its row is kept.
    GoesOn,
    /// The head ends before the line.
    Dated,
    /// The row line is invalid.
    Refused(RowFault),
    /// The row has a year, and there is no memory for it.
    NoMemory,
}

/// How the head of an input ended.
#[derive(Clone, Copy)]
pub(crate) enum Headed {
    /// A line with a date follows. The line buffer holds it.
    Dated,
    /// The last line of the input, which has no LF, has a date. The line buffer holds it.
    LastDated,
    /// The input ended.
    End,
    /// The row line of this number is invalid.
    Refused(u64, RowFault),
    /// The source counted a fault.
    ReadFault,
    /// There was no memory for a row.
    NoMemory,
    /// The source has 18446744073709551615 bytes or more.
    TooLong,
}

ghost use Rattle.calspan_run.specs.Heading.{HasHeaded, Heads, HeadsChunk, IsHeading, TakesLine, is_plain, taken_line};

/// Returns the effect of a line that the rows took or not. Kept apart so that one fact says it of every result.
fn effect_of(taken: Result<bool, RowError>) -> HeadLine
    ensures { result ≡ taken_line taken }
{
    match taken {
        Ok(true) => HeadLine::GoesOn,
        Ok(false) => HeadLine::Dated,
        Err(RowError::Row(why)) => HeadLine::Refused(why),
        Err(RowError::NoRow) => HeadLine::Dated,
        Err(RowError::LongLine) => HeadLine::Dated,
        Err(RowError::NoMemory) => HeadLine::NoMemory,
    }
}

/// Takes a line that isn't empty and doesn't begin with `#`.
fn take_row(rows: &mut TableRows, line: &LongLine) -> HeadLine
    ensures { (whole : List ℕ) → Holds line.now whole → is_plain whole ≡ true
        → TakesLine result whole (rows_said rows.old) (rows_said rows.new) }
{
    if line.is_over() {
        return HeadLine::Dated;
    }
    effect_of(rows.take_line(line.prefix()))
}

/// Takes a line at the head.
fn take_head(rows: &mut TableRows, line: &LongLine) -> HeadLine
    ensures { (whole : List ℕ) → Holds line.now whole
        → TakesLine result whole (rows_said rows.old) (rows_said rows.new) }
{
    let text = line.prefix();
    if text.is_empty() {
        return HeadLine::Dated;
    }
    if text[0] == b'#' {
        return HeadLine::GoesOn;
    }
    take_row(rows, line)
}

/// Takes the lines of the chunk. `number` is the number of the lines so far. Returns `None` if all were taken.
fn gather_chunk(
    rows: &mut TableRows,
    number: &mut u64,
    reader: &mut LineReader,
    line: &mut LongLine,
) -> Option<Headed>
    ensures spent { IfNone result (IsSpent reader.new) }
    ensures heads { (left now : Option (List ℕ)) (reads : ℕ)
        → IsHeading left now reader.old line.old (rows_said rows.old) number.old reads
        → HeadsChunk result left now reader.new line.new (rows_said rows.new) number.new reads }
{
    'lines: loop {
        if !reader.next_line(line) {
            return None;
        }
        *number = number.saturating_add(1);
        match take_head(rows, line) {
            HeadLine::GoesOn => line.clear(),
            HeadLine::Dated => return Some(Headed::Dated),
            HeadLine::Refused(why) => return Some(Headed::Refused(*number, why)),
            HeadLine::NoMemory => return Some(Headed::NoMemory),
        }
    }
}

/// Takes the bytes after the last LF, at the end of the source. `number` is the number of the lines before them.
fn gather_last(rows: &mut TableRows, number: u64, line: &LongLine) -> Headed
    ensures { (left l l2 : Option (List ℕ)) (reads faults more : ℕ) (reader after : LineReader)
        → HasHeaded left l reader line.now (rows_said rows.old) number reads → Consumes l l2 [] → IsAtEnd l2
        → Heads result left l2 faults more after line.now (rows_said rows.new) }
{
    if line.prefix().is_empty() {
        return Headed::End;
    }
    match take_head(rows, line) {
        HeadLine::GoesOn => Headed::End,
        HeadLine::Dated => Headed::LastDated,
        HeadLine::Refused(why) => Headed::Refused(number.saturating_add(1), why),
        HeadLine::NoMemory => Headed::NoMemory,
    }
}

/// Reads row lines and comments and keeps their rows, until a line is neither, a row is invalid, or the source ends or
/// fails.
pub(crate) fn gather_head<S: Source>(
    rows: &mut TableRows,
    reader: &mut LineReader,
    line: &mut LongLine,
    source: &mut S,
) -> Headed
    ensures later { S.faults source.old ≤ S.faults source.new }
    ensures heads { (left : Option (List ℕ)) (faults : ℕ) → faults ≤ S.faults source.old
        → IsHeading left (S.left source.old) reader.old line.old (rows_said rows.old) 0 0
        → Heads result left (S.left source.new) faults (S.faults source.new) reader.new line.new (rows_said rows.new) }
{
    let mut number = 0u64;
    let mut reads = 0u64;
    'chunks: loop {
        if let Some(headed) = gather_chunk(rows, &mut number, reader, line) {
            return headed;
        }
        if reads == u64::MAX {
            return Headed::TooLong;
        }
        match reader.fill(source) {
            Filled::Some => reads += 1,
            Filled::End => return gather_last(rows, number, line),
            Filled::Fault => return Headed::ReadFault,
        }
    }
}
