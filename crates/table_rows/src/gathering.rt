//! The row lines at the head of an input.
ghost use Rattle.std.specs.Prelude.{◌≡◌, ◌≤◌, ℕ, List, [], Option, false};
ghost use Rattle.byte_io.specs.Buffer.{Holds};
ghost use Rattle.std.specs.Io.KnownBytes.{Consumes, IsAtEnd};
ghost use Rattle.byte_io.specs.Reader.{GivesAll, lines_given};
ghost use Rattle.byte_io.specs.declared.buffer.LineBuffer.{LineBuffer};
ghost use Rattle.byte_io.specs.declared.reader.Reader.{Reader};
ghost use Rattle.request_lines.specs.Lines.{is_silent as line_is_silent};
ghost use Rattle.table_rows.specs.RowsSaid.{rows_said};
ghost use Rattle.table_rows.specs.Gathering.{IsGathering};

use crate::rows::{TableRows, Taken};
use crate::table::RowFault;
use byte_io::{Filled, LineBuffer, Next, Reader, Source};
use request_lines::{LineKind, is_silent, line_kind};

/// The reason why reading row lines stopped at no particular line.
#[derive(Clone, Copy, Debug, PartialEq, Eq)]
pub enum Stop {
    /// The source counted a fault.
    ReadFault,
    /// The source has more than 16777216 bytes.
    TooLong,
    /// A row has a year, and there is no memory for it.
    NoMemory,
}

/// How the row lines at the head of an input ended.
#[derive(Clone, Copy, Debug, PartialEq, Eq)]
pub enum Gathered {
    /// A line isn't a row line. The line buffer holds it.
    Request,
    /// The last line of the input, which has no LF, isn't a row line. The line buffer holds it.
    LastRequest,
    /// The input ended.
    End,
    /// The row line of this number is invalid.
    Refused(u64, RowFault),
    /// Reading stopped at no particular line.
    Stopped(Stop),
}

/// The effect of a line among the row lines.
#[derive(Clone, Copy)]
pub(crate) enum LineGathered {
    // The line is ignored, or its row is kept.
    GoesOn,
    // The line isn't a row line.
    Request,
    // The row line is invalid.
    Refused(RowFault),
    // The row has a year, and there is no memory for it.
    NoMemory,
}

ghost use Rattle.table_rows.specs.Gathering.{Gathers, IsGathered, IsSaidGathered};

/// Takes a line that isn't ignored. Kept out of line so that ignored lines don't pay for its stack frame.
#[inline(never)]
pub(crate) fn gather_said(rows: &mut TableRows, line: &LineBuffer) -> LineGathered
    ensures { (whole : List ℕ) → Holds line.now whole → line_is_silent whole ≡ false
        → IsSaidGathered result whole (rows_said rows.old) (rows_said rows.new) }
{
    match line_kind(line) {
        LineKind::GivesRow(row) => match rows.take(row) {
            Taken::Kept => LineGathered::GoesOn,
            Taken::Refused(why) => LineGathered::Refused(why),
            Taken::NoMemory => LineGathered::NoMemory,
        },
        LineKind::Requests => LineGathered::Request,
    }
}

/// Takes a line.
fn gather_line(rows: &mut TableRows, line: &LineBuffer) -> LineGathered
    ensures { (whole : List ℕ) → Holds line.now whole
        → IsGathered result whole (rows_said rows.old) (rows_said rows.new) }
{
    if is_silent(line) {
        LineGathered::GoesOn
    } else {
        gather_said(rows, line)
    }
}

/// Takes the bytes after the last LF, at the end of the source. `lines` lines come before them.
fn gather_last(rows: &mut TableRows, lines: u64, line: &LineBuffer) -> Gathered
    requires { lines ≤ 16777216 }
    ensures { (left l l2 : Option (List ℕ)) (faults more : ℕ) (reader mid q : Reader) (before : LineBuffer)
        → (h : IsGathering left l reader before (rows_said rows.old)) → GivesAll mid line.now h.bytes h.lines
        → lines ≡ lines_given reader → lines_given q ≡ lines_given reader → Consumes l l2 [] → IsAtEnd l2
        → Gathers result left l2 faults more q line.now (rows_said rows.new) }
{
    match gather_line(rows, line) {
        LineGathered::GoesOn => Gathered::End,
        LineGathered::Request => Gathered::LastRequest,
        LineGathered::Refused(why) => Gathered::Refused(lines + 1, why),
        LineGathered::NoMemory => Gathered::Stopped(Stop::NoMemory),
    }
}

/// Reads row lines and keeps their rows, until a line isn't a row line, a row is invalid, or the source ends or
/// fails.
pub fn gather<S: Source>(
    rows: &mut TableRows,
    reader: &mut Reader,
    line: &mut LineBuffer,
    source: &mut S,
) -> Gathered
    ensures later { S.faults source.old ≤ S.faults source.new }
    ensures gathers { (left : Option (List ℕ)) (faults : ℕ) → faults ≤ S.faults source.old
        → IsGathering left (S.left source.old) reader.old line.old (rows_said rows.old)
        → Gathers result left (S.left source.new) faults (S.faults source.new) reader.new line.new
        (rows_said rows.new) }
{
    'lines: loop {
        match reader.next_line(line) {
            Next::Line => match gather_line(rows, line) {
                LineGathered::GoesOn => {
                    line.clear();
                    continue;
                }
                LineGathered::Request => return Gathered::Request,
                LineGathered::Refused(why) => return Gathered::Refused(reader.lines(), why),
                LineGathered::NoMemory => return Gathered::Stopped(Stop::NoMemory),
            },
            Next::TooLong => return Gathered::Stopped(Stop::TooLong),
            Next::Spent => {}
        }
        match reader.fill(source) {
            Filled::Some => {}
            Filled::End => return gather_last(rows, reader.lines(), line),
            Filled::Fault => return Gathered::Stopped(Stop::ReadFault),
        }
    }
}
