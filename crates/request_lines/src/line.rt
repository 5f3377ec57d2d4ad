//! Whole lines.
ghost use Rattle.std.specs.Prelude.{◌≡◌, ℕ, List, false};
ghost use Rattle.std.specs.Str.Lines.{strip_carriage_return};
ghost use Rattle.cal_types.specs.Bag.{bag_of};
ghost use Rattle.byte_io.specs.Buffer.{Holds};
ghost use Rattle.request_lines.specs.Bags.{no_fields};
ghost use Rattle.request_lines.specs.Lines.{is_row as text_is_row, is_silent as line_is_silent, line_of};

use crate::request::{Header, read_into};
use crate::row::{Row, read_row};
use byte_io::LineBuffer;
use cal_types::DateFields;

/// A request line.
#[derive(Clone, Copy, Debug)]
pub enum RequestLine {
    /// The line has more than 512 bytes.
    Long,
    /// The line is a request, with this header before its two bags of fields.
    Asks(Header),
    /// The line isn't a request.
    Malformed,
}

/// A line that isn't ignored.
#[derive(Clone, Copy, Debug)]
pub enum Line<'a> {
    /// A row line with its row, or `None` if it is malformed.
    GivesRow(Option<Row<'a>>),
    /// A request line.
    Requests(RequestLine),
}

/// The kind of a line that isn't ignored.
#[derive(Clone, Copy, Debug)]
pub enum LineKind<'a> {
    /// A row line with its row, or `None` if it is malformed.
    GivesRow(Option<Row<'a>>),
    /// A request line, which isn't read yet.
    Requests,
}

ghost use Rattle.request_lines.specs.LineSaid.{line_said, IsKind};

/// Returns a line without the one carriage return at its end.
fn without_return(line: &[u8]) -> &[u8]
    ensures { result.now ≡ strip_carriage_return line.now }
{
    match line.split_last() {
        Some((b'\r', rest)) => rest,
        _ => line,
    }
}

/// Returns whether a line is a row line: `row`, alone or before a space.
fn is_row(text: &[u8]) -> bool
    ensures { result ≡ text_is_row text.now }
{
    text == b"row".as_slice() || text.starts_with(b"row ")
}

/// Returns whether the bytes of a line are ignored.
fn gives_nothing(line: &[u8]) -> bool
    ensures { result ≡ line_is_silent line.now }
{
    without_return(line).is_empty() || line[0] == b'#'
}

/// Returns whether a line is ignored: it begins with `#`, or is empty but for a carriage return at its end.
pub fn is_silent(line: &LineBuffer) -> bool
    ensures { (whole : List ℕ) → Holds line.now whole → result ≡ line_is_silent whole }
{
    gives_nothing(&line.prefix)
}

/// Reads a line that isn't ignored. Reads the two bags of a request into `from` and `to`, which must have no fields
/// before.
///
/// A line of more than 512 bytes is too long; a carriage return at its end counts. Any other line is a row line if it
/// is `row` or begins with `row `. The rest are requests or malformed.
pub fn read_line<'a>(
    line: &'a LineBuffer,
    from: &mut DateFields<'a>,
    to: &mut DateFields<'a>,
) -> Line<'a>
    requires from { bag_of from.old ≡ no_fields }
    requires to { bag_of to.old ≡ no_fields }
    ensures { (whole : List ℕ) → Holds line.now whole → line_is_silent whole ≡ false
        → line_said result (bag_of from.new) (bag_of to.new) ≡ line_of whole }
{
    if line.over {
        return Line::Requests(RequestLine::Long);
    }
    let text = without_return(&line.prefix);
    if is_row(text) {
        return Line::GivesRow(read_row(text));
    }
    match read_into(from, to, text) {
        Some(header) => Line::Requests(RequestLine::Asks(header)),
        None => Line::Requests(RequestLine::Malformed),
    }
}

/// Returns whether a line that isn't ignored is a row line or a request line, by the rules of [`read_line`]. Reads a
/// row line, but not a request line, because the rows before it must be tested first.
pub fn line_kind(line: &LineBuffer) -> LineKind<'_>
    ensures { (whole : List ℕ) → Holds line.now whole → line_is_silent whole ≡ false
        → IsKind result (line_of whole) }
{
    if line.over {
        return LineKind::Requests;
    }
    let text = without_return(&line.prefix);
    if is_row(text) {
        return LineKind::GivesRow(read_row(text));
    }
    LineKind::Requests
}
