//! The fault of a line behind other lines.
ghost use Rattle.std.specs.Prelude.{◌≡◌};
ghost use Rattle.std.specs.Option.{option_and_then, option_map};
ghost use Rattle.line_faults.specs.Faults.{first_fault};
ghost use Rattle.request_lines.specs.Lines.{Line};
ghost use Rattle.request_lines.specs.LineSaid.{IsKind};
ghost use Rattle.request_lines.specs.RowSaid.{row_said};
ghost use Rattle.request_lines.specs.Words.{words_of};

use crate::allowed::Allowed;
use crate::numbers::row_fault;
use crate::stages::Stage;
use line_faults::{Expected, LineFault, line_fault};
use request_lines::{LineKind, Row};

/// The first fault of a line behind other lines.
#[derive(Clone, Copy, Debug, PartialEq, Eq)]
pub enum Fault {
    /// The line is malformed.
    Malformed(LineFault),
    /// The line is well-formed or too late, and this may stand in the place of its word.
    Misplaced(Allowed),
}

ghost use Rattle.row_faults.specs.RowFaults.{row_fault};
ghost use Rattle.row_faults.specs.Stages.{ended_fault, fault_with_era, is_first, malformed_or, request_line_fault, row_line_fault, said_fault, stage_fault, word_of};

impl Fault {
    /// Returns the number of the bad word, counted from 1. If the line ends too early, this is one more than its words.
    pub fn word(self) -> usize
        ensures { result ≡ word_of self }
    {
        match self {
            Fault::Malformed(fault) => fault.word,
            Fault::Misplaced(allowed) => allowed.word(),
        }
    }
}

/// Returns whether the first word of a line is expected.
fn is_first(at: Expected) -> bool
    ensures { result ≡ is_first at }
{
    match at {
        Expected::First => true,
        _ => false,
    }
}

/// Returns the fault of a malformed line behind the row lines.
fn ended_fault(fault: LineFault) -> Fault
    ensures { result ≡ ended_fault fault }
{
    if is_first(fault.expected) {
        Fault::Misplaced(Allowed::Span)
    } else {
        Fault::Malformed(fault)
    }
}

/// Returns the fault of a request line with a malformed word.
fn stage_fault(stage: Stage, fault: LineFault) -> Fault
    ensures { result ≡ stage_fault stage fault }
{
    match stage {
        Stage::Rows => Fault::Malformed(fault),
        Stage::RowsWithEra => Fault::Malformed(fault),
        Stage::Ended => ended_fault(fault),
    }
}

/// Returns the fault of a request line with this malformed word.
fn request_line_fault(stage: Stage, fault: Option<LineFault>) -> Option<Fault>
    ensures { result ≡ request_line_fault stage fault }
{
    match fault {
        Some(fault) => Some(stage_fault(stage, fault)),
        None => None,
    }
}

/// Returns what may stand in place of the first wrong number of a row, if there is one.
fn first_rows_fault(row: Option<Row<'_>>) -> Option<Allowed>
    ensures { result ≡ option_and_then row_fault (option_map row_said row.entry) }
{
    match row {
        Some(row) => row_fault(&row),
        None => None,
    }
}

/// Returns what may stand in place of the first wrong word of a row behind an era's, if there is one.
fn fault_with_era(row: Option<Row<'_>>) -> Option<Allowed>
    ensures { result ≡ option_and_then fault_with_era (option_map row_said row.entry) }
{
    match row {
        Some(Row::Era(_)) => Some(Allowed::YearTable),
        _ => first_rows_fault(row),
    }
}

/// Returns the fault of a malformed word, or else of a word in whose place something else may stand.
fn malformed_or(fault: Option<LineFault>, allowed: Option<Allowed>) -> Option<Fault>
    ensures { result ≡ malformed_or fault allowed }
{
    match fault {
        Some(fault) => Some(Fault::Malformed(fault)),
        None => match allowed {
            Some(allowed) => Some(Fault::Misplaced(allowed)),
            None => None,
        },
    }
}

/// Returns the fault of a row line with this row, if it says one, and this malformed word.
fn row_line_fault(stage: Stage, row: Option<Row<'_>>, fault: Option<LineFault>) -> Option<Fault>
    ensures { result ≡ row_line_fault stage (option_map row_said row.entry) fault }
{
    match stage {
        Stage::Rows => malformed_or(fault, first_rows_fault(row)),
        Stage::RowsWithEra => malformed_or(fault, fault_with_era(row)),
        Stage::Ended => Some(Fault::Misplaced(Allowed::SpanForRow)),
    }
}

/// Returns the first fault of a line that isn't ignored, behind other lines.
///
/// `kind` is the line's kind, and `text` the line without its line feed and without a carriage return at its end.
///
/// A row line behind the row lines has the fault that it is too late. Otherwise a malformed word comes first, then a second
/// era, then the first wrong number of a row.
pub fn fault_behind(stage: Stage, kind: LineKind<'_>, text: &[u8]) -> Option<Fault>
    ensures { (said : Line) → IsKind kind.entry said → result ≡ said_fault said stage (words_of text.now) }
{
    let fault = line_fault(text);
    match kind {
        LineKind::GivesRow(row) => row_line_fault(stage, row, fault),
        LineKind::Requests => request_line_fault(stage, fault),
    }
}
