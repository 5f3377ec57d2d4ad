//! How far the row lines of an input are.
ghost use Rattle.std.specs.Prelude.{◌≡◌, ℕ, List};
ghost use Rattle.std.specs.Option.{option_map};
ghost use Rattle.byte_io.specs.Buffer.{Holds};
ghost use Rattle.request_lines.specs.Lines.{Line};
ghost use Rattle.request_lines.specs.LineSaid.{IsKind};
ghost use Rattle.request_lines.specs.RowSaid.{row_said};

use crate::numbers::era_fault;
use byte_io::LineBuffer;
use request_lines::{LineKind, Row, is_silent, line_kind};

/// How far the row lines of an input are, behind some of its lines.
#[derive(Clone, Copy, Debug, PartialEq, Eq)]
pub enum Stage {
    /// Row lines may follow. No era's row was accepted.
    Rows,
    /// Row lines may follow. An era's row was accepted.
    RowsWithEra,
    /// A line was neither ignored nor a row line, so row lines are too late.
    Ended,
}

ghost use Rattle.row_faults.specs.Stages.{after_first_rows, after_line, after_row, after_said};

/// Returns the stage behind rows without an era, and this one.
fn after_first_rows(row: Option<Row<'_>>) -> Stage
    ensures { result ≡ after_first_rows (option_map row_said row.entry) }
{
    match row {
        Some(Row::Era(era)) => match era_fault(&era) {
            None => Stage::RowsWithEra,
            Some(_) => Stage::Rows,
        },
        _ => Stage::Rows,
    }
}

impl Stage {
    /// Returns the stage behind a row line with this row, if it is well-formed.
    fn after_row(self, row: Option<Row<'_>>) -> Stage
        ensures { result ≡ after_row self (option_map row_said row.entry) }
    {
        match self {
            Stage::Rows => after_first_rows(row),
            Stage::RowsWithEra => Stage::RowsWithEra,
            Stage::Ended => Stage::Ended,
        }
    }

    /// Returns the stage behind a line that isn't ignored.
    fn after_kind(self, kind: LineKind<'_>) -> Stage
        ensures { (said : Line) → IsKind kind.entry said → result ≡ after_said said self }
    {
        match kind {
            LineKind::GivesRow(row) => self.after_row(row),
            LineKind::Requests => Stage::Ended,
        }
    }

    /// Returns the stage behind a line.
    pub fn after(self, line: &LineBuffer) -> Stage
        ensures { (whole : List ℕ) → Holds line.now whole → result ≡ after_line self whole }
    {
        if is_silent(line) {
            return self;
        }
        self.after_kind(line_kind(line))
    }
}
