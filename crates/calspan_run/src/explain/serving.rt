//! Running `explain`.
ghost use Rattle.std.specs.Prelude.{◌≡◌, ◌+◌, ◌≤◌, false, ℕ, List, Option, length};
ghost use Rattle.byte_io.specs.Buffer.{Holds};
ghost use Rattle.calspan_run.specs.Endings.{EndsWith};
ghost use Rattle.calspan_run.specs.Explained.{any_malformed, explained};
ghost use Rattle.calspan_run.specs.Explaining.{IsExplaining};
ghost use Rattle.calspan_run.specs.Refusals.{status_of};
ghost use Rattle.calspan_run.specs.Rules.{explain_rules};
ghost use Rattle.calspan_run.specs.Run.{Outside, outside};
ghost use Rattle.calspan_run.specs.Serving.{Serves};
ghost use Rattle.calspan_run.specs.TextSoFar.{TextSoFar};
ghost use Rattle.row_faults.specs.Stages.{after_lines};
ghost use Rattle.row_faults.specs.declared.stages.Stage.TheVariants.{Rows};
ghost use Rattle.table_rows.specs.Gathering.{with_open_line};

use crate::convert::serving::{conclude, either};
use crate::explain::lines::explain_line;
use crate::status::Status;
use crate::writer::flush;
use byte_io::{Filled, LineBuffer, Next, Reader, Sink, Source};
use reply_texts::Pending;
use row_faults::Stage;

/// Ends the run after `lines` lines. A last line without an LF is explained too.
fn finish<K: Sink>(
    is_malformed: bool,
    stage: Stage,
    lines: u64,
    line: &LineBuffer,
    pending: &mut Pending,
    sink: &mut K,
) -> Status
    requires { lines ≤ 16777216 }
    ensures { (before : Option (List ℕ)) (closed : List (List ℕ)) (last : List ℕ) → lines ≡ length closed
        → is_malformed ≡ any_malformed false Rows 1 closed → stage ≡ after_lines Rows closed → Holds line.now last
        → TextSoFar before (K.taken sink.old) pending.old.items (explained Rows 1 closed)
        → EndsWith result (status_of (any_malformed false Rows 1 (with_open_line closed last))) before
        (K.taken sink.new) (K.faults sink.old) (K.faults sink.new) (explained Rows 1 (with_open_line closed last)) }
{
    if line.is_empty() {
        return conclude(is_malformed, pending, sink);
    }
    match explain_line(stage, lines + 1, line, pending, sink) {
        Ok(this) => conclude(either(is_malformed, this), pending, sink),
        Err(_) => Status::WriteFault,
    }
}

/// Writes the lines about the remaining lines. Writes the pending text before each read.
fn serve_from<S: Source, K: Sink>(
    reader: &mut Reader,
    line: &mut LineBuffer,
    pending: &mut Pending,
    source: &mut S,
    sink: &mut K,
) -> Status
    ensures { (old : Outside)
        → IsExplaining old (outside (S.left source.old) (K.taken sink.old) (S.faults source.old) (K.faults sink.old))
        reader.old line.old pending.old.items false Rows
        → Serves explain_rules result old
        (outside (S.left source.new) (K.taken sink.new) (S.faults source.new) (K.faults sink.new)) }
{
    let mut is_malformed = false;
    let mut stage = Stage::Rows;
    'lines: loop {
        match reader.next_line(line) {
            Next::Line => {
                match explain_line(stage, reader.lines(), line, pending, sink) {
                    Ok(this) => is_malformed = either(is_malformed, this),
                    Err(_) => return Status::WriteFault,
                }
                stage = stage.after(line);
                line.clear();
                continue;
            }
            Next::Spent => {}
            Next::TooLong => {
                let Ok(()) = flush(pending, sink) else {
                    return Status::WriteFault;
                };
                return Status::TooLong;
            }
        }
        let Ok(()) = flush(pending, sink) else {
            return Status::WriteFault;
        };
        match reader.fill(source) {
            Filled::Some => {}
            Filled::End => return finish(is_malformed, stage, reader.lines(), line, pending, sink),
            Filled::Fault => return Status::ReadFault,
        }
    }
}

/// Runs `explain`: reads lines, and writes a line about each that is malformed or misplaced.
pub(crate) fn serve_explain<S: Source, K: Sink>(source: &mut S, sink: &mut K) -> Status
    ensures { Serves explain_rules result
        (outside (S.left source.old) (K.taken sink.old) (S.faults source.old) (K.faults sink.old))
        (outside (S.left source.new) (K.taken sink.new) (S.faults source.new) (K.faults sink.new)) }
{
    let mut reader = Reader::new();
    let mut line = LineBuffer::new();
    let mut pending = Pending::new();
    serve_from(&mut reader, &mut line, &mut pending, source, sink)
}
