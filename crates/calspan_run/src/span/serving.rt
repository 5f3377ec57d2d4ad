//! Running `span`.
ghost use Rattle.std.specs.Prelude.{◌≡◌, ◌+◌, ◌≤◌, ℕ, List, Option, length};
ghost use Rattle.byte_io.specs.Faults.{HasCause};
ghost use Rattle.cal_tables.specs.Kinds.{table_contents};
ghost use Rattle.byte_io.specs.Buffer.{Holds};
ghost use Rattle.calspan_run.specs.Underway.{AnswersBehind, IsUnderway, Responded};
ghost use Rattle.calspan_run.specs.Endings.{EndsWith};
ghost use Rattle.calspan_run.specs.Progress.{answered_status};
ghost use Rattle.calspan_run.specs.Rules.{span_rules};
ghost use Rattle.calspan_run.specs.Run.{Outside, outside};
ghost use Rattle.calspan_run.specs.Serving.{Serves};
ghost use Rattle.calspan_run.specs.Answers.{Standing, Answering, status_at};
ghost use Rattle.table_rows.specs.TableRows as table;
ghost use Rattle.table_rows.specs.TableRows.{contents_of};
ghost use Rattle.table_rows.specs.Gathering.{MetEnd, MetLast, MetRequest, with_open_line};
ghost use Rattle.table_rows.specs.RowsSaid.{rows_said};
ghost use Rattle.byte_io.specs.Reader.{lines_given};
ghost use Rattle.calspan_run.specs.TextSoFar.{TextSoFar};

use crate::endings::{refuse_row, refuse_table};
use crate::span::answers::{Answered, Progress, answer};
use crate::status::{Status, status_of_stop};
use crate::writer::{flush, make_room};
use byte_io::{Failed, Filled, LineBuffer, Next, Reader, Sink, Source};
use cal_tables::Tables;
use reply_texts::Pending;
use std::alloc::Global;
use table_rows::{Gathered, TableRows, gather};

/// Appends the answer to a line to the pending text. Writes the pending text first if it might have no room for the
/// answer.
///
/// # Errors
///
/// - [`Failed`] if the sink counted a fault. A prefix of the text before the answer is written.
pub fn respond<K: Sink>(
    progress: Progress,
    number: u64,
    line: &LineBuffer,
    tables: &Tables<'_>,
    pending: &mut Pending,
    sink: &mut K,
) -> Result<Answered, Failed>
    ensures answered { (before : Option (List ℕ)) (text whole : List ℕ) (rows : table.TableRows)
        → table_contents tables.now ≡ contents_of rows → Holds line.now whole
        → TextSoFar before (K.taken sink.old) pending.old.items text
        → Responded result rows number progress.refused whole before (K.taken sink.new) pending.new.items text }
    ensures cause { HasCause (K.faults sink.old) (K.faults sink.new) result }
{
    make_room(pending, sink)?;
    Ok(answer(pending, progress, number, line, tables))
}

/// Writes the pending text after the last line. Returns the status of the run, or `WriteFault` if the sink counted a
/// fault.
fn conclude<K: Sink>(answered: Answered, pending: &mut Pending, sink: &mut K) -> Status
    ensures { (before : Option (List ℕ)) (text : List ℕ) → TextSoFar before (K.taken sink.old) pending.old.items text
        → EndsWith result (answered_status answered) before (K.taken sink.new) (K.faults sink.old) (K.faults sink.new)
        text }
{
    match flush(pending, sink) {
        Ok(()) => answered.status(),
        Err(_) => Status::WriteFault,
    }
}

/// Writes the answers to the remaining lines. Writes the pending text before each read.
fn serve_from<S: Source, K: Sink>(
    start: Progress,
    tables: &Tables<'_>,
    reader: &mut Reader,
    line: &mut LineBuffer,
    pending: &mut Pending,
    source: &mut S,
    sink: &mut K,
) -> Status
    ensures { (old : Outside) (rows : table.TableRows) → table_contents tables.now ≡ contents_of rows
        → IsUnderway old (outside (S.left source.old) (K.taken sink.old) (S.faults source.old) (K.faults sink.old))
        reader.old line.old pending.old.items rows (Answering start.refused)
        → Serves span_rules result old
        (outside (S.left source.new) (K.taken sink.new) (S.faults source.new) (K.faults sink.new)) }
{
    let mut progress = start;
    'lines: loop {
        match reader.next_line(line) {
            Next::Line => {
                match respond(progress, reader.lines(), line, tables, pending, sink) {
                    Ok(Answered::GoesOn(next)) => progress = next,
                    Ok(Answered::Stopped) => return conclude(Answered::Stopped, pending, sink),
                    Err(_) => return Status::WriteFault,
                }
                line.clear();
                continue;
            }
            Next::Spent => {}
            Next::TooLong => {
                let Ok(()) = flush(pending, sink) else {
                    return Status::WriteFault;
                };
                return Status::TooLong;
            }
        }
        let Ok(()) = flush(pending, sink) else {
            return Status::WriteFault;
        };
        match reader.fill(source) {
            Filled::Some => {}
            Filled::End => return finish(progress, tables, reader.lines(), line, pending, sink),
            Filled::Fault => return Status::ReadFault,
        }
    }
}

/// Ends the run after `lines` lines. A last line without an LF is answered too.
fn finish<K: Sink>(
    progress: Progress,
    tables: &Tables<'_>,
    lines: u64,
    line: &LineBuffer,
    pending: &mut Pending,
    sink: &mut K,
) -> Status
    requires { lines ≤ 16777216 }
    ensures { (before : Option (List ℕ)) (closed : List (List ℕ)) (text last : List ℕ) (rows : table.TableRows)
        → table_contents tables.now ≡ contents_of rows → lines ≡ length closed → Holds line.now last
        → AnswersBehind rows closed text (Answering progress.refused)
        → TextSoFar before (K.taken sink.old) pending.old.items text
        → (all : List ℕ) × (s : Standing) × AnswersBehind rows (with_open_line closed last) all s
        × EndsWith result (status_at s) before (K.taken sink.new) (K.faults sink.old) (K.faults sink.new) all }
{
    if line.is_empty() {
        return conclude(Answered::GoesOn(progress), pending, sink);
    }
    match respond(progress, lines + 1, line, tables, pending, sink) {
        Ok(answered) => conclude(answered, pending, sink),
        Err(_) => Status::WriteFault,
    }
}

/// Tests the tables, then writes the answers to the first request line, which `line` holds, and to the lines after
/// it.
fn serve_requests<S: Source, K: Sink>(
    rows: &TableRows,
    reader: &mut Reader,
    line: &mut LineBuffer,
    source: &mut S,
    sink: &mut K,
) -> Status
    ensures { (before : Option (List ℕ)) (faults : ℕ) → faults ≤ S.faults source.old
        → MetRequest before (S.left source.old) reader.old line.old (rows_said rows.now)
        → Serves span_rules result (outside before (K.taken sink.old) faults (K.faults sink.old))
        (outside (S.left source.new) (K.taken sink.new) (S.faults source.new) (K.faults sink.new)) }
{
    let tables = match rows.tables() {
        Ok(tables) => tables,
        Err(refusal) => return refuse_table(refusal, sink),
    };
    let mut pending = Pending::new();
    let number = reader.lines();
    match respond(Progress::new(), number, line, &tables, &mut pending, sink) {
        Ok(Answered::GoesOn(progress)) => {
            line.clear();
            serve_from(progress, &tables, reader, line, &mut pending, source, sink)
        }
        Ok(Answered::Stopped) => conclude(Answered::Stopped, &mut pending, sink),
        Err(_) => Status::WriteFault,
    }
}

/// Tests the tables, then writes the answer to the only request line, which `line` holds. `lines` lines come before
/// it.
fn serve_last<K: Sink>(rows: &TableRows, lines: u64, line: &LineBuffer, sink: &mut K) -> Status
    requires { lines ≤ 16777216 }
    ensures { (before left : Option (List ℕ)) (faults reads : ℕ) (reader : Reader) → lines ≡ lines_given reader
        → MetLast before left reader line.now (rows_said rows.now)
        → Serves span_rules result (outside before (K.taken sink.old) faults (K.faults sink.old))
        (outside left (K.taken sink.new) reads (K.faults sink.new)) }
{
    let tables = match rows.tables() {
        Ok(tables) => tables,
        Err(refusal) => return refuse_table(refusal, sink),
    };
    let mut pending = Pending::new();
    match respond(
        Progress::new(),
        lines + 1,
        line,
        &tables,
        &mut pending,
        sink,
    ) {
        Ok(answered) => conclude(answered, &mut pending, sink),
        Err(_) => Status::WriteFault,
    }
}

/// Tests the tables at the end of an input without a request line.
fn serve_none<K: Sink>(rows: &TableRows, sink: &mut K) -> Status
    ensures { (before left : Option (List ℕ)) (faults reads : ℕ) → MetEnd before left (rows_said rows.now)
        → Serves span_rules result (outside before (K.taken sink.old) faults (K.faults sink.old))
        (outside left (K.taken sink.new) reads (K.faults sink.new)) }
{
    match rows.tables() {
        Ok(_) => Status::Done,
        Err(refusal) => refuse_table(refusal, sink),
    }
}

/// Runs `span`: reads row lines, then request lines, and writes an answer for each request line.
pub fn serve_span<S: Source, K: Sink>(alloc: Global, source: &mut S, sink: &mut K) -> Status
    ensures { Serves span_rules result
        (outside (S.left source.old) (K.taken sink.old) (S.faults source.old) (K.faults sink.old))
        (outside (S.left source.new) (K.taken sink.new) (S.faults source.new) (K.faults sink.new)) }
{
    let mut reader = Reader::new();
    let mut line = LineBuffer::new();
    let mut rows = TableRows::new(alloc);
    match gather(&mut rows, &mut reader, &mut line, source) {
        Gathered::Request => serve_requests(&rows, &mut reader, &mut line, source, sink),
        Gathered::LastRequest => serve_last(&rows, reader.lines(), &line, sink),
        Gathered::End => serve_none(&rows, sink),
        Gathered::Refused(number, why) => refuse_row(number, why, sink),
        Gathered::Stopped(stop) => status_of_stop(stop),
    }
}
