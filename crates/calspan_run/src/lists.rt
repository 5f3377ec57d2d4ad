//! Running a command that writes a list over tables.
ghost use Rattle.std.specs.Prelude.{◌+◌, ℕ, List, Bool, if◌then◌else◌, codes};
ghost use Rattle.byte_io.specs.Faults.{HasCause};
ghost use Rattle.cal_types.specs.CalendarSystem.{CalendarSystem};
ghost use Rattle.cal_tables.specs.Kinds.{TableContents, table_contents};
ghost use Rattle.calspan_run.specs.Refusals.{refusal};
ghost use Rattle.calspan_run.specs.BehindRows.{OverTables};
ghost use Rattle.calspan_run.specs.Endings.{EndsList, EndsOver, EndsWith};
ghost use Rattle.table_rows.specs.RowsSaid.{rows_said};
ghost use Rattle.calspan_run.specs.Rules.{end_rules};
ghost use Rattle.calspan_run.specs.Run.{outside};
ghost use Rattle.calspan_run.specs.Serving.{Serves};
ghost use Rattle.calspan_run.specs.declared.status.Status.{Status};

use crate::endings::{end_with, refuse_row, refuse_table};
use crate::status::{Status, status_of_stop};
use byte_io::{Failed, LineBuffer, Reader, Sink, Source};
use cal_base::Calendar;
use cal_tables::Tables;
use reply_texts::{Pending, push_about};
use std::alloc::Global;
use table_rows::{Gathered, TableRows, gather};

/// A list over tables.
pub trait TableList {
    /// The text over some tables, and the status that it ends with.
    ghost ends: { Self → TableContents → List ℕ → Status → Type 0 };

    /// Writes the list, or one `err` line instead. Returns whether the text is an `err` line.
    ///
    /// # Errors
    ///
    /// - [`Failed`] if the sink counted a fault. A prefix of the text is written.
    fn write<K: Sink>(&self, tables: &Tables<'_>, sink: &mut K) -> Result<bool, Failed>
        ensures listed { EndsList result (K.taken sink.old) (K.taken sink.new)
            (ends self.now (table_contents tables.now)) }
        ensures cause { HasCause (K.faults sink.old) (K.faults sink.new) result };
}

/// A list in one calendar, shown in others over tables.
pub trait CalendarListing {
    /// The condition on the calendar.
    ghost asks_in: { Self → CalendarSystem → Type 0 };

    /// The text in a calendar and over some tables, and the status that it ends with.
    ghost ends_in: { Self → CalendarSystem → TableContents → List ℕ → Status → Type 0 };

    /// Writes the list in a calendar, or one `err` line instead. Returns whether the text is an `err` line.
    ///
    /// # Errors
    ///
    /// - [`Failed`] if the sink counted a fault. A prefix of the text is written.
    fn write_in<C: Calendar + Copy, K: Sink>(
        &self,
        calendar: C,
        tables: &Tables<'_>,
        sink: &mut K,
    ) -> Result<bool, Failed>
        requires { asks_in self.now (C.system calendar) }
        ensures listed { EndsList result (K.taken sink.old) (K.taken sink.new)
            (ends_in self.now (C.system calendar) (table_contents tables.now)) }
        ensures cause { HasCause (K.faults sink.old) (K.faults sink.new) result };
}

/// Writes the `err` line for a line that isn't a row line.
fn refuse_line<K: Sink>(number: u64, is_long: bool, sink: &mut K) -> Status
    ensures { EndsWith result Status.Refused (K.taken sink.old) (K.taken sink.new) (K.faults sink.old)
        (K.faults sink.new) (refusal number (if is_long then codes "long" else codes "syntax")) }
{
    let mut text = Pending::new();
    let why: &[u8] = if is_long { b"long" } else { b"syntax" };
    push_about(&mut text, b"err line ", number, why);
    end_with(&text, Status::Refused, sink)
}

/// Writes the list over the tables of the rows, or the line for an invalid table.
fn list_over<L: TableList, K: Sink>(rows: &TableRows, list: &L, sink: &mut K) -> Status
    ensures { (text : List ℕ) × (status : Status)
        × OverTables (L.ends list.now) (rows_said rows.now) text status
        × EndsOver result status (K.taken sink.old) (K.taken sink.new) (K.faults sink.old) (K.faults sink.new) text }
{
    let tables = match rows.tables() {
        Ok(tables) => tables,
        Err(refusal) => return refuse_table(refusal, sink),
    };
    match list.write(&tables, sink) {
        Ok(true) => Status::Refused,
        Ok(false) => Status::Done,
        Err(_) => Status::WriteFault,
    }
}

/// Runs a command with a list: reads row lines to the end of the source, and writes the list over their tables. A
/// line that isn't a row line stops the run with an `err` line.
pub fn serve_list<L: TableList, S: Source, K: Sink>(
    alloc: Global,
    list: &L,
    source: &mut S,
    sink: &mut K,
) -> Status
    ensures { Serves (end_rules (L.ends list.now)) result
        (outside (S.left source.old) (K.taken sink.old) (S.faults source.old) (K.faults sink.old))
        (outside (S.left source.new) (K.taken sink.new) (S.faults source.new) (K.faults sink.new)) }
{
    let mut reader = Reader::new();
    let mut line = LineBuffer::new();
    let mut rows = TableRows::new(alloc);
    match gather(&mut rows, &mut reader, &mut line, source) {
        Gathered::Request => refuse_line(reader.lines(), line.over, sink),
        Gathered::LastRequest => refuse_line(reader.lines() + 1, line.over, sink),
        Gathered::End => list_over(&rows, list, sink),
        Gathered::Refused(number, why) => refuse_row(number, why, sink),
        Gathered::Stopped(stop) => status_of_stop(stop),
    }
}
