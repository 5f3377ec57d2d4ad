//! The last text of a run, and the lines for an invalid row or table.
ghost use Rattle.calspan_run.specs.Endings.{EndsWith};
ghost use Rattle.calspan_run.specs.TableTexts.{row_refusal, table_refusal};
ghost use Rattle.calspan_run.specs.declared.status.Status.{Status};

use crate::row_refusals::{push_row_refusal, push_table_refusal};
use crate::status::Status;
use crate::writer::write_all;
use byte_io::Sink;
use reply_texts::Pending;
use table_rows::{RowFault, TableRefusal};

/// Writes the last text of a run. Returns the status of the run, or `WriteFault` if the sink counted a fault.
pub(crate) fn end_with<K: Sink>(text: &Pending, status: Status, sink: &mut K) -> Status
    ensures { EndsWith result status (K.taken sink.old) (K.taken sink.new) (K.faults sink.old) (K.faults sink.new)
        text.now.items }
{
    match write_all(text, sink) {
        Ok(()) => status,
        Err(_) => Status::WriteFault,
    }
}

/// Writes the line for an invalid row line.
pub(crate) fn refuse_row<K: Sink>(number: u64, why: RowFault, sink: &mut K) -> Status
    ensures { EndsWith result Status.TableRefused (K.taken sink.old) (K.taken sink.new) (K.faults sink.old)
        (K.faults sink.new) (row_refusal number why) }
{
    let mut text = Pending::new();
    push_row_refusal(&mut text, number, why);
    end_with(&text, Status::TableRefused, sink)
}

/// Writes the line for an invalid table.
pub(crate) fn refuse_table<K: Sink>(refusal: TableRefusal, sink: &mut K) -> Status
    ensures { EndsWith result Status.TableRefused (K.taken sink.old) (K.taken sink.new) (K.faults sink.old)
        (K.faults sink.new) (table_refusal refusal.table refusal.fault) }
{
    let mut text = Pending::new();
    push_table_refusal(&mut text, refusal);
    end_with(&text, Status::TableRefused, sink)
}
