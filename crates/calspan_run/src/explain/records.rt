//! The lines about invalid records of a book.
ghost use Rattle.std.specs.Prelude.{◌≡◌, ◌&&◌, ◌++◌, nat_le, IfSome, OnSome};
ghost use Rattle.std.specs.List.{list_all};
ghost use Rattle.csv.specs.Records.{fields_of};
ghost use Rattle.calspan_run.specs.Endings.{EndsWith};
ghost use Rattle.calspan_run.specs.Refusals.{status_of as status_where};
ghost use Rattle.calspan_run.specs.RecordsExplained.{book_explained, field_ending, field_line, field_place, is_shown, record_line, records_explained, standing_field};

use crate::books::BookTask;
use crate::convert::serving::{either, status_of};
use crate::explain::lines::ending;
use crate::status::Status;
use crate::writer::write_all;
use byte_io::Sink;
use cal_tables::Tables;
use csv::{ByteRecord, ReaderBuilder};
use line_faults::Expected;
use record_faults::{FieldExpected, RecordFault, field_text, record_fault};
use reply_texts::{Pending, push_all, push_number};
use std::alloc::Global;

/// Returns the end of the line about a fault: what may stand in the field.
fn field_ending(expected: FieldExpected) -> &'static [u8]
    ensures { result.now ≡ field_ending expected }
{
    match expected {
        FieldExpected::Fields => b": six to ten fields\n",
        FieldExpected::Kind => b": fixed, easter, weekday, span or rule\n",
        FieldExpected::Name => b": a name, 1 to 64 printable ASCII characters\n",
        FieldExpected::Calendar => ending(Expected::Calendar),
        FieldExpected::EasterCalendar => b": gregorian or julian\n",
        FieldExpected::Month => b": the code of a month of the calendar, such as M01\n",
        FieldExpected::Nothing => b": nothing\n",
        FieldExpected::Day => b": a day, 1 to 31\n",
        FieldExpected::Offset => b": days after Easter, -400 to 400\n",
        FieldExpected::Leaping => b": exact or constrain\n",
        FieldExpected::Nth => b": 1 to 5, or -1 for the last\n",
        FieldExpected::Weekday => b": monday to sunday\n",
        FieldExpected::SpanWeekday => b": monday to sunday, or with a - before it\n",
        FieldExpected::Recurrence => b": a recurrence rule for the calendar\n",
        FieldExpected::Start => b": a date, YYYY-MM-DD\n",
        FieldExpected::Year => b": nothing, or a year, an optional - and 1 to 6 digits\n",
        FieldExpected::Every => b": nothing, or years, 1 to 400\n",
        FieldExpected::NoEvery => b": nothing, since field 7 is empty\n",
        FieldExpected::Moves => {
            b": nothing, or moves such as saturday-1 sunday+1, each weekday once\n"
        }
    }
}

/// Returns whether every byte is a printable ASCII character.
fn is_printable(text: &[u8]) -> bool
    ensures { result ≡ list_all (λ b. nat_le 32 b && nat_le b 126) text.now }
{
    text.iter().all(|byte| 32 <= *byte && *byte <= 126)
}

/// Returns whether a field is shown: it isn't empty, and all of it is printable.
fn is_shown(text: &[u8]) -> bool
    ensures { result ≡ is_shown text.now }
{
    1 <= text.len() && is_printable(text)
}

/// Returns the numbers of a record and of a field.
fn field_place(number: u64, field: u8) -> Pending
    ensures { result.items ≡ field_place number field }
{
    let mut head = Pending::new();
    push_all(&mut head, b"record ");
    push_number(&mut head, number);
    push_all(&mut head, b" field ");
    push_number(&mut head, u64::from(field));
    head
}

/// Appends a field, if it is shown. `None` if there is no memory for it.
fn push_field(text: &mut Vec<u8>, field: &[u8]) -> Option<()>
    ensures { OnSome result (text.new.items ≡ text.old.items ++ standing_field field.now) }
{
    if !is_shown(field) {
        return Some(());
    }
    text.push(b' ').ok()?;
    text.extend_from_slice(field).ok()
}

/// Appends the line about a fault of a record. `None` if there is no memory for it.
fn push_fault(text: &mut Vec<u8>, number: u64, row: &ByteRecord, fault: RecordFault) -> Option<()>
    ensures { OnSome result (text.new.items ≡ text.old.items ++ field_line number (fields_of row.now) fault) }
{
    text.extend_from_slice(&field_place(number, fault.field))
        .ok()?;
    push_field(text, field_text(row, fault.field))?;
    text.extend_from_slice(field_ending(fault.expected)).ok()
}

/// Appends the line about a record, if it is invalid, and returns whether it is. `None` if there is no memory.
fn explain_record(text: &mut Vec<u8>, number: u64, row: &ByteRecord) -> Option<bool>
    ensures line { OnSome result (text.new.items ≡ text.old.items ++ (record_line number (fields_of row.now)).0) }
    ensures is_invalid { IfSome result (λ b. b ≡ (record_line number (fields_of row.now)).1) }
{
    match record_fault(row) {
        Some(fault) => {
            push_fault(text, number, row, fault)?;
            Some(true)
        }
        None => Some(false),
    }
}

/// Returns the lines about the invalid records of a book, and whether there are any. `None` if there is no memory.
fn explain_records(alloc: Global, book: &[u8]) -> Option<(Vec<u8>, bool)>
    ensures { IfSome result (λ lines. (lines.0.items, lines.1) ≡ records_explained book.now) }
{
    let reader = ReaderBuilder::new()
        .has_headers(false)
        .flexible(true)
        .from_reader(alloc, book);
    let mut text = Vec::new(alloc);
    let mut is_invalid = false;
    let mut number = 0u64;
    for row in reader.into_byte_records() {
        let Ok(row) = row else {
            return None;
        };
        let Some(next) = number.checked_add(1) else {
            return None;
        };
        number = next;
        let this = explain_record(&mut text, number, &row)?;
        is_invalid = either(is_invalid, this);
    }
    Some((text, is_invalid))
}

/// Writes the last lines of a run. Returns the status of the run, or `WriteFault` if the sink counted a fault.
fn end_with_lines<K: Sink>(text: &[u8], is_invalid: bool, sink: &mut K) -> Status
    ensures { EndsWith result (status_where is_invalid) (K.taken sink.old) (K.taken sink.new) (K.faults sink.old)
        (K.faults sink.new) text.now }
{
    match write_all(text, sink) {
        Ok(()) => status_of(is_invalid),
        Err(_) => Status::WriteFault,
    }
}

/// The text of `explain holidays`.
pub(crate) struct RecordLines;

impl BookTask for RecordLines {
    ghost written = { λ _. book_explained };

    fn write_book<K: Sink>(
        &self,
        alloc: Global,
        tables: &Tables<'_>,
        book: &[u8],
        sink: &mut K,
    ) -> Status {
        let _any_tables = tables;
        if book.is_empty() {
            return Status::Done;
        }
        match explain_records(alloc, book) {
            Some((text, is_invalid)) => end_with_lines(&text, is_invalid, sink),
            None => Status::NoMemory,
        }
    }
}
