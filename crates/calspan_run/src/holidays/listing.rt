//! Running `holidays`.
ghost use Rattle.std.specs.Prelude.{◌≡◌, ◌<◌, codes, length, true, Err};
ghost use Rattle.command_line.specs.CommandSaid.{holidays_said};
ghost use Rattle.calspan_run.specs.DayLines.{is_window, list_text};
ghost use Rattle.calspan_run.specs.Endings.{EndsWith};
ghost use Rattle.cal_tables.specs.Kinds.{table_contents};
ghost use Rattle.calspan_run.specs.BookEndings.{EndsBook};
ghost use Rattle.calspan_run.specs.HolidayLines.{holiday_line, holidays_written, record_fault};
ghost use Rattle.calspan_run.specs.TextSoFar.{lines_text};
ghost use Rattle.calspan_run.specs.Written.{Wrote};
ghost use Rattle.byte_io.specs.Faults.{HasCause};
ghost use Rattle.cal_holidays.specs.BookNames.{holidays_in};
ghost use Rattle.cal_holidays.specs.Books.{named_rules};
ghost use Rattle.calspan_run.specs.declared.status.Status.{Status};

use crate::books::BookTask;
use crate::day_lines::window_of;
use crate::endings::end_with;
use crate::holidays::book_lines::BookLines;
use crate::status::Status;
use crate::writer::write_lines;
use byte_io::{Failed, Sink};
use cal_holidays::{Book, BookError, holidays};
use cal_tables::Tables;
use cal_types::Window;
use command_line::HolidayWords;
use reply_texts::{Pending, push_all, push_number};
use std::alloc::Global;

/// Writes the `err` line for an invalid window.
fn refuse_window<K: Sink>(sink: &mut K) -> Status
    ensures { EndsWith result Status.Refused (K.taken sink.old) (K.taken sink.new) (K.faults sink.old)
        (K.faults sink.new) (list_text (Err (codes "InvalidWindow"))) }
{
    let mut text = Pending::new();
    push_all(&mut text, b"err InvalidWindow\n");
    end_with(&text, Status::Refused, sink)
}

/// Writes the `err` line for an invalid record and its first invalid field.
fn refuse_record<K: Sink>(number: usize, field: u8, sink: &mut K) -> Status
    ensures { EndsWith result Status.Refused (K.taken sink.old) (K.taken sink.new) (K.faults sink.old)
        (K.faults sink.new) (list_text (Err (record_fault number field))) }
{
    let mut text = Pending::new();
    push_all(&mut text, b"err record ");
    push_number(&mut text, number as u64);
    push_all(&mut text, b" field ");
    push_number(&mut text, u64::from(field));
    text.push(b'\n');
    end_with(&text, Status::Refused, sink)
}

/// Writes the holidays of a book in a window.
///
/// # Errors
///
/// - [`Failed`] if the sink counted a fault. A prefix of the lines is written.
fn write_holidays<K: Sink>(
    book: &Book,
    tables: Tables<'_>,
    window: Window,
    sink: &mut K,
) -> Result<(), Failed>
    ensures wrote { let rules = named_rules book.now in
        Wrote result (K.taken sink.old) (K.taken sink.new) (lines_text (holiday_line rules)
        (holidays_in (table_contents tables.entry) rules window.first window.last 0)) }
    ensures cause { HasCause (K.faults sink.old) (K.faults sink.new) result }
{
    write_lines(holidays(book, tables, window, 0), &BookLines { book }, sink)
}

/// Reads a book and writes its holidays in a window, or the `err` line for the first invalid record.
fn list_window<K: Sink>(
    alloc: Global,
    window: Window,
    tables: &Tables<'_>,
    bytes: &[u8],
    sink: &mut K,
) -> Status
    requires window { is_window window.first window.last ≡ true }
    requires some { 0 < length bytes.now }
    ensures { EndsBook (holidays_written (record { first = window.first; last = window.last }))
        (table_contents tables.now) result bytes.now (K.taken sink.old) (K.taken sink.new) (K.faults sink.old)
        (K.faults sink.new) }
{
    let book = match Book::try_read(alloc, bytes) {
        Ok(book) => book,
        Err(BookError::Memory) => return Status::NoMemory,
        Err(BookError::Record { number, field }) => return refuse_record(number, field, sink),
    };
    match write_holidays(&book, *tables, window, sink) {
        Ok(()) => Status::Done,
        Err(_) => Status::WriteFault,
    }
}

/// Reads a book and writes its holidays, or the `err` line for an invalid window or record.
fn list_book<K: Sink>(
    alloc: Global,
    words: HolidayWords,
    tables: &Tables<'_>,
    bytes: &[u8],
    sink: &mut K,
) -> Status
    ensures { EndsBook (holidays_written (holidays_said words)) (table_contents tables.now) result bytes.now
        (K.taken sink.old) (K.taken sink.new) (K.faults sink.old) (K.faults sink.new) }
{
    let Some(window) = window_of(words.first, words.last) else {
        return refuse_window(sink);
    };
    if bytes.is_empty() {
        return Status::Done;
    }
    list_window(alloc, window, tables, bytes, sink)
}

impl BookTask for HolidayWords {
    ghost written = { λ words. holidays_written (holidays_said words) };

    fn write_book<K: Sink>(
        &self,
        alloc: Global,
        tables: &Tables<'_>,
        book: &[u8],
        sink: &mut K,
    ) -> Status {
        list_book(alloc, *self, tables, book, sink)
    }
}
