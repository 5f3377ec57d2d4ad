//! The first invalid field of a record.

ghost use Rattle.std.specs.Prelude.{◌≡◌};
ghost use Rattle.cal_types.specs.YearNames.{is_code};
ghost use Rattle.csv.specs.Records.{fields_of};
ghost use Rattle.record_faults.specs.RecordFaults.{calendar_field, every_field, expected_at, field_text, last_field, month_field, record_fault, text_at, value_field};

use crate::expected::FieldExpected;
use cal_holidays::invalid_field;
use csv::ByteRecord;

/// The first invalid field of a record.
#[derive(Clone, Copy, Debug, PartialEq, Eq)]
pub struct RecordFault {
    /// The number of the field, from 1 to 10; 0 if the record doesn't have six to ten fields.
    pub field: u8,
    /// What may stand there.
    pub expected: FieldExpected,
}

/// Returns the field at a place, counted from 0, or an empty text if the record has fewer fields.
fn field(row: &ByteRecord, place: usize) -> &[u8]
    ensures { result.now ≡ text_at (fields_of row.now) place }
{
    match row.get(place) {
        Some(field) => field,
        None => b"",
    }
}

/// Returns the field of a number, counted from 1. It is empty for 0, and if the record has fewer fields.
pub fn field_text(row: &ByteRecord, number: u8) -> &[u8]
    ensures { result.now ≡ field_text (fields_of row.now) number }
{
    if number == 0 {
        b""
    } else {
        field(row, usize::from(number - 1))
    }
}

/// Returns whether a text is a word.
fn is_word(text: &[u8], word: &[u8]) -> bool
    ensures { result ≡ is_code text.now word.now }
{
    text == word
}

/// Returns what may stand in the field 3 of a record with a kind of rule.
fn calendar_field(kind: &[u8]) -> FieldExpected
    ensures { result ≡ calendar_field kind.now }
{
    if is_word(kind, b"easter") {
        FieldExpected::EasterCalendar
    } else {
        FieldExpected::Calendar
    }
}

/// Returns what may stand in the field 4 of a record with a kind of rule.
fn month_field(kind: &[u8]) -> FieldExpected
    ensures { result ≡ month_field kind.now }
{
    if is_word(kind, b"easter") || is_word(kind, b"rule") {
        FieldExpected::Nothing
    } else {
        FieldExpected::Month
    }
}

/// Returns what may stand in the field 5 of a record with a kind of rule.
fn value_field(kind: &[u8]) -> FieldExpected
    ensures { result ≡ value_field kind.now }
{
    if is_word(kind, b"easter") {
        return FieldExpected::Offset;
    }
    if is_word(kind, b"weekday") {
        return FieldExpected::Nth;
    }
    if is_word(kind, b"rule") {
        FieldExpected::Recurrence
    } else {
        FieldExpected::Day
    }
}

/// Returns what may stand in the field 6 of a record with a kind of rule.
fn last_field(kind: &[u8]) -> FieldExpected
    ensures { result ≡ last_field kind.now }
{
    if is_word(kind, b"easter") {
        return FieldExpected::Nothing;
    }
    if is_word(kind, b"weekday") {
        return FieldExpected::Weekday;
    }
    if is_word(kind, b"span") {
        return FieldExpected::SpanWeekday;
    }
    if is_word(kind, b"rule") {
        FieldExpected::Start
    } else {
        FieldExpected::Leaping
    }
}

/// Returns what may stand in the field 9 of a record with a field 7.
fn every_field(since: &[u8]) -> FieldExpected
    ensures { result ≡ every_field since.now }
{
    if since.is_empty() {
        FieldExpected::NoEvery
    } else {
        FieldExpected::Every
    }
}

/// Returns what may stand in a field of a record.
fn expected_at(row: &ByteRecord, number: u8) -> FieldExpected
    ensures { result ≡ expected_at (fields_of row.now) number }
{
    let kind = field(row, 0);
    match number {
        0 => FieldExpected::Fields,
        1 => FieldExpected::Kind,
        2 => FieldExpected::Name,
        3 => calendar_field(kind),
        4 => month_field(kind),
        5 => value_field(kind),
        6 => last_field(kind),
        7 => FieldExpected::Year,
        8 => FieldExpected::Year,
        9 => every_field(field(row, 6)),
        _ => FieldExpected::Moves,
    }
}

/// Returns the first invalid field of a record and what may stand there, or `None` if the record is valid.
///
/// # Examples
///
/// ```
/// use record_faults::{FieldExpected, record_fault};
///
/// let reader = ReaderBuilder::new().has_headers(false).flexible(true).from_reader(alloc, b"fixed,Feast,iso,M01,32,exact");
/// for record in reader.into_byte_records() {
///     let fault = record_fault(&record.ok()?)?;
///     assert!(rt; fault.field == 5);
///     assert!(rt; fault.expected == FieldExpected::Day);
/// }
/// ```
pub fn record_fault(row: &ByteRecord) -> Option<RecordFault>
    ensures { result ≡ record_fault (fields_of row.now) }
{
    let field = invalid_field(row)?;
    let expected = expected_at(row, field);
    Some(RecordFault { field, expected })
}
