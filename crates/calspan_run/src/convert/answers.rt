//! The answer to a line of `convert`.
ghost use Rattle.std.specs.Prelude.{◌≡◌, ◌==◌, ◌+◌, ◌≤◌, ◌<◌, ◌++◌, ◌∷◌, ℕ, List, Option, Some, None, codes, length, IfOk, IfSome, position};
ghost use Rattle.std.specs.Fmt.{decimal};
ghost use Rattle.arrayvec.specs.ArrayVec.{array_vec_len};
ghost use Rattle.byte_io.specs.Faults.{HasCause};
ghost use Rattle.cal_days.specs.Day.{IsValidDay};
ghost use Rattle.cal_tables.specs.Kinds.{kind_system, table_contents};
ghost use Rattle.cal_types.specs.CalendarList.{Date};
ghost use Rattle.cal_types.specs.CalendarSystem.{CalendarSystem};
ghost use Rattle.cal_types.specs.Year.{extended_year_of};
ghost use Rattle.long_lines.specs.Buffer.{Holds};
ghost use Rattle.reply_texts.specs.DateParts.{IsDayParts};
ghost use Rattle.reply_texts.specs.DateTexts.{cause_text};
ghost use Rattle.calspan_run.specs.Converted.{date_answer, day_answer, era_text, line_answer, shown_date, shown_year, tab_place as tab_in, text_answer};
ghost use Rattle.calspan_run.specs.Converting.{AnsweredLine, IsPushed};
ghost use Rattle.command_line.specs.ConvertSaid.{convert_said};
ghost use Rattle.calspan_run.specs.TextSoFar.{TextSoFar};

use crate::convert::days::find_day;
use crate::kinds::show_day;
use crate::writer::{make_room, push};
use byte_io::{Failed, Sink};
use cal_days::RataDie;
use cal_kinds::AnyCalendarKind;
use cal_tables::Tables;
use cal_types::{DateFromFieldsError, YearInfo};
use command_line::ConvertWords;
use date_lines::read_date;
use long_lines::LongLine;
use memchr::memchr;
use reply_texts::{
    DayParts, Pending, push_all, push_cause, push_month, push_number, push_signed, push_two_digits,
};

/// The two calendars of `convert`, with their tables.
#[derive(Clone, Copy)]
pub(crate) struct Conversion<'t> {
    /// The arguments of the command.
    pub(crate) words: ConvertWords,
    /// The tables of both calendars.
    pub(crate) tables: Tables<'t>,
}

/// Appends an era and a space, unless it is `default`, the era of ISO.
fn push_era(text: &mut Pending, era: &[u8])
    requires room { array_vec_len text.old + 17 ≤ 8192 }
    requires short { length era.now ≤ 16 }
    ensures items { text.new.items ≡ text.old.items ++ era_text era.now }
    ensures len { array_vec_len text.new ≤ array_vec_len text.old + 17 }
{
    if era == b"default".as_slice() {
        return;
    }
    push_all(text, era);
    text.push(b' ');
}

/// Appends the year of a date: its era and era year, or without an era its extended year. The era `default` of ISO isn't
/// written.
fn push_year(text: &mut Pending, year: &YearInfo)
    requires { array_vec_len text.old + 40 ≤ 8192 }
    ensures items { text.new.items ≡ text.old.items ++ shown_year year.now (extended_year_of year.now) }
    ensures len { array_vec_len text.new ≤ array_vec_len text.old + 40 }
{
    match year {
        YearInfo::Era(era) => {
            push_era(text, era.era.as_bytes());
            push_signed(text, i64::from(era.year));
        }
        YearInfo::Cyclic(cyclic) => push_signed(text, i64::from(cyclic.related_iso)),
    }
}

/// Appends a date in the form in which a line has it.
fn push_shown(text: &mut Pending, parts: &DayParts)
    requires room { array_vec_len text.old + 50 ≤ 8192 }
    requires day { parts.now.day < 100 }
    ensures { (s : CalendarSystem) (t : Date) → IsDayParts s t parts.now
        → text.new.items ≡ text.old.items ++ shown_date s t }
{
    push_year(text, &parts.year);
    text.push(b'-');
    push_month(text, parts.month);
    text.push(b'-');
    push_two_digits(text, parts.day);
}

/// Appends the cause of an invalid date.
fn push_invalid(text: &mut Pending, cause: DateFromFieldsError)
    requires { array_vec_len text.old + 51 ≤ 8192 }
    ensures { text.new.items ≡ text.old.items ++ 33 ∷ cause_text cause }
{
    text.push(b'!');
    push_cause(text, cause);
}

/// Appends the place of the first bad byte of a malformed date.
fn push_malformed(text: &mut Pending, place: usize)
    requires { array_vec_len text.old + 28 ≤ 8192 }
    ensures { text.new.items ≡ text.old.items ++ codes "!syntax " ++ decimal place }
{
    push_all(text, b"!syntax ");
    push_number(text, place as u64);
}

/// Appends the answer to a day, or to a date without one. Returns whether it is invalid.
fn push_day_answer(
    text: &mut Pending,
    day: Result<RataDie, DateFromFieldsError>,
    shown: AnyCalendarKind,
    tables: &Tables<'_>,
) -> bool
    requires room { array_vec_len text.old + 60 ≤ 8192 }
    requires valid { IfOk day IsValidDay }
    ensures { IsPushed result text.old.items text.new.items
        (day_answer (kind_system (table_contents tables.now) shown) day) }
{
    match day {
        Ok(day) => {
            let mut parts = DayParts::unnamed(day);
            show_day(&mut parts, shown, tables);
            push_shown(text, &parts);
            false
        }
        Err(cause) => {
            push_invalid(text, cause);
            true
        }
    }
}

/// Appends the answer to the date of a line. Returns whether it is bad.
fn push_date_answer(text: &mut Pending, date: &[u8], conversion: &Conversion<'_>) -> bool
    requires { array_vec_len text.old + 60 ≤ 8192 }
    ensures { IsPushed result text.old.items text.new.items
        (date_answer (convert_said conversion.now.words) (table_contents conversion.now.tables) date.now) }
{
    match read_date(date) {
        Ok(date) => {
            let day = find_day(&date, &conversion.words, &conversion.tables);
            push_day_answer(text, day, conversion.words.shown, &conversion.tables)
        }
        Err(place) => {
            push_malformed(text, place);
            true
        }
    }
}

/// Returns the place of the first tab.
fn first_tab(text: &[u8]) -> Option<usize>
    ensures value { result ≡ position (λ b. b == 9) text.now }
    ensures within { IfSome result (λ i. i < length text.now) }
{
    memchr(b'\t', text)
}

/// Returns the place of the first tab, or the length of a text without one.
fn tab_place(text: &[u8]) -> usize
    ensures value { result ≡ tab_in text.now }
    ensures within { result ≤ length text.now }
{
    match first_tab(text) {
        Some(at) => at,
        None => text.len(),
    }
}

/// Appends the answer to a line of at most 65536 bytes that isn't empty. Returns whether its date is bad.
fn answer_text<K: Sink>(
    text: &[u8],
    conversion: &Conversion<'_>,
    pending: &mut Pending,
    sink: &mut K,
) -> Result<bool, Failed>
    requires { array_vec_len pending.old + 512 ≤ 8192 }
    ensures answered { (before : Option (List ℕ)) (so_far : List ℕ)
        → TextSoFar before (K.taken sink.old) pending.old.items so_far
        → AnsweredLine result before (K.taken sink.new) pending.new.items so_far
        (text_answer (convert_said conversion.now.words) (table_contents conversion.now.tables) text.now) }
    ensures cause { HasCause (K.faults sink.old) (K.faults sink.new) result }
{
    let at = tab_place(text);
    let is_bad = push_date_answer(pending, &text[..at], conversion);
    push(pending, &text[at..], sink)?;
    push(pending, b"\n", sink)?;
    Ok(is_bad)
}

/// Appends the answer to a line. Writes the pending text first if there might be no room for the answer. Returns whether
/// the line is long or its date is bad.
///
/// # Errors
///
/// - [`Failed`] if the sink counted a fault. A prefix of the text with the answer is written.
pub(crate) fn answer_line<K: Sink>(
    line: &LongLine,
    conversion: &Conversion<'_>,
    pending: &mut Pending,
    sink: &mut K,
) -> Result<bool, Failed>
    ensures answered { (before : Option (List ℕ)) (text whole : List ℕ) → Holds line.now whole
        → TextSoFar before (K.taken sink.old) pending.old.items text
        → AnsweredLine result before (K.taken sink.new) pending.new.items text
        (line_answer (convert_said conversion.now.words) (table_contents conversion.now.tables) whole) }
    ensures cause { HasCause (K.faults sink.old) (K.faults sink.new) result }
{
    make_room(pending, sink)?;
    if line.is_over() {
        push_all(pending, b"!long\n");
        return Ok(true);
    }
    let text = line.prefix();
    if text.is_empty() {
        pending.push(b'\n');
        return Ok(false);
    }
    answer_text(text, conversion, pending, sink)
}
