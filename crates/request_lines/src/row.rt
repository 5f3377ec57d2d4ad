//! Rows of tables.
ghost use Rattle.std.specs.Prelude.{◌≡◌, true, IfSome};
ghost use Rattle.std.specs.List.{list_all};
ghost use Rattle.std.specs.Option.{option_map};
ghost use Rattle.request_lines.specs.Words.{words_of};
ghost use Rattle.request_lines.specs.WordsLeft.{words_left};
ghost use Rattle.request_lines.specs.Reading.{IsReading, next_word};
ghost use Rattle.request_lines.specs.Rows.{kind_named, is_length, are_lengths, lengths_of, leap_of, is_code_letter, is_era_code, code_of, lunisolar_read, lunar_read, era_read, parts_read, row_read};

use crate::era_row::{EraRow, RowDate};
use crate::reading::{next_byte, next_int, next_is};
use crate::words::Words;
use word_values::read_byte;

/// The table that a row belongs to.
#[derive(Clone, Copy, Debug)]
pub enum RowKind {
    /// Chinese years.
    China,
    /// Korean years.
    Korea,
    /// Hijri years.
    Hijri,
    /// Corrected Persian years.
    Persian,
    /// The eras of Japan.
    Era,
}

/// A row of a table of years. It isn't validated: the year may not exist.
#[derive(Clone, Copy, Debug)]
pub struct YearRow<'a> {
    /// The number of the year.
    pub year: i32,
    /// The day number of its first day (rata die).
    pub start: i32,
    /// A letter for each month: `l` for 30 days and `s` for 29.
    pub lengths: &'a [u8],
    /// The ordinal of the leap month, or 0 if the year has none.
    pub leap: u8,
}

/// The row of a row line.
#[derive(Clone, Copy, Debug)]
pub enum Row<'a> {
    /// A Chinese year.
    China(YearRow<'a>),
    /// A Korean year.
    Korea(YearRow<'a>),
    /// A Hijri year.
    Hijri(YearRow<'a>),
    /// A corrected Persian year.
    Persian(i32),
    /// An era of Japan.
    Era(EraRow<'a>),
}

ghost use Rattle.request_lines.specs.RowSaid.{year_row_said, era_row_said, row_said};

fn next_kind(words: &mut Words) -> Option<RowKind>
    ensures { IsReading (next_word kind_named (words_left words.old)) result (words_left words.new) }
{
    if words.take(b"china") {
        return Some(RowKind::China);
    }
    if words.take(b"korea") {
        return Some(RowKind::Korea);
    }
    if words.take(b"hijri") {
        return Some(RowKind::Hijri);
    }
    if words.take(b"persian") {
        return Some(RowKind::Persian);
    }
    if words.take(b"era") {
        Some(RowKind::Era)
    } else {
        None
    }
}

/// Returns whether each letter is `l` or `s`.
fn all_lengths(word: &[u8]) -> bool
    ensures { result ≡ list_all is_length word.now }
{
    word.iter().all(|letter| *letter == b'l' || *letter == b's')
}

/// Returns whether a word has 12 to `most` letters, each `l` or `s`.
fn are_month_lengths(word: &[u8], most: usize) -> bool
    ensures { result ≡ are_lengths most word.now }
{
    12 <= word.len() && word.len() <= most && all_lengths(word)
}

/// Returns the next word if it has the lengths of 12 to `most` months.
fn next_lengths<'a>(words: &mut Words<'a>, most: usize) -> Option<&'a [u8]>
    ensures { let reading = next_word (lengths_of most) (words_left words.old) in
        IsReading reading (option_map (λ l. l.now) result) (words_left words.new) }
{
    let word = words.next()?;
    if are_month_lengths(word, most) {
        Some(word)
    } else {
        None
    }
}

/// Returns the ordinal of the leap month from the next word: above 0 if there are 13 lengths, and 0 if there are 12.
fn next_leap(words: &mut Words, lengths: &[u8]) -> Option<u8>
    ensures { IsReading (next_word (leap_of lengths.now) (words_left words.old)) result (words_left words.new) }
{
    let leap = read_byte(words.next()?)?;
    let months = if leap == 0 { 12 } else { 13 };
    if lengths.len() == months {
        Some(leap)
    } else {
        None
    }
}

/// Returns whether each letter is from `a` to `z`.
fn all_code_letters(word: &[u8]) -> bool
    ensures { result ≡ list_all is_code_letter word.now }
{
    word.iter().all(|letter| b'a' <= *letter && *letter <= b'z')
}

/// Returns whether a word is one to eight letters `a` to `z`.
fn is_code(word: &[u8]) -> bool
    ensures { result ≡ is_era_code word.now }
{
    !word.is_empty() && word.len() <= 8 && all_code_letters(word)
}

/// Returns the next word if it is an era code.
fn next_code<'a>(words: &mut Words<'a>) -> Option<&'a [u8]>
    ensures value { let reading = next_word code_of (words_left words.old) in
        IsReading reading (option_map (λ c. c.now) result) (words_left words.new) }
    ensures code { IfSome result (λ c. is_era_code c.now ≡ true) }
{
    let word = words.next()?;
    if is_code(word) { Some(word) } else { None }
}

#[tactic(auto, unfolding(crate::specs::Rows::lunisolar_read))]
fn read_lunisolar<'a>(words: &mut Words<'a>) -> Option<YearRow<'a>>
    ensures { let reading = lunisolar_read (words_left words.old) in
        IsReading reading (option_map year_row_said result) (words_left words.new) }
{
    let year = next_int(words)?;
    let start = next_int(words)?;
    let lengths = next_lengths(words, 13)?;
    let leap = next_leap(words, lengths)?;
    Some(YearRow {
        year,
        start,
        lengths,
        leap,
    })
}

#[tactic(auto, unfolding(crate::specs::Rows::lunar_read))]
fn read_lunar<'a>(words: &mut Words<'a>) -> Option<YearRow<'a>>
    ensures { let reading = lunar_read (words_left words.old) in
        IsReading reading (option_map year_row_said result) (words_left words.new) }
{
    let year = next_int(words)?;
    let start = next_int(words)?;
    let lengths = next_lengths(words, 12)?;
    Some(YearRow {
        year,
        start,
        lengths,
        leap: 0,
    })
}

#[tactic(auto, unfolding(crate::specs::Rows::era_read))]
fn read_era<'a>(words: &mut Words<'a>) -> Option<EraRow<'a>>
    ensures { let reading = era_read (words_left words.old) in
        IsReading reading (option_map era_row_said result) (words_left words.new) }
{
    let year = next_int(words)?;
    let month = next_byte(words)?;
    let day = next_byte(words)?;
    let code = next_code(words)?;
    let index = next_byte(words)?;
    Some(EraRow {
        start: RowDate { year, month, day },
        letters: code,
        index,
    })
}

/// Reads the words after the name of the table.
fn read_parts<'a>(kind: RowKind, words: &mut Words<'a>) -> Option<Row<'a>>
    ensures { let reading = parts_read kind (words_left words.old) in
        IsReading reading (option_map row_said result) (words_left words.new) }
{
    match kind {
        RowKind::China => match read_lunisolar(words) {
            Some(row) => Some(Row::China(row)),
            None => None,
        },
        RowKind::Korea => match read_lunisolar(words) {
            Some(row) => Some(Row::Korea(row)),
            None => None,
        },
        RowKind::Hijri => match read_lunar(words) {
            Some(row) => Some(Row::Hijri(row)),
            None => None,
        },
        RowKind::Persian => match next_int(words) {
            Some(year) => Some(Row::Persian(year)),
            None => None,
        },
        RowKind::Era => match read_era(words) {
            Some(row) => Some(Row::Era(row)),
            None => None,
        },
    }
}

/// Reads a row from all words of a row line, the first of which is `row`. `None` exactly if they have none of the forms
/// `row china YEAR START LENGTHS LEAP`, the same with `korea`, `row hijri YEAR START LENGTHS`, `row persian YEAR` and
/// `row era YEAR MONTH DAY CODE INDEX`:
///
/// - `YEAR` and `START` are one to nine digits after an optional `-`.
/// - `LEAP`, `MONTH`, `DAY` and `INDEX` are numbers of one to three digits, up to 255.
/// - `LENGTHS` are letters `l` and `s`, 12 of them, or 13 if `LEAP` is above 0.
/// - `CODE` is one to eight letters `a` to `z`.
// Kept out of line so that a request line doesn't pay for its stack frame.
#[inline(never)]
#[tactic(auto, unfolding(crate::specs::Rows::row_read))]
pub fn read_row<'a>(text: &'a [u8]) -> Option<Row<'a>>
    ensures { option_map row_said result ≡ row_read (words_of text.now) }
{
    let mut words = Words::new(text);
    next_is(&mut words, b"row")?;
    let kind = next_kind(&mut words)?;
    let row = read_parts(kind, &mut words)?;
    if words.is_done() { Some(row) } else { None }
}
