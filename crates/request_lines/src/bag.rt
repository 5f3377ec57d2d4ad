//! Bags of fields, word after word.
ghost use Rattle.std.specs.Prelude.{◌≡◌, Some, None, MatchOption, false};
ghost use Rattle.std.specs.List.{list_all};
ghost use Rattle.std.specs.Option.{option_map};
ghost use Rattle.cal_types.specs.Bag.{bag_of};
ghost use Rattle.cal_types.specs.Month.{month_read};
ghost use Rattle.cal_types.specs.MonthParts.{month_parts};
ghost use Rattle.request_lines.specs.Bags.{with_field, with_word, with_whole_word, with_rarer_word, bag_before_to, bag_of_all, is_word_byte};
ghost use Rattle.request_lines.specs.PlainDates.{GoesOn, HasNoMonth};
ghost use Rattle.request_lines.specs.Reading.{IsReading, next_word};
ghost use Rattle.request_lines.specs.WordsLeft.{words_left};

use crate::reading::{next_byte, next_int};
use crate::words::Words;
use cal_types::{DateFields, Month};
use word_values::read_month_code;

/// A field of a bag with its value.
#[derive(Clone, Copy)]
enum Field<'a> {
    Era(&'a [u8]),
    EraYear(i32),
    ExtendedYear(i32),
    Month(Month),
    MonthCode(&'a [u8]),
    OrdinalMonth(u8),
    Day(u8),
}

ghost use Rattle.request_lines.specs.FieldSaid.{field_said};

/// Sets a field. `None` exactly if it is already set, because a key may occur only once in a bag.
fn set_field<'a>(fields: &mut DateFields<'a>, field: Field<'a>) -> Option<()>
    ensures { let with = with_field (bag_of fields.old) (field_said field.entry) in
        MatchOption result (with ≡ None) (λ _. with ≡ Some (bag_of fields.new)) }
{
    match field {
        Field::Era(era) if fields.era.is_none() => fields.era = Some(era),
        Field::EraYear(year) if fields.era_year.is_none() => fields.era_year = Some(year),
        Field::ExtendedYear(year) if fields.extended_year.is_none() => {
            fields.extended_year = Some(year);
        }
        Field::Month(month) if fields.month.is_none() => fields.month = Some(month),
        Field::MonthCode(code) if fields.month_code.is_none() => fields.month_code = Some(code),
        Field::OrdinalMonth(ordinal) if fields.ordinal_month.is_none() => {
            fields.ordinal_month = Some(ordinal);
        }
        Field::Day(day) if fields.day.is_none() => fields.day = Some(day),
        _ => return None,
    }
    Some(())
}

/// Returns the month of the next word, a month code.
fn next_month(words: &mut Words) -> Option<Month>
    ensures { let reading = next_word month_read (words_left words.old) in
        IsReading reading (option_map month_parts result) (words_left words.new) }
{
    read_month_code(words.next()?)
}

/// Sets the field of the next word, `KEY=VALUE` with one of the rarer keys. Kept out of line so that `year`, `month`
/// and `day` don't pay for its stack frame.
#[inline(never)]
fn set_next_rarer_field<'a>(fields: &mut DateFields<'a>, words: &mut Words<'a>) -> Option<()>
    ensures { let reading = next_word (with_rarer_word (bag_of fields.old)) (words_left words.old) in
        IsReading reading (option_map (λ _. bag_of fields.new) result) (words_left words.new) }
{
    if words.take_key(b"era=") {
        return set_field(fields, Field::Era(words.next()?));
    }
    if words.take_key(b"era-year=") {
        return set_field(fields, Field::EraYear(next_int(words)?));
    }
    if words.take_key(b"month-code=") {
        return set_field(fields, Field::MonthCode(words.next()?));
    }
    if words.take_key(b"ordinal=") {
        return set_field(fields, Field::OrdinalMonth(next_byte(words)?));
    }
    None
}

/// Sets the field of the next word, `KEY=VALUE`. `None` if the key is unknown, its value is invalid, or the field is
/// already set.
#[inline(always)]
fn set_next_field<'a>(fields: &mut DateFields<'a>, words: &mut Words<'a>) -> Option<()>
    ensures { let reading = next_word (with_word (bag_of fields.old)) (words_left words.old) in
        IsReading reading (option_map (λ _. bag_of fields.new) result) (words_left words.new) }
{
    if words.take_key(b"year=") {
        return set_field(fields, Field::ExtendedYear(next_int(words)?));
    }
    if words.take_key(b"month=") {
        return set_field(fields, Field::Month(next_month(words)?));
    }
    if words.take_key(b"day=") {
        return set_field(fields, Field::Day(next_byte(words)?));
    }
    set_next_rarer_field(fields, words)
}

/// Sets the year of the next word if this is `year=` with four digits, others come behind it, and no year is set.
#[inline(always)]
fn set_plain_year(fields: &mut DateFields, words: &mut Words)
    ensures { GoesOn (bag_of fields.old) (words_left words.old) (bag_of fields.new) (words_left words.new) }
{
    if fields.extended_year.is_some() {
        return;
    }
    if let Some(year) = words.take_plain_year() {
        fields.extended_year = Some(year);
    }
}

/// Returns whether a bag has a year or a month.
fn has_month(fields: &DateFields) -> bool
    ensures { result ≡ false → HasNoMonth (bag_of fields.now) }
{
    fields.extended_year.is_some() || fields.month.is_some()
}

/// Sets the year and the month of the next two words if these are `year=` with four digits and `month=` with `M` and two
/// digits, others come behind them, and neither is set. Otherwise does so for the year alone, if it can.
#[inline(always)]
fn set_plain_month_of_year(fields: &mut DateFields, words: &mut Words)
    ensures { GoesOn (bag_of fields.old) (words_left words.old) (bag_of fields.new) (words_left words.new) }
{
    if has_month(fields) {
        return;
    }
    match words.take_plain_year_and_month() {
        Some(month) => {
            fields.extended_year = Some(month.year);
            fields.month = Some(month.month);
        }
        None => set_plain_year(fields, words),
    }
}

/// Sets the day of the next word if this is `day=` with one or two digits, and no day is set.
#[inline(always)]
fn set_plain_day(fields: &mut DateFields, words: &mut Words)
    ensures { GoesOn (bag_of fields.old) (words_left words.old) (bag_of fields.new) (words_left words.new) }
{
    if fields.day.is_some() {
        return;
    }
    if let Some(day) = words.take_plain_day() {
        fields.day = Some(day);
    }
}

/// Sets the fields of the next words if these are a year, a month and a day in the forms that most have, or of as many
/// of the three as are.
#[inline(always)]
fn set_plain_date(fields: &mut DateFields, words: &mut Words)
    ensures { GoesOn (bag_of fields.old) (words_left words.old) (bag_of fields.new) (words_left words.new) }
{
    set_plain_month_of_year(fields, words);
    set_plain_day(fields, words);
}

/// Sets the fields of the words before `to`, and takes the word `to`. `None` if no word is `to`, or a word before it
/// isn't `KEY=VALUE` with a known key and a valid value, or a key occurs twice.
pub fn read_bag_to<'a>(fields: &mut DateFields<'a>, words: &mut Words<'a>) -> Option<()>
    ensures { let reading = bag_before_to (Some (bag_of fields.old)) (words_left words.old) in
        IsReading reading (option_map (λ _. bag_of fields.new) result) (words_left words.new) }
{
    set_plain_date(fields, words);
    while !words.take_known(b"to") {
        set_next_field(fields, words)?;
    }
    Some(())
}

/// Sets the fields of all remaining words. `None` if one of them isn't `KEY=VALUE` with a known key and a valid
/// value, or a key occurs twice.
pub fn read_bag<'a>(fields: &mut DateFields<'a>, words: &mut Words<'a>) -> Option<()>
    ensures { let read = bag_of_all (Some (bag_of fields.old)) (words_left words.old) in
        option_map (λ _. bag_of fields.new) result ≡ read }
{
    set_plain_date(fields, words);
    while !words.is_done() {
        set_next_field(fields, words)?;
    }
    Some(())
}

/// Returns whether a word has no space and no line feed.
fn is_whole_word(word: &[u8]) -> bool
    ensures { result ≡ list_all is_word_byte word.now }
{
    word.iter().all(|b| *b != b' ' && *b != b'\n')
}

/// Sets the field of a single word, such as a word of a command line. `None` if the word isn't `KEY=VALUE` with a
/// known key and a valid value, as in a request line, or the field is already set.
pub fn read_field<'a>(fields: &mut DateFields<'a>, word: &'a [u8]) -> Option<()>
    ensures { option_map (λ _. bag_of fields.new) result ≡ with_whole_word (bag_of fields.old) word.now }
{
    if !is_whole_word(word) {
        return None;
    }
    let mut words = Words::new(word);
    set_next_field(fields, &mut words)
}
