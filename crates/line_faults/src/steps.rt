//! What a word makes of a place.
ghost use Rattle.std.specs.Prelude.{◌≡◌};
ghost use Rattle.std.specs.List.{list_all};
ghost use Rattle.std.specs.Option.{is_some};
ghost use Rattle.cal_kinds.specs.KindNames.{kind_named};
ghost use Rattle.cal_types.specs.Bag.{bag_of};
ghost use Rattle.word_values.specs.Numbers.{byte_of, int_of};
ghost use Rattle.request_lines.specs.Bags.{with_whole_word};
ghost use Rattle.request_lines.specs.Requests.{missing_fields_named, overflow_named, unit_named};
ghost use Rattle.request_lines.specs.Rows.{are_lengths, code_of, is_code_letter, is_era_code, is_length};
ghost use Rattle.line_faults.specs.Places.{behind_first, behind_lengths, behind_table, led, may_end as may_end_at, months_word, place_behind, step as step_by, with_bag, with_place};

use crate::expected::Expected;
use cal_kinds::AnyCalendarKind;
use cal_types::DateFields;
use request_lines::read_field;
use word_values::{read_byte, read_int};

/// Returns the next place if the word was read.
fn led_to(next: Expected, is_read: bool) -> Option<Expected>
    ensures { result ≡ led next is_read }
{
    if is_read { Some(next) } else { None }
}

/// Returns the place behind the first word.
fn after_first(word: &[u8]) -> Option<Expected>
    ensures { result ≡ behind_first word.now }
{
    if word == b"span".as_slice() {
        return Some(Expected::Calendar);
    }
    if word == b"row".as_slice() {
        return Some(Expected::Table);
    }
    None
}

/// Returns whether a word is the largest unit of a request.
fn is_unit(word: &[u8]) -> bool
    ensures { result ≡ is_some (unit_named word.now) }
{
    word == b"years".as_slice()
        || word == b"months".as_slice()
        || word == b"weeks".as_slice()
        || word == b"days".as_slice()
        || word == b"none".as_slice()
}

/// Returns whether a word is a request's option for months and days that don't exist.
fn is_overflow(word: &[u8]) -> bool
    ensures { result ≡ is_some (overflow_named word.now) }
{
    word == b"constrain".as_slice() || word == b"reject".as_slice() || word == b"none".as_slice()
}

/// Returns whether a word is a request's option for missing fields.
fn is_missing_fields(word: &[u8]) -> bool
    ensures { result ≡ is_some (missing_fields_named word.now) }
{
    word == b"reject".as_slice() || word == b"ecma".as_slice() || word == b"none".as_slice()
}

/// Returns the place behind the name of a table.
fn after_table(word: &[u8]) -> Option<Expected>
    ensures { result ≡ behind_table word.now }
{
    if word == b"china".as_slice() {
        return Some(Expected::LunisolarYear);
    }
    if word == b"korea".as_slice() {
        return Some(Expected::LunisolarYear);
    }
    if word == b"hijri".as_slice() {
        return Some(Expected::HijriYear);
    }
    if word == b"persian".as_slice() {
        return Some(Expected::PersianYear);
    }
    if word == b"era".as_slice() {
        return Some(Expected::EraYear);
    }
    None
}

/// Returns whether each letter is `l` or `s`.
fn all_lengths(word: &[u8]) -> bool
    ensures { result ≡ list_all is_length word.now }
{
    word.iter().all(|letter| *letter == b'l' || *letter == b's')
}

/// Returns whether a word has 12 to `most` letters, each `l` or `s`.
fn are_month_lengths(word: &[u8], most: usize) -> bool
    ensures { result ≡ are_lengths most word.now }
{
    12 <= word.len() && word.len() <= most && all_lengths(word)
}

/// Returns the place behind the lengths of a Chinese or Korean year.
fn after_lengths(word: &[u8]) -> Option<Expected>
    ensures { result ≡ behind_lengths word.now }
{
    if !are_month_lengths(word, 13) {
        return None;
    }
    if word.len() == 12 {
        Some(Expected::NoLeapMonth)
    } else {
        Some(Expected::LeapMonth)
    }
}

/// Returns whether a word is the ordinal of a leap month that goes with `months` lengths.
fn is_leap_word(word: &[u8], months: usize) -> bool
    ensures { result ≡ is_some (months_word months word.now) }
{
    match read_byte(word) {
        Some(leap) => months == if leap == 0 { 12 } else { 13 },
        None => false,
    }
}

/// Returns whether each letter is from `a` to `z`.
fn all_code_letters(word: &[u8]) -> bool
    ensures { result ≡ list_all is_code_letter word.now }
{
    word.iter().all(|letter| b'a' <= *letter && *letter <= b'z')
}

/// Returns whether a word is one to eight letters `a` to `z`.
fn is_code(word: &[u8]) -> bool
    ensures { result ≡ is_some (code_of word.now) }
{
    !word.is_empty() && word.len() <= 8 && all_code_letters(word)
}

/// Returns the place behind a word that is no field. `None` if the word can't stand at the place.
fn place_after(at: Expected, word: &[u8]) -> Option<Expected>
    ensures { result ≡ place_behind at word.now }
{
    match at {
        Expected::First => after_first(word),
        Expected::Calendar => led_to(
            Expected::Shown,
            AnyCalendarKind::from_program_name(word).is_some(),
        ),
        Expected::Shown => led_to(
            Expected::Unit,
            AnyCalendarKind::from_program_name(word).is_some(),
        ),
        Expected::Unit => led_to(Expected::Overflow, is_unit(word)),
        Expected::Overflow => led_to(Expected::MissingFields, is_overflow(word)),
        Expected::MissingFields => led_to(Expected::From, is_missing_fields(word)),
        Expected::From => led_to(Expected::FieldOrTo, word == b"from".as_slice()),
        Expected::FieldOrTo => None,
        Expected::Field => None,
        Expected::Table => after_table(word),
        Expected::LunisolarYear => led_to(Expected::LunisolarStart, read_int(word).is_some()),
        Expected::LunisolarStart => led_to(Expected::LunisolarLengths, read_int(word).is_some()),
        Expected::LunisolarLengths => after_lengths(word),
        Expected::NoLeapMonth => led_to(Expected::End, is_leap_word(word, 12)),
        Expected::LeapMonth => led_to(Expected::End, is_leap_word(word, 13)),
        Expected::HijriYear => led_to(Expected::HijriStart, read_int(word).is_some()),
        Expected::HijriStart => led_to(Expected::HijriLengths, read_int(word).is_some()),
        Expected::HijriLengths => led_to(Expected::End, are_month_lengths(word, 12)),
        Expected::PersianYear => led_to(Expected::End, read_int(word).is_some()),
        Expected::EraYear => led_to(Expected::EraMonth, read_int(word).is_some()),
        Expected::EraMonth => led_to(Expected::EraDay, read_byte(word).is_some()),
        Expected::EraDay => led_to(Expected::EraCode, read_byte(word).is_some()),
        Expected::EraCode => led_to(Expected::EraIndex, is_code(word)),
        Expected::EraIndex => led_to(Expected::End, read_byte(word).is_some()),
        Expected::End => None,
    }
}

/// Sets the field of a word, and returns the place behind it. `None` if the word is no field, or its key is there
/// already.
fn after_field<'a>(at: Expected, fields: &mut DateFields<'a>, word: &'a [u8]) -> Option<Expected>
    ensures { with_bag result (bag_of fields.new) ≡ with_place at (with_whole_word (bag_of fields.old) word.now) }
{
    match read_field(fields, word) {
        Some(()) => Some(at),
        None => None,
    }
}

/// Returns the place behind a word. `fields` are those of the date that is being read. `None` if the word can't stand at
/// the place.
pub(crate) fn step<'a>(
    at: Expected,
    fields: &mut DateFields<'a>,
    word: &'a [u8],
) -> Option<Expected>
    ensures { with_bag result (bag_of fields.new) ≡ step_by at (bag_of fields.old) word.now }
{
    match at {
        Expected::FieldOrTo => {
            if word == b"to".as_slice() {
                *fields = DateFields::default();
                return Some(Expected::Field);
            }
            after_field(at, fields, word)
        }
        Expected::Field => after_field(at, fields, word),
        _ => place_after(at, word),
    }
}

/// Returns whether a line may end at a place.
pub(crate) fn may_end(at: Expected) -> bool
    ensures { result ≡ may_end_at at }
{
    match at {
        Expected::Field => true,
        Expected::End => true,
        _ => false,
    }
}
