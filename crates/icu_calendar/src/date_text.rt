//! Reading dates from text. No memory is allocated, and every byte is looked at once, except in the name of a
//! calendar.

ghost use Rattle.std.specs.Prelude.{◌≡◌, ◌<◌, IfSome};
ghost use Rattle.std.specs.Option.{option_map};
ghost use Rattle.std.specs.List.{list_all};
ghost use Rattle.icu_calendar.specs.DateText.{is_calendar_name, is_name_byte, is_name_part};
ghost use Rattle.icu_calendar.specs.RecordDates.{date_numbers, record_parts};
ghost use Rattle.icu_calendar.specs.DateTextReading.{before_bracket, behind_key, date_read, four_digits_read, name_read, part_read, read_by, read_view, six_digits_read, text_read, two_digits_read, year_from, year_read};

use crate::ixdtf_record::{DateRecord, IxdtfRecord};
use crate::record_dates::is_date;

/// Reads two digits at the start of a text. Returns their number and the rest, as the functions below do.
#[inline(always)]
#[tactic(auto, unfolding(crate::specs::DateTextReading::two_digits_read))]
fn two_digits(text: &[u8]) -> Option<(u8, &[u8])>
    ensures value { read_view result ≡ two_digits_read text.now }
    ensures bound { IfSome result (λ p. p.0 < 100) }
{
    match text {
        [tens @ b'0'..=b'9', units @ b'0'..=b'9', rest @ ..] => {
            Some((10 * (*tens - b'0') + (*units - b'0'), rest))
        }
        _ => None,
    }
}

/// Reads four digits at the start of a text.
#[inline(always)]
#[tactic(auto, unfolding(crate::specs::DateTextReading::four_digits_read))]
fn four_digits(text: &[u8]) -> Option<(u16, &[u8])>
    ensures value { read_view result ≡ four_digits_read text.now }
    ensures bound { IfSome result (λ p. p.0 < 10000) }
{
    let (high, rest) = two_digits(text)?;
    let (low, rest) = two_digits(rest)?;
    Some((100 * u16::from(high) + u16::from(low), rest))
}

/// Reads six digits at the start of a text.
#[inline(always)]
#[tactic(auto, unfolding(crate::specs::DateTextReading::six_digits_read))]
fn six_digits(text: &[u8]) -> Option<(u32, &[u8])>
    ensures value { read_view result ≡ six_digits_read text.now }
    ensures bound { IfSome result (λ p. p.0 < 1000000) }
{
    let (high, rest) = two_digits(text)?;
    let (low, rest) = four_digits(rest)?;
    Some((10000 * u32::from(high) + u32::from(low), rest))
}

/// Reads a year of four digits.
#[inline(always)]
fn plain_year(text: &[u8]) -> Option<(i32, &[u8])>
    ensures { read_view result ≡ option_map year_from (four_digits_read text.now) }
{
    let (number, rest) = four_digits(text)?;
    Some((i32::from(number), rest))
}

/// Reads a year of four digits, or of a sign and six digits. `-000000` isn't a year.
#[inline(always)]
#[tactic(auto, unfolding(crate::specs::DateTextReading::year_read))]
fn year(text: &[u8]) -> Option<(i32, &[u8])>
    ensures { read_view result ≡ year_read text.now }
{
    match text {
        [b'+', rest @ ..] => {
            let (number, rest) = six_digits(rest)?;
            Some((number as i32, rest))
        }
        [b'-', rest @ ..] => {
            let (number, rest) = six_digits(rest)?;
            if number == 0 {
                None
            } else {
                Some((-(number as i32), rest))
            }
        }
        _ => plain_year(text),
    }
}

/// Reads a minus sign and two digits.
#[inline(always)]
#[tactic(auto, unfolding(crate::specs::DateTextReading::part_read))]
fn part(text: &[u8]) -> Option<(u8, &[u8])>
    ensures { read_view result ≡ part_read text.now }
{
    match text {
        [b'-', rest @ ..] => two_digits(rest),
        _ => None,
    }
}

/// Reads a date that exists.
#[inline(always)]
#[tactic(auto, unfolding(crate::specs::DateTextReading::date_read))]
fn date(text: &[u8]) -> Option<(DateRecord, &[u8])>
    ensures { read_by date_numbers result ≡ date_read text.now }
{
    let (year, rest) = year(text)?;
    let (month, rest) = part(rest)?;
    let (day, rest) = part(rest)?;
    let date = DateRecord { year, month, day };
    if is_date(date) {
        Some((date, rest))
    } else {
        None
    }
}

/// Returns whether each byte is a lower-case letter or a digit.
fn all_name_bytes(part: &[u8]) -> bool
    ensures { result ≡ list_all is_name_byte part.now }
{
    part.iter()
        .all(|byte| byte.is_ascii_lowercase() || byte.is_ascii_digit())
}

/// Returns whether a part of a name is one to eight lower-case letters or digits.
fn is_name_part(part: &[u8]) -> bool
    ensures { result ≡ is_name_part part.now }
{
    !part.is_empty() && part.len() <= 8 && all_name_bytes(part)
}

/// Returns whether a text is a calendar's name: parts of one to eight lower-case letters or digits, joined by
/// hyphens.
fn is_calendar_name(name: &[u8]) -> bool
    ensures { result ≡ is_calendar_name name.now }
{
    name.split(|byte| *byte == b'-').all(is_name_part)
}

/// Returns the text after the key of an annotation.
fn behind_key(text: &[u8]) -> Option<&[u8]>
    ensures { option_map (λ rest. rest.now) result ≡ behind_key text.now }
{
    match text.strip_prefix(b"[u-ca=") {
        Some(rest) => Some(rest),
        None => text.strip_prefix(b"[!u-ca="),
    }
}

/// Returns the text before its last byte, which has to be a closing bracket.
fn before_bracket(text: &[u8]) -> Option<&[u8]>
    ensures { option_map (λ rest. rest.now) result ≡ before_bracket text.now }
{
    text.strip_suffix(b"]")
}

/// Returns the name in an annotation.
#[tactic(auto, unfolding(crate::specs::DateTextReading::name_read))]
fn name(text: &[u8]) -> Option<&[u8]>
    ensures { option_map (λ name. name.now) result ≡ name_read text.now }
{
    let name = before_bracket(behind_key(text)?)?;
    if is_calendar_name(name) {
        Some(name)
    } else {
        None
    }
}

/// Reads a date and at most one annotation. Returns `None` exactly if the text has another form or the date doesn't
/// exist.
#[tactic(auto, unfolding(crate::specs::DateTextReading::text_read))]
pub fn read<'a>(text: &'a [u8]) -> Option<IxdtfRecord<'a>>
    ensures { option_map record_parts result ≡ text_read text.now }
{
    let (date, rest) = date(text)?;
    let calendar = if rest.is_empty() {
        None
    } else {
        Some(name(rest)?)
    };
    Some(IxdtfRecord {
        date: Some(date),
        calendar,
    })
}
