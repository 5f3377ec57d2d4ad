//! Dates.
ghost use Rattle.std.specs.Prelude.{◌≡◌, ◌+◌, ◌-◌, None, length};
ghost use Rattle.cal_types.specs.Bag.{bag_of};
ghost use Rattle.date_lines.specs.Dates.{code_read, fields_with, month_read, numbers_read, ordinal_read, plain_read, era_read, dated_read, date_of, place_of as place_in};

use crate::numbers::{digit, hyphen, int, letters, short, space};
use cal_types::{DateFields, Month};

/// The date of a line.
#[derive(Clone, Copy, Debug)]
pub enum DateText<'a> {
    /// A day by its day number (rata die).
    Day(i32),
    /// A date by its fields. It isn't validated.
    Fields(DateFields<'a>),
}

/// A month by its code, or by its place in the year.
#[derive(Clone, Copy, Debug)]
enum MonthText {
    Code(Month),
    Ordinal(u8),
}

/// The year, the month and the day of a date, before they are validated.
#[derive(Clone, Copy, Debug)]
struct Numbers {
    year: i32,
    month: MonthText,
    day: u8,
}

ghost use Rattle.date_lines.specs.DatesSaid.{date_view, date_result, month_view, numbers_said, numbers_view};

/// Reads the month code after its `M`.
#[tactic(auto, unfolding(crate::specs::Dates::code_read))]
fn code(text: &[u8]) -> Result<(MonthText, &[u8]), &[u8]>
    ensures { month_view result ≡ code_read text.now }
{
    let (tens, rest) = digit(text)?;
    let (units, rest) = digit(rest)?;
    let number = 10 * tens + units;
    match rest {
        [b'L', rest @ ..] => Ok((MonthText::Code(Month::leap(number)), rest)),
        _ => Ok((MonthText::Code(Month::new(number)), rest)),
    }
}

/// Reads the one or two digits of an ordinal month.
#[tactic(auto, unfolding(crate::specs::Dates::ordinal_read))]
fn ordinal(text: &[u8]) -> Result<(MonthText, &[u8]), &[u8]>
    ensures { month_view result ≡ ordinal_read text.now }
{
    let (ordinal, rest) = short(text)?;
    Ok((MonthText::Ordinal(ordinal), rest))
}

/// Reads a month: a month code, or one or two digits.
#[tactic(auto, unfolding(crate::specs::Dates::month_read))]
fn month(text: &[u8]) -> Result<(MonthText, &[u8]), &[u8]>
    ensures { month_view result ≡ month_read text.now }
{
    match text {
        [b'M', rest @ ..] => code(rest),
        _ => ordinal(text),
    }
}

/// Reads `YEAR-MONTH-DAY`.
#[tactic(auto, unfolding(crate::specs::Dates::numbers_read))]
fn year_month_day(text: &[u8]) -> Result<(Numbers, &[u8]), &[u8]>
    ensures { numbers_view result ≡ numbers_read text.now }
{
    let (year, rest) = int(text)?;
    let rest = hyphen(rest)?;
    let (month, rest) = month(rest)?;
    let rest = hyphen(rest)?;
    let (day, rest) = short(rest)?;
    Ok((Numbers { year, month, day }, rest))
}

/// Returns the fields of a date without its year.
fn fields_of<'a>(numbers: Numbers) -> DateFields<'a>
    ensures { bag_of result ≡ fields_with None None None (numbers_said numbers) }
{
    let (month, ordinal_month) = match numbers.month {
        MonthText::Code(month) => (Some(month), None),
        MonthText::Ordinal(ordinal) => (None, Some(ordinal)),
    };
    DateFields {
        month,
        ordinal_month,
        day: Some(numbers.day),
        ..DateFields::default()
    }
}

/// Reads `YEAR-MONTH-DAY` with an extended year.
#[tactic(auto, unfolding(crate::specs::Dates::plain_read))]
fn plain(text: &[u8]) -> Result<(DateText<'_>, &[u8]), &[u8]>
    ensures { date_view result ≡ plain_read text.now }
{
    let (numbers, rest) = year_month_day(text)?;
    let mut fields = fields_of(numbers);
    fields.extended_year = Some(numbers.year);
    Ok((DateText::Fields(fields), rest))
}

/// Reads `ERA YEAR-MONTH-DAY`.
#[tactic(auto, unfolding(crate::specs::Dates::era_read))]
fn with_era(text: &[u8]) -> Result<(DateText<'_>, &[u8]), &[u8]>
    ensures { date_view result ≡ era_read text.now }
{
    let count = letters(text);
    let (era, rest) = text.split_at(count);
    let rest = space(rest)?;
    let (numbers, rest) = year_month_day(rest)?;
    let mut fields = fields_of(numbers);
    fields.era = Some(era);
    fields.era_year = Some(numbers.year);
    Ok((DateText::Fields(fields), rest))
}

/// Reads a date of any form.
#[tactic(auto, unfolding(crate::specs::Dates::dated_read))]
fn date(text: &[u8]) -> Result<(DateText<'_>, &[u8]), &[u8]>
    ensures { date_view result ≡ dated_read text.now }
{
    match text {
        [b'@', rest @ ..] => {
            let (day, rest) = int(rest)?;
            Ok((DateText::Day(day), rest))
        }
        [b'a'..=b'z', ..] => with_era(text),
        _ => plain(text),
    }
}

/// Returns the place of the first byte of the rest of a text, counted from 1.
fn place_of(text: &[u8], rest: &[u8]) -> usize
    ensures { result ≡ place_in text.now rest.now }
{
    text.len().saturating_sub(rest.len()) + 1
}

/// Reads a date that is all of a text. Nothing is validated beyond the form.
///
/// # Errors
///
/// - The place of the first byte, counted from 1, with which no date goes on. If the text ends too early, this is the
///   place after its last byte.
pub fn read_date(text: &[u8]) -> Result<DateText<'_>, usize>
    ensures { date_result result ≡ date_of text.now }
{
    match date(text) {
        Ok((date, rest)) => {
            if rest.is_empty() {
                Ok(date)
            } else {
                Err(place_of(text, rest))
            }
        }
        Err(rest) => Err(place_of(text, rest)),
    }
}
