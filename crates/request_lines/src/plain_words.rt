//! The first words of a text, in the forms that most have.
ghost use Rattle.std.specs.Prelude.{◌≡◌, ◌<◌, IfSome, Some};
ghost use Rattle.cal_types.specs.MonthParts.{month_parts};
ghost use Rattle.word_values.specs.Numbers.{number_of};
ghost use Rattle.request_lines.specs.Words.{words_of};
ghost use Rattle.request_lines.specs.WordsLeft.{words_from};
ghost use Rattle.request_lines.specs.Reading.{next_word};
ghost use Rattle.request_lines.specs.Bags as bags;
ghost use Rattle.request_lines.specs.Bags.{field_read};
ghost use Rattle.request_lines.specs.PlainDates.{SaysMonth};

use cal_types::Month;
use word_values::read_month_code;

/// The number of bytes of `year=DDDD month=MDD` and the space after it.
const PLAIN_MONTH: usize = 20;

/// A year and a month, as a request names most.
#[derive(Clone, Copy)]
pub(crate) struct PlainMonth {
    pub(crate) year: i32,
    pub(crate) month: Month,
}

/// Returns the number that four digits spell, and the text behind the space after them. `None` if the text doesn't
/// begin with four digits and a space.
#[inline(always)]
pub(crate) fn four_digits(text: &[u8]) -> Option<(u32, &[u8])>
    ensures value { IfSome result (λ r. next_word (number_of 9) (words_of text.now) ≡ Some (r.0, words_of r.1.now)) }
    ensures small { IfSome result (λ r. r.0 < 10000) }
{
    let [a, b, c, d, e, others @ ..] = text else {
        return None;
    };
    if !(a.is_ascii_digit() && b.is_ascii_digit() && c.is_ascii_digit() && d.is_ascii_digit()) {
        return None;
    }
    if *e != b' ' {
        return None;
    }
    let high = u32::from(*a - b'0') * 10 + u32::from(*b - b'0');
    let low = u32::from(*c - b'0') * 10 + u32::from(*d - b'0');
    Some((high * 100 + low, others))
}

/// Returns the number that two digits spell, and the text behind the space after them, or `None` at the end of the
/// text. `None` if the text doesn't begin with two digits and a space, or is two digits.
#[inline(always)]
pub(crate) fn two_digits(text: &[u8]) -> Option<(u32, Option<&[u8]>)>
    ensures value { IfSome result (λ r. next_word (number_of 3) (words_of text.now) ≡ Some (r.0, words_from r.1)) }
    ensures small { IfSome result (λ r. r.0 < 100) }
{
    let [a, b, rest @ ..] = text else {
        return None;
    };
    if !(a.is_ascii_digit() && b.is_ascii_digit()) {
        return None;
    }
    let number = u32::from(*a - b'0') * 10 + u32::from(*b - b'0');
    match rest {
        [] => Some((number, None)),
        [c, others @ ..] => {
            if *c == b' ' {
                Some((number, Some(others)))
            } else {
                None
            }
        }
    }
}

/// Returns the number of a digit, and the text behind the space after it, or `None` at the end of the text. `None` if
/// the text doesn't begin with a digit and a space, and is no digit.
#[inline(always)]
fn one_digit(text: &[u8]) -> Option<(u32, Option<&[u8]>)>
    ensures value { IfSome result (λ r. next_word (number_of 3) (words_of text.now) ≡ Some (r.0, words_from r.1)) }
    ensures small { IfSome result (λ r. r.0 < 100) }
{
    let (digit, rest) = text.split_first()?;
    if !digit.is_ascii_digit() {
        return None;
    }
    let number = u32::from(*digit - b'0');
    match rest {
        [] => Some((number, None)),
        [space, others @ ..] => {
            if *space == b' ' {
                Some((number, Some(others)))
            } else {
                None
            }
        }
    }
}

/// Returns the year of a first word `year=` with four digits, and the text behind the space after it. `None` if the text
/// doesn't begin with such a word and a space.
#[inline(always)]
pub(crate) fn plain_year(text: &[u8]) -> Option<(i32, &[u8])>
    ensures { IfSome result (λ r. next_word field_read (words_of text.now)
        ≡ Some (bags.ExtendedYear r.0, words_of r.1.now)) }
{
    let (key, value) = text.split_first_chunk::<5>()?;
    if *key != *b"year=" {
        return None;
    }
    let (number, others) = four_digits(value)?;
    Some((number as i32, others))
}

/// Returns the month of a first word `month=` with `M` and two digits, and the text behind the space after it. `None` if
/// the text doesn't begin with such a word and a space.
#[inline(always)]
pub(crate) fn plain_month(text: &[u8]) -> Option<(Month, &[u8])>
    ensures { IfSome result (λ r. next_word field_read (words_of text.now)
        ≡ Some (bags.Month (month_parts r.0), words_of r.1.now)) }
{
    let (key, value) = text.split_first_chunk::<6>()?;
    if *key != *b"month=" {
        return None;
    }
    let (code, behind) = value.split_first_chunk::<3>()?;
    let (space, others) = behind.split_first()?;
    if *space != b' ' {
        return None;
    }
    let month = read_month_code(code)?;
    Some((month, others))
}

/// Returns the year and the month of the first two words if they are `year=DDDD month=MDD`, each `D` a digit, and the
/// text behind the space after them. `None` if the text doesn't begin with such words and a space.
///
/// One test of the length spares those of the parts.
#[inline(always)]
pub(crate) fn plain_year_and_month(text: &[u8]) -> Option<(PlainMonth, &[u8])>
    ensures { IfSome result (λ r. SaysMonth (words_of text.now) r.0 (words_of r.1.now)) }
{
    if text.len() < PLAIN_MONTH {
        return None;
    }
    let (year, others) = plain_year(text)?;
    let (month, others) = plain_month(others)?;
    Some((PlainMonth { year, month }, others))
}

/// Returns the number that one or two digits spell, and the text behind the space after them, or `None` at the end of
/// the text. `None` if the text has no such first word.
#[inline(always)]
fn day_digits(text: &[u8]) -> Option<(u32, Option<&[u8]>)>
    ensures value { IfSome result (λ r. next_word (number_of 3) (words_of text.now) ≡ Some (r.0, words_from r.1)) }
    ensures small { IfSome result (λ r. r.0 < 100) }
{
    match two_digits(text) {
        Some(read) => Some(read),
        None => one_digit(text),
    }
}

/// Returns the day of a first word `day=` with one or two digits, and the text behind the space after it, or `None` at the end
/// of the text. `None` if the text doesn't begin with such a word and a space, or is such a word.
#[inline(always)]
pub(crate) fn plain_day(text: &[u8]) -> Option<(u8, Option<&[u8]>)>
    ensures { IfSome result (λ r. next_word field_read (words_of text.now) ≡ Some (bags.Day r.0, words_from r.1)) }
{
    let (key, value) = text.split_first_chunk::<4>()?;
    if *key != *b"day=" {
        return None;
    }
    let (number, rest) = day_digits(value)?;
    Some((number as u8, rest))
}
