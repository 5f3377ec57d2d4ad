//! Numbers and letters at the start of a text. Each reader returns what it read and the bytes after it, or the bytes from
//! the first bad one on.
ghost use Rattle.std.specs.Prelude.{◌≡◌, ◌≤◌, ◌<◌, IfOk, IfSome, length, position, take};
ghost use Rattle.date_lines.specs.Reading.{byte_read, digit_read, digits_read, int_read, is_other, letter_count, read_view, rest_view, short_read, unsigned_read};

use word_values::leading_digits;

/// Returns the first `most` bytes of a text, or all of a shorter text.
fn first_bytes(text: &[u8], most: usize) -> &[u8]
    ensures { result.now ≡ take most text.now }
{
    if text.len() <= most {
        text
    } else {
        &text[..most]
    }
}

/// Reads one to `most` digits.
fn digits(text: &[u8], most: usize) -> Result<(u32, &[u8]), &[u8]>
    requires { most ≤ 9 }
    ensures value { read_view result ≡ digits_read most text.now }
    ensures small { IfOk result (λ p. p.0 < 1000000000) }
{
    let (count, value) = leading_digits(first_bytes(text, most));
    if count == 0 {
        return Err(text);
    }
    Ok((value, &text[count..]))
}

/// Reads one to nine digits.
#[tactic(auto, unfolding(crate::specs::Reading::unsigned_read))]
fn unsigned(text: &[u8]) -> Result<(i32, &[u8]), &[u8]>
    ensures { read_view result ≡ unsigned_read text.now }
{
    let (size, rest) = digits(text, 9)?;
    Ok((size as i32, rest))
}

/// Reads a number: an optional `-` or `+`, and one to nine digits.
#[tactic(auto, unfolding(crate::specs::Reading::int_read))]
pub(crate) fn int(text: &[u8]) -> Result<(i32, &[u8]), &[u8]>
    ensures { read_view result ≡ int_read text.now }
{
    match text {
        [b'-', rest @ ..] => {
            let (size, rest) = digits(rest, 9)?;
            Ok((-(size as i32), rest))
        }
        [b'+', rest @ ..] => unsigned(rest),
        _ => unsigned(text),
    }
}

/// Reads one digit.
#[tactic(auto, unfolding(crate::specs::Reading::digit_read))]
pub(crate) fn digit(text: &[u8]) -> Result<(u8, &[u8]), &[u8]>
    ensures value { read_view result ≡ digit_read text.now }
    ensures small { IfOk result (λ p. p.0 < 10) }
{
    match text {
        [digit @ b'0'..=b'9', rest @ ..] => Ok((*digit - b'0', rest)),
        _ => Err(text),
    }
}

/// Reads one or two digits.
#[tactic(auto, unfolding(crate::specs::Reading::short_read))]
pub(crate) fn short(text: &[u8]) -> Result<(u8, &[u8]), &[u8]>
    ensures { read_view result ≡ short_read text.now }
{
    match text {
        [tens @ b'0'..=b'9', units @ b'0'..=b'9', rest @ ..] => {
            Ok((10 * (*tens - b'0') + (*units - b'0'), rest))
        }
        [digit @ b'0'..=b'9', rest @ ..] => Ok((*digit - b'0', rest)),
        _ => Err(text),
    }
}

/// Reads a hyphen.
pub(crate) fn hyphen(text: &[u8]) -> Result<&[u8], &[u8]>
    ensures { rest_view result ≡ byte_read 45 text.now }
{
    match text {
        [b'-', rest @ ..] => Ok(rest),
        _ => Err(text),
    }
}

/// Reads a space.
pub(crate) fn space(text: &[u8]) -> Result<&[u8], &[u8]>
    ensures { rest_view result ≡ byte_read 32 text.now }
{
    match text {
        [b' ', rest @ ..] => Ok(rest),
        _ => Err(text),
    }
}

/// Returns the place of the first byte that isn't a letter `a` to `z`.
fn first_other(text: &[u8]) -> Option<usize>
    ensures value { result ≡ position is_other text.now }
    ensures within { IfSome result (λ i. i < length text.now) }
{
    text.iter().position(|byte| !byte.is_ascii_lowercase())
}

/// Returns how many letters `a` to `z` a text begins with, up to 16.
pub(crate) fn letters(text: &[u8]) -> usize
    ensures value { result ≡ letter_count text.now }
    ensures within { result ≤ length text.now }
{
    let first = first_bytes(text, 16);
    match first_other(first) {
        Some(count) => count,
        None => first.len(),
    }
}
