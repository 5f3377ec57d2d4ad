//! Decimal numbers.
ghost use Rattle.std.specs.Prelude.{◌≡◌, ◌≤◌, ◌<◌, IfSome, length};
ghost use Rattle.word_values.specs.Numbers.{number_of, int_of, byte_of, AreLeadingDigits};

/// Returns how many digits a text of at most nine bytes begins with, and the number that they spell.
pub fn leading_digits(text: &[u8]) -> (usize, u32)
    requires { length text.now ≤ 9 }
    ensures digits { AreLeadingDigits text.now result.0 result.1 }
    ensures small { result.1 < 1000000000 }
{
    let mut count = 0usize;
    let mut value = 0u32;
    for byte in text {
        if !byte.is_ascii_digit() {
            return (count, value);
        }
        value = value * 10 + u32::from(*byte - b'0');
        count += 1;
    }
    (count, value)
}

/// Returns the number of a word of one to `most` decimal digits. Leading zeros are allowed. `None` exactly if the
/// word doesn't have this form.
pub fn read_number(word: &[u8], most: usize) -> Option<u32>
    requires { most ≤ 9 }
    ensures value { result ≡ number_of most word.now }
    ensures small { IfSome result (λ n. n < 1000000000) }
{
    if word.is_empty() || word.len() > most {
        return None;
    }
    let (count, value) = leading_digits(word);
    if count == word.len() {
        Some(value)
    } else {
        None
    }
}

/// Returns the number of a word: an optional `-` and one to nine decimal digits. `None` exactly if the word doesn't
/// have this form.
pub fn read_int(word: &[u8]) -> Option<i32>
    ensures { result ≡ int_of word.now }
{
    if !word.is_empty() && word[0] == b'-' {
        let size = read_number(&word[1..], 9)?;
        return Some(-(size as i32));
    }
    let size = read_number(word, 9)?;
    Some(size as i32)
}

/// Returns the number of a word of one to three decimal digits, at most 255. `None` exactly if the word doesn't have
/// this form or the number is greater.
pub fn read_byte(word: &[u8]) -> Option<u8>
    ensures { result ≡ byte_of word.now }
{
    let value = read_number(word, 3)?;
    if value <= 255 {
        Some(value as u8)
    } else {
        None
    }
}
