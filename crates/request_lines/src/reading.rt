//! Readers of the next word.
ghost use Rattle.std.specs.Prelude.{◌≡◌, true};
ghost use Rattle.std.specs.List.{list_all};
ghost use Rattle.word_values.specs.Numbers.{byte_of, int_of};
ghost use Rattle.request_lines.specs.WordsLeft.{words_left};
ghost use Rattle.request_lines.specs.Taking.{is_no_space};
ghost use Rattle.request_lines.specs.Reading.{IsReading, next_word};
ghost use Rattle.request_lines.specs.Requests.{fixed_word};

use crate::words::Words;

/// Takes the next word if it is `name`, which must not contain a space. `None` if it is another word.
#[inline(always)]
pub fn next_is<const N: usize>(words: &mut Words, name: &[u8; N]) -> Option<()>
    requires { list_all is_no_space name.now ≡ true }
    ensures { IsReading (next_word (fixed_word name.now) (words_left words.old)) result (words_left words.new) }
{
    if words.take_known(name) {
        Some(())
    } else {
        None
    }
}

/// Returns the number of the next word, of any length: an optional `-` and one to nine digits.
fn next_signed(words: &mut Words) -> Option<i32>
    ensures { IsReading (next_word int_of (words_left words.old)) result (words_left words.new) }
{
    if words.take_key(b"-") {
        let size = words.next_number(9)?;
        return Some(-(size as i32));
    }
    let size = words.next_number(9)?;
    Some(size as i32)
}

/// Returns the number of the next word: an optional `-` and one to nine digits.
pub fn next_int(words: &mut Words) -> Option<i32>
    ensures { IsReading (next_word int_of (words_left words.old)) result (words_left words.new) }
{
    match words.take_four_digits() {
        Some(size) => Some(size as i32),
        None => next_signed(words),
    }
}

/// Returns the number of the next word, of any length, up to 255.
fn next_small(words: &mut Words) -> Option<u8>
    ensures { IsReading (next_word byte_of (words_left words.old)) result (words_left words.new) }
{
    let value = words.next_number(3)?;
    if value <= 255 {
        Some(value as u8)
    } else {
        None
    }
}

/// Returns the number of the next word, up to 255.
pub fn next_byte(words: &mut Words) -> Option<u8>
    ensures { IsReading (next_word byte_of (words_left words.old)) result (words_left words.new) }
{
    match words.take_two_digits() {
        Some(value) => Some(value as u8),
        None => next_small(words),
    }
}
