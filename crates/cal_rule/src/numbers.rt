//! Numbers that digits spell.

ghost use Rattle.std.specs.Prelude.{◌≡◌, ◌<◌, min, true, IfSome};
ghost use Rattle.std.specs.Char.{is_ascii_digit};
ghost use Rattle.std.specs.List.{list_all};
ghost use Rattle.word_values.specs.Numbers.{digits_value, number_of};
ghost use Rattle.cal_rule.specs.Numbers.{count_in_range, count_read};

use crate::value_fault::ValueFault;
use word_values::read_number;

/// The least number that is too great.
const TOO_GREAT: u64 = 1000000000;

/// Returns whether every byte is a digit.
pub(crate) fn are_digits(text: &[u8]) -> bool
    ensures { result ≡ list_all is_ascii_digit text.now }
{
    text.iter().all(|byte| byte.is_ascii_digit())
}

/// Returns the number that any number of digits spells, or the least that is too great if it is greater.
fn clamped(digits: &[u8]) -> u64
    requires { list_all is_ascii_digit digits.now ≡ true }
    ensures { result ≡ min (digits_value digits.now) 1000000000 }
{
    let mut value = 0u64;
    for byte in digits {
        value = (value * 10 + u64::from(*byte - b'0')).min(TOO_GREAT);
    }
    value
}

/// Reads a number from 1 to 999999999, in any number of digits.
pub(crate) fn read_count(text: &[u8]) -> Result<u32, ValueFault>
    ensures value { result ≡ count_read text.now }
{
    if text.is_empty() || !are_digits(text) {
        return Err(ValueFault::Bad);
    }
    let value = clamped(text);
    if 1 <= value && value < TOO_GREAT {
        Ok(value as u32)
    } else {
        Err(ValueFault::OutOfRange)
    }
}

/// Returns the number of a word of one or two digits.
pub(crate) fn read_two_digits(word: &[u8]) -> Option<u8>
    ensures value { result ≡ number_of 2 word.now }
    ensures small { IfSome result (λ n. n < 100) }
{
    let number = read_number(word, 2)?;
    Some(number as u8)
}
