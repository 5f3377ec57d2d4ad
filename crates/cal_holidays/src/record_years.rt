//! The fields of a record that say in which years its rule is kept.

ghost use Rattle.std.specs.Prelude.{◌≡◌, ◌<◌, ◌&&◌, nat_le, IfSome, Some, true};
ghost use Rattle.word_values.specs.Numbers.{number_of};
ghost use Rattle.cal_holidays.specs.Observing.{is_every, is_year};
ghost use Rattle.cal_holidays.specs.RecordYears.{every_read, steps_of, year_of, year_read};

use word_values::read_number;

/// Reads one to six digits.
fn six_digits(text: &[u8]) -> Option<u32>
    ensures value { result ≡ number_of 6 text.now }
    ensures small { IfSome result (λ n. n < 1000000) }
{
    read_number(text, 6)
}

/// Reads a year: an optional `-` and one to six digits.
fn year_of(text: &[u8]) -> Option<i32>
    ensures value { result ≡ year_of text.now }
    ensures range { IfSome result (λ y. is_year (Some y) ≡ true) }
{
    if !text.is_empty() && text[0] == b'-' {
        let size = six_digits(&text[1..])?;
        return Some(-(size as i32));
    }
    let size = six_digits(text)?;
    Some(size as i32)
}

/// Reads a year, or no year from an empty text.
pub(crate) fn year(text: &[u8]) -> Option<Option<i32>>
    ensures value { result ≡ year_read text.now }
    ensures range { IfSome result (λ y. is_year y ≡ true) }
{
    if text.is_empty() {
        return Some(None);
    }
    let year = year_of(text)?;
    Some(Some(year))
}

/// Reads how many years there are from one year to the next: 1 to 400, in one to three digits.
fn steps(text: &[u8]) -> Option<u16>
    ensures value { result ≡ steps_of text.now }
    ensures range { IfSome result (λ every. (nat_le 1 every && nat_le every 400) ≡ true) }
{
    let every = read_number(text, 3)?;
    if 1 <= every && every <= 400 {
        Some(every as u16)
    } else {
        None
    }
}

/// Reads how many years there are from one year to the next. They are counted from a first year, and an empty text
/// means every year.
pub(crate) fn every(since: Option<i32>, text: &[u8]) -> Option<u16>
    ensures value { result ≡ every_read since text.now }
    ensures range { IfSome result (λ every. is_every since every ≡ true) }
{
    if text.is_empty() {
        return Some(1);
    }
    match since {
        Some(_) => steps(text),
        None => None,
    }
}
