//! Reads durations from texts: an optional minus, `P`, and numbers, each followed by the letter of its unit.

ghost use Rattle.std.specs.Prelude.{◌≡◌, ◌<◌, ◌∷◌, length, true, not, Some, None, IfSome, nat_lt, if◌then◌else◌};
ghost use Rattle.std.specs.Char.{is_ascii_digit};
ghost use Rattle.std.specs.List.{list_all, position};
ghost use Rattle.std.specs.Str.Parse.{digits_value};
ghost use Rattle.cal_types.specs.DurationText.{amount, amounts_of, digits_missed, duration_with, first_fault, parts_of, parts_read, read_behind_sign, unit_at, unless_fault};

use crate::duration::{DateDuration, DateDurationUnit};
use cal_errors::DateDurationParseError;
use std::str;

/// The number read for each unit.
#[derive(Clone, Copy, Default)]
pub(crate) struct Amounts {
    years: Option<u32>,
    months: Option<u32>,
    weeks: Option<u32>,
    days: Option<u32>,
}

impl Amounts {
    ghost use Rattle.std.specs.Prelude.{[]};
    ghost use Rattle.cal_types.specs.DurationText.{amount_fault, amount_put, digits_fault, unit_at};

    /// Returns the numbers of the parts of a text, or the error of the first invalid part.
    fn read(text: &[u8]) -> Result<Amounts, DateDurationParseError>
        ensures { let parts = parts_of text.now in
            result ≡ unless_fault (first_fault [] parts) (amounts_of parts) }
    {
        let mut amounts = Amounts::default();
        let mut rest = text;
        while !rest.is_empty() {
            let (digits, end, behind) = first_part(rest);
            amounts = amounts.with_part(digits, end)?;
            rest = behind;
        }
        Ok(amounts)
    }

    /// Adds a part: its digits, and the byte after them unless the text ends.
    fn with_part(self, digits: &[u8], end: Option<u8>) -> Result<Amounts, DateDurationParseError>
        requires { list_all is_ascii_digit digits.now ≡ true }
        ensures { result ≡ unless_fault (digits_fault self digits.now end)
            (amount_put self (digits_value 10 digits.now) (unit_at end)) }
    {
        if digits.is_empty() {
            return Err(missing_digits(end));
        }
        match number(digits) {
            None => Err(DateDurationParseError::NumberOverflow),
            Some(number) => self.with_amount(number, unit_at(end)),
        }
    }

    /// Adds the number of a unit.
    fn with_amount(
        self,
        number: u64,
        unit: Option<DateDurationUnit>,
    ) -> Result<Amounts, DateDurationParseError>
        ensures { result ≡ unless_fault (amount_fault self number unit) (amount_put self number unit) }
    {
        let Some(unit) = unit else {
            return Err(DateDurationParseError::InvalidStructure);
        };
        if self.amount(unit).is_some() {
            return Err(DateDurationParseError::DuplicateUnit);
        }
        match u32::try_from(number) {
            Err(_) => Err(DateDurationParseError::NumberOverflow),
            Ok(number) => Ok(self.put(unit, number)),
        }
    }

    /// Returns the number of a unit.
    fn amount(self, unit: DateDurationUnit) -> Option<u32>
        ensures { result ≡ amount unit self }
    {
        match unit {
            DateDurationUnit::Years => self.years,
            DateDurationUnit::Months => self.months,
            DateDurationUnit::Weeks => self.weeks,
            DateDurationUnit::Days => self.days,
        }
    }

    /// Sets the number of a unit.
    fn put(self, unit: DateDurationUnit, number: u32) -> Amounts
        ensures { result ≡ amount_put self number (Some unit) }
    {
        let number = Some(number);
        match unit {
            DateDurationUnit::Years => Amounts {
                years: number,
                ..self
            },
            DateDurationUnit::Months => Amounts {
                months: number,
                ..self
            },
            DateDurationUnit::Weeks => Amounts {
                weeks: number,
                ..self
            },
            DateDurationUnit::Days => Amounts {
                days: number,
                ..self
            },
        }
    }

    /// Returns the duration of these numbers, with a sign.
    fn duration(self, is_negative: bool) -> DateDuration
        ensures { result ≡ duration_with is_negative self }
    {
        DateDuration {
            is_negative,
            years: self.years.unwrap_or(0),
            months: self.months.unwrap_or(0),
            weeks: self.weeks.unwrap_or(0),
            days: self.days.unwrap_or(0),
        }
    }
}

/// Reads a duration from a text after its sign.
pub(crate) fn read(is_negative: bool, text: &[u8]) -> Result<DateDuration, DateDurationParseError>
    ensures { result ≡ read_behind_sign is_negative text.now }
{
    let Some((designator, parts)) = text.split_first() else {
        return Err(DateDurationParseError::InvalidStructure);
    };
    if *designator != b'P' || parts.is_empty() {
        return Err(DateDurationParseError::InvalidStructure);
    }
    read_parts(is_negative, parts)
}

/// Reads a duration from the parts of a text.
fn read_parts(is_negative: bool, text: &[u8]) -> Result<DateDuration, DateDurationParseError>
    ensures { result ≡ parts_read is_negative (parts_of text.now) }
{
    let amounts = Amounts::read(text)?;
    Ok(amounts.duration(is_negative))
}

/// Splits off the first part of a text that isn't empty: returns its digits, the byte after them unless the text ends,
/// and the rest.
fn first_part(text: &[u8]) -> (&[u8], Option<u8>, &[u8])
    requires { 0 < length text.now }
    ensures parts { parts_of text.now
        ≡ record { digits = result.0.now; end = result.1 } ∷ parts_of result.2.now }
    ensures digits { list_all is_ascii_digit result.0.now ≡ true }
    ensures shorter { length result.2.now < length text.now }
{
    match first_end(text) {
        Some(i) => (&text[..i], Some(text[i]), &text[i + 1..]),
        None => (text, None, &text[text.len()..]),
    }
}

/// Returns the error of a part without digits, by the byte that ends it.
fn missing_digits(end: Option<u8>) -> DateDurationParseError
    ensures { result ≡ digits_missed end }
{
    match end {
        Some(b'T') => DateDurationParseError::TimeNotSupported,
        _ => DateDurationParseError::MissingValue,
    }
}

/// Returns the index of the first byte that isn't a digit.
fn first_end(text: &[u8]) -> Option<usize>
    ensures value { result ≡ position (λ byte. not (is_ascii_digit byte)) text.now }
    ensures within { IfSome result (λ i. i < length text.now) }
{
    text.iter().position(|byte| !byte.is_ascii_digit())
}

/// Returns the unit of the letter that ends a part.
fn unit_at(end: Option<u8>) -> Option<DateDurationUnit>
    ensures { result ≡ unit_at end }
{
    match end {
        Some(b'Y') => Some(DateDurationUnit::Years),
        Some(b'M') => Some(DateDurationUnit::Months),
        Some(b'W') => Some(DateDurationUnit::Weeks),
        Some(b'D') => Some(DateDurationUnit::Days),
        _ => None,
    }
}

/// Returns the number that the digits stand for, or `None` if it is above `u64::MAX`.
fn number(digits: &[u8]) -> Option<u64>
    requires digits { list_all is_ascii_digit digits.now ≡ true }
    requires some { 0 < length digits.now }
    ensures { let number = digits_value 10 digits.now in
        result ≡ if nat_lt 18446744073709551615 number then None else Some number }
{
    // Digits are UTF-8.
    let text = unsafe { str::from_utf8_unchecked(digits) };
    text.parse().ok()
}
