//! Months: a number and a leap status, as in the month codes of ECMAScript Temporal.

ghost use Rattle.std.specs.Prelude.{◌≡◌, ◌≤◌, min, Some, IfOk, ok_or};
ghost use Rattle.cal_types.specs.Month.{plain_month, leap_month, code_numbered, code_text, month_numbered, month_read};

use crate::month_code::MonthCode;
use crate::tiny::TinyAsciiStr;
use cal_errors::MonthCodeParseError;

/// A month of a calendar: its number, from 0 to 99, and whether it is a leap month.
///
/// The number isn't the ordinal month: after a leap month the two differ. Months are ordered by number, and a plain
/// month comes before the leap month with the same number.
#[derive(Clone, Copy, Debug, PartialEq, Eq, Hash, PartialOrd)]
pub struct Month {
    number: u8,
    is_leap: bool,
    ghost bound: { number ≤ 99 },
}

impl Month {
    ghost use Rattle.cal_types.specs.MonthParts.{month_parts, parts_read};

    /// Returns the plain month with a number. Numbers above 99 count as 99.
    ///
    /// # Examples
    ///
    /// ```
    /// assert!(rt; Month::new(3).number() == 3);
    /// ```
    pub const fn new(number: u8) -> Month
        ensures { month_parts result ≡ plain_month number }
    {
        Month {
            number: at_most_99(number),
            is_leap: false,
        }
    }

    /// Returns the leap month with a number. Numbers above 99 count as 99.
    ///
    /// # Examples
    ///
    /// ```
    /// assert!(rt; Month::leap(5).is_leap());
    /// ```
    pub const fn leap(number: u8) -> Month
        ensures { month_parts result ≡ leap_month number }
    {
        Month {
            number: at_most_99(number),
            is_leap: true,
        }
    }

    /// Reads a month code, like [`Month::try_from_utf8`].
    ///
    /// # Errors
    ///
    /// - [`MonthCodeParseError::InvalidSyntax`] if the text isn't a month code.
    ///
    /// # Examples
    ///
    /// ```
    /// assert!(rt; Month::try_from_str("M05L")? == Month::leap(5));
    /// ```
    pub fn try_from_str(s: &str) -> Result<Month, MonthCodeParseError>
        ensures value { parts_read result ≡ ok_or (month_read s.now) MonthCodeParseError.InvalidSyntax }
        ensures code { IfOk result (λ m. code_text (month_parts m) ≡ s.now) }
    {
        Month::try_from_utf8(s.as_bytes())
    }

    /// Reads a month code: `M`, two digits, and `L` for a leap month. (ECMAScript Temporal, `ParseMonthCode`)
    ///
    /// # Errors
    ///
    /// - [`MonthCodeParseError::InvalidSyntax`] if the text isn't a month code.
    ///
    /// # Examples
    ///
    /// ```
    /// assert!(rt; Month::try_from_utf8(b"M12")? == Month::new(12));
    /// ```
    pub fn try_from_utf8(bytes: &[u8]) -> Result<Month, MonthCodeParseError>
        ensures value { parts_read result ≡ ok_or (month_read bytes.now) MonthCodeParseError.InvalidSyntax }
        ensures code { IfOk result (λ m. code_text (month_parts m) ≡ bytes.now) }
    {
        match bytes {
            [b'M', tens, units] => Month::of_digits(*tens, *units, false),
            [b'M', tens, units, b'L'] => Month::of_digits(*tens, *units, true),
            _ => Err(MonthCodeParseError::InvalidSyntax),
        }
    }

    /// Reads the two digits of a month code.
    fn of_digits(tens: u8, units: u8, is_leap: bool) -> Result<Month, MonthCodeParseError>
        ensures value { parts_read result
            ≡ ok_or (month_numbered tens units is_leap) MonthCodeParseError.InvalidSyntax }
        ensures code { IfOk result (λ m. code_text (month_parts m) ≡ code_numbered tens units is_leap) }
    {
        if !tens.is_ascii_digit() || !units.is_ascii_digit() {
            return Err(MonthCodeParseError::InvalidSyntax);
        }
        Ok(Month {
            number: 10 * (tens - b'0') + (units - b'0'),
            is_leap,
        })
    }

    /// Returns the month's number, from 0 to 99.
    ///
    /// # Examples
    ///
    /// ```
    /// assert!(rt; Month::new(3).number() == 3);
    /// ```
    pub fn number(self) -> u8
        ensures value { result ≡ (month_parts self).number }
        ensures bound { result ≤ 99 }
    {
        self.number
    }

    /// Returns `true` if this is a leap month.
    ///
    /// # Examples
    ///
    /// ```
    /// assert!(rt; Month::leap(5).is_leap());
    /// ```
    pub fn is_leap(self) -> bool
        ensures { result ≡ (month_parts self).is_leap }
    {
        self.is_leap
    }

    /// Returns the month code: `M`, two digits, and `L` for a leap month, such as `M05L`.
    ///
    /// # Examples
    ///
    /// ```
    /// assert!(rt; Month::leap(5).code().0.as_str() == "M05L");
    /// ```
    pub fn code(self) -> MonthCode
        ensures text { result.0 ≡ code_text (month_parts self) }
        ensures read { month_read result.0 ≡ Some (month_parts self) }
    {
        let tens = b'0' + self.number / 10;
        let units = b'0' + self.number % 10;
        if self.is_leap {
            MonthCode(TinyAsciiStr::of_text(&[b'M', tens, units, b'L']))
        } else {
            MonthCode(TinyAsciiStr::of_text(&[b'M', tens, units]))
        }
    }
}

/// Returns the plain month with this number, like [`Month::new`].
impl From<u8> for Month {
    ghost use Rattle.std.specs.Prelude.{◌≡◌};
    ghost use Rattle.cal_types.specs.Month.{plain_month};
    ghost use Rattle.cal_types.specs.MonthParts.{month_parts};

    ghost from_gives = { λ n m. month_parts m ≡ plain_month n };

    fn from(number: u8) -> Month {
        Month::new(number)
    }
}

/// Returns the number, or 99 if it is larger.
const fn at_most_99(number: u8) -> u8
    ensures { result ≡ min number 99 }
{
    if number > 99 { 99 } else { number }
}
