//! Durations in years, months, weeks and days, like the date part of ECMAScript Temporal's `Duration`.

ghost use Rattle.std.specs.Prelude.{◌≡◌};
ghost use Rattle.cal_types.specs.Duration.{duration_of};
ghost use Rattle.cal_types.specs.DurationText.{duration_read};

use crate::duration_text;
use cal_errors::DateDurationParseError;

/// The unit of a part of a [`DateDuration`].
#[derive(Clone, Copy, Debug, PartialEq, Eq)]
pub enum DateDurationUnit {
    /// Years of the calendar.
    Years,
    /// Months of the calendar.
    Months,
    /// Weeks of seven days.
    Weeks,
    /// Days.
    Days,
}

/// A signed duration. Its parts have no sign; if `is_negative` is true, the whole duration leads back in time.
#[derive(Clone, Copy, Debug, PartialEq, Eq, Default)]
pub struct DateDuration {
    /// Whether the duration leads back in time. An empty duration may have either sign.
    pub is_negative: bool,
    /// The number of years.
    pub years: u32,
    /// The number of months.
    pub months: u32,
    /// The number of weeks of seven days.
    pub weeks: u32,
    /// The number of days.
    pub days: u32,
}

impl DateDuration {
    /// Creates a duration of years. A negative number leads back in time.
    ///
    /// # Examples
    ///
    /// ```
    /// assert!(rt; DateDuration::for_years(-2).is_negative);
    /// ```
    pub fn for_years(years: i32) -> Self
        ensures { result ≡ duration_of DateDurationUnit.Years years }
    {
        DateDuration {
            is_negative: years < 0,
            years: years.unsigned_abs(),
            ..DateDuration::default()
        }
    }

    /// Creates a duration of months. A negative number leads back in time.
    ///
    /// # Examples
    ///
    /// ```
    /// assert!(rt; DateDuration::for_months(18).months == 18);
    /// ```
    pub fn for_months(months: i32) -> Self
        ensures { result ≡ duration_of DateDurationUnit.Months months }
    {
        DateDuration {
            is_negative: months < 0,
            months: months.unsigned_abs(),
            ..DateDuration::default()
        }
    }

    /// Creates a duration of weeks of seven days. A negative number leads back in time.
    ///
    /// # Examples
    ///
    /// ```
    /// assert!(rt; DateDuration::for_weeks(2).weeks == 2);
    /// ```
    pub fn for_weeks(weeks: i32) -> Self
        ensures { result ≡ duration_of DateDurationUnit.Weeks weeks }
    {
        DateDuration {
            is_negative: weeks < 0,
            weeks: weeks.unsigned_abs(),
            ..DateDuration::default()
        }
    }

    /// Creates a duration of days. A negative number leads back in time.
    ///
    /// # Examples
    ///
    /// ```
    /// assert!(rt; DateDuration::for_days(-7).days == 7);
    /// ```
    pub fn for_days(days: i32) -> Self
        ensures { result ≡ duration_of DateDurationUnit.Days days }
    {
        DateDuration {
            is_negative: days < 0,
            days: days.unsigned_abs(),
            ..DateDuration::default()
        }
    }

    /// Reads a duration from a text, like [`DateDuration::try_from_utf8`].
    ///
    /// # Errors
    ///
    /// - The errors of [`DateDuration::try_from_utf8`], in the same order.
    ///
    /// # Examples
    ///
    /// ```
    /// assert!(rt; DateDuration::try_from_str("P1Y2M")?.months == 2);
    /// ```
    pub fn try_from_str(s: &str) -> Result<Self, DateDurationParseError>
        ensures { result ≡ duration_read s.now }
    {
        DateDuration::try_from_utf8(s.as_bytes())
    }

    /// Reads a duration from a text: an optional `-`, `P`, and one part or more. A part is a number and the letter `Y`,
    /// `M`, `W` or `D` of its unit. Each unit may come once, in any order. `-P0D` is a negative zero. (ISO 8601-2,
    /// durations of dates)
    ///
    /// # Errors
    ///
    /// The first error from left to right:
    ///
    /// - [`DateDurationParseError::PlusNotAllowed`] if the text begins with `+`.
    /// - [`DateDurationParseError::InvalidStructure`] if `P` and something after it don't follow, or a number isn't
    ///   followed by the letter of a unit.
    /// - [`DateDurationParseError::TimeNotSupported`] if a part begins with `T`.
    /// - [`DateDurationParseError::MissingValue`] if a part doesn't begin with a digit.
    /// - [`DateDurationParseError::NumberOverflow`] if a number is above `u64::MAX` (checked before its unit), or
    ///   above `u32::MAX` (checked after its unit).
    /// - [`DateDurationParseError::DuplicateUnit`] if a unit occurs a second time.
    ///
    /// # Examples
    ///
    /// ```
    /// let back = DateDuration::try_from_utf8(b"-P3W")?;
    /// assert!(rt; back.is_negative && back.weeks == 3);
    /// ```
    pub fn try_from_utf8(code_units: &[u8]) -> Result<Self, DateDurationParseError>
        ensures { result ≡ duration_read code_units.now }
    {
        let Some((first, rest)) = code_units.split_first() else {
            return Err(DateDurationParseError::InvalidStructure);
        };
        match *first {
            b'+' => Err(DateDurationParseError::PlusNotAllowed),
            b'-' => duration_text::read(true, rest),
            _ => duration_text::read(false, code_units),
        }
    }
}
