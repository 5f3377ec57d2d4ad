//! The error of reading a date from a text.

ghost use Rattle.std.specs.Prelude.{◌≡◌};

use crate::algorithm::CalendarAlgorithm;
use crate::errors::RangeError;
use thiserror::Error;

/// The reason why no date can be read from a text in the format of RFC 9557.
#[derive(Clone, Copy, Debug, PartialEq, Error)]
pub enum ParseError {
    /// The text doesn't have the format, or its month or its day doesn't exist.
    #[error("Syntax error in the RFC 9557 string")]
    Syntax,
    /// The date is missing.
    #[error("Missing fields")]
    MissingFields,
    /// No calendar algorithm has the name in the text.
    #[error("Unknown calendar")]
    UnknownCalendar,
    /// The text names a different calendar: first the expected calendar, then the calendar in the text.
    #[error("Expected calendar {} but found calendar {}", .0.as_str(), .1.as_str())]
    MismatchedCalendar(CalendarAlgorithm, CalendarAlgorithm),
    /// A year, a month or a day is out of its range.
    #[error("Value out of range: {0}")]
    Range(RangeError),
}

/// Converts to [`ParseError::Range`].
impl From<RangeError> for ParseError {
    ghost use Rattle.cal_errors.specs.declared.parse_error.ParseError.TheVariants.{Range};

    ghost from_gives = { λ r e. e ≡ Range r };

    fn from(e: RangeError) -> ParseError {
        ParseError::Range(e)
    }
}
