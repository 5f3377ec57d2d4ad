//! The codes that the calls return.

ghost use Rattle.std.specs.Prelude.{◌≡◌};
ghost use Rattle.date_calls.specs.Outcomes.{fields_fault, sum_fault};

use cal_types::{DateAddError, DateFromFieldsError};

/// The call succeeded.
pub(crate) const DONE: u8 = 0;

/// No calendar has the code.
pub(crate) const UNKNOWN_CALENDAR: u8 = 1;

/// No source of years has the code.
pub const UNKNOWN_YEARS: u8 = 2;

/// No option has the code.
pub(crate) const UNKNOWN_OPTION: u8 = 3;

/// The day number isn't from -365242499 to 365242134.
pub(crate) const INVALID_DAY_NUMBER: u8 = 4;

/// The days of the window aren't valid, or the last one comes before the first.
pub(crate) const INVALID_WINDOW: u8 = 5;

/// The room is too short for the text.
pub const NO_ROOM: u8 = 8;

/// The columns don't have the same length.
pub(crate) const LENGTHS_DIFFER: u8 = 9;

/// The text isn't a date of RFC 9557, or no such text names the calendar.
pub(crate) const INVALID_TEXT: u8 = 21;

/// The text isn't a recurrence rule of the calendar.
pub(crate) const INVALID_RULE: u8 = 22;

/// A record of the book is invalid.
pub(crate) const INVALID_BOOK: u8 = 23;

/// There isn't enough memory for the book.
pub(crate) const NO_MEMORY: u8 = 24;

/// The book doesn't have a holiday with the number.
pub(crate) const UNKNOWN_HOLIDAY: u8 = 25;

/// What a call returned: a code, and the greatest valid number, which is 0 if the code has none.
#[repr(C)]
#[derive(Clone, Copy, Debug, PartialEq, Eq, Drop)]
pub struct CalendarOutcome {
    /// The code; 0 means success.
    pub code: u8,
    /// The greatest valid number for the codes 19 and 20, otherwise 0.
    pub max: u8,
}

pub(crate) const fn why(code: u8, max: u8) -> CalendarOutcome
    ensures code { result.code ≡ code }
    ensures max { result.max ≡ max }
{
    CalendarOutcome { code, max }
}

/// Returns the code of an error of fields.
pub(crate) fn fault_of_fields(cause: DateFromFieldsError) -> CalendarOutcome
    ensures { result ≡ fields_fault cause }
{
    match cause {
        DateFromFieldsError::NotEnoughFields => why(10, 0),
        DateFromFieldsError::TooManyFields => why(11, 0),
        DateFromFieldsError::Overflow => why(12, 0),
        DateFromFieldsError::InvalidEra => why(13, 0),
        DateFromFieldsError::InconsistentYear => why(14, 0),
        DateFromFieldsError::MonthCodeInvalidSyntax => why(15, 0),
        DateFromFieldsError::MonthNotInCalendar => why(16, 0),
        DateFromFieldsError::MonthNotInYear => why(17, 0),
        DateFromFieldsError::InconsistentMonth => why(18, 0),
        DateFromFieldsError::InvalidOrdinalMonth { max } => why(19, max),
        DateFromFieldsError::InvalidDay { max } => why(20, max),
    }
}

/// Returns the code of an error of adding. The codes are the same as for fields.
pub(crate) fn fault_of_sum(cause: DateAddError) -> CalendarOutcome
    ensures { result ≡ sum_fault cause }
{
    match cause {
        DateAddError::Overflow => why(12, 0),
        DateAddError::MonthNotInYear => why(17, 0),
        DateAddError::InvalidDay { max } => why(20, max),
    }
}
