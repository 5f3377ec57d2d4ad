//! The errors of the calendars, and the names of calendars in CLDR.
//!
//! [`errors`] has one type for each kind of call, and [`ParseError`] is the error of reading a date from a text.
//! [`CalendarAlgorithm`] names a calendar; [`CalendarPreference`] completes a name that is missing or leaves the kind
//! of Hijri calendar open. Names and texts follow `icu_calendar`.
#![tactic(auto)]

pub mod algorithm;
pub mod calendar_preference;
pub mod errors;
pub mod parse_error;

pub use algorithm::{CalendarAlgorithm, HijriCalendarAlgorithm};
pub use calendar_preference::CalendarPreference;
pub use errors::{
    DateAddError, DateDurationParseError, DateError, DateFromFieldsError, DateNewError,
    EcmaReferenceYearError, LengthenFault, LunisolarDateError, MismatchedCalendarError,
    MonthCodeParseError, MonthError, RangeError, TableFault, TablePart, TinyStrError,
    UnknownEraError,
};
pub use parse_error::ParseError;
