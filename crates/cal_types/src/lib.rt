//! The plain types of dates: months, years, bags of fields, options, durations, windows and small texts. Over them
//! `specs/` defines what a calendar, a date, fields, sums, differences and rows of tables mean in any calendar.
//!
//! Names and shapes follow the Rust crate `icu_calendar`. Month codes and options follow ECMAScript Temporal.
//! Callers find all types in the crate `icu_calendar`.
#![tactic(auto)]

pub mod day;
pub mod duration;
mod duration_text;
pub mod fields;
pub mod leaping;
mod lengthening;
pub mod month;
pub mod month_code;
pub mod month_info;
pub mod options;
mod span_error;
pub mod span_laws;
pub mod tiny;
pub mod week_information;
pub mod weekday;
pub mod weekday_set;
pub mod window;
pub mod year;

pub use cal_errors::{
    CalendarAlgorithm, CalendarPreference, DateAddError, DateDurationParseError, DateError,
    DateFromFieldsError, DateNewError, EcmaReferenceYearError, HijriCalendarAlgorithm,
    LengthenFault, LunisolarDateError, MismatchedCalendarError, MonthCodeParseError, MonthError,
    ParseError, RangeError, TableFault, TablePart, TinyStrError, UnknownEraError,
};
pub use day::{DayOfMonth, DayOfWeekInMonth, DayOfYear, IsoWeekOfYear};
pub use duration::{DateDuration, DateDurationUnit};
pub use fields::DateFields;
pub use leaping::Leaping;
pub use lengthening::{Row, first_difference};
pub use month::Month;
pub use month_code::MonthCode;
pub use month_info::{LeapStatus, MonthInfo};
pub use options::{
    DateAddOptions, DateDifferenceOptions, DateFromFieldsOptions, MissingFieldsStrategy, Overflow,
};
pub use span_error::{BagSide, SpanError};
pub use tiny::TinyAsciiStr;
pub use week_information::{WeekInformation, WeekdaySetIterator};
pub use weekday::Weekday;
pub use weekday_set::WeekdaySet;
pub use window::Window;
pub use year::{CyclicYear, EraYear, IntoYearInfo, YearAmbiguity, YearInfo, YearInput};
