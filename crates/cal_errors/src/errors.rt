//! The errors of the calendars: one type for each kind of call, and the conversions between them.

ghost use Rattle.std.specs.Prelude.{◌≡◌};

use std::fmt;
use thiserror::Error;

/// An argument out of its range, `min` to `max`.
#[derive(Clone, Copy, Debug, PartialEq, Error)]
#[error(fmt = write_range)]
pub struct RangeError {
    /// The name of the argument, such as `day`.
    pub field: &'static str,
    /// The given value.
    pub value: i32,
    /// The least allowed value.
    pub min: i32,
    /// The greatest allowed value.
    pub max: i32,
}

/// The reason why an era code, and a year, a month and a day as numbers, don't form a date.
#[derive(Clone, Copy, Debug, PartialEq, Error)]
pub enum DateError {
    /// A number is out of its range, as with [`RangeError`].
    #[error(fmt = write_range)]
    Range {
        /// The name of the argument.
        field: &'static str,
        /// The given value.
        value: i32,
        /// The least allowed value.
        min: i32,
        /// The greatest allowed value.
        max: i32,
    },
    /// The calendar has no era with this code.
    #[error("Unknown era")]
    UnknownEra,
}

/// The reason why a bag of fields doesn't name a date.
#[derive(Clone, Copy, Debug, PartialEq, Error)]
pub enum DateFromFieldsError {
    /// Fields are missing: the others name no whole date.
    NotEnoughFields,
    /// Two fields name the same thing in ways that exclude each other.
    TooManyFields,
    /// The year or the date is out of the range of the calendars.
    Overflow,
    /// The calendar has no era with this code.
    InvalidEra,
    /// The era year and the extended year name different years.
    InconsistentYear,
    /// The month code isn't `M`, two digits and an optional `L`.
    MonthCodeInvalidSyntax,
    /// The month isn't one of the calendar's months, as with [`MonthError::NotInCalendar`].
    MonthNotInCalendar,
    /// The month doesn't occur in this year.
    MonthNotInYear,
    /// The month and the ordinal month name different months.
    InconsistentMonth,
    /// The ordinal month isn't from 1 to `max`.
    InvalidOrdinalMonth {
        /// The number of months of the year.
        max: u8,
    },
    /// The day isn't from 1 to `max`.
    InvalidDay {
        /// The length of the month in days.
        max: u8,
    },
}

impl DateFromFieldsError {
    /// Returns the text, and the greatest allowed number if the text ends in it.
    fn message(self) -> (&'static str, Option<u8>) {
        match self {
            DateFromFieldsError::NotEnoughFields => ("Not enough fields", None),
            DateFromFieldsError::TooManyFields => ("Too many fields", None),
            DateFromFieldsError::Overflow => ("Result out of range", None),
            DateFromFieldsError::InvalidEra => ("Unknown era or invalid syntax", None),
            DateFromFieldsError::InconsistentYear => ("Inconsistent year", None),
            DateFromFieldsError::MonthCodeInvalidSyntax => ("Invalid month code syntax", None),
            DateFromFieldsError::MonthNotInCalendar => (
                "The specified month does not exist in this calendar",
                None,
            ),
            DateFromFieldsError::MonthNotInYear => (
                "The specified month exists in this calendar, but not for this year",
                None,
            ),
            DateFromFieldsError::InconsistentMonth => ("Inconsistent month", None),
            DateFromFieldsError::InvalidOrdinalMonth { max } => (
                "Invalid ordinal month for year",
                Some(max),
            ),
            DateFromFieldsError::InvalidDay { max } => ("Invalid day for month", Some(max)),
        }
    }
}

impl fmt::Display for DateFromFieldsError {
    fn fmt<W: fmt::Write>(&self, f: &mut fmt::Formatter<W>) -> fmt::Result {
        let (text, max) = self.message();
        write_message(text, max, f)
    }
}

/// The reason why a duration can't be added to a date.
#[derive(Clone, Copy, Debug, PartialEq, Error)]
pub enum DateAddError {
    /// The duration or the sum is out of the range of the calendars.
    #[error("Result out of range")]
    Overflow,
    /// The month doesn't occur in the year of the sum.
    #[error("The specified month exists in this calendar, but not for this year")]
    MonthNotInYear,
    /// The day isn't from 1 to `max`, in the month of the sum.
    #[error("Invalid day for month, max is {max}")]
    InvalidDay {
        /// The length of the month in days.
        max: u8,
    },
}

/// The reason why a year, a month and a day don't form a date.
#[derive(Clone, Copy, Debug, PartialEq, Error)]
pub enum DateNewError {
    /// The given year isn't from -9999 to 9999.
    #[error("Invalid year, must be within -9999..=9999")]
    InvalidYear,
    /// The calendar has no era with this code.
    #[error("Unknown era or invalid syntax")]
    InvalidEra,
    /// The month isn't one of the calendar's months, as with [`MonthError::NotInCalendar`].
    #[error("The specified month does not exist in this calendar")]
    MonthNotInCalendar,
    /// The month doesn't occur in this year.
    #[error("The specified month exists in this calendar, but not for this year")]
    MonthNotInYear,
    /// The day isn't from 1 to `max`.
    #[error("Invalid day for month, max is {max}")]
    InvalidDay {
        /// The length of the month in days.
        max: u8,
    },
}

/// The reason why an extended year, a month and a day don't form a date of a lunisolar calendar.
#[derive(Clone, Copy, Debug, PartialEq, Error)]
pub enum LunisolarDateError {
    /// The extended year isn't from -9999 to 9999.
    #[error("Invalid year")]
    InvalidYear,
    /// The month isn't one of the calendar's months, as with [`MonthError::NotInCalendar`].
    #[error("The specified month does not exist in this calendar")]
    MonthNotInCalendar,
    /// The month doesn't occur in this year.
    #[error("The specified month exists in this calendar, but not for this year")]
    MonthNotInYear,
    /// The day isn't from 1 to `max`.
    #[error("Invalid day for month, max is {max}")]
    InvalidDay {
        /// The length of the month in days.
        max: u8,
    },
}

/// The error of an operation on two dates whose calendars aren't compatible.
#[derive(Clone, Copy, Debug, PartialEq, Error)]
#[error("Attempted to interact two `Date`s with different calendars")]
pub struct MismatchedCalendarError;

/// The reason why a text isn't a duration.
#[derive(Clone, Copy, Debug, PartialEq, Eq)]
pub enum DateDurationParseError {
    /// The text isn't an optional minus, `P`, and numbers, each followed by `Y`, `M`, `W` or `D`.
    InvalidStructure,
    /// A part of a time begins with `T`.
    TimeNotSupported,
    /// A unit has no number.
    MissingValue,
    /// A unit occurs twice.
    DuplicateUnit,
    /// A number is above `u32::MAX`.
    NumberOverflow,
    /// The text begins with `+`.
    PlusNotAllowed,
}

/// The error for an era code that the calendar doesn't have.
#[derive(Clone, Copy, Debug, PartialEq)]
pub struct UnknownEraError;

/// The reason why a text isn't a month code.
#[derive(Clone, Copy, Debug, PartialEq, Eq)]
pub enum MonthCodeParseError {
    /// The text isn't `M`, two digits and an optional `L`.
    InvalidSyntax,
}

/// The reason why a month doesn't occur in a year.
#[derive(Clone, Copy, Debug, PartialEq)]
pub enum MonthError {
    /// The month isn't one of the calendar's months: `M13` in a calendar of twelve months, or `M03L` in the Hebrew
    /// calendar.
    ///
    /// It occurs in no year. A leap month that the calendar's rules may place is one of its months, even if no year
    /// has it yet: [`MonthError::NotInYear`] is the error for it.
    NotInCalendar,
    /// The month is one of the calendar's months, but doesn't occur in this year.
    NotInYear,
}

/// The reason why a month and a day have no reference year: the year that is used for a date without one.
#[derive(Clone, Copy, Debug, PartialEq, Eq)]
pub enum EcmaReferenceYearError {
    /// The calendar has no reference years.
    Unimplemented,
    /// The month isn't one of the calendar's months, as with [`MonthError::NotInCalendar`].
    MonthNotInCalendar,
    /// No reference year has the leap month with this day. With `Overflow::Constrain` the plain month of its number
    /// takes its place.
    UseRegularIfConstrain,
}

/// The reason why bytes aren't a small ASCII text.
#[derive(Clone, Copy, Debug, PartialEq)]
pub enum TinyStrError {
    /// There are more bytes than the text can hold.
    TooLong,
    /// A byte is 0 or above 127.
    NonAscii,
}

/// The first error in rows that don't form a table of years.
#[derive(Clone, Copy, Debug, PartialEq, Eq, Error)]
#[error("Row {row} of the table breaks its rule on {part}")]
pub struct TableFault {
    /// The first row that breaks a rule, counted from 1.
    pub row: usize,
    /// The first rule that this row breaks.
    pub part: TablePart,
}

/// A rule for the rows of a table of years. Each row is checked against the rules in the order of the variants.
#[derive(Clone, Copy, Debug, PartialEq, Eq, Error)]
pub enum TablePart {
    /// Each field of the row is within its range, so that the row names a year.
    #[error("range")]
    Range,
    /// The row's year is within the range of the table, and comes after the year of the row before it: directly after
    /// it, except in Persian corrections.
    #[error("year")]
    Year,
    /// The row starts on the day after the year before it.
    #[error("join")]
    Join,
    /// The computed year after the last row starts on the day after it.
    #[error("end")]
    End,
    /// One of any three consecutive years has a leap month.
    #[error("leap")]
    Leap,
    /// The row's year is a leap year by the rule without the table.
    #[error("rule")]
    Rule,
}

/// The reason why rows don't lengthen a table.
#[derive(Clone, Copy, Debug, PartialEq, Eq, Error)]
pub enum LengthenFault {
    /// The rows don't begin with the rows of the table.
    #[error("Row {row} of the table isn't among the new rows in its place")]
    Differs {
        /// The first row of the table, counted from 1, that has no equal row in the same place.
        row: usize,
    },
    /// The rows begin with the rows of the table, but don't form a table themselves.
    #[error("{0}")]
    Table(TableFault),
}

/// Converts to [`DateError::Range`] with the same fields.
impl From<RangeError> for DateError {
    ghost use Rattle.cal_errors.specs.declared.errors.DateError.TheVariants.{Range};

    ghost from_gives = { λ r e. e ≡ Range r.field r.value r.min r.max };

    fn from(e: RangeError) -> DateError {
        let RangeError {
            field,
            value,
            min,
            max,
        } = e;
        DateError::Range {
            field,
            value,
            min,
            max,
        }
    }
}

/// Converts to [`DateError::UnknownEra`].
impl From<UnknownEraError> for DateError {
    ghost use Rattle.cal_errors.specs.declared.errors.DateError.TheVariants.{UnknownEra};

    ghost from_gives = { λ _ e. e ≡ UnknownEra };

    fn from(_e: UnknownEraError) -> DateError {
        DateError::UnknownEra
    }
}

/// Converts to [`DateNewError::InvalidEra`].
impl From<UnknownEraError> for DateNewError {
    ghost use Rattle.cal_errors.specs.declared.errors.DateNewError.TheVariants.{InvalidEra};

    ghost from_gives = { λ _ e. e ≡ InvalidEra };

    fn from(_e: UnknownEraError) -> DateNewError {
        DateNewError::InvalidEra
    }
}

/// Converts to [`DateFromFieldsError::InvalidEra`].
impl From<UnknownEraError> for DateFromFieldsError {
    ghost use Rattle.cal_errors.specs.declared.errors.DateFromFieldsError.TheVariants.{InvalidEra};

    ghost from_gives = { λ _ e. e ≡ InvalidEra };

    fn from(_e: UnknownEraError) -> DateFromFieldsError {
        DateFromFieldsError::InvalidEra
    }
}

/// Converts to [`DateFromFieldsError::MonthCodeInvalidSyntax`].
impl From<MonthCodeParseError> for DateFromFieldsError {
    ghost use Rattle.cal_errors.specs.declared.errors.DateFromFieldsError.TheVariants.{MonthCodeInvalidSyntax};

    ghost from_gives = { λ _ e. e ≡ MonthCodeInvalidSyntax };

    fn from(_e: MonthCodeParseError) -> DateFromFieldsError {
        DateFromFieldsError::MonthCodeInvalidSyntax
    }
}

/// Converts to the variant of the same meaning.
impl From<MonthError> for DateFromFieldsError {
    ghost use Rattle.cal_errors.specs.Errors.{fields_error_of_month};

    ghost from_gives = { λ m e. e ≡ fields_error_of_month m };

    fn from(e: MonthError) -> DateFromFieldsError {
        match e {
            MonthError::NotInCalendar => DateFromFieldsError::MonthNotInCalendar,
            MonthError::NotInYear => DateFromFieldsError::MonthNotInYear,
        }
    }
}

/// Converts to the error for fields without a year.
///
/// Without reference years, the year is missing: [`DateFromFieldsError::NotEnoughFields`]. A leap month without a
/// reference year doesn't occur in the year: [`DateFromFieldsError::MonthNotInYear`].
impl From<EcmaReferenceYearError> for DateFromFieldsError {
    ghost use Rattle.cal_errors.specs.Errors.{fields_error_of_reference_year};

    ghost from_gives = { λ y e. e ≡ fields_error_of_reference_year y };

    fn from(e: EcmaReferenceYearError) -> DateFromFieldsError {
        match e {
            EcmaReferenceYearError::Unimplemented => DateFromFieldsError::NotEnoughFields,
            EcmaReferenceYearError::MonthNotInCalendar => DateFromFieldsError::MonthNotInCalendar,
            EcmaReferenceYearError::UseRegularIfConstrain => DateFromFieldsError::MonthNotInYear,
        }
    }
}

/// Writes the name and the value of an argument, and its range.
fn write_range<W: fmt::Write>(
    field: &str,
    value: &i32,
    min: &i32,
    max: &i32,
    f: &mut fmt::Formatter<W>,
) -> fmt::Result {
    write!(
        f,
        "The {field} = {value} argument is out of range {min}..={max}"
    )
}

/// Writes a text, followed by the greatest allowed number if there is one.
fn write_message<W: fmt::Write>(
    text: &str,
    max: Option<u8>,
    f: &mut fmt::Formatter<W>,
) -> fmt::Result {
    match max {
        None => f.write_str(text),
        Some(max) => write!(f, "{text}, max is {max}"),
    }
}
