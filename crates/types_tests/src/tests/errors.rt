//! The texts of errors, and errors that become others.

use crate::tests::expected::{assert_each_prints, assert_prints, assert_same};
use cal_types::{
    CalendarAlgorithm, DateAddError, DateError, DateFromFieldsError, DateNewError,
    EcmaReferenceYearError, LunisolarDateError, MismatchedCalendarError, MonthCodeParseError,
    MonthError, ParseError, RangeError, TableFault, TablePart, UnknownEraError,
};
use std::alloc::AllocError;

#[test]
fn fields_errors_print_their_texts(rt: HostRuntime) -> Result<(), AllocError> {
    let cases = &[
        (DateFromFieldsError::NotEnoughFields, "Not enough fields"),
        (DateFromFieldsError::TooManyFields, "Too many fields"),
        (DateFromFieldsError::Overflow, "Result out of range"),
        (
            DateFromFieldsError::InvalidEra,
            "Unknown era or invalid syntax",
        ),
        (DateFromFieldsError::InconsistentYear, "Inconsistent year"),
        (
            DateFromFieldsError::MonthCodeInvalidSyntax,
            "Invalid month code syntax",
        ),
        (
            DateFromFieldsError::MonthNotInCalendar,
            "The specified month does not exist in this calendar",
        ),
        (
            DateFromFieldsError::MonthNotInYear,
            "The specified month exists in this calendar, but not for this year",
        ),
        (DateFromFieldsError::InconsistentMonth, "Inconsistent month"),
        (
            DateFromFieldsError::InvalidOrdinalMonth { max: 13 },
            "Invalid ordinal month for year, max is 13",
        ),
        (
            DateFromFieldsError::InvalidDay { max: 30 },
            "Invalid day for month, max is 30",
        ),
    ];
    assert_each_prints(&rt, rt.alloc(), cases)
}

#[test]
fn add_errors_print_their_texts(rt: HostRuntime) -> Result<(), AllocError> {
    let cases = &[
        (DateAddError::Overflow, "Result out of range"),
        (
            DateAddError::MonthNotInYear,
            "The specified month exists in this calendar, but not for this year",
        ),
        (
            DateAddError::InvalidDay { max: 29 },
            "Invalid day for month, max is 29",
        ),
    ];
    assert_each_prints(&rt, rt.alloc(), cases)
}

#[test]
fn new_errors_print_their_texts(rt: HostRuntime) -> Result<(), AllocError> {
    let cases = &[
        (
            DateNewError::InvalidYear,
            "Invalid year, must be within -9999..=9999",
        ),
        (DateNewError::InvalidEra, "Unknown era or invalid syntax"),
        (
            DateNewError::MonthNotInCalendar,
            "The specified month does not exist in this calendar",
        ),
        (
            DateNewError::MonthNotInYear,
            "The specified month exists in this calendar, but not for this year",
        ),
        (
            DateNewError::InvalidDay { max: 28 },
            "Invalid day for month, max is 28",
        ),
    ];
    assert_each_prints(&rt, rt.alloc(), cases)
}

#[test]
fn lunisolar_errors_print_their_texts(rt: HostRuntime) -> Result<(), AllocError> {
    let cases = &[
        (LunisolarDateError::InvalidYear, "Invalid year"),
        (
            LunisolarDateError::MonthNotInCalendar,
            "The specified month does not exist in this calendar",
        ),
        (
            LunisolarDateError::MonthNotInYear,
            "The specified month exists in this calendar, but not for this year",
        ),
        (
            LunisolarDateError::InvalidDay { max: 30 },
            "Invalid day for month, max is 30",
        ),
    ];
    assert_each_prints(&rt, rt.alloc(), cases)
}

#[test]
fn range_errors_print_their_texts(rt: HostRuntime) -> Result<(), AllocError> {
    let range = RangeError {
        field: "year",
        value: -10000,
        min: -9999,
        max: 9999,
    };
    let want = "The year = -10000 argument is out of range -9999..=9999";
    assert_prints(&rt, rt.alloc(), &range, want)?;
    let date = DateError::from(range);
    assert_prints(&rt, rt.alloc(), &date, want)?;
    Ok(())
}

#[test]
fn errors_without_a_number_print_their_texts(rt: HostRuntime) -> Result<(), AllocError> {
    let era = DateError::from(UnknownEraError);
    assert_prints(&rt, rt.alloc(), &era, "Unknown era")?;
    assert_prints(
        &rt,
        rt.alloc(),
        &MismatchedCalendarError,
        "Attempted to interact two `Date`s with different calendars",
    )?;
    Ok(())
}

#[test]
fn parse_errors_print_their_texts(rt: HostRuntime) -> Result<(), AllocError> {
    let cases = &[
        (ParseError::Syntax, "Syntax error in the RFC 9557 string"),
        (ParseError::MissingFields, "Missing fields"),
        (ParseError::UnknownCalendar, "Unknown calendar"),
        (
            ParseError::MismatchedCalendar(
                CalendarAlgorithm::Gregory,
                CalendarAlgorithm::Hijri(None),
            ),
            "Expected calendar gregory but found calendar islamic",
        ),
    ];
    assert_each_prints(&rt, rt.alloc(), cases)?;
    let range = RangeError {
        field: "month",
        value: 13,
        min: 1,
        max: 12,
    };
    let want = "Value out of range: The month = 13 argument is out of range 1..=12";
    assert_prints(&rt, rt.alloc(), &ParseError::from(range), want)
}

#[test]
fn table_parts_print_their_texts(rt: HostRuntime) -> Result<(), AllocError> {
    let cases = &[
        (TablePart::Range, "range"),
        (TablePart::Year, "year"),
        (TablePart::Join, "join"),
        (TablePart::End, "end"),
        (TablePart::Leap, "leap"),
        (TablePart::Rule, "rule"),
    ];
    assert_each_prints(&rt, rt.alloc(), cases)
}

#[test]
fn a_table_fault_prints_its_row_and_part(rt: HostRuntime) -> Result<(), AllocError> {
    let fault = TableFault {
        row: 2,
        part: TablePart::Join,
    };
    assert_prints(
        &rt,
        rt.alloc(),
        &fault,
        "Row 2 of the table breaks its rule on join",
    )?;
    Ok(())
}

#[test]
fn an_unknown_era_or_a_malformed_code_is_an_error_of_fields(rt: HostRuntime) {
    assert_same(
        &rt,
        DateNewError::from(UnknownEraError),
        DateNewError::InvalidEra,
    );
    let era = DateFromFieldsError::from(UnknownEraError);
    assert_same(&rt, era, DateFromFieldsError::InvalidEra);
    let code = DateFromFieldsError::from(MonthCodeParseError::InvalidSyntax);
    assert_same(&rt, code, DateFromFieldsError::MonthCodeInvalidSyntax);
}

#[test]
fn a_month_that_is_not_there_is_an_error_of_fields(rt: HostRuntime) {
    let in_calendar = DateFromFieldsError::from(MonthError::NotInCalendar);
    assert_same(&rt, in_calendar, DateFromFieldsError::MonthNotInCalendar);
    let in_year = DateFromFieldsError::from(MonthError::NotInYear);
    assert_same(&rt, in_year, DateFromFieldsError::MonthNotInYear);
}

#[test]
fn a_missing_reference_year_is_an_error_of_fields(rt: HostRuntime) {
    let unimplemented = DateFromFieldsError::from(EcmaReferenceYearError::Unimplemented);
    assert_same(&rt, unimplemented, DateFromFieldsError::NotEnoughFields);
    let month = DateFromFieldsError::from(EcmaReferenceYearError::MonthNotInCalendar);
    assert_same(&rt, month, DateFromFieldsError::MonthNotInCalendar);
    let regular = DateFromFieldsError::from(EcmaReferenceYearError::UseRegularIfConstrain);
    assert_same(&rt, regular, DateFromFieldsError::MonthNotInYear);
}
