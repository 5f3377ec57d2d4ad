//! Dates from texts of RFC 9557 and from records: known days, and the first fault.

use crate::tests::expected::assert_holds;
use icu_calendar::{
    AsCalendar, Calendar, CalendarAlgorithm, Date, DateRecord, Gregorian, Hebrew, Hijri, Iso,
    IxdtfRecord, ParseError, RangeError, TabularAlgorithmEpoch, TabularAlgorithmLeapYears,
};
use std::process::Abort;
use test_dates::number_in;

/// The day number of the date that a text names in a calendar, or what is wrong with the text.
fn day_named<A: AsCalendar>(text: &str, calendar: A) -> Result<i64, ParseError>
where
    A::Calendar: Calendar,
{
    match Date::try_from_str(text, calendar) {
        Ok(date) => Ok(number_in(&date)),
        Err(cause) => Err(cause),
    }
}

/// That a text names a day in the ISO calendar, or that this is wrong with it.
fn assert_iso(rt: &impl Abort, text: &str, answer: Result<i64, ParseError>) {
    assert_holds(rt, text, day_named(text, Iso) == answer);
}

/// The same in the Gregorian calendar, which has a name.
fn assert_gregorian(rt: &impl Abort, text: &str, answer: Result<i64, ParseError>) {
    assert_holds(rt, text, day_named(text, Gregorian) == answer);
}

#[test]
fn texts_name_known_days(rt: HostRuntime) {
    for &(text, day) in &[
        ("2024-03-01", 738946),
        ("2024-02-29", 738945),
        ("0001-01-01", 1),
        ("0000-12-31", 0),
        ("+000000-12-31", 0),
        ("+002024-03-01", 738946),
        ("-000001-12-31", -366),
        ("-000004-12-31", -1461),
        ("-999999-01-01", -365242499),
        ("+999999-12-31", 365242134),
        ("2024-03-01[u-ca=hebrew]", 738946),
        ("2024-03-01[!u-ca=gregory]", 738946),
        ("2024-03-01[u-ca=klingon]", 738946),
        ("2024-03-01[u-ca=a-12345678-0]", 738946),
    ] {
        assert_iso(&rt, text, Ok(day));
    }
}

#[test]
fn other_texts_are_off_the_form(rt: HostRuntime) {
    for &text in &[
        "-000000-01-01",
        "2024-02-30",
        "2023-02-29",
        "2024-13-01",
        "2024-00-01",
        "2024-01-00",
        "2024-1-01",
        "20240301",
        "2024-03-01T00:00",
        "2024-03-01 ",
        " 2024-03-01",
        "02024-03-01",
        "+2024-03-01",
        "-2024-03-01",
        "+1000000-03-01",
        "2024/03/01",
        "2024-03-01[u-ca=hebrew][u-ca=hebrew]",
        "2024-03-01[u-ca=Hebrew]",
        "2024-03-01[U-CA=hebrew]",
        "2024-03-01[u-ca=]",
        "2024-03-01[u-ca=-a]",
        "2024-03-01[u-ca=a-]",
        "2024-03-01[u-ca=a--b]",
        "2024-03-01[u-ca=123456789]",
        "2024-03-01[u-ca=a b]",
        "2024-03-01[u-cb=hebrew]",
        "2024-03-01[!!u-ca=hebrew]",
        "2024-03-01[hebrew]",
        "2024-03-01[u-ca=hebrew] ",
        "2024-03-01u-ca=hebrew]",
    ] {
        assert_iso(&rt, text, Err(ParseError::Syntax));
    }
}

/// Whether bytes name a date in the ISO calendar.
fn is_read(text: &[u8]) -> bool {
    Date::try_from_utf8(text, Iso).is_ok()
}

#[test]
fn no_text_that_is_cut_off_is_read(rt: HostRuntime) {
    let text = b"-002024-03-01[!u-ca=islamic-civil]";
    for end in 0..text.len() {
        assert_holds(&rt, end, is_read(&text[..end]) == (end == 13));
    }
    assert!(rt; is_read(text));
}

#[test]
fn names_of_other_calendars_are_refused(rt: HostRuntime) {
    let mismatch = ParseError::MismatchedCalendar(
        CalendarAlgorithm::Gregory,
        CalendarAlgorithm::Hebrew,
    );
    for &(text, answer) in &[
        ("2024-03-01", Ok(738946)),
        ("2024-03-01[u-ca=gregory]", Ok(738946)),
        ("2024-03-01[!u-ca=gregory]", Ok(738946)),
        ("2024-03-01[u-ca=hebrew]", Err(mismatch)),
        ("2024-03-01[!u-ca=hebrew]", Err(mismatch)),
        ("2024-03-01[u-ca=klingon]", Err(ParseError::UnknownCalendar)),
        ("2024-03-01[u-ca=gregorian]", Err(ParseError::Syntax)),
        ("2024-02-30[u-ca=klingon]", Err(ParseError::Syntax)),
    ] {
        assert_gregorian(&rt, text, answer);
    }
}

/// The day number that a text names in the tabular Hijri calendar with these leap years, from Friday on.
fn day_in_tabular(text: &str, leap_years: TabularAlgorithmLeapYears) -> Result<i64, ParseError> {
    let calendar = Hijri::new_tabular(leap_years, TabularAlgorithmEpoch::Friday);
    day_named(text, calendar)
}

#[test]
fn a_calendar_without_a_name_takes_any_annotation(rt: HostRuntime) {
    use TabularAlgorithmLeapYears::{TypeI, TypeII};
    for &text in &[
        "2024-03-01",
        "2024-03-01[u-ca=hebrew]",
        "2024-03-01[!u-ca=islamic-civil]",
        "2024-03-01[u-ca=klingon]",
    ] {
        assert_holds(&rt, text, day_in_tabular(text, TypeI) == Ok(738946));
    }
    assert!(rt; day_in_tabular("2024-03-01[u-ca=islamic-civil]", TypeII) == Ok(738946));
    assert!(rt; day_in_tabular("2024-03-01[u-ca=hebrew]", TypeII).is_err());
}

/// Whether a record without a calendar is refused for this cause.
fn is_refused(date: Option<DateRecord>, cause: ParseError) -> bool {
    let record = IxdtfRecord {
        date,
        calendar: None,
    };
    match Date::try_from_ixdtf_record(&record, Iso) {
        Ok(_) => false,
        Err(found) => found == cause,
    }
}

#[test]
fn records_are_tested(rt: HostRuntime) {
    assert!(rt; is_refused(None, ParseError::MissingFields));
    for &(year, month, day, field, value, min, max) in &[
        (2024, 13, 1, "month", 13, 1, 12),
        (2024, 0, 1, "month", 0, 1, 12),
        (2024, 2, 30, "day", 30, 1, 29),
        (2023, 2, 0, "day", 0, 1, 28),
        (1000000, 13, 1, "year", 1000000, -999999, 999999),
        (-1000000, 1, 1, "year", -1000000, -999999, 999999),
    ] {
        let out = RangeError {
            field,
            value,
            min,
            max,
        };
        let date = DateRecord { year, month, day };
        assert_holds(
            &rt,
            (field, value),
            is_refused(Some(date), ParseError::Range(out)),
        );
    }
}

#[test]
fn a_record_gives_its_date_and_day(rt: HostRuntime) {
    let record = IxdtfRecord {
        date: Some(DateRecord {
            year: 2024,
            month: 3,
            day: 1,
        }),
        calendar: Some(b"gregory"),
    };
    match Date::try_from_ixdtf_record_with_rd(&record, Gregorian) {
        Ok((date, rd)) => {
            assert!(rt; rd.to_i64_date() == 738946);
            assert!(rt; number_in(&date) == 738946);
        }
        Err(_) => assert!(rt; false),
    }
    assert!(rt; day_named("2024-03-01[u-ca=hebrew]", Hebrew) == Ok(738946));
    let parsed: Result<Date<Iso>, ParseError> = "2024-03-01".parse();
    assert!(rt; parsed.is_ok_and(|date| date.day_of_year().0 == 61));
}
