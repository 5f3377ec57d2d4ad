//! Equality, order and hash of the plain types, field by field.

use crate::tests::expected::assert_at;
use cal_days::RataDie;
use cal_errors::{
    CalendarAlgorithm, CalendarPreference, DateAddError, DateDurationParseError, DateError,
    DateFromFieldsError, DateNewError, EcmaReferenceYearError, HijriCalendarAlgorithm,
    LengthenFault, LunisolarDateError, MonthError, ParseError, RangeError, TableFault, TablePart,
    TinyStrError,
};
use cal_types::{
    BagSide, CyclicYear, DateAddOptions, DateDifferenceOptions, DateDuration, DateDurationUnit,
    DateFields, DateFromFieldsOptions, DayOfMonth, DayOfWeekInMonth, DayOfYear, EraYear,
    IsoWeekOfYear, LeapStatus, Leaping, MissingFieldsStrategy, Month, MonthInfo, Overflow,
    SpanError, TinyAsciiStr, Weekday, WeekdaySet, Window, YearAmbiguity, YearInfo, YearInput,
};
use std::fmt::Debug;
use std::hash::{DefaultHasher, Hash, Hasher};
use std::process::Abort;

/// That each value is equal to itself alone.
fn assert_unequal<T: PartialEq + Debug + Copy>(rt: &impl Abort, values: &[T]) {
    for (i, a) in values.iter().enumerate() {
        for (j, b) in values.iter().enumerate() {
            assert_at(rt, (i, j), *a == *b, i == j);
        }
    }
}

/// That each value is below those behind it, and not below any other.
fn assert_ordered<T: PartialOrd + Debug + Copy>(rt: &impl Abort, values: &[T]) {
    for (i, a) in values.iter().enumerate() {
        for (j, b) in values.iter().enumerate() {
            assert_at(rt, (i, j), *a < *b, i < j);
        }
    }
}

/// The hash of a value.
fn hash_of<T: Hash>(value: &T) -> u64 {
    let mut state = DefaultHasher::new();
    value.hash(&mut state);
    state.finish()
}

/// That each value has a hash of its own.
fn assert_hashed_apart<T: Hash + Debug + Copy>(rt: &impl Abort, values: &[T]) {
    for (i, a) in values.iter().enumerate() {
        for (j, b) in values.iter().enumerate() {
            assert_at(rt, (i, j), hash_of(a) == hash_of(b), i == j);
        }
    }
}

#[test]
fn months_are_equal_ordered_and_hashed_by_number_then_leap(rt: HostRuntime) {
    let months = [
        Month::new(0),
        Month::new(5),
        Month::leap(5),
        Month::new(6),
        Month::leap(6),
    ];
    assert_unequal(&rt, &months);
    assert_ordered(&rt, &months);
    assert_hashed_apart(&rt, &months);
}

#[test]
fn month_codes_are_equal_ordered_and_hashed_as_texts(rt: HostRuntime) {
    let codes = [
        Month::new(0).code(),
        Month::new(5).code(),
        Month::leap(5).code(),
        Month::new(6).code(),
        Month::new(13).code(),
    ];
    assert_unequal(&rt, &codes);
    assert_ordered(&rt, &codes);
    assert_hashed_apart(&rt, &codes);
}

#[test]
fn plain_enums_have_unequal_variants(rt: HostRuntime) {
    let status = [LeapStatus::Normal, LeapStatus::Leap, LeapStatus::Base];
    assert_unequal(&rt, &status);
    assert_hashed_apart(&rt, &status);
    assert_unequal(&rt, &[Leaping::Exact, Leaping::Constrain]);
    assert_unequal(&rt, &[Overflow::Constrain, Overflow::Reject]);
    assert_unequal(
        &rt,
        &[MissingFieldsStrategy::Reject, MissingFieldsStrategy::Ecma],
    );
    assert_unequal(&rt, &[BagSide::From, BagSide::To]);
    assert_unequal(
        &rt,
        &[
            DateDurationUnit::Years,
            DateDurationUnit::Months,
            DateDurationUnit::Weeks,
            DateDurationUnit::Days,
        ],
    );
    assert_unequal(
        &rt,
        &[
            YearAmbiguity::Unambiguous,
            YearAmbiguity::CenturyRequired,
            YearAmbiguity::EraRequired,
            YearAmbiguity::EraAndCenturyRequired,
        ],
    );
    assert_unequal(&rt, &[Weekday::Monday, Weekday::Tuesday, Weekday::Sunday]);
}

#[test]
fn durations_and_options_are_equal_field_by_field(rt: HostRuntime) {
    let none = DateDuration::default();
    assert_unequal(
        &rt,
        &[
            none,
            DateDuration {
                is_negative: true,
                ..none
            },
            DateDuration { years: 1, ..none },
            DateDuration { months: 1, ..none },
            DateDuration { weeks: 1, ..none },
            DateDuration { days: 1, ..none },
        ],
    );
    let overflow = Some(Overflow::Reject);
    assert_unequal(
        &rt,
        &[
            DateAddOptions { overflow: None },
            DateAddOptions { overflow },
        ],
    );
    let largest_unit = Some(DateDurationUnit::Days);
    assert_unequal(
        &rt,
        &[
            DateDifferenceOptions { largest_unit: None },
            DateDifferenceOptions { largest_unit },
        ],
    );
    let left_out = DateFromFieldsOptions::default();
    let missing_fields_strategy = Some(MissingFieldsStrategy::Reject);
    assert_unequal(
        &rt,
        &[
            left_out,
            DateFromFieldsOptions {
                overflow,
                ..left_out
            },
            DateFromFieldsOptions {
                missing_fields_strategy,
                ..left_out
            },
        ],
    );
}

#[test]
fn fields_are_equal_field_by_field(rt: HostRuntime) {
    let none = DateFields::default();
    assert_unequal(
        &rt,
        &[
            none,
            DateFields {
                era: Some(b"ce"),
                ..none
            },
            DateFields {
                era_year: Some(1),
                ..none
            },
            DateFields {
                extended_year: Some(1),
                ..none
            },
            DateFields {
                month: Some(Month::new(1)),
                ..none
            },
            DateFields {
                month_code: Some(b"M01"),
                ..none
            },
            DateFields {
                ordinal_month: Some(1),
                ..none
            },
            DateFields {
                day: Some(1),
                ..none
            },
        ],
    );
}

/// Years in an era that differ from the first in one field each.
fn era_years() -> [EraYear; 6] {
    let first = EraYear {
        year: 1,
        extended_year: 1,
        era: TinyAsciiStr::of_text(b"ah"),
        era_index: Some(0),
        ambiguity: YearAmbiguity::CenturyRequired,
    };
    [
        first,
        EraYear { year: 2, ..first },
        EraYear {
            extended_year: 2,
            ..first
        },
        EraYear {
            era: TinyAsciiStr::of_text(b"bh"),
            ..first
        },
        EraYear {
            era_index: None,
            ..first
        },
        EraYear {
            ambiguity: YearAmbiguity::EraRequired,
            ..first
        },
    ]
}

#[test]
fn years_are_equal_field_by_field(rt: HostRuntime) {
    let eras = era_years();
    assert_unequal(&rt, &eras);
    let cyclic = CyclicYear {
        year: 1,
        related_iso: 1984,
    };
    let next = CyclicYear { year: 2, ..cyclic };
    let later = CyclicYear {
        related_iso: 2044,
        ..cyclic
    };
    assert_unequal(&rt, &[cyclic, next, later]);
    assert_unequal(
        &rt,
        &[
            YearInfo::Era(eras[0]),
            YearInfo::Era(eras[1]),
            YearInfo::Cyclic(cyclic),
            YearInfo::Cyclic(next),
        ],
    );
    assert_unequal(
        &rt,
        &[
            YearInput::Extended(1),
            YearInput::Extended(2),
            YearInput::EraYear("ah", 1),
            YearInput::EraYear("ah", 2),
            YearInput::EraYear("bh", 1),
        ],
    );
}

#[test]
fn days_and_months_of_dates_are_equal_field_by_field(rt: HostRuntime) {
    assert_unequal(&rt, &[DayOfMonth(1), DayOfMonth(2)]);
    assert_unequal(&rt, &[DayOfYear(1), DayOfYear(257)]);
    assert_unequal(&rt, &[DayOfWeekInMonth(1), DayOfWeekInMonth(2)]);
    let week = IsoWeekOfYear {
        week_number: 1,
        iso_year: 2024,
    };
    let next = IsoWeekOfYear {
        week_number: 2,
        ..week
    };
    let later = IsoWeekOfYear {
        iso_year: 2025,
        ..week
    };
    assert_unequal(&rt, &[week, next, later]);
    let (plain, leap) = (Month::new(5), Month::leap(5));
    assert_unequal(
        &rt,
        &[
            MonthInfo::new(5, plain, LeapStatus::Normal, plain),
            MonthInfo::new(6, plain, LeapStatus::Normal, plain),
            MonthInfo::new(5, leap, LeapStatus::Normal, plain),
            MonthInfo::new(5, plain, LeapStatus::Base, plain),
            MonthInfo::new(5, plain, LeapStatus::Normal, leap),
        ],
    );
}

#[test]
fn windows_and_sets_of_weekdays_are_equal_by_their_days(rt: HostRuntime) {
    let window = |first, last| Window::try_new(RataDie::new(first), RataDie::new(last));
    assert_unequal(&rt, &[window(1, 2), window(1, 3), window(2, 2), None]);
    assert_unequal(
        &rt,
        &[
            WeekdaySet::new(&[]),
            WeekdaySet::new(&[Weekday::Sunday]),
            WeekdaySet::new(&[Weekday::Monday]),
            WeekdaySet::new(&[Weekday::Sunday, Weekday::Monday]),
        ],
    );
    let twice = WeekdaySet::new(&[Weekday::Monday, Weekday::Sunday, Weekday::Monday]);
    let once = WeekdaySet::new(&[Weekday::Sunday, Weekday::Monday]);
    assert_at(&rt, "in any order", twice, once);
}

#[test]
fn errors_are_equal_field_by_field(rt: HostRuntime) {
    let range = RangeError {
        field: "day",
        value: 0,
        min: 1,
        max: 30,
    };
    let ranges = [
        range,
        RangeError {
            field: "month",
            ..range
        },
        RangeError { value: 31, ..range },
        RangeError { min: 2, ..range },
        RangeError { max: 31, ..range },
    ];
    assert_unequal(&rt, &ranges);
    assert_unequal(
        &rt,
        &[
            DateError::from(ranges[0]),
            DateError::from(ranges[1]),
            DateError::from(ranges[2]),
            DateError::from(ranges[3]),
            DateError::from(ranges[4]),
            DateError::UnknownEra,
        ],
    );
    assert_unequal(
        &rt,
        &[
            DateFromFieldsError::NotEnoughFields,
            DateFromFieldsError::InvalidOrdinalMonth { max: 12 },
            DateFromFieldsError::InvalidOrdinalMonth { max: 13 },
            DateFromFieldsError::InvalidDay { max: 12 },
            DateFromFieldsError::InvalidDay { max: 13 },
        ],
    );
    assert_unequal(
        &rt,
        &[
            DateAddError::Overflow,
            DateAddError::MonthNotInYear,
            DateAddError::InvalidDay { max: 29 },
            DateAddError::InvalidDay { max: 30 },
        ],
    );
    assert_unequal(
        &rt,
        &[
            ParseError::Syntax,
            ParseError::Range(ranges[0]),
            ParseError::Range(ranges[1]),
        ],
    );
}

#[test]
fn errors_of_months_and_texts_have_unequal_variants(rt: HostRuntime) {
    assert_unequal(
        &rt,
        &[
            DateNewError::InvalidYear,
            DateNewError::InvalidDay { max: 29 },
            DateNewError::InvalidDay { max: 30 },
        ],
    );
    assert_unequal(
        &rt,
        &[
            LunisolarDateError::InvalidYear,
            LunisolarDateError::InvalidDay { max: 29 },
            LunisolarDateError::InvalidDay { max: 30 },
        ],
    );
    assert_unequal(&rt, &[MonthError::NotInCalendar, MonthError::NotInYear]);
    assert_unequal(&rt, &[TinyStrError::TooLong, TinyStrError::NonAscii]);
    assert_unequal(
        &rt,
        &[
            EcmaReferenceYearError::Unimplemented,
            EcmaReferenceYearError::MonthNotInCalendar,
            EcmaReferenceYearError::UseRegularIfConstrain,
        ],
    );
    assert_unequal(
        &rt,
        &[
            DateDurationParseError::InvalidStructure,
            DateDurationParseError::MissingValue,
            DateDurationParseError::PlusNotAllowed,
        ],
    );
    let cause = DateFromFieldsError::NotEnoughFields;
    let side = BagSide::From;
    assert_unequal(
        &rt,
        &[
            SpanError { side, cause },
            SpanError {
                side: BagSide::To,
                cause,
            },
            SpanError {
                side,
                cause: DateFromFieldsError::Overflow,
            },
        ],
    );
}

#[test]
fn faults_of_tables_are_equal_field_by_field(rt: HostRuntime) {
    let parts = [
        TablePart::Range,
        TablePart::Year,
        TablePart::Join,
        TablePart::End,
        TablePart::Leap,
        TablePart::Rule,
    ];
    assert_unequal(&rt, &parts);
    let part = TablePart::Range;
    let fault = TableFault { row: 1, part };
    let later = TableFault { row: 2, part };
    let other = TableFault {
        row: 1,
        part: TablePart::Year,
    };
    assert_unequal(&rt, &[fault, later, other]);
    assert_unequal(
        &rt,
        &[
            LengthenFault::Differs { row: 1 },
            LengthenFault::Differs { row: 2 },
            LengthenFault::Table(fault),
            LengthenFault::Table(later),
        ],
    );
}

#[test]
fn algorithms_and_preferences_are_equal_field_by_field(rt: HostRuntime) {
    let default_algorithm = CalendarAlgorithm::Gregory;
    let default_hijri_algorithm = HijriCalendarAlgorithm::Civil;
    let preference = CalendarPreference {
        default_algorithm,
        default_hijri_algorithm,
    };
    let other = CalendarPreference {
        default_algorithm: CalendarAlgorithm::Persian,
        ..preference
    };
    let another = CalendarPreference {
        default_hijri_algorithm: HijriCalendarAlgorithm::Tbla,
        ..preference
    };
    assert_unequal(&rt, &[preference, other, another]);
    assert_unequal(
        &rt,
        &[
            CalendarAlgorithm::Gregory,
            CalendarAlgorithm::Hijri(None),
            CalendarAlgorithm::Hijri(Some(HijriCalendarAlgorithm::Civil)),
            CalendarAlgorithm::Hijri(Some(HijriCalendarAlgorithm::Rgsa)),
        ],
    );
}
