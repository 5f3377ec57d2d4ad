//! Durations that are read from texts.

use crate::tests::expected::{assert_at, assert_same};
use cal_types::{DateDuration, DateDurationParseError};
use std::process::Abort;

/// Years, months, weeks and days, with a sign.
fn duration(is_negative: bool, parts: [u32; 4]) -> DateDuration {
    DateDuration {
        is_negative,
        years: parts[0],
        months: parts[1],
        weeks: parts[2],
        days: parts[3],
    }
}

#[test]
fn the_default_is_zero(rt: HostRuntime) {
    assert_same(&rt, DateDuration::default(), duration(false, [0, 0, 0, 0]));
}

#[test]
fn durations_are_read(rt: HostRuntime) {
    for &(text, is_negative, parts) in &[
        ("P1Y3M5W7D", false, [1, 3, 5, 7]),
        ("-P9W", true, [0, 0, 9, 0]),
        ("P7D5W", false, [0, 0, 5, 7]),
        ("-P0D", true, [0, 0, 0, 0]),
        ("P004294967295Y", false, [4294967295, 0, 0, 0]),
    ] {
        let want = Ok(duration(is_negative, parts));
        assert_at(&rt, text, DateDuration::try_from_str(text), want);
        assert_at(
            &rt,
            text,
            DateDuration::try_from_utf8(text.as_bytes()),
            want,
        );
    }
}

/// That each text has one fault.
fn assert_fault(rt: &impl Abort, texts: &[&str], fault: DateDurationParseError) {
    for &text in texts {
        assert_at(rt, text, DateDuration::try_from_str(text), Err(fault));
    }
}

#[test]
fn the_first_fault_is_answered(rt: HostRuntime) {
    use DateDurationParseError::{
        DuplicateUnit, InvalidStructure, MissingValue, NumberOverflow, PlusNotAllowed,
        TimeNotSupported,
    };
    let without_structure = &[
        "",
        "-",
        "P",
        "P5T",
        "P5",
        "P1H1Y1Y",
        "-+P1D",
        "P4294967296H",
    ];
    assert_fault(&rt, without_structure, InvalidStructure);
    assert_fault(&rt, &["PT1H", "P1DT"], TimeNotSupported);
    assert_fault(&rt, &["PD"], MissingValue);
    assert_fault(&rt, &["+P1D", "+"], PlusNotAllowed);
    assert_fault(&rt, &["P1D4294967296D"], DuplicateUnit);
    assert_fault(
        &rt,
        &["P4294967296D", "P18446744073709551616H"],
        NumberOverflow,
    );
}
