//! Months, their codes, and what is said of the month of a date.

ghost use Rattle.std.specs.Prelude.{◌<◌, ◌↔◌, IsTrue};
ghost use Rattle.cal_types.specs.Month.{month_rank};
ghost use Rattle.cal_types.specs.MonthParts.{month_parts};

use crate::tests::expected::{assert_at, assert_holds, assert_prints, assert_same};
use cal_types::{LeapStatus, Month, MonthCode, MonthCodeParseError, MonthInfo, TinyAsciiStr};
use std::alloc::{AllocError, Global};
use std::process::Abort;

#[test]
fn month_codes_are_read(rt: HostRuntime) {
    for &(text, want) in &[
        ("M01", Month::new(1)),
        ("M13", Month::new(13)),
        ("M00", Month::new(0)),
        ("M99", Month::new(99)),
        ("M05L", Month::leap(5)),
        ("M00L", Month::leap(0)),
    ] {
        assert_at(&rt, text, Month::try_from_str(text), Ok(want));
        assert_at(&rt, text, Month::try_from_utf8(text.as_bytes()), Ok(want));
    }
}

#[test]
fn other_texts_are_no_month_codes(rt: HostRuntime) {
    for &text in &[
        "", "M", "M1", "M1L", "m01", "N01", "M001", "M01l", "M01LL", "M01 ", "M 1", "MA1", "M1A",
        "M-1", "01", "M/1", "M:1", "M0:", "M\u{661}",
    ] {
        let fault = Err(MonthCodeParseError::InvalidSyntax);
        assert_at(&rt, text, Month::try_from_str(text), fault);
    }
}

/// That the code of a month is a text, prints it, and is parsed as the month.
fn assert_code(rt: &impl Abort, alloc: Global, month: Month, want: &str) -> Result<(), AllocError> {
    let code = month.code();
    assert_same(rt, code.0.as_str(), want);
    let parts = (month.number(), month.is_leap());
    assert_at(rt, want, code.parsed(), Some(parts));
    assert_prints(rt, alloc, &code, want)
}

#[test]
fn month_codes_are_written(rt: HostRuntime) -> Result<(), AllocError> {
    for &(month, want) in &[
        (Month::new(1), "M01"),
        (Month::from(12), "M12"),
        (Month::leap(5), "M05L"),
        (Month::new(0), "M00"),
        (Month::new(255), "M99"),
        (Month::leap(100), "M99L"),
    ] {
        assert_code(&rt, rt.alloc(), month, want)?;
    }
    Ok(())
}

#[test]
fn months_are_ordered_by_number_then_leap(rt: HostRuntime) {
    let months = [
        Month::new(0),
        Month::new(5),
        Month::leap(5),
        Month::new(6),
        Month::leap(6),
        Month::new(13),
    ];
    for i in 1..6 {
        assert_holds(&rt, i, comes_before(months[i - 1], months[i]));
        assert_holds(&rt, i, !comes_before(months[i], months[i - 1]));
    }
}

/// The order of months is that of their ranks.
fn comes_before(a: Month, b: Month) -> bool
    ensures { IsTrue result ↔ (month_rank (month_parts a) < month_rank (month_parts b)) }
{
    a < b
}

fn code(text: &str) -> Option<MonthCode> {
    Some(MonthCode(TinyAsciiStr::try_from_utf8(text.as_bytes()).ok()?))
}

/// The code of the normal month, where a text is the code of a leap month.
fn normal_code(text: &str) -> Option<MonthCode> {
    code(text)?.get_normal_if_leap()
}

#[test]
fn leap_codes_have_a_normal_code(rt: HostRuntime) {
    for &(leap, normal) in &[("M05L", "M05"), ("M12L", "M12"), ("abcL", "abc")] {
        assert_at(&rt, leap, normal_code(leap), code(normal));
    }
    for &text in &["M05", "M05l", "L", "M0L", ""] {
        assert_at(&rt, text, normal_code(text), None);
    }
}

/// The number of the month that a text is the code of, and whether it is a leap month.
fn parsed(text: &str) -> Option<(u8, bool)> {
    code(text)?.parsed()
}

#[test]
fn codes_are_parsed(rt: HostRuntime) {
    for &(text, want) in &[
        ("M05L", Some((5, true))),
        ("M13", Some((13, false))),
        ("m01", None),
        ("M1", None),
        ("", None),
    ] {
        assert_at(&rt, text, parsed(text), want);
    }
}

#[test]
fn the_adar_of_a_hebrew_leap_year_is_shown_as_a_leap_month(rt: HostRuntime) {
    let adar = MonthInfo::new(7, Month::new(6), LeapStatus::Base, Month::leap(6));
    assert_same(&rt, adar.ordinal, 7);
    assert_same(&rt, adar.number(), 6);
    assert_same(&rt, adar.leap_status(), LeapStatus::Base);
    assert_same(&rt, adar.to_input(), Month::new(6));
    assert_same(&rt, adar.is_leap(), false);
    assert_same(&rt, adar.standard_code.0.as_str(), "M06");
    assert_same(&rt, adar.formatting_code.0.as_str(), "M06L");
}
