//! An era after Reiwa, listed and read.

use crate::tests::expected::{assert_at, assert_day, assert_holds, assert_same};
use cal_base::Calendar;
use cal_days::RataDie;
use cal_gregory::{EraStartDate, Japanese, JapaneseEras};
use cal_types::{Month, TinyAsciiStr, YearInput};
use std::process::Abort;

/// Returns the start of an era on a day.
fn start(year: i32, month: u8, day: u8) -> EraStartDate {
    EraStartDate { year, month, day }
}

/// Returns the eras with a last one that starts on a day, if it may be listed.
fn eras_with(start: EraStartDate, code: &[u8], index: u8) -> Option<JapaneseEras> {
    let code = TinyAsciiStr::try_from_utf8(code).ok()?;
    JapaneseEras::with_last_era(start, code, index)
}

#[test]
fn an_era_after_reiwa_is_listed_last(rt: HostRuntime) {
    let made = eras_with(start(2086, 11, 1), b"fuzu", 8);
    let eras = made.expect(&rt, "the era may be listed");
    assert_same(&rt, eras.eras().count(), 6);
    let last = eras.eras().next_back().expect(&rt, "there is an era");
    assert_holds(&rt, "the start", last.0 == start(2086, 11, 1));
    assert_same(&rt, last.1.as_str(), "fuzu");
    assert_same(&rt, last.2, 8);
}

/// That a day is in an era, and in a year of it.
fn assert_named(rt: &impl Abort, japanese: &Japanese, day: i64, era: &str, year: i32) {
    assert_day(rt, day);
    let named = japanese.year_info(&japanese.from_rata_die(RataDie::new(day)));
    assert_at(rt, day, (named.era.as_str(), named.year), (era, year));
}

#[test]
fn days_about_the_start_of_a_last_era_are_in_their_eras(rt: HostRuntime) {
    let made = eras_with(start(2086, 11, 1), b"fuzu", 8);
    let japanese = Japanese::with_eras(made.expect(&rt, "the era may be listed"));
    assert_named(&rt, &japanese, 761835, "reiwa", 68);
    assert_named(&rt, &japanese, 761836, "fuzu", 1);
}

#[test]
fn a_date_of_a_last_era_is_on_its_day(rt: HostRuntime) {
    let made = eras_with(start(2086, 11, 1), b"fuzu", 8);
    let japanese = Japanese::with_eras(made.expect(&rt, "the era may be listed"));
    let made = japanese.new_date(YearInput::EraYear("fuzu", 1), Month::new(11), 1);
    let date = made.expect(&rt, "the date is there");
    assert_same(&rt, japanese.to_rata_die(&date).to_i64_date(), 761836);
}

#[test]
fn an_era_before_2026_lists_those_up_to_reiwa(rt: HostRuntime) {
    for &(last, text, index) in &[
        (start(2025, 12, 31), b"fuzu".as_slice(), 7),
        (start(2019, 5, 1), b"reiwa".as_slice(), 6),
        (start(-1, 0, 99), b"".as_slice(), 0),
    ] {
        let eras = eras_with(last, text, index);
        assert_holds(&rt, index, eras == Some(JapaneseEras::up_to_reiwa()));
    }
}

#[test]
fn an_era_that_cannot_be_the_last_is_refused(rt: HostRuntime) {
    for &(last, text, index) in &[
        (start(2030, 4, 1), b"abc".as_slice(), 9),
        (start(2030, 4, 1), b"abc".as_slice(), 6),
        (start(2030, 4, 0), b"abc".as_slice(), 7),
        (start(2030, 4, 32), b"abc".as_slice(), 7),
        (start(2030, 0, 1), b"abc".as_slice(), 7),
        (start(2030, 16, 1), b"abc".as_slice(), 7),
        (start(2090, 4, 1), b"abc".as_slice(), 7),
        (start(2030, 4, 1), b"".as_slice(), 7),
        (start(2030, 4, 1), b"aBc".as_slice(), 7),
    ] {
        assert_holds(&rt, (text, index), eras_with(last, text, index).is_none());
    }
    for &last in &[start(2026, 1, 1), start(2089, 15, 31)] {
        assert_holds(&rt, last.year, eras_with(last, b"abcdefgz", 7).is_some());
    }
}
