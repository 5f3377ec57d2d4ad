//! CLDR's names of calendars, and the calendar that a preference resolves to.

use crate::tests::expected::{assert_at, assert_holds, assert_same};
use cal_types::{CalendarAlgorithm, CalendarPreference, HijriCalendarAlgorithm};
use std::process::Abort;

/// That an algorithm has a name, and is found by it.
fn assert_named(rt: &impl Abort, algorithm: CalendarAlgorithm, name: &str) {
    assert_same(rt, algorithm.as_str(), name);
    let found = CalendarAlgorithm::from_name(name.as_bytes());
    assert_at(rt, name, found, Some(algorithm));
}

#[test]
fn names_are_those_of_cldr(rt: HostRuntime) {
    let rgsa = CalendarAlgorithm::Hijri(Some(HijriCalendarAlgorithm::Rgsa));
    assert_named(&rt, CalendarAlgorithm::Gregory, "gregory");
    assert_named(&rt, CalendarAlgorithm::Ethioaa, "ethioaa");
    assert_named(&rt, CalendarAlgorithm::Iso8601, "iso8601");
    assert_named(&rt, CalendarAlgorithm::Hijri(None), "islamic");
    assert_named(&rt, rgsa, "islamic-rgsa");
}

#[test]
fn other_texts_name_no_algorithm(rt: HostRuntime) {
    for &name in &[
        "",
        "klingon",
        "Gregory",
        "gregorian",
        "islamic-",
        "islamicc",
        "iso",
    ] {
        assert_holds(
            &rt,
            name,
            CalendarAlgorithm::from_name(name.as_bytes()).is_none(),
        );
    }
}

#[test]
fn what_is_left_open_is_the_default(rt: HostRuntime) {
    let preference = CalendarPreference {
        default_algorithm: CalendarAlgorithm::Persian,
        default_hijri_algorithm: HijriCalendarAlgorithm::Umalqura,
    };
    let umalqura = CalendarAlgorithm::Hijri(Some(HijriCalendarAlgorithm::Umalqura));
    let civil = CalendarAlgorithm::Hijri(Some(HijriCalendarAlgorithm::Civil));
    for &(unresolved, want) in &[
        (None, CalendarAlgorithm::Persian),
        (Some(CalendarAlgorithm::Hijri(None)), umalqura),
        (Some(civil), civil),
        (Some(CalendarAlgorithm::Roc), CalendarAlgorithm::Roc),
    ] {
        assert_same(&rt, preference.resolve(unresolved), want);
    }
}
