//! Kinds of calendars, by the program's names and by CLDR's, and their texts.

use crate::tests::expected::{assert_at, assert_holds, assert_prints, assert_same};
use cal_kinds::AnyCalendarKind;
use cal_kinds::laws::order_of_kinds;
use cal_types::{CalendarAlgorithm, HijriCalendarAlgorithm};
use std::alloc::{AllocError, Global};
use std::cmp::Ordering;
use std::hash::{DefaultHasher, Hash, Hasher};
use std::process::Abort;

/// That a name is the program's for a kind.
fn assert_program_name(rt: &impl Abort, name: &str, kind: AnyCalendarKind) {
    let found = AnyCalendarKind::from_program_name(name.as_bytes());
    assert_at(rt, name, found, Some(kind));
}

/// The program's names with the kinds of CLDR's calendars, and the kind that has none.
#[test]
fn names_of_kinds(rt: HostRuntime) {
    use AnyCalendarKind as Kind;
    for &(name, kind) in &[
        ("iso", Kind::Iso),
        ("gregorian", Kind::Gregorian),
        ("julian", Kind::Julian),
        ("buddhist", Kind::Buddhist),
        ("chinese", Kind::Chinese),
        ("coptic", Kind::Coptic),
        ("dangi", Kind::Dangi),
        ("ethiopic", Kind::Ethiopian),
        ("ethioaa", Kind::EthiopianAmeteAlem),
        ("hebrew", Kind::Hebrew),
        ("indian", Kind::Indian),
        ("islamic-civil", Kind::HijriTabularTypeIIFriday),
        ("islamic-simulated", Kind::HijriSimulatedMecca),
        ("islamic-tbla", Kind::HijriTabularTypeIIThursday),
        ("islamic-umalqura", Kind::HijriUmmAlQura),
        ("japanese", Kind::Japanese),
        ("persian", Kind::Persian),
        ("roc", Kind::Roc),
        ("islamic-type1-friday", Kind::HijriTabularTypeIFriday),
        ("islamic-type1-thursday", Kind::HijriTabularTypeIThursday),
    ] {
        assert_program_name(&rt, name, kind);
    }
}

#[test]
fn other_texts_name_no_kind(rt: HostRuntime) {
    for &name in &[
        "",
        "ISO",
        "iso ",
        "is",
        "isos",
        "japanext",
        "islamic",
        "islamic-type1",
        "islamic-type2-friday",
        "gregory",
    ] {
        let found = AnyCalendarKind::from_program_name(name.as_bytes());
        assert_at(&rt, name, found, None);
    }
}

/// That CLDR's name of a calendar stands for the kind of this text.
fn assert_kind(
    rt: &impl Abort,
    alloc: Global,
    algorithm: CalendarAlgorithm,
    text: &str,
) -> Result<(), AllocError> {
    match AnyCalendarKind::try_from(algorithm) {
        Ok(kind) => {
            assert_prints(rt, alloc, &kind, text)?;
        }
        Err(()) => assert_holds(rt, text, false),
    }
    Ok(())
}

/// That CLDR's names of calendars stand for the kinds of the texts beside them.
fn assert_kinds(
    rt: &impl Abort,
    alloc: Global,
    cases: &[(CalendarAlgorithm, &str)],
) -> Result<(), AllocError> {
    for &(algorithm, text) in cases {
        assert_kind(rt, alloc, algorithm, text)?;
    }
    Ok(())
}

#[test]
fn kinds_of_solar_calendars(rt: HostRuntime) -> Result<(), AllocError> {
    let cases = &[
        (CalendarAlgorithm::Buddhist, "Buddhist"),
        (CalendarAlgorithm::Gregory, "Gregorian"),
        (CalendarAlgorithm::Iso8601, "Iso"),
        (CalendarAlgorithm::Japanese, "Japanese"),
        (CalendarAlgorithm::Roc, "Roc"),
    ];
    assert_kinds(&rt, rt.alloc(), cases)
}

#[test]
fn kinds_of_other_solar_calendars(rt: HostRuntime) -> Result<(), AllocError> {
    let cases = &[
        (CalendarAlgorithm::Coptic, "Coptic"),
        (CalendarAlgorithm::Ethiopic, "Ethiopian"),
        (CalendarAlgorithm::Ethioaa, "EthiopianAmeteAlem"),
        (CalendarAlgorithm::Indian, "Indian"),
        (CalendarAlgorithm::Persian, "Persian"),
    ];
    assert_kinds(&rt, rt.alloc(), cases)
}

#[test]
fn kinds_of_lunisolar_calendars(rt: HostRuntime) -> Result<(), AllocError> {
    let cases = &[
        (CalendarAlgorithm::Chinese, "Chinese"),
        (CalendarAlgorithm::Dangi, "Dangi"),
        (CalendarAlgorithm::Hebrew, "Hebrew"),
    ];
    assert_kinds(&rt, rt.alloc(), cases)
}

#[test]
fn kinds_of_hijri_calendars(rt: HostRuntime) -> Result<(), AllocError> {
    use HijriCalendarAlgorithm::{Civil, Rgsa, Tbla, Umalqura};
    assert_same(
        &rt,
        AnyCalendarKind::try_from(CalendarAlgorithm::Hijri(None)),
        Err(()),
    );
    assert_same(
        &rt,
        AnyCalendarKind::try_from(CalendarAlgorithm::Hijri(Some(Rgsa))),
        Err(()),
    );
    let cases = &[
        (
            CalendarAlgorithm::Hijri(Some(Civil)),
            "HijriTabularTypeIIFriday",
        ),
        (
            CalendarAlgorithm::Hijri(Some(Tbla)),
            "HijriTabularTypeIIThursday",
        ),
        (CalendarAlgorithm::Hijri(Some(Umalqura)), "HijriUmmAlQura"),
    ];
    assert_kinds(&rt, rt.alloc(), cases)
}

/// That a kind comes after another.
fn assert_after(rt: &impl Abort, first: AnyCalendarKind, second: AnyCalendarKind) {
    assert_at(rt, second, order_of_kinds(first, second), Ordering::Less);
    assert_at(rt, second, order_of_kinds(second, first), Ordering::Greater);
    assert_at(rt, second, order_of_kinds(second, second), Ordering::Equal);
    assert_holds(rt, second, first < second);
}

/// The hash of a value.
fn hash_of<T: Hash>(value: &T) -> u64 {
    let mut state = DefaultHasher::new();
    value.hash(&mut state);
    state.finish()
}

#[test]
fn kinds_are_hashed_apart(rt: HostRuntime) {
    use AnyCalendarKind as Kind;
    let kinds = [
        Kind::Buddhist,
        Kind::Chinese,
        Kind::Dangi,
        Kind::Hebrew,
        Kind::Iso,
        Kind::Roc,
    ];
    for (i, a) in kinds.iter().enumerate() {
        for (j, b) in kinds.iter().enumerate() {
            assert_at(&rt, (i, j), hash_of(a) == hash_of(b), i == j);
        }
    }
}

#[test]
fn kinds_are_ordered_as_their_names(rt: HostRuntime) {
    use AnyCalendarKind as Kind;
    for &(first, second) in &[
        (Kind::Buddhist, Kind::Chinese),
        (Kind::Chinese, Kind::Coptic),
        (Kind::Coptic, Kind::Dangi),
        (Kind::Dangi, Kind::Ethiopian),
        (Kind::Ethiopian, Kind::EthiopianAmeteAlem),
        (Kind::EthiopianAmeteAlem, Kind::Gregorian),
        (Kind::Gregorian, Kind::Hebrew),
        (Kind::Hebrew, Kind::Indian),
        (Kind::Indian, Kind::HijriTabularTypeIIFriday),
        (Kind::HijriTabularTypeIIFriday, Kind::HijriSimulatedMecca),
        (Kind::HijriSimulatedMecca, Kind::HijriTabularTypeIIThursday),
        (Kind::HijriTabularTypeIIThursday, Kind::HijriUmmAlQura),
        (Kind::HijriUmmAlQura, Kind::Iso),
        (Kind::Iso, Kind::Japanese),
        (Kind::Japanese, Kind::JapaneseExtended),
        (Kind::JapaneseExtended, Kind::Julian),
        (Kind::Julian, Kind::Persian),
        (Kind::Persian, Kind::Roc),
        (Kind::Roc, Kind::HijriTabularTypeIFriday),
        (
            Kind::HijriTabularTypeIFriday,
            Kind::HijriTabularTypeIThursday,
        ),
    ] {
        assert_after(&rt, first, second);
    }
}
