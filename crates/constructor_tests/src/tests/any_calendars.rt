//! Dates of one calendar as dates of any, and dates of any calendar in another.

use crate::tests::expected::assert_holds;
use icu_calendar::{
    AnyCalendar, AnyCalendarKind, Buddhist, ChineseTraditional, Coptic, Date, EastAsianTable,
    Ethiopian, EthiopianEraStyle, Gregorian, Hebrew, Hijri, HijriTable, Indian, IntoAnyCalendar,
    Iso, Japanese, Julian, KoreanTraditional, Persian, PersianCorrections, Roc, Side,
    TabularAlgorithmEpoch, TabularAlgorithmLeapYears,
};
use std::process::Abort;
use test_dates::{JULIAN, calendar_of, date_on, day, has_parts, has_parts_in, parts_in};

/// The calendar of a date of any calendar.
fn calendar_in<'a, 't>(date: &'a Date<AnyCalendar<'t>>) -> &'a AnyCalendar<'t> {
    date.calendar()
}

/// That a date of a calendar is the same one as a date of any calendar, that the calendar comes back from its variant,
/// and that another variant is handed back.
fn assert_any<'t, C: IntoAnyCalendar<'t> + Copy>(
    rt: &impl Abort,
    calendar: C,
    kind: AnyCalendarKind,
    extended_year: i32,
) {
    let date = Date::from_rata_die(day(730120), calendar);
    let (_, month, day_of_month) = parts_in(&date);
    let any = date.to_any();
    assert!(rt; has_parts(&any, 730120, extended_year, month, day_of_month));
    let held = calendar_in(&any);
    assert!(rt; held.kind() == kind);
    assert!(rt; C::from_any_ref(held).is_some());
    assert_variant(rt, calendar, kind);
}

/// That a calendar is of this kind, and is the one that any calendar holds.
fn assert_held<'t, C: IntoAnyCalendar<'t>>(
    rt: &impl Abort,
    calendar: &C,
    any: AnyCalendar<'t>,
    kind: AnyCalendarKind,
) {
    assert!(rt; calendar.kind() == kind);
    assert!(rt; C::from_any_ref(&any).is_some());
    assert!(rt; C::from_any(any).is_ok());
}

/// The Gregorian calendar for the kind of ISO's, and ISO's calendar for any other kind.
fn other_than(kind: AnyCalendarKind) -> AnyCalendar<'static> {
    if kind == AnyCalendarKind::Iso {
        AnyCalendar::Gregorian(Gregorian)
    } else {
        AnyCalendar::Iso(Iso)
    }
}

/// That a calendar is of its kind, comes back from its variant, and hands another one back.
fn assert_variant<'t, C: IntoAnyCalendar<'t> + Copy>(
    rt: &impl Abort,
    calendar: C,
    kind: AnyCalendarKind,
) {
    assert_held(rt, &calendar, calendar.to_any(), kind);
    let other = other_than(kind);
    assert!(rt; C::from_any_ref(&other).is_none());
    assert!(rt; C::from_any(other).is_err());
}

// The days of these tests are January 1, 2000 of the ISO calendar.

#[test]
fn dates_of_solar_calendars_are_dates_of_any(rt: HostRuntime) {
    use AnyCalendarKind as kind;
    let persian = Persian::new(PersianCorrections::none());
    assert_any(&rt, Indian, kind::Indian, 1921);
    assert_any(&rt, Iso, kind::Iso, 2000);
    assert_any(&rt, Julian, kind::Julian, 1999);
    assert_any(&rt, persian, kind::Persian, 1378);
}

#[test]
fn dates_of_gregorian_months_are_dates_of_any(rt: HostRuntime) {
    use AnyCalendarKind as kind;
    assert_any(&rt, Buddhist, kind::Buddhist, 2543);
    assert_any(&rt, Gregorian, kind::Gregorian, 2000);
    assert_any(&rt, Japanese::new(), kind::Japanese, 2000);
    assert_any(&rt, Roc, kind::Roc, 89);
}

#[test]
fn dates_of_thirteen_months_are_dates_of_any(rt: HostRuntime) {
    use AnyCalendarKind as kind;
    let alem = Ethiopian::new_with_era_style(EthiopianEraStyle::AmeteAlem);
    assert_any(&rt, Coptic, kind::Coptic, 1716);
    assert_any(&rt, Ethiopian::new(), kind::Ethiopian, 1992);
    assert_any(&rt, alem, kind::EthiopianAmeteAlem, 7492);
}

#[test]
fn dates_of_lunisolar_calendars_are_dates_of_any(rt: HostRuntime) {
    use AnyCalendarKind as kind;
    let china = ChineseTraditional::new(EastAsianTable::none(Side::China));
    let korea = KoreanTraditional::new(EastAsianTable::none(Side::Korea));
    assert_any(&rt, china, kind::Chinese, 1999);
    assert_any(&rt, korea, kind::Dangi, 1999);
    assert_any(&rt, Hebrew, kind::Hebrew, 5760);
}

#[test]
fn dates_of_hijri_calendars_are_dates_of_any(rt: HostRuntime) {
    use AnyCalendarKind as kind;
    use TabularAlgorithmEpoch::{Friday, Thursday};
    use TabularAlgorithmLeapYears::{TypeI, TypeII};
    for &(leap_years, epoch, kind) in &[
        (TypeII, Friday, kind::HijriTabularTypeIIFriday),
        (TypeII, Thursday, kind::HijriTabularTypeIIThursday),
        (TypeI, Friday, kind::HijriTabularTypeIFriday),
        (TypeI, Thursday, kind::HijriTabularTypeIThursday),
    ] {
        assert_any(&rt, Hijri::new_tabular(leap_years, epoch), kind, 1420);
    }
    let simulated = Hijri::new_simulated_mecca(HijriTable::none());
    let umm_al_qura = Hijri::new_umm_al_qura(HijriTable::none());
    assert_any(&rt, simulated, kind::HijriSimulatedMecca, 1420);
    assert_any(&rt, umm_al_qura, kind::HijriUmmAlQura, 1420);
}

#[test]
fn any_calendar_is_itself(rt: HostRuntime) {
    let date = date_on(738156, JULIAN).to_any();
    assert!(rt; has_parts(&date, 738156, 2021, 12, 19));
    let julian = calendar_of(JULIAN);
    assert_held(&rt, &julian, julian, AnyCalendarKind::Julian);
}

/// Days of the ISO calendar in others, and a date that is kept in another style of its calendar.
#[test]
fn dates_are_converted_to_any_calendar(rt: HostRuntime) {
    use AnyCalendarKind::{Buddhist, Ethiopian, EthiopianAmeteAlem, Gregorian, Iso, Julian};
    for &(from, number, to, extended_year, month, day_of_month) in &[
        (Iso, 727443, Buddhist, 2535, 9, 2),
        (Iso, 1155, Gregorian, 4, 2, 29),
        (Iso, 738156, Julian, 2021, 12, 19),
        (Iso, 719164, Ethiopian, 1962, 4, 24),
        (Iso, 719164, EthiopianAmeteAlem, 7462, 4, 24),
        (Iso, 738774, Ethiopian, 2015, 13, 6),
        (Ethiopian, 719164, EthiopianAmeteAlem, 7462, 4, 24),
        (EthiopianAmeteAlem, 738774, Ethiopian, 2015, 13, 6),
    ] {
        let date = date_on(number, from);
        let shown = calendar_of(to);
        let there = date.convert_any(&shown);
        assert_holds(
            &rt,
            number,
            has_parts_in(&there, number, extended_year, month, day_of_month),
        );
    }
}
