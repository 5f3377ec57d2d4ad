//! The examples of the docs: months, durations, texts, weeks and windows.

use icu_calendar::{
    CalendarAlgorithm, CalendarPreference, DateDuration, HijriCalendarAlgorithm, LeapStatus, Month,
    MonthInfo, RataDie, TinyAsciiStr, WeekInformation, Weekday, WeekdaySet, Window,
};
use std::process::Abort;
use std::test::Fail;

#[test]
fn day_numbers(rt: HostRuntime) {
    let day = RataDie::new(738946); // 2024-03-01
    assert!(rt; day.to_i64_date() == 738946);

    assert!(rt; RataDie::new(1).to_i64_date() == 1); // 0001-01-01

    assert!(rt; RataDie::new(738946).since(RataDie::new(738915)) == 31); // from 2024-01-30

    assert!(rt; RataDie::new(738946).checked_add(-1) == Some(RataDie::new(738945)));
}

#[test]
fn names_of_algorithms(rt: HostRuntime) {
    assert!(rt; CalendarAlgorithm::Gregory.as_str() == "gregory");

    assert!(rt; CalendarAlgorithm::from_name(b"hebrew") == Some(CalendarAlgorithm::Hebrew));

    let preference = CalendarPreference {
        default_algorithm: CalendarAlgorithm::Gregory,
        default_hijri_algorithm: HijriCalendarAlgorithm::Umalqura,
    };
    assert!(rt; preference.resolve(None) == CalendarAlgorithm::Gregory);
}

#[test]
fn durations(rt: HostRuntime) -> Result<(), Fail> {
    assert!(rt; DateDuration::for_years(-2).is_negative);

    assert!(rt; DateDuration::for_months(18).months == 18);

    assert!(rt; DateDuration::for_weeks(2).weeks == 2);

    assert!(rt; DateDuration::for_days(-7).days == 7);

    assert!(rt; DateDuration::try_from_str("P1Y2M")?.months == 2);

    let back = DateDuration::try_from_utf8(b"-P3W")?;
    assert!(rt; back.is_negative && back.weeks == 3);
    Ok(())
}

#[test]
fn months_and_codes(rt: HostRuntime) -> Result<(), Fail> {
    assert!(rt; Month::new(3).number() == 3);

    assert!(rt; Month::leap(5).is_leap());

    assert!(rt; Month::try_from_str("M05L")? == Month::leap(5));

    assert!(rt; Month::try_from_utf8(b"M12")? == Month::new(12));

    assert!(rt; Month::leap(5).code().0.as_str() == "M05L");

    assert!(rt; Month::leap(5).code().get_normal_if_leap() == Some(Month::new(5).code()));

    assert!(rt; Month::leap(5).code().parsed() == Some((5, true)));
    Ok(())
}

#[test]
fn months_and_their_codes(rt: HostRuntime) {
    let adar = MonthInfo::new(7, Month::new(6), LeapStatus::Base, Month::leap(6));
    assert!(rt; adar.standard_code.0.as_str() == "M06");
    assert!(rt; adar.formatting_code.0.as_str() == "M06L");
}

#[test]
fn small_texts(rt: HostRuntime) -> Result<(), Fail> {
    let era = TinyAsciiStr::<16>::try_from_utf8(b"reiwa")?;
    assert!(rt; era.as_str() == "reiwa");
    assert!(rt; era.as_bytes().first() == Some(&b'r'));
    assert!(rt; era.all_bytes()[5] == 0);
    assert!(rt; era.len() == 5);
    let short: TinyAsciiStr<8> = era.resize();
    assert!(rt; short.as_str() == "reiwa");
    Ok(())
}

#[test]
fn weekdays(rt: HostRuntime) {
    assert!(rt; Weekday::from_days_since_sunday(-1) == Weekday::Saturday);

    assert!(rt; Weekday::Sunday.number() == 7);

    let weekend = WeekdaySet::new(&[Weekday::Saturday, Weekday::Sunday]);
    assert!(rt; weekend.contains(Weekday::Sunday));

    let weeks = WeekInformation::new(Weekday::Monday, weekend);
    assert!(rt; weeks.weekend().next() == Some(Weekday::Saturday));
}

/// The examples of [`windows`].
fn show_windows(rt: &impl Abort) -> Option<()> {
    let year = Window::try_new(RataDie::new(738886), RataDie::new(739251))?;
    assert!(rt; year.first().to_i64_date() == 738886); // 2024-01-01
    assert!(rt; year.last().to_i64_date() == 739251); // 2024-12-31
    assert!(rt; year.ends().0.to_i64_date() == 738886);
    assert!(rt; year.contains(RataDie::new(738946)));
    assert!(rt; year.after(RataDie::new(738946))?.first().to_i64_date() == 738947);
    Some(())
}

#[test]
fn windows(rt: HostRuntime) {
    assert!(rt; show_windows(&rt).is_some());
}
