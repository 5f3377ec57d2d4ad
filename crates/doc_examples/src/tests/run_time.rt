//! The examples of the docs: calendars that are chosen at run time.

use icu_calendar::anniversary::Anniversaries;
use icu_calendar::{
    AnyCalendar, AnyCalendarKind, AsCalendar, Calendar, Date, Hebrew, Leaping, Month, RataDie, Ref,
    Window, anniversaries, published,
};
use std::process::Abort;
use std::test::Fail;

/// A converted date, and the birthdays of a list.
fn show<K: Calendar + AsCalendar<Calendar = K>>(
    rt: &impl Abort,
    converted: &Date<Ref<'_, K>>,
    mut days: Anniversaries<K>,
) -> Option<()> {
    assert!(rt; converted.day_of_month().0 == 21); // of Adar I

    assert!(rt; days.next()?.to_i64_date() == 738582); // 2023-03-03
    assert!(rt; days.next()?.to_i64_date() == 738935); // 2024-02-19
    assert!(rt; days.next()?.to_i64_date() == 739320); // 2025-03-10
    assert!(rt; days.rest()?.first().to_i64_date() == 739321);
    Some(())
}

/// The examples of birthdays, and of a converted date.
fn show_with_birthdays<'t>(
    rt: &impl Abort,
    converted: &Date<Ref<'_, AnyCalendar<'t>>>,
) -> Option<()> {
    let window = Window::try_new(RataDie::new(738521), RataDie::new(739616))?;
    let hebrew = AnyCalendar::Hebrew(Hebrew);
    let mut days = anniversaries(hebrew, Month::leap(5), 10, Leaping::Constrain, window).ok()?;
    show(rt, converted, days)
}

#[test]
fn dates_and_birthdays(rt: HostRuntime) -> Result<(), Fail> {
    let date = Date::try_new_iso(2024, 3, 1)?.to_any();
    let hebrew = AnyCalendar::Hebrew(Hebrew);
    let converted = date.convert_any(&hebrew);
    assert!(rt; show_with_birthdays(&rt, &converted).is_some());
    Ok(())
}

/// The examples of [`kinds`].
fn show_kinds(rt: &impl Abort) -> Option<()> {
    let kind = AnyCalendarKind::from_program_name(b"hebrew")?;
    let hebrew = AnyCalendar::new(kind, published::tables());
    assert!(rt; hebrew.kind() == kind);

    let kind = AnyCalendarKind::from_program_name(b"hebrew")?;
    assert!(rt; kind == AnyCalendarKind::Hebrew);

    assert!(rt; AnyCalendar::Hebrew(Hebrew).kind() == AnyCalendarKind::Hebrew);
    Some(())
}

#[test]
fn kinds(rt: HostRuntime) {
    assert!(rt; show_kinds(&rt).is_some());
}
