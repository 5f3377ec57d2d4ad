//! The examples of the docs: dates of the ISO calendar.

use super::over_any::iso::{show, show_days_and_sums, show_differences};
use icu_calendar::{Calendar, Date, Iso, RataDie};
use std::test::Fail;

#[test]
fn dates_and_lists(rt: HostRuntime) -> Result<(), Fail> {
    let date = Date::try_new_iso(2024, 3, 1)?;
    let earlier = Date::try_new_iso(2024, 2, 29)?;
    show(&rt, Iso, date, earlier)
}

#[test]
fn days_and_sums(rt: HostRuntime) -> Result<(), Fail> {
    let inner = Iso::new().from_rata_die(RataDie::new(738946));
    let date = Date::from_raw(inner, Iso::new());
    let of_inner = date;

    let mut date = Date::try_new_iso(2024, 1, 31)?;
    let start = date;
    let date = Date::try_new_iso(2024, 1, 31)?;
    let again = date;
    let date = Date::try_new_iso(1992, 9, 2)?;
    show_days_and_sums(&rt, date, of_inner, inner, start, again)?;
    Ok(())
}

#[test]
fn differences(rt: HostRuntime) -> Result<(), Fail> {
    let first = Date::try_new_iso(2024, 9, 30)?;
    let second = Date::try_new_iso(2024, 10, 31)?;
    let in_months = (first, second);

    let first = Date::try_new_iso(2024, 3, 1)?;
    let second = Date::try_new_iso(2024, 3, 8)?;
    show_differences(&rt, in_months, (first, second));
    Ok(())
}

#[test]
fn weeks(rt: HostRuntime) -> Result<(), Fail> {
    let week = Date::try_new_iso(2024, 12, 30)?.week_of_year();
    assert!(rt; week.week_number == 1 && week.iso_year == 2025);
    Ok(())
}
