//! The examples of the docs: dates of the Hebrew calendar.

use super::over_any::hebrew::{show, show_counted};
use icu_calendar::{Date, Hebrew, Month};
use std::test::Fail;

#[test]
fn dates(rt: HostRuntime) -> Result<(), Fail> {
    let date = Date::try_new_hebrew_v2(5784, Month::leap(5), 21)?;
    assert!(rt; Date::try_new_hebrew_v2(5783, Month::leap(5), 21).is_err());
    let iso = Date::try_new_iso(2024, 3, 1)?;
    show(&rt, Hebrew, date, iso)
}

#[test]
fn counted_pointers(rt: HostRuntime) {
    show_counted(&rt, Hebrew);
}
