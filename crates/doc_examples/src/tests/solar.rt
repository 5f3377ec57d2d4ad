//! The examples of the docs: calendars of the sun, but for ISO.

use super::over_any::solar::{
    show_buddhist, show_day, show_ethiopian, show_gregorian, show_indian, show_japanese,
    show_julian, show_persian,
};
use icu_calendar::rows::TableRows;
use icu_calendar::{
    Buddhist, Date, EraStartDate, Ethiopian, EthiopianEraStyle, Gregorian, Japanese, JapaneseEras,
    Persian, PersianCorrections, TinyAsciiStr, easter_gregorian, easter_julian, published,
};
use std::process::Abort;
use std::test::Fail;

#[test]
fn gregorian(rt: HostRuntime) -> Result<(), Fail> {
    let date = Date::try_new_gregorian(2024, 3, 1)?;
    assert!(rt; Date::try_new_gregorian(2023, 2, 29).is_err());
    let easter = easter_gregorian(2024);
    show_gregorian(&rt, Gregorian, date, easter)?;
    Ok(())
}

#[test]
fn buddhist_and_roc(rt: HostRuntime) -> Result<(), Fail> {
    let iso = Date::try_new_iso(2024, 3, 1)?;
    let date = Date::try_new_buddhist(2567, 3, 1)?;
    show_buddhist(&rt, Buddhist, date, iso);

    let date = Date::try_new_roc(113, 3, 1)?;
    show_day(&rt, &date);
    Ok(())
}

#[test]
fn julian_and_indian(rt: HostRuntime) -> Result<(), Fail> {
    let date = Date::try_new_julian(2021, 12, 19)?;
    let easter = easter_julian(2024);
    show_julian(&rt, date, easter);

    let date = Date::try_new_indian(1945, 12, 11)?;
    show_indian(&rt, date);
    Ok(())
}

#[test]
fn persian(rt: HostRuntime) -> Result<(), Fail> {
    let persian = Persian::new(PersianCorrections::none());
    let persian = Persian::new(published_years::persian_corrections());
    let persian = published::tables().persian();
    let persian = published_years::persian();
    let date = Date::try_new_persian(1402, 12, 11, persian)?;
    show_persian(&rt, persian, date)?;

    let corrections = PersianCorrections::try_new(&[1502])?;
    assert!(rt; corrections.years().len() == 1);
    assert!(rt; PersianCorrections::none().years().is_empty());

    let alloc = rt.alloc();
    let rows = TableRows::try_read(alloc, b"row persian 1502\n")?;
    let persian = rows.tables()?.persian();
    Ok(())
}

#[test]
fn coptic_and_ethiopian(rt: HostRuntime) -> Result<(), Fail> {
    let date = Date::try_new_coptic(1740, 6, 22)?;
    show_day(&rt, &date);

    let style = EthiopianEraStyle::AmeteMihret;
    let date = Date::try_new_ethiopian(style, 2016, 6, 22)?;
    show_ethiopian(&rt, date);

    let ethiopian = Ethiopian::new_with_era_style(EthiopianEraStyle::AmeteAlem);
    assert!(rt; ethiopian.era_style() == EthiopianEraStyle::AmeteAlem);
    Ok(())
}

#[test]
fn japanese_eras(rt: HostRuntime) -> Result<(), Fail> {
    let date = Date::try_new_japanese_with_calendar("heisei", 1, 1, 1, Japanese::new())?;
    let japanese = Japanese::with_eras(JapaneseEras::up_to_reiwa());
    show_japanese(&rt, japanese, date);
    Ok(())
}

/// The examples of [`later_japanese_era`].
fn show_later_japanese_era(rt: &impl Abort) -> Option<()> {
    let start = EraStartDate {
        year: 2040,
        month: 1,
        day: 1,
    };
    let eras = JapaneseEras::with_last_era(start, TinyAsciiStr::of_text(b"later"), 7)?;
    assert!(rt; eras.eras().count() == 6);

    assert!(rt; JapaneseEras::up_to_reiwa().eras().count() == 5);
    Some(())
}

#[test]
fn later_japanese_era(rt: HostRuntime) {
    assert!(rt; show_later_japanese_era(&rt).is_some());
}
