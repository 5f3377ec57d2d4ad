//! The examples of the docs: Chinese and Korean calendars.

use icu_calendar::east_asian::Rules;
use icu_calendar::rows::TableRows;
use icu_calendar::{
    AnyCalendar, AnyCalendarKind, AsCalendar, Calendar, China, ChineseTraditional, CyclicYear,
    Date, DateNewError, EastAsianTable, EastAsianTraditional, Korea, KoreanTraditional, Month,
    RataDie, Side, Tables, YearInfo, laws, mean_year, published, qing_year,
};
use std::process::Abort;
use std::test::Fail;

/// What is shown of a calendar.
#[derive(Clone, Copy)]
enum Example {
    Chinese,
    Korean,
    Row,
    Computed,
    Kept,
}

/// The example of a year in the cycle.
fn show_cycle(rt: &impl Abort, year: YearInfo) -> Option<()> {
    assert!(rt; year.cyclic()?.year == 41); // of 2024
    Some(())
}

/// The examples of a calendar, and of a date. Returns a date of the example.
fn show<A: AsCalendar + Copy>(
    rt: &impl Abort,
    calendar: A,
    date: &Date<A>,
    example: Example,
) -> Result<Date<A>, DateNewError>
where
    A::Calendar: Calendar<Year = CyclicYear>,
{
    match example {
        Example::Chinese => {
            assert!(rt; date.to_rata_die().to_i64_date() == 738601); // 2023-03-22
            let chinese = calendar;
            let new_year = Date::try_new(2023.into(), Month::new(1), 1, chinese)?;
            assert!(rt; new_year.to_rata_die().to_i64_date() == 738542); // 2023-01-22

            let date = Date::from_rata_die(RataDie::new(738542), chinese);
            assert!(rt; date.day_of_year().0 == 1); // 2023-01-22

            let date = Date::from_rata_die(RataDie::new(738946), chinese);
            assert!(rt; date.cyclic_year().year == 41); // of 2024
            assert!(rt; show_cycle(rt, date.year()).is_some());
            Ok(date)
        }
        Example::Korean => {
            assert!(rt; date.to_rata_die().to_i64_date() == 740019); // 2027-02-07
            let korean = calendar;
            let new_year = Date::try_new(2027.into(), Month::new(1), 1, korean)?;
            assert!(rt; new_year.to_rata_die().to_i64_date() == 740019); // 2027-02-07, a day after China's

            let date = Date::from_rata_die(RataDie::new(740019), korean);
            assert!(rt; date.day_of_year().0 == 1); // 2027-02-07
            Ok(date)
        }
        Example::Row => {
            let chinese = calendar;
            let date = Date::try_new(1912.into(), Month::new(1), 30, chinese)?;
            assert!(rt; date.to_rata_die().to_i64_date() == 698055); // 1912-03-18

            let date = Date::from_rata_die(RataDie::new(698055), chinese);
            assert!(rt; date.day_of_month().0 == 30); // 1912-03-18
            Ok(date)
        }
        Example::Computed => {
            let computed = calendar;
            let date = Date::from_rata_die(RataDie::new(738946), computed);
            assert!(rt; date.year().extended_year() == 2024);
            Ok(date)
        }
        Example::Kept => {
            let before = calendar;
            let stored = Date::try_new(1911.into(), Month::new(9), 1, before)?;
            assert!(rt; stored.to_rata_die() == date.to_rata_die());
            Ok(stored)
        }
    }
}

/// The same over any rules, which costs a tenth of naming them.
fn show_in<R: Rules + Copy>(
    rt: &impl Abort,
    calendar: EastAsianTraditional<R>,
    date: &Date<EastAsianTraditional<R>>,
    example: Example,
) -> Result<Date<EastAsianTraditional<R>>, DateNewError> {
    show(rt, calendar, date, example)
}

#[test]
fn chinese_years(rt: HostRuntime) -> Result<(), Fail> {
    let chinese = published::chinese();
    let date = Date::try_new_chinese_traditional(2023, Month::leap(2), 1, chinese)?;

    let chinese = published_years::chinese();
    show_in(&rt, chinese, &date, Example::Chinese)?;
    let chinese = published::tables().chinese();
    let chinese = ChineseTraditional::new(published::china_table());
    show_in(&rt, chinese, &date, Example::Chinese)?;

    let computed = ChineseTraditional::new(EastAsianTable::none(Side::China));
    let published = ChineseTraditional::new(published::china_table());
    assert!(rt; published::china_table().rows().len() == 188); // 1912 to 2099

    let computed = EastAsianTraditional(China::new(EastAsianTable::none(Side::China)));
    show_in(&rt, computed, &date, Example::Computed)?;
    Ok(())
}

#[test]
fn korean_years(rt: HostRuntime) -> Result<(), Fail> {
    let korean = published::korean();
    let date = Date::try_new_korean_traditional(2027, Month::new(1), 1, korean)?;

    let korean = published_years::korean();
    show_in(&rt, korean, &date, Example::Korean)?;
    let korean = published::tables().korean();
    let korean = KoreanTraditional::new(published::korea_table());
    show_in(&rt, korean, &date, Example::Korean)?;
    assert!(rt; published::korea_table().side() == Side::Korea);

    let computed = EastAsianTraditional(Korea::new(EastAsianTable::none(Side::Korea)));
    show_in(&rt, computed, &date, Example::Computed)?;
    Ok(())
}

#[test]
fn years_of_rows(rt: HostRuntime) -> Result<(), Fail> {
    let alloc = rt.alloc();
    let rows = TableRows::try_read(alloc, b"row china 1912 698026 lslslslslsls 0\n")?;
    assert!(rt; rows.china().len() == 1);
    let tables = rows.tables()?;
    let chinese = rows.tables()?.chinese();
    let date = Date::try_new_chinese_traditional(1912, Month::new(1), 30, chinese)?;
    show_in(&rt, chinese, &date, Example::Row)?;

    let rows = TableRows::try_read(alloc, b"row korea 1912 698026 lslslslslsls 0\n")?;
    assert!(rt; rows.korea().len() == 1);
    Ok(())
}

#[test]
fn calendars_of_a_kind(rt: HostRuntime) {
    let calendar = AnyCalendar::new(AnyCalendarKind::Chinese, published_years::tables());
    assert!(rt; calendar.kind() == AnyCalendarKind::Chinese);

    let computed = AnyCalendar::new(AnyCalendarKind::Chinese, Tables::none());
    let published = AnyCalendar::new(AnyCalendarKind::Chinese, published::tables());
}

#[test]
fn stored_dates(rt: HostRuntime) -> Result<(), Fail> {
    let none = EastAsianTable::none(Side::China);
    let before = ChineseTraditional::new(none);
    let date = Date::try_new_chinese_traditional(1911, Month::new(9), 1, before)?;
    let stored = show_in(&rt, before, &date, Example::Kept)?;
    let longer = ChineseTraditional::new(none.lengthened(published::china_table().rows())?);
    assert!(rt; !laws::east_asian_date_kept(&stored, longer).moved);
    Ok(())
}

/// The examples of [`computed_years`].
fn show_computed_years(rt: &impl Abort) -> Option<()> {
    let year = qing_year(1900)?;
    assert!(rt; year.new_year().to_i64_date() == 693626); // 1900-01-31
    assert!(rt; year.leap_month() == Some(9));

    let year = mean_year(28800000, 2023); // 8 hours from Greenwich
    assert!(rt; year.related_iso() == 2023);
    Some(())
}

#[test]
fn computed_years(rt: HostRuntime) {
    assert!(rt; show_computed_years(&rt).is_some());
}
