//! A date of each calendar, made by that calendar's constructor, compared with another day and shown in ISO.

use icu_calendar::east_asian::Rules as EastAsianRules;
use icu_calendar::hijri::Rules as HijriRules;
use icu_calendar::{
    AsCalendar, Calendar, ChineseTraditional, Date, EastAsianTable, EastAsianTraditional,
    EthiopianEraStyle, Hijri, HijriTable, Iso, Japanese, KoreanTraditional, Month, Persian,
    PersianCorrections, RataDie, Side, TabularAlgorithmEpoch, TabularAlgorithmLeapYears,
};
use std::cmp::Ordering;
use std::{fmt, io};

/// A date, the same day in another calendar, and how it stands to another day.
fn print_shown<A: AsCalendar, B: AsCalendar>(
    rt: &HostRuntime,
    date: &Date<A>,
    shown: &Date<B>,
    order: Ordering,
) -> io::Result<()>
where
    A::Calendar: Calendar,
    B::Calendar: Calendar,
{
    println!(rt; "{date:?} is {shown:?}: {order:?}")
}

/// A date that was made, the same day in ISO, and how it stands to another day; or why there is none.
fn print_made<A: AsCalendar, E: fmt::Display + Drop>(
    rt: &HostRuntime,
    made: Result<Date<A>, E>,
    day: &Date<Iso>,
) -> io::Result<()>
where
    A::Calendar: Calendar,
{
    match made {
        Ok(date) => {
            let iso = date.to_calendar(Iso);
            print_shown(rt, &date, &iso, iso.cmp(day))
        }
        Err(fault) => println!(rt; "{fault}"),
    }
}

/// 2024-03-01 in the calendars with Gregorian months.
fn print_gregorian(rt: &HostRuntime, day: &Date<Iso>) -> io::Result<()> {
    print_made(rt, Date::try_new_iso(2024, 3, 1), day)?;
    print_made(rt, Date::try_new_gregorian(2024, 3, 1), day)?;
    print_made(rt, Date::try_new_buddhist(2567, 3, 1), day)?;
    print_made(rt, Date::try_new_roc(113, 3, 1), day)?;
    let japanese = Japanese::new();
    let in_reiwa = Date::try_new_japanese_with_calendar("reiwa", 6, 3, 1, japanese);
    print_made(rt, in_reiwa, day)
}

/// The same day in the calendars with other solar months.
fn print_solar(rt: &HostRuntime, day: &Date<Iso>) -> io::Result<()> {
    print_made(rt, Date::try_new_julian(2024, 2, 17), day)?;
    print_made(rt, Date::try_new_coptic(1740, 6, 22), day)?;
    let style = EthiopianEraStyle::AmeteMihret;
    print_made(rt, Date::try_new_ethiopian(style, 2016, 6, 22), day)?;
    print_made(rt, Date::try_new_indian(1945, 12, 11), day)?;
    let persian = Persian::new(PersianCorrections::none());
    print_made(rt, Date::try_new_persian(1402, 12, 11, persian), day)
}

/// 20 Sha'ban 1445 under some rules of the Hijri calendar.
fn print_under<R: HijriRules + Copy>(
    rt: &HostRuntime,
    calendar: Hijri<R>,
    day: &Date<Iso>,
) -> io::Result<()> {
    let made = Date::try_new_hijri_with_calendar(1445, 8, 20, calendar);
    print_made(rt, made, day)
}

/// The same day in the calendars of the moon alone.
fn print_hijri(rt: &HostRuntime, day: &Date<Iso>) -> io::Result<()> {
    for &leap_years in &[
        TabularAlgorithmLeapYears::TypeII,
        TabularAlgorithmLeapYears::TypeI,
    ] {
        let tabular = Hijri::new_tabular(leap_years, TabularAlgorithmEpoch::Friday);
        print_under(rt, tabular, day)?;
    }
    print_under(rt, Hijri::new_umm_al_qura(HijriTable::none()), day)
}

/// A date that was made under some rules of the Chinese or the Korean calendar, or why there is none.
fn print_east_asian<R: EastAsianRules, E: fmt::Display + Drop>(
    rt: &HostRuntime,
    made: Result<Date<EastAsianTraditional<R>>, E>,
    day: &Date<Iso>,
) -> io::Result<()> {
    print_made(rt, made, day)
}

/// The same day in the Hebrew calendar, and older days in the Chinese and the Korean one.
fn print_lunisolar(rt: &HostRuntime, day: &Date<Iso>) -> io::Result<()> {
    print_made(rt, Date::try_new_hebrew_v2(5784, Month::leap(5), 21), day)?;
    let chinese = ChineseTraditional::new(EastAsianTable::none(Side::China));
    let leap_month = Date::try_new_chinese_traditional(1900, Month::leap(8), 1, chinese);
    print_east_asian(rt, leap_month, day)?;
    let korean = KoreanTraditional::new(EastAsianTable::none(Side::Korea));
    let last_day = Date::try_new_korean_traditional(1911, Month::new(12), 30, korean);
    print_east_asian(rt, last_day, day)
}

/// Prints a date of each calendar, and the error of a month that doesn't exist.
pub fn print_every_calendar(rt: &HostRuntime) -> io::Result<()> {
    let day = Date::from_rata_die(RataDie::new(738946), Iso);
    print_gregorian(rt, &day)?;
    print_solar(rt, &day)?;
    print_lunisolar(rt, &day)?;
    print_hijri(rt, &day)?;
    print_made(rt, Date::try_new_iso(2024, 0, 1), &day)
}
