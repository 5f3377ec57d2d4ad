//! Uses of `icu_calendar`, as its callers write them, and a program that prints them.
#![tactic(auto)]

mod almanac;
mod coming_days;
mod every_calendar;
mod feasts;
mod mean_rules;
mod stored_dates;
mod uses;

use almanac::new_year_by_rows;
use coming_days::{next_birthdays, paydays, reunions};
use every_calendar::print_every_calendar;
use feasts::{hebrew_text_in_gregorian, next_easter};
use icu_calendar::east_asian::Rules as EastAsianRules;
use icu_calendar::hijri::Rules as HijriRules;
use icu_calendar::rows::TableRows;
use icu_calendar::{
    AnyCalendar, AsCalendar, Calendar, Date, DateDuration, EastAsianTraditional, Gregorian, Hebrew,
    Hijri, HijriRow, HijriTable, Iso, Julian, LengthenFault, RataDie, Rebased, Window,
};
use mean_rules::MeanRules;
use std::{fmt, io};
use stored_dates::updated_date;
use uses::{age, date_of_form, in_chosen_calendar, is_earlier, months_later, there_and_back};

const GREGORIAN: AnyCalendar<'static> = AnyCalendar::Gregorian(Gregorian);

// What is printed of dates is printed by functions over any calendar.

/// A date, and what it is.
fn print_date<A: AsCalendar>(rt: &HostRuntime, what: &str, date: &Date<A>) -> io::Result<()>
where
    A::Calendar: Calendar,
{
    println!(rt; "{what}: {date:?}")
}

/// A date or the fault in its place, and what it is.
fn print_answer<A: AsCalendar, E: fmt::Display + Drop>(
    rt: &HostRuntime,
    what: &str,
    answer: Result<Date<A>, E>,
) -> io::Result<()>
where
    A::Calendar: Calendar,
{
    match answer {
        Ok(date) => print_date(rt, what, &date),
        Err(fault) => println!(rt; "{what}: {fault}"),
    }
}

/// A date with its weekday and the day of its year, behind a number and what it is.
fn print_in_full<A: AsCalendar>(
    rt: &HostRuntime,
    number: u32,
    what: &str,
    date: &Date<A>,
) -> io::Result<()>
where
    A::Calendar: Calendar,
{
    let (day, days) = (date.day_of_year().0, date.days_in_year());
    println!(rt;
        "{number} {what}: {date:?}, a {:?}, day {day} of {days}",
        date.weekday()
    )
}

/// The same of a date of any calendar. What hands over `AnyCalendar` is dear to prove, so one function prints such dates.
fn print_any(
    rt: &HostRuntime,
    number: u32,
    what: &str,
    date: &Date<AnyCalendar<'static>>,
) -> io::Result<()> {
    print_in_full(rt, number, what, date)
}

/// A date of any calendar, or the fault in its place.
fn print_any_answer<E: fmt::Display + Drop>(
    rt: &HostRuntime,
    number: u32,
    what: &str,
    answer: Result<Date<AnyCalendar<'static>>, E>,
) -> io::Result<()> {
    match answer {
        Ok(date) => print_any(rt, number, what, &date),
        Err(fault) => println!(rt; "{number} {what}: {fault}"),
    }
}

/// A form that is filled in rightly, and one that isn't.
fn print_forms(rt: &HostRuntime) -> io::Result<()> {
    for &day in &[29u8, 30] {
        let made = date_of_form(2020, 2, day, GREGORIAN);
        print_any_answer(rt, u32::from(day), "February 2020", made)?;
    }
    Ok(())
}

/// 2020-02-29 in the Julian calendar.
fn print_chosen_calendar(rt: &HostRuntime) -> io::Result<()> {
    let iso = Date::from_rata_die(RataDie::new(737484), Iso);
    let julian = in_chosen_calendar(&iso, AnyCalendar::Julian(Julian));
    print_date(rt, "day 737484", &iso)?;
    print_any(rt, 737484, "in the chosen calendar", &julian)
}

/// One month and two months after 2020-01-31.
fn print_recurrence(rt: &HostRuntime) -> io::Result<()> {
    for &months in &[1, 2] {
        let first = Date::from_rata_die(RataDie::new(737455), Gregorian);
        let later = months_later(first.to_any(), months);
        print_any_answer(rt, months, "months after the first", later)?;
    }
    Ok(())
}

/// The age on 2021-02-28 of who was born on 2000-02-29, and the way back.
fn print_age(rt: &HostRuntime) -> io::Result<()> {
    let birth = Date::from_rata_die(RataDie::new(730179), Gregorian);
    let today = Date::from_rata_die(RataDie::new(737849), Gregorian);
    let DateDuration {
        years,
        months,
        days,
        ..
    } = age(&birth, &today);
    println!(rt; "age: {years} years, {months} months and {days} days")?;
    print_date(rt, "there and back", &there_and_back(birth, &today))
}

/// Whether a date is earlier than another one.
fn print_earlier<A: AsCalendar, B: AsCalendar>(
    rt: &HostRuntime,
    first: &Date<A>,
    second: &Date<B>,
) -> io::Result<()>
where
    A::Calendar: Calendar,
    B::Calendar: Calendar,
{
    let order = is_earlier(first, second);
    println!(rt; "{first:?} is earlier than {second:?}: {order}")
}

/// The last Julian and the first Gregorian day of Britain.
fn print_order(rt: &HostRuntime) -> io::Result<()> {
    let last = Date::from_rata_die(RataDie::new(639796), Julian);
    let first = Date::from_rata_die(RataDie::new(639797), Gregorian);
    print_earlier(rt, &last, &first)
}

/// The day of a text, and why there is none.
fn print_texts(rt: &HostRuntime) -> io::Result<()> {
    for &text in &["2024-03-01[u-ca=hebrew]", "2024-03-01[u-ca=gregory]"] {
        print_answer(rt, text, hebrew_text_in_gregorian(text))?;
    }
    Ok(())
}

/// Two Easters.
fn print_easters<A: AsCalendar>(
    rt: &HostRuntime,
    first: &Date<A>,
    second: &Date<A>,
) -> io::Result<()>
where
    A::Calendar: Calendar,
{
    println!(rt; "Easter: {first:?}, and then {second:?}")
}

/// The next Easter after 2024-03-01, and the next one after that.
fn print_feasts(rt: &HostRuntime) -> io::Result<()> {
    let first = next_easter(&Date::from_rata_die(RataDie::new(738946), Gregorian));
    print_easters(rt, &first, &next_easter(&first))
}

/// The new year of 2024, 738926, under some rules of the Chinese calendar.
fn print_under_rules<R: EastAsianRules + Copy>(
    rt: &HostRuntime,
    what: &str,
    rules: R,
) -> io::Result<()> {
    let date = Date::from_rata_die(RataDie::new(738926), EastAsianTraditional(rules));
    print_date(rt, what, &date)
}

/// The same under a caller's own rules.
fn print_own_rules(rt: &HostRuntime) -> io::Result<()> {
    print_under_rules(rt, "under rules of its own", MeanRules::new(28_800_000))
}

/// A day as a date of ISO.
fn print_day(rt: &HostRuntime, what: &str, day: RataDie) -> io::Result<()> {
    print_date(rt, what, &Date::from_rata_die(day, Iso))
}

/// The birthdays after 2023-01-01 of someone born on 10 Adar I, of which ICU 78.2 and hebcal 4.31 have the days.
fn print_birthdays(rt: &HostRuntime) -> io::Result<()> {
    let Some(window) = Window::try_new(RataDie::new(738521), RataDie::new(741442)) else {
        return Ok(());
    };
    for day in next_birthdays(rt.alloc(), 10, window)? {
        print_day(rt, "birthday", day)?;
    }
    Ok(())
}

/// The paydays of the first half of 2024, from 2024-01-31 on.
fn print_paydays(rt: &HostRuntime) -> io::Result<()> {
    let Some(window) = Window::try_new(RataDie::new(738886), RataDie::new(739067)) else {
        return Ok(());
    };
    let first = Date::from_rata_die(RataDie::new(738916), Iso);
    for payday in paydays(rt.alloc(), &first, window)? {
        print_day(rt, "payday", payday.day)?;
    }
    Ok(())
}

/// The reunions up to 2030-12-31, from 10 Adar I 5782 on, which is 2022-02-11: in 5784 and 5790 the year has the month.
fn print_reunions(rt: &HostRuntime) -> io::Result<()> {
    let Some(window) = Window::try_new(RataDie::new(738156), RataDie::new(741442)) else {
        return Ok(());
    };
    let first = Date::from_rata_die(RataDie::new(738197), Hebrew);
    for reunion in reunions(rt.alloc(), &first, window)? {
        print_day(rt, "reunion", reunion.day)?;
    }
    Ok(())
}

/// The years 1912 to 1914 as China published them.
const PUBLISHED: &[u8] = b"# rows of an almanac
row china 1912 698026 lslsslssllsl 0
row china 1913 698380 llslsslsslsl 0
row china 1914 698734 llslslslslssl 6
";

/// The Chinese new year of 1914 by the published rows and by computed years; rows that don't meet the year behind them;
/// and a line that is no row.
fn print_new_years(rt: &HostRuntime) -> io::Result<()> {
    let missing: &[u8] = b"row china 1912 698026 lslsslssllss 0";
    for &text in &[PUBLISHED, b"", missing, b"row china 1914"] {
        let new_year = new_year_by_rows(rt.alloc(), text, 1914);
        print_answer(rt, "new year of 1914", new_year)?;
    }
    Ok(())
}

/// The year 1445 of Umm al-Qura, from 2023-07-19 on.
const YEAR_1445: HijriRow = HijriRow {
    extended_year: 1445,
    long_months: 0xd56,
    start_offset: 5,
};

/// The same year, and the next one.
const TWO_YEARS: &[u8] = b"row hijri 1445 738720 sllslslslsll
row hijri 1446 739075 sllslslslsls
";

/// Two days that were stored while the year 1445 alone was known, once the next year is; a text with another year 1445;
/// and one whose last year ends a day late.
fn print_stored_dates(rt: &HostRuntime) -> io::Result<()> {
    let rows = [YEAR_1445];
    let Ok(table) = HijriTable::try_new(&rows) else {
        return Ok(());
    };
    let other: &[u8] = b"row hijri 1445 738720 lslslslslsll";
    let late: &[u8] = b"row hijri 1445 738720 sllslslslsll
row hijri 1446 739075 sllslslslsll";
    let (first, second) = (RataDie::new(738749), RataDie::new(739105));
    for &(text, day) in &[
        (TWO_YEARS, first),
        (TWO_YEARS, second),
        (other, first),
        (late, first),
    ] {
        match TableRows::try_read(rt.alloc(), text) {
            Ok(rows) => print_stored_date(rt, &table, &rows, day)?,
            Err(fault) => println!(rt; "stored day: {fault}")?,
        }
    }
    Ok(())
}

/// The date of a day under some rules of the Hijri calendar.
fn date_under<R: HijriRules + Copy>(day: RataDie, calendar: Hijri<R>) -> Date<Hijri<R>> {
    Date::from_rata_die(day, calendar)
}

/// A day that was stored under a table, once rows have arrived.
fn print_stored_date(
    rt: &HostRuntime,
    table: &HijriTable<'_>,
    rows: &TableRows,
    day: RataDie,
) -> io::Result<()> {
    let stored = date_under(day, Hijri::new_umm_al_qura(*table));
    print_update(rt, &stored, updated_date(&stored, table, rows))
}

/// A stored date, the date of its day under the longer table, and whether it has moved; or why there is no longer table.
fn print_update<R: HijriRules, S: HijriRules>(
    rt: &HostRuntime,
    stored: &Date<Hijri<R>>,
    updated: Result<Rebased<Hijri<S>>, LengthenFault>,
) -> io::Result<()> {
    match updated {
        Ok(Rebased { date, moved }) => println!(rt; "stored {stored:?}: {date:?}, moved: {moved}"),
        Err(fault) => println!(rt; "stored {stored:?}: {fault}"),
    }
}

fn main(rt: HostRuntime) -> io::Result<()> {
    print_forms(&rt)?;
    print_chosen_calendar(&rt)?;
    print_recurrence(&rt)?;
    print_age(&rt)?;
    print_order(&rt)?;
    print_every_calendar(&rt)?;
    print_texts(&rt)?;
    print_feasts(&rt)?;
    print_own_rules(&rt)?;
    print_birthdays(&rt)?;
    print_paydays(&rt)?;
    print_reunions(&rt)?;
    print_new_years(&rt)?;
    print_stored_dates(&rt)
}
