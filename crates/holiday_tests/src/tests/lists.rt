//! The holidays in windows, in order, and the rest after each of them.

use super::{FOUR, window_of};
use cal_holidays::{Book, Rest, holidays};
use cal_tables::Tables;
use std::process::Abort;

/// Three rules that name the same day.
const ONE_DAY: &[u8] =
    b"easter,A,gregorian,,0,\nweekday,B,iso,M03,-1,sunday\nfixed,C,iso,M03,31,exact\n";

/// The last and the fifth Thursday of February, and the last Sunday of the thirteenth Coptic month.
const WEEKDAYS: &[u8] =
    b"weekday,A,iso,M02,-1,thursday\nweekday,B,iso,M02,5,thursday\nweekday,C,coptic,M13,-1,sunday\n";

/// New Year's Eve, and rules of calendars that end within a month.
const LAST_DAYS: &[u8] =
    b"weekday,A,hebrew,M01,1,monday\nweekday,B,chinese,M12,-1,monday\nfixed,C,iso,M12,31,exact\n";

/// Juneteenth since 2021, a feast that ended in 2021, and Inauguration Day, every fourth year.
const YEARS: &[u8] =
    b"fixed,A,gregorian,M06,19,exact,2021\nfixed,B,gregorian,M07,04,exact,,2021\nfixed,C,gregorian,M01,20,exact,1937,,4,sunday+1\n";

/// New Year's Day on the nearest weekday, and Independence Day of Israel.
const MOVED: &[u8] =
    b"fixed,A,gregorian,M01,01,exact,,,,saturday-1 sunday+1\nfixed,B,hebrew,M08,05,exact,5708,,,monday+1 friday-1 saturday-2\n";

/// The first Sunday of Advent, a day in Germany on the Wednesday up to November 22, and a week across a year's end.
const SPANS: &[u8] =
    b"span,A,gregorian,M11,27,sunday\nspan,B,gregorian,M11,22,-wednesday\nspan,C,iso,M12,31,monday,2023,2023\n";

/// The third, the last and the second Monday of July in the Julian calendar.
const FIRST_DAYS: &[u8] =
    b"weekday,A,julian,M07,3,monday\nweekday,B,julian,M07,-1,monday\nweekday,C,julian,M07,2,monday\n";

/// Asserts that the holidays in a window are these days and rules, without the rules before one on the first day. Asserts
/// that the rest after each of them continues with the next.
fn assert_listed(
    rt: &impl Abort,
    book: &Book,
    window: (i64, i64),
    first_rule: usize,
    expected: &[(i64, usize)],
) {
    let window = window_of(rt, window.0, window.1);
    let mut list = holidays(book, Tables::none(), window, first_rule);
    assert!(rt; list.rest() == Some(Rest { window, first_rule }));
    for (day, rule) in expected {
        match list.rest() {
            Some(rest) => {
                let mut again = holidays(book, Tables::none(), rest.window, rest.first_rule);
                match again.next() {
                    Some(item) => {
                        assert!(rt; item.day.to_i64_date() == *day && item.rule == *rule)
                    }
                    None => assert!(rt; false),
                }
            }
            None => assert!(rt; false),
        }
        match list.next() {
            Some(item) => assert!(rt; item.day.to_i64_date() == *day && item.rule == *rule),
            None => assert!(rt; false),
        }
    }
    assert!(rt; list.next().is_none());
    assert!(rt; list.rest().is_none());
}

#[test]
fn the_holidays_of_2024(rt: HostRuntime) {
    let book = Book::try_read(rt.alloc(), FOUR).expect(&rt, "no book");
    // 2024-03-24, 2024-03-31, 2024-05-05, 2024-11-28
    let year = [(738969, 3), (738976, 0), (739011, 1), (739218, 2)];
    assert_listed(&rt, &book, (738886, 739251), 0, &year);
    assert_listed(&rt, &book, (738886, 739251), 4, &year);
    assert_listed(&rt, &book, (738970, 738975), 0, &[]);
}

#[test]
fn a_book_without_holidays_lists_none(rt: HostRuntime) {
    let book = Book::try_read(rt.alloc(), b"").expect(&rt, "no book");
    assert_listed(&rt, &book, (738886, 739251), 0, &[]);
}

#[test]
fn rules_of_one_day_come_in_their_order(rt: HostRuntime) {
    let book = Book::try_read(rt.alloc(), ONE_DAY).expect(&rt, "no book");
    let all = [(738976, 0), (738976, 1), (738976, 2)];
    assert_listed(&rt, &book, (738946, 738976), 0, &all);
    assert_listed(&rt, &book, (738976, 738976), 1, &all[1..]);
    assert_listed(&rt, &book, (738976, 738976), 3, &[]);
}

#[test]
fn a_rest_names_the_rule_after_the_last_item(rt: HostRuntime) {
    let book = Book::try_read(rt.alloc(), ONE_DAY).expect(&rt, "no book");
    let day = window_of(&rt, 738976, 738976);
    let mut list = holidays(&book, Tables::none(), day, 1);
    assert_eq!(rt; list.next().expect(&rt, "no item").rule, 1);
    let rest = Rest {
        window: day,
        first_rule: 2,
    };
    assert!(rt; list.rest() == Some(rest));
    assert_eq!(rt; list.next().expect(&rt, "no item").rule, 2);
    assert!(rt; list.rest().is_none());
}

#[test]
fn the_last_weekday_of_a_month_may_be_the_fifth(rt: HostRuntime) {
    let book = Book::try_read(rt.alloc(), WEEKDAYS).expect(&rt, "no book");
    // February 29 of 2024, a Thursday
    assert_listed(&rt, &book, (738917, 738945), 0, &[(738945, 0), (738945, 1)]);
}

#[test]
fn the_last_valid_day_is_listed(rt: HostRuntime) {
    let book = Book::try_read(rt.alloc(), LAST_DAYS).expect(&rt, "no book");
    assert_listed(&rt, &book, (365242134, 365242134), 2, &[(365242134, 2)]);
}

#[test]
fn a_rule_holds_in_its_years(rt: HostRuntime) {
    let book = Book::try_read(rt.alloc(), YEARS).expect(&rt, "no book");
    // 2013-01-21, 2013-07-04, and in 2014 the fourth of July only
    assert_listed(
        &rt,
        &book,
        (734869, 735598),
        0,
        &[(734889, 2), (735053, 1), (735418, 1)],
    );
    // 2021-01-20, 2021-06-19, 2021-07-04, 2022-06-19
    let years = [(737810, 2), (737960, 0), (737975, 1), (738325, 0)];
    assert_listed(&rt, &book, (737791, 738520), 0, &years);
}

#[test]
fn a_day_moves_by_its_weekday(rt: HostRuntime) {
    let book = Book::try_read(rt.alloc(), MOVED).expect(&rt, "no book");
    // 2021-01-01, 2021-04-15 (a Saturday's), 2021-12-31 (the Friday before), 2022-05-05 (a Friday's), 2023-01-02
    let days = [
        (737791, 0),
        (737895, 1),
        (738155, 0),
        (738280, 1),
        (738522, 0),
    ];
    assert_listed(&rt, &book, (737791, 738600), 0, &days);
    assert_listed(&rt, &book, (738156, 738279), 0, &[]);
}

#[test]
fn a_weekday_lies_in_a_week_of_a_date(rt: HostRuntime) {
    let book = Book::try_read(rt.alloc(), SPANS).expect(&rt, "no book");
    // 2022-11-16, 2022-11-27, 2023-11-22, 2023-12-03, 2024-01-01 (counted from 2023-12-31), 2024-11-20, 2024-12-01
    let days = [
        (738475, 1),
        (738486, 0),
        (738846, 1),
        (738857, 0),
        (738886, 2),
        (739210, 1),
        (739221, 0),
    ];
    assert_listed(&rt, &book, (738156, 739251), 0, &days);
}

#[test]
fn a_weekday_of_the_month_of_the_first_valid_day_is_listed(rt: HostRuntime) {
    // the first valid day is the third Monday of a Julian July, which begins before it
    let book = Book::try_read(rt.alloc(), FIRST_DAYS).expect(&rt, "no book");
    let days = [(-365242499, 0), (-365242485, 1)];
    assert_listed(&rt, &book, (-365242499, -365242480), 0, &days);
}
