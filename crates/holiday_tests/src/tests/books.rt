//! The names and rules of books.

use super::FOUR;
use cal_holidays::{Book, HolidayRule, SpanWeek};
use cal_kinds::AnyCalendarKind;
use cal_types::{Leaping, Month, Weekday};

#[test]
fn a_book_has_a_name_and_a_rule_for_each_record(rt: HostRuntime) {
    let book = Book::try_read(rt.alloc(), FOUR).expect(&rt, "no book");
    assert_eq!(rt; book.len(), 4);
    assert!(rt; book.name(0) == b"Easter".as_slice());
    let easter = HolidayRule::Easter {
        julian: false,
        offset: 0,
    };
    assert!(rt; book.rule(0) == Some(easter));
    assert!(rt; book.name(1) == b"Pascha".as_slice());
    let pascha = HolidayRule::Easter {
        julian: true,
        offset: 0,
    };
    assert!(rt; book.rule(1) == Some(pascha));
    assert!(rt; book.name(2) == b"Thanksgiving".as_slice());
    let thanksgiving = HolidayRule::Nth {
        calendar: AnyCalendarKind::Gregorian,
        month: Month::new(11),
        nth: 4,
        weekday: Weekday::Thursday,
    };
    assert!(rt; book.rule(2) == Some(thanksgiving));
    assert!(rt; book.name(3) == b"Purim".as_slice());
    let purim = HolidayRule::Fixed {
        calendar: AnyCalendarKind::Hebrew,
        month: Month::new(6),
        day: 14,
        leaping: Leaping::Constrain,
    };
    assert!(rt; book.rule(3) == Some(purim));
}

#[test]
fn an_empty_text_is_a_book_without_holidays(rt: HostRuntime) {
    let book = Book::try_read(rt.alloc(), b"").expect(&rt, "no book");
    assert_eq!(rt; book.len(), 0);
}

#[test]
fn quotes_enclose_a_field_and_are_no_part_of_it(rt: HostRuntime) {
    let text = b"\"easter\",\"A, \"\"B\"\"\",julian,,\"-2\",\r\n".as_slice();
    let book = Book::try_read(rt.alloc(), text).expect(&rt, "no book");
    assert_eq!(rt; book.len(), 1);
    assert!(rt; book.name(0) == b"A, \"B\"".as_slice());
    let rule = HolidayRule::Easter {
        julian: true,
        offset: -2,
    };
    assert!(rt; book.rule(0) == Some(rule));
}

#[test]
fn a_rule_has_years_and_moves(rt: HostRuntime) {
    let text =
        b"span,Advent,gregorian,M11,27,-sunday,-12,2024,4,sunday+1 saturday-6\neaster,Easter,gregorian,,0,".as_slice();
    let book = Book::try_read(rt.alloc(), text).expect(&rt, "no book");
    assert_eq!(rt; book.len(), 2);
    let advent = HolidayRule::Span {
        calendar: AnyCalendarKind::Gregorian,
        month: Month::new(11),
        day: 27,
        week: SpanWeek::UpTo,
        weekday: Weekday::Sunday,
    };
    assert!(rt; book.rule(0) == Some(advent));
    let years = book.years(0);
    assert!(rt; years.since == Some(-12) && years.until == Some(2024) && years.every == 4);
    let moves = book.moves(0);
    assert!(rt; moves.days[0] == Some(1) && moves.days[6] == Some(-6) && moves.days[1].is_none());
    let years = book.years(1);
    assert!(rt; years.since.is_none() && years.until.is_none() && years.every == 1);
    assert!(rt; book.moves(1).days[0].is_none());
}

#[test]
fn a_recurrence_rule_has_a_text_and_a_start(rt: HostRuntime) {
    let text =
        b"rule,Election Day,gregorian,,\"FREQ=YEARLY;INTERVAL=4;BYMONTH=11;BYDAY=1TU\",2024-11-05,2024".as_slice();
    let book = Book::try_read(rt.alloc(), text).expect(&rt, "no book");
    assert_eq!(rt; book.len(), 1);
    assert!(rt; book.rule(0).is_none());
    match book.recurrence(0) {
        Some(recurrence) => {
            assert!(rt; recurrence.calendar == AnyCalendarKind::Gregorian);
            assert!(rt;
                recurrence.text == b"FREQ=YEARLY;INTERVAL=4;BYMONTH=11;BYDAY=1TU".as_slice()
            );
            assert!(rt; recurrence.start.to_i64_date() == 739195); // 2024-11-05
        }
        None => assert!(rt; false),
    }
    assert!(rt; book.years(0).since == Some(2024));
}
