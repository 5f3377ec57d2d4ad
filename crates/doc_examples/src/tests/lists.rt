//! The examples of the docs: lists of days.

use icu_calendar::holidays::{Book, holidays};
use icu_calendar::{DateDurationUnit, Missing, RataDie, Rule, Tables, Window};
use std::alloc::Global;
use std::process::Abort;

/// The examples of [`holidays_of_a_book`].
fn show_holidays_of_a_book(rt: &impl Abort, alloc: Global) -> Option<()> {
    let book = Book::try_read(alloc, b"weekday,Thanksgiving,gregorian,M11,4,thursday").ok()?;
    let year = Window::try_new(RataDie::new(738886), RataDie::new(739251))?;
    let mut days = holidays(&book, Tables::none(), year, 0);
    assert!(rt; days.next()?.day.to_i64_date() == 739218); // 2024-11-28
    assert!(rt; days.rest()?.window.first().to_i64_date() == 739219);

    let book = Book::try_read(alloc, b"weekday,Thanksgiving,gregorian,M11,4,thursday").ok()?;
    assert!(rt; book.len() == 1);
    assert!(rt; book.name(0).first() == Some(&b'T'));
    let rule = book.rule(0)?;

    let text = b"rule,Election Day,gregorian,,FREQ=YEARLY;INTERVAL=4,2024-11-05";
    let book = Book::try_read(alloc, text).ok()?;
    assert!(rt; book.len() == 1);
    let Some(rule) = book.recurrence(0) else {
        return None;
    };
    assert!(rt; rule.start.to_i64_date() == 739195);
    Some(())
}

#[test]
fn holidays_of_a_book(rt: HostRuntime) {
    assert!(rt; show_holidays_of_a_book(&rt, rt.alloc()).is_some());
}

/// The examples of [`Book`] on years and moves.
fn show_years_and_moves(rt: &impl Abort, alloc: Global) -> Option<()> {
    let book = Book::try_read(alloc, b"fixed,Juneteenth,gregorian,M06,19,exact,2021").ok()?;
    assert!(rt; book.len() == 1);
    assert!(rt; book.years(0).since == Some(2021));

    let text = b"fixed,Christmas,gregorian,M12,25,exact,,,,saturday-1 sunday+1";
    let book = Book::try_read(alloc, text).ok()?;
    assert!(rt; book.len() == 1);
    assert!(rt; book.moves(0).days[0] == Some(1)); // a Sunday
    Some(())
}

#[test]
fn years_and_moves_of_a_book(rt: HostRuntime) {
    assert!(rt; show_years_and_moves(&rt, rt.alloc()).is_some());
}

/// The examples of [`rules`].
fn show_rules(rt: &impl Abort) -> Option<()> {
    let monthly = Rule::try_new(DateDurationUnit::Months, 1, Missing::Constrain)?;
    assert!(rt; Rule::try_new(DateDurationUnit::Months, 0, Missing::Skip).is_none());
    Some(())
}

#[test]
fn rules(rt: HostRuntime) {
    assert!(rt; show_rules(&rt).is_some());
}
