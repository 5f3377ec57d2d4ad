//! Holidays from a book: a CSV text with names and rules, and the days of a window that the rules name.
//!
//! [`Book::try_read`] reads a book, and [`holidays`] lists the days in order. [`HolidayRule`] says which days a rule
//! names.
//!
//! ```
//! let book = Book::try_read(alloc, b"weekday,Thanksgiving,gregorian,M11,4,thursday").ok()?;
//! let year = Window::try_new(RataDie::new(738886), RataDie::new(739251))?;
//! let mut days = holidays(&book, Tables::none(), year, 0);
//! assert!(rt; days.next()?.day.to_i64_date() == 739218); // 2024-11-28
//! ```

pub use cal_holidays::{
    Book, BookError, Holiday, HolidayRule, Holidays, Moves, Recurrence, Rest, RuleYears, SpanWeek,
    holidays,
};
