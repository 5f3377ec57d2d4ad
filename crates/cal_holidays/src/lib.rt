//! Holidays from a book: a CSV text with the name and the rule of one holiday in each record.
//!
//! [`Book::try_read`] reads a book, and [`holidays()`] lists the days of a window that its rules name. [`HolidayRule`]
//! says which days a rule names.
//!
//! A book has no header. A record has six to ten fields: the kind of its rule, the name of the holiday, the calendar, the
//! month, a value, and a last field; then the years in which the rule is kept, and the moves of its days.
//!
//! | Kind | Name | Calendar | Month | Value | Last |
//! |---|---|---|---|---|---|
//! | `fixed` | a name | a calendar | a month | the day, 1 to 31, in one or two digits | `exact` or `constrain` |
//! | `easter` | a name | `gregorian` or `julian` | empty | days after Easter, -400 to 400 | empty |
//! | `weekday` | a name | a calendar | a month | `1` to `5`, or `-1` for the last | `monday` to `sunday` |
//! | `span` | a name | a calendar | a month | the day, 1 to 31, in one or two digits | `monday` to `sunday`, or with a `-` before it |
//! | `rule` | a name | a calendar | empty | a recurrence rule for the calendar | the day on which it starts, as an ISO date `YYYY-MM-DD` |
//!
//! The other fields may be empty or left out:
//!
//! - 7 and 8, the first and the last year in which the rule is kept: an optional `-` and one to six digits. The year is
//!   the extended year of the date in the rule's calendar, or the year of Easter.
//! - 9, the years from one such year to the next, counted from field 7, which it needs: 1 to 400, in one to three digits.
//! - 10, by how many days the holiday moves if the rule's own day falls on a weekday: words such as `saturday-1 sunday+1`,
//!   joined by single spaces, with a sign and a digit up to 6, for each weekday at most once.
//!
//! A rule's own day must be a valid day, also if it moves, and so must be the date of `span`. The own days of a recurrence
//! rule are its occurrences (RFC 5545, 3.3.10; RFC 7529, 4); their years are those of fields 7 to 9. Quotes enclose a rule
//! with commas.
//!
//! A name is 1 to 64 printable ASCII characters. A calendar is a name that
//! [`AnyCalendarKind::from_program_name`](cal_kinds::AnyCalendarKind::from_program_name) reads, such as `iso` or
//! `hebrew`. A month is the code of a month that occurs in some year of the calendar, such as `M01` or `M05L`.
//!
//! ```text
//! easter,Easter,gregorian,,0,
//! easter,Pascha,julian,,0,
//! weekday,Thanksgiving,gregorian,M11,4,thursday
//! fixed,Purim,hebrew,M06,14,constrain
//! fixed,Juneteenth,gregorian,M06,19,exact,2021,,,saturday-1 sunday+1
//! span,Advent,gregorian,M11,27,sunday
//! rule,Election Day,gregorian,,"FREQ=YEARLY;INTERVAL=4;BYMONTH=11;BYDAY=TU;BYMONTHDAY=2,3,4,5,6,7,8",2024-11-05
//! ```
#![tactic(auto)]

mod book;
mod book_holidays;
mod book_rules;
mod easter;
mod entry;
mod fields;
mod first;
mod first_observed;
mod first_repeated;
mod holiday_rule;
mod kind_months;
mod merged;
mod months;
mod moves;
mod nth;
mod observance;
mod own_days;
mod reading;
mod record_moves;
mod record_starts;
mod record_words;
mod record_years;
mod recurrence;
mod recurring_rule;
mod rest;
mod rule_years;
mod rules;
mod spans;
mod unread;
mod valid_days;
mod weekdays;

pub use book::{Book, BookError, invalid_field};
pub use book_holidays::{Holidays, holidays};
pub use holiday_rule::{HolidayRule, SpanWeek};
pub use merged::Holiday;
pub use moves::Moves;
pub use recurrence::Recurrence;
pub use rest::Rest;
pub use rule_years::RuleYears;
