//! Calls on dates by plain values, for callers in other languages: conversion, fields, sums, differences, lists, lengths
//! of years and months, eras, weeks and Easter.
//!
//! A calendar is a code, a date is a day number (rata die), and the parts of a date come in a plain struct. The calls
//! keep nothing between them and, except those on books of holidays, take no memory. They check every argument and return
//! a code; 0 means success. The crates `icu_calendar_c` and `icu_calendar_wasm` export them. Start with [`date_of_day`]
//! and [`date_of_fields`].
//!
//! Calls on columns, such as [`dates_of_days`], choose the calendar once and do a call on one date at every place. Every
//! place has a code of its own, so an invalid date changes no other.
//!
//! Calls that list days, such as [`anniversaries`], fill a caller's column and say from which day the list goes on;
//! [`holidays`] says from which rule, too.
#![tactic(auto)]

mod books;
mod calendars;
mod calls;
mod codes;
mod column_calls;
mod columns;
mod dates;
mod day_texts;
mod days;
mod durations;
mod eras;
mod fields;
mod in_calendar;
mod lengths;
mod lists;
mod outcomes;
mod places;
mod questions;
mod repeated;
mod rooms;
mod rules;
mod single;
mod sources;
mod texts;
mod weeks;
mod yearly;
mod years;

pub use books::{CalendarBookFault, CalendarHoliday, holiday_name, holidays};
pub use calls::{add, date_of_day, date_of_fields, era_of_day, until};
pub use codes::tables_of;
pub use column_calls::{add_each, add_to_each, dates_of_days, dates_of_fields, until_each};
pub use dates::CalendarDate;
pub use day_texts::text_of_day;
pub use durations::CalendarDuration;
pub use fields::CalendarFields;
pub use lengths::{CalendarLengths, lengths_of_day};
pub use outcomes::{CalendarOutcome, NO_ROOM, UNKNOWN_YEARS};
pub use repeated::{CalendarOccurrence, recurrences};
pub use rooms::put;
pub use rules::{CalendarRuleFault, rule_days};
pub use texts::day_of_text;
pub use weeks::{CalendarWeek, weeks_of_days};
pub use yearly::anniversaries;
pub use years::{easter, week_of_year};
