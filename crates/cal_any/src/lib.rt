//! A calendar chosen at run time.
//!
//! [`AnyCalendar`] holds one of the calendars, and [`AnyCalendar::new`] creates the calendar of a kind.
#![tactic(auto)]

mod any_calendar;
mod any_calendar_new;
mod date_questions;
mod kind_held;

pub use any_calendar::{AnyCalendar, AnyDateInner};
pub use cal_kinds::AnyCalendarKind;
