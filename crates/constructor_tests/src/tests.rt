//! Dates of each calendar's own fields, and the kinds of calendars.

mod any_calendars;
mod constructors;
mod expected;
mod kinds;
