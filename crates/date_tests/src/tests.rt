//! Known days and fields, texts that are read and written, and dates whose calendars are led to in several ways.

mod comparing;
mod conversions;
mod expected;
mod getters;
mod rebasing;
mod recurrences;
mod texts;
mod weeks;
mod wrappers;
