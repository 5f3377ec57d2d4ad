//! Dates in a calendar of any type, and their texts.
//!
//! Start with [`name_in`] and [`show_in`], which fill in the parts of dates, and [`push_date`], which appends their
//! text.
#![tactic(auto)]

mod date_texts;
mod day_parts;
mod span_parts;
mod text;

pub use date_texts::{push_cause, push_date, push_day, push_duration, push_error, push_month};
pub use day_parts::DayParts;
pub use span_parts::{SpanParts, name_in, show_both_in, show_in};
pub use text::{Pending, push_about, push_all, push_number, push_signed, push_two_digits};
