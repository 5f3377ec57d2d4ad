//! The kinds of calendars, and their names: [`AnyCalendarKind`].
#![tactic(auto)]

mod any_calendar_kind;
pub mod laws;

pub use any_calendar_kind::AnyCalendarKind;
