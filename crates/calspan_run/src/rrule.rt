//! The command `rrule`: the occurrences of a recurrence rule of iCalendar.

pub(crate) mod errors;
pub(crate) mod listing;
