//! Recurrence rules as a book tells them.

use cal_days::RataDie;
use cal_kinds::AnyCalendarKind;

/// A recurrence rule of a book.
#[derive(Clone, Copy, Debug)]
pub struct Recurrence<'b> {
    /// The calendar.
    pub calendar: AnyCalendarKind,
    /// The text of the rule, which [`RecurrenceRule::try_from_utf8`](cal_rule::RecurrenceRule::try_from_utf8) reads for
    /// the calendar.
    pub text: &'b [u8],
    /// The day on which the rule starts.
    pub start: RataDie,
}
