//! The result of [`span`](crate::span()).

use crate::date::Date;
use cal_any::AnyCalendar;
use cal_base::{AsCalendar, Calendar};
use cal_types::DateDuration;
use std::fmt;

/// Two dates, the same two days in a second calendar, and the difference from the first to the second.
#[derive(Clone, Copy)]
pub struct Span<'t> {
    /// The date of the first bag.
    pub from: Date<AnyCalendar<'t>>,
    /// The same day in the second calendar.
    pub from_shown: Date<AnyCalendar<'t>>,
    /// The date of the second bag.
    pub to: Date<AnyCalendar<'t>>,
    /// The same day in the second calendar.
    pub to_shown: Date<AnyCalendar<'t>>,
    /// The greatest duration in the requested units from the first date that doesn't lead past the second date.
    pub duration: DateDuration,
}

/// Writes the fields of a [`Span`], as a derived `Debug` prints them.
fn fmt_fields<D: fmt::Debug, W: fmt::Write>(
    from: (&D, &D),
    to: (&D, &D),
    duration: &DateDuration,
    f: &mut fmt::Formatter<W>,
) -> fmt::Result {
    f.debug_struct("Span")
        .field("from", from.0)
        .field("from_shown", from.1)
        .field("to", to.0)
        .field("to_shown", to.1)
        .field("duration", duration)
        .finish()
}

/// Does the same as `fmt_fields`, for dates of any calendar, so that the calendar is a parameter only once.
fn fmt_dates<A: AsCalendar, W: fmt::Write>(
    from: (&Date<A>, &Date<A>),
    to: (&Date<A>, &Date<A>),
    duration: &DateDuration,
    f: &mut fmt::Formatter<W>,
) -> fmt::Result
where
    A::Calendar: Calendar,
{
    fmt_fields(from, to, duration, f)
}

impl<'t> fmt::Debug for Span<'t> {
    fn fmt<W: fmt::Write>(&self, f: &mut fmt::Formatter<W>) -> fmt::Result {
        let from = (&self.from, &self.from_shown);
        let to = (&self.to, &self.to_shown);
        fmt_dates(from, to, &self.duration, f)
    }
}
