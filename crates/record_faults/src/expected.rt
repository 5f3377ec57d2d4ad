//! What may stand in a field of a record.

/// What may stand in a field of a record.
#[derive(Clone, Copy, Debug, PartialEq, Eq)]
pub enum FieldExpected {
    /// Six to ten fields.
    Fields,
    /// A kind of rule: `fixed`, `easter`, `weekday`, `span` or `rule`.
    Kind,
    /// A name of 1 to 64 printable ASCII characters.
    Name,
    /// A calendar.
    Calendar,
    /// The calendar of Easter: `gregorian` or `julian`.
    EasterCalendar,
    /// The code of a month of the calendar.
    Month,
    /// Nothing.
    Nothing,
    /// A day of a month, 1 to 31.
    Day,
    /// Days from Easter, -400 to 400.
    Offset,
    /// `exact` or `constrain`.
    Leaping,
    /// Which weekday of a month: `1` to `5` or `-1`.
    Nth,
    /// A weekday.
    Weekday,
    /// A weekday, with a `-` before it or without.
    SpanWeekday,
    /// A recurrence rule for the calendar.
    Recurrence,
    /// The day on which a recurrence rule starts, as a date `YYYY-MM-DD`.
    Start,
    /// A year of one to six digits, or nothing.
    Year,
    /// Years from one to the next, 1 to 400, or nothing.
    Every,
    /// Nothing, since there is no first year to count from.
    NoEvery,
    /// Weekdays with the days by which they move, or nothing.
    Moves,
}
