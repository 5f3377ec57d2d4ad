//! The parts of an RFC 9557 text that are read: a date and the name of a calendar.

/// The date of a text, in the ISO calendar. The numbers are checked when a date is created from them.
#[derive(Clone, Copy, Debug)]
pub struct DateRecord {
    /// The ISO year; from -999999 to 999999 if it was read from a text.
    pub year: i32,
    /// The month; from 1 to 12 if it was read from a text.
    pub month: u8,
    /// The day of the month; from 1 to the month's length if it was read from a text.
    pub day: u8,
}

/// The parts of an RFC 9557 text, read from a text or set by a caller.
#[derive(Clone, Copy, Debug)]
pub struct IxdtfRecord<'a> {
    /// The date. Every text has one.
    pub date: Option<DateRecord>,
    /// The name of the calendar, if the text has the annotation `u-ca`.
    pub calendar: Option<&'a [u8]>,
}
