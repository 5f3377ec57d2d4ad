//! What may stand at a place of a line.

/// What may stand at a place of a request line or a row line.
#[derive(Clone, Copy, Debug, PartialEq, Eq)]
pub enum Expected {
    /// `span` or `row`, the first word.
    First,
    /// The calendar of a request.
    Calendar,
    /// The second calendar of a request.
    Shown,
    /// The largest unit.
    Unit,
    /// How to handle a month or a day that doesn't exist.
    Overflow,
    /// How to handle missing fields.
    MissingFields,
    /// `from`.
    From,
    /// `to`, or a field of the first date with a new key.
    FieldOrTo,
    /// A field of the second date with a new key.
    Field,
    /// The name of a table, or `era`.
    Table,
    /// The year of a Chinese or Korean row.
    LunisolarYear,
    /// The day number of its first day.
    LunisolarStart,
    /// The lengths of its 12 or 13 months.
    LunisolarLengths,
    /// 0 for no leap month, after 12 lengths.
    NoLeapMonth,
    /// The place of the leap month, after 13 lengths.
    LeapMonth,
    /// The year of a Hijri row.
    HijriYear,
    /// The day number of its first day.
    HijriStart,
    /// The lengths of its 12 months.
    HijriLengths,
    /// The year of a Persian row.
    PersianYear,
    /// The year in which an era begins.
    EraYear,
    /// The month in which an era begins.
    EraMonth,
    /// The day on which an era begins.
    EraDay,
    /// The code of an era.
    EraCode,
    /// The index of an era.
    EraIndex,
    /// The end of the line.
    End,
}
