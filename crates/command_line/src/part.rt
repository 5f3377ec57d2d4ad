//! What may stand at a place of a command line.

/// An argument of a command that stands at a fixed place.
#[derive(Clone, Copy, Debug, PartialEq, Eq)]
pub enum Argument {
    /// The number of requests of `gen`: 0 to 100000.
    Count,
    /// The name of a calendar.
    Calendar,
    /// `exact` or `constrain`.
    Leaping,
    /// A month code.
    MonthCode,
    /// A day of the month: 0 to 255.
    DayOfMonth,
    /// A day number (rata die).
    DayNumber,
    /// The unit of a recurrence.
    Unit,
    /// The number of units between two occurrences.
    Every,
    /// `skip` or `constrain`.
    Missing,
    /// `constrain` or `reject`.
    Overflow,
}

/// What may stand at a place of a command line.
#[derive(Clone, Copy, Debug, PartialEq, Eq)]
pub enum CommandPart {
    /// The name of a command.
    Command,
    /// An argument.
    Argument(Argument),
    /// A field with a new key, or no more words.
    Field,
    /// A rule; or its start, which is a day number or fields, and behind it the rule.
    StartOrRule,
    /// `holidays`, or no more words.
    Holidays,
    /// No more words: the word before is no part of a start, so it is the rule.
    BehindRule,
    /// No more words.
    End,
}

/// What stands behind the arguments of a command.
#[derive(Clone, Copy, Debug)]
pub(crate) enum Behind {
    /// No more words.
    End,
    /// Zero or more fields.
    Fields,
    /// The start of a rule, and the rule.
    StartAndRule,
    /// The word `holidays`, or no more words.
    Holidays,
}
