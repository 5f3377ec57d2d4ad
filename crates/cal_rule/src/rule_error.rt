//! Why a text is no recurrence rule.

use crate::rule_part::RulePart;
use std::fmt;
use thiserror::Error;

/// The reason why a text is no recurrence rule of a calendar.
#[derive(Clone, Copy, Debug, PartialEq, Eq, Error)]
pub enum RuleError {
    /// A part has no `=`. An empty text has one part, which is empty.
    BadPart,
    /// A part's name isn't one of RFC 5545 or RFC 7529.
    UnknownPart,
    /// A part occurs twice.
    RepeatedPart(RulePart),
    /// A part is about times of day: it is BYHOUR, BYMINUTE or BYSECOND, a FREQ within a day, or an UNTIL with a time.
    TimeNotSupported(RulePart),
    /// The value of a part isn't of the part's form.
    BadValue(RulePart),
    /// The value of a part is of its form, but out of its range in this kind of calendar.
    ValueOutOfRange(RulePart),
    /// RSCALE names no calendar.
    UnknownCalendar,
    /// RSCALE names another calendar.
    MismatchedCalendar,
    /// A part is missing: FREQ.
    MissingPart(RulePart),
    /// COUNT and UNTIL occur together.
    CountWithUntil,
    /// A part may not stand beside this FREQ: BYWEEKNO or BYYEARDAY beside any but YEARLY, or BYMONTHDAY beside WEEKLY.
    PartNotAllowed(RulePart),
    /// A weekday of BYDAY has an ordinal, and FREQ is WEEKLY or DAILY, or BYWEEKNO occurs.
    OrdinalNotAllowed,
    /// BYSETPOS occurs without BYMONTH, BYWEEKNO, BYYEARDAY, BYMONTHDAY and BYDAY.
    SetPosAlone,
}

impl RuleError {
    /// Returns the text, and the part that it ends in.
    const fn message(self) -> (&'static str, Option<RulePart>) {
        match self {
            RuleError::BadPart => ("A part of the rule has no '='", None),
            RuleError::UnknownPart => ("Unknown part", None),
            RuleError::RepeatedPart(part) => ("Repeated part", Some(part)),
            RuleError::TimeNotSupported(part) => ("Times of day aren't supported", Some(part)),
            RuleError::BadValue(part) => ("Invalid syntax of a value", Some(part)),
            RuleError::ValueOutOfRange(part) => ("Value out of range", Some(part)),
            RuleError::UnknownCalendar => ("Unknown calendar", None),
            RuleError::MismatchedCalendar => ("The rule is for another calendar", None),
            RuleError::MissingPart(part) => ("Missing part", Some(part)),
            RuleError::CountWithUntil => ("COUNT and UNTIL exclude each other", None),
            RuleError::PartNotAllowed(part) => ("Part not allowed beside this FREQ", Some(part)),
            RuleError::OrdinalNotAllowed => ("BYDAY may have no ordinal here", None),
            RuleError::SetPosAlone => ("BYSETPOS needs another BY part", None),
        }
    }
}

/// Writes a sentence, followed by the name of the part if the error names one.
impl fmt::Display for RuleError {
    fn fmt<W: fmt::Write>(&self, f: &mut fmt::Formatter<W>) -> fmt::Result {
        let (text, part) = self.message();
        f.write_str(text)?;
        match part {
            None => Ok(()),
            Some(part) => {
                f.write_str(": ")?;
                f.write_str(part.name())
            }
        }
    }
}
