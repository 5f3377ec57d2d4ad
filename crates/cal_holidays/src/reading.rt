//! What a record says before its texts are kept.

ghost use Rattle.cal_days.specs.Day.{IsValidDay};

use crate::holiday_rule::HolidayRule;
use crate::moves::Moves;
use crate::rule_years::RuleYears;
use cal_days::RataDie;
use cal_kinds::AnyCalendarKind;
use cal_rule::RecurrenceRule;

/// A recurrence rule of a record, and the day on which it starts.
#[derive(Clone, Copy)]
pub(crate) struct ReadRecurrence {
    pub(crate) calendar: AnyCalendarKind,
    pub(crate) rule: RecurrenceRule,
    pub(crate) start: RataDie,
    ghost valid: { IsValidDay start },
}

/// The rule of a record.
#[derive(Clone, Copy)]
pub(crate) enum ReadRule {
    /// A rule with at most one day in each year.
    Yearly(HolidayRule),
    /// A recurrence rule, whose text is the value of the record.
    Recurring(ReadRecurrence),
}

/// The rule of a record, the years in which it is kept, and the moves of its days.
#[derive(Clone, Copy)]
pub(crate) struct Reading {
    pub(crate) rule: ReadRule,
    pub(crate) years: RuleYears,
    pub(crate) moves: Moves,
}
