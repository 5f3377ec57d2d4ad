//! Recurrence rules of a book.

ghost use Rattle.cal_days.specs.Day.{IsValidDay};
ghost use Rattle.cal_rule.specs.RuleText.{IsRuleText};

use cal_days::RataDie;
use cal_kinds::AnyCalendarKind;
use cal_rule::RecurrenceRule;

/// A recurrence rule of a book, its text, and the day on which it starts.
#[derive(Drop)]
pub(crate) struct RecurringRule {
    pub(crate) calendar: AnyCalendarKind,
    pub(crate) text: Vec<u8>,
    pub(crate) rule: RecurrenceRule,
    pub(crate) start: RataDie,
    ghost spelled: { IsRuleText calendar text.items rule },
    ghost valid: { IsValidDay start },
}
