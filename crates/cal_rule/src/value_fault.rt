//! What is wrong with the value of a part.

ghost use Rattle.std.specs.Prelude.{◌≡◌};
ghost use Rattle.cal_rule.specs.Faults.{error_of};

use crate::rule_error::RuleError;
use crate::rule_part::RulePart;

/// What is wrong with the value of a part.
#[derive(Clone, Copy)]
pub(crate) enum ValueFault {
    /// It isn't of the part's form.
    Bad,
    /// It is of the form, but no calendar year has it.
    OutOfRange,
    /// It is about times of day.
    Time,
}

impl ValueFault {
    /// Returns the error if the value is that of a part.
    pub(crate) fn of(self, part: RulePart) -> RuleError
        ensures { result ≡ error_of part self }
    {
        match self {
            ValueFault::Bad => RuleError::BadValue(part),
            ValueFault::OutOfRange => RuleError::ValueOutOfRange(part),
            ValueFault::Time => RuleError::TimeNotSupported(part),
        }
    }
}
