//! The names of the errors of a rule's text.
ghost use Rattle.std.specs.Prelude.{◌≡◌, ◌+◌, ◌≤◌, ◌++◌, length};
ghost use Rattle.arrayvec.specs.ArrayVec.{array_vec_len};
ghost use Rattle.calspan_run.specs.RuleErrors.{rule_error_text};
ghost use Rattle.cal_rule.specs.RuleNames.{part_name};

use cal_rule::{RuleError, RulePart};
use reply_texts::{Pending, push_all};

/// Appends a name with a space at its end, and the name of a part.
fn push_named(text: &mut Pending, name: &[u8], part: RulePart)
    requires few { array_vec_len text.old + 60 ≤ 8192 }
    requires short { length name.now ≤ 20 }
    ensures items { text.new.items ≡ text.old.items ++ (name.now ++ part_name part) }
    ensures len { array_vec_len text.new ≤ array_vec_len text.old + 40 }
{
    push_all(text, name);
    push_all(text, part.name().as_bytes());
}

/// Appends the name of an error, and of the part that it is about, at most 40 bytes.
pub(crate) fn push_rule_error(text: &mut Pending, error: RuleError)
    requires { array_vec_len text.old + 60 ≤ 8192 }
    ensures items { text.new.items ≡ text.old.items ++ rule_error_text error }
    ensures len { array_vec_len text.new ≤ array_vec_len text.old + 40 }
{
    match error {
        RuleError::BadPart => push_all(text, b"BadPart"),
        RuleError::UnknownPart => push_all(text, b"UnknownPart"),
        RuleError::RepeatedPart(part) => push_named(text, b"RepeatedPart ", part),
        RuleError::TimeNotSupported(part) => push_named(text, b"TimeNotSupported ", part),
        RuleError::BadValue(part) => push_named(text, b"BadValue ", part),
        RuleError::ValueOutOfRange(part) => push_named(text, b"ValueOutOfRange ", part),
        RuleError::UnknownCalendar => push_all(text, b"UnknownCalendar"),
        RuleError::MismatchedCalendar => push_all(text, b"MismatchedCalendar"),
        RuleError::MissingPart(part) => push_named(text, b"MissingPart ", part),
        RuleError::CountWithUntil => push_all(text, b"CountWithUntil"),
        RuleError::PartNotAllowed(part) => push_named(text, b"PartNotAllowed ", part),
        RuleError::OrdinalNotAllowed => push_all(text, b"OrdinalNotAllowed"),
        RuleError::SetPosAlone => push_all(text, b"SetPosAlone"),
    }
}
