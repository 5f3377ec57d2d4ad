//! The calendar that RSCALE names.

ghost use Rattle.std.specs.Prelude.{◌≡◌, map};
ghost use Rattle.std.specs.Char.{to_ascii_lowercase};
ghost use Rattle.std.specs.List.{list_all};
ghost use Rattle.cal_kinds.specs.KindNames.{kind_among};
ghost use Rattle.cal_types.specs.YearNames.{is_code};
ghost use Rattle.cal_rule.specs.CalendarNames.{calendar_fault, calendar_named, cldr_names, is_kind, is_name_byte};

use crate::rule_error::RuleError;
use crate::rule_part::RulePart;
use cal_kinds::AnyCalendarKind;

/// More bytes than any name has.
const LONGEST: usize = 24;

/// Returns whether every byte is a letter, a digit or a hyphen.
fn are_name_bytes(text: &[u8]) -> bool
    ensures { result ≡ list_all is_name_byte text.now }
{
    text.iter()
        .all(|byte| byte.is_ascii_alphanumeric() || *byte == b'-')
}

/// Returns whether a text is a name.
fn is_name(text: &[u8], name: &[u8]) -> bool
    ensures { result ≡ is_code text.now name.now }
{
    text == name
}

/// Returns the kind of a calendar by those names of CLDR that aren't program names (UTS 35).
fn cldr_named(name: &[u8]) -> Option<AnyCalendarKind>
    ensures { result ≡ kind_among name.now cldr_names }
{
    if is_name(name, b"gregory") {
        return Some(AnyCalendarKind::Gregorian);
    }
    if is_name(name, b"iso8601") {
        return Some(AnyCalendarKind::Iso);
    }
    if is_name(name, b"ethiopic-amete-alem") {
        Some(AnyCalendarKind::EthiopianAmeteAlem)
    } else {
        None
    }
}

/// Returns the kind of the calendar with a name, in letters of either case.
fn kind_named(text: &[u8]) -> Option<AnyCalendarKind>
    ensures { result ≡ calendar_named text.now }
{
    if text.len() > LONGEST {
        return None;
    }
    let mut buffer = [0u8; LONGEST];
    let name = &mut buffer[..text.len()];
    name.copy_from_slice(text);
    name.make_ascii_lowercase();
    AnyCalendarKind::from_program_name(name).or(cldr_named(name))
}

/// Returns whether two kinds are the same.
fn is_kind(first: AnyCalendarKind, second: AnyCalendarKind) -> bool
    ensures { result ≡ is_kind first second }
{
    first == second
}

/// Returns what is wrong with a calendar's name in a rule for a kind of calendar.
pub(crate) fn calendar_fault(text: &[u8], kind: AnyCalendarKind) -> Option<RuleError>
    ensures { result ≡ calendar_fault kind text.now }
{
    if text.is_empty() || !are_name_bytes(text) {
        return Some(RuleError::BadValue(RulePart::Rscale));
    }
    match kind_named(text) {
        None => Some(RuleError::UnknownCalendar),
        Some(named) => {
            if is_kind(named, kind) {
                None
            } else {
                Some(RuleError::MismatchedCalendar)
            }
        }
    }
}
