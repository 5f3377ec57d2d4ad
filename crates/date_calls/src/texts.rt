//! Texts of dates (RFC 9557): the day and the calendar that a text names.

ghost use Rattle.std.specs.Prelude.{◌≡◌};
ghost use Rattle.std.specs.Option.{option_map};
ghost use Rattle.cal_types.specs.YearNames.{is_code};
ghost use Rattle.icu_calendar.specs.DateTextReading.{before_bracket, behind_key};
ghost use Rattle.date_calls.specs.Texts.{IsCalendarIn, IsDayIn, IsNameIn, IsTextTold, ReadsText, behind_date, code_of_name, has_sign, kind_in_text, kind_of_name, name_behind};

use crate::codes::code_of;
use crate::outcomes::{DONE, INVALID_TEXT, UNKNOWN_CALENDAR};
use cal_kinds::AnyCalendarKind;
use icu_calendar::{Date, Julian};

/// Returns whether a text begins with the sign of a year.
fn has_sign(text: &[u8]) -> bool
    ensures { result ≡ has_sign text.now }
{
    match text {
        [byte, ..] => *byte == b'+' || *byte == b'-',
        _ => false,
    }
}

/// Returns the text behind the date, which has ten bytes, or thirteen with a sign.
fn behind_date(text: &[u8]) -> &[u8]
    ensures { result.now ≡ behind_date text.now }
{
    let count = if has_sign(text) { 13 } else { 10 };
    &text[count.min(text.len())..]
}

/// Returns the text after the key of an annotation.
fn behind_key(text: &[u8]) -> Option<&[u8]>
    ensures { option_map (λ rest. rest.now) result ≡ behind_key text.now }
{
    match text.strip_prefix(b"[u-ca=") {
        Some(rest) => Some(rest),
        None => text.strip_prefix(b"[!u-ca="),
    }
}

/// Returns the text before its last byte, which has to be a closing bracket.
fn before_bracket(text: &[u8]) -> Option<&[u8]>
    ensures { option_map (λ rest. rest.now) result ≡ before_bracket text.now }
{
    text.strip_suffix(b"]")
}

/// Returns the name of the calendar in what stands behind the date.
fn name_behind(text: &[u8]) -> Option<&[u8]>
    ensures { option_map (λ name. name.now) result ≡ name_behind text.now }
{
    before_bracket(behind_key(behind_date(text))?)
}

/// Returns the name of the calendar in a text of a date.
fn name_in(text: &[u8]) -> Option<&[u8]>
    ensures { IsNameIn text.now (option_map (λ name. name.now) result) }
{
    name_behind(text)
}

/// Returns whether a name is this one.
fn is_name(name: &[u8], other: &[u8]) -> bool
    ensures { result ≡ is_code name.now other.now }
{
    name == other
}

/// Returns the kind of calendar with a name in CLDR or in the program.
fn kind_in_text(name: &[u8]) -> Option<AnyCalendarKind>
    ensures { result ≡ kind_in_text name.now }
{
    if is_name(name, b"gregory") {
        return Some(AnyCalendarKind::Gregorian);
    }
    if is_name(name, b"iso8601") {
        return Some(AnyCalendarKind::Iso);
    }
    AnyCalendarKind::from_program_name(name)
}

/// Returns the kind of calendar with a name, or ISO without a name.
fn kind_of_name(name: Option<&[u8]>) -> Option<AnyCalendarKind>
    ensures { result ≡ kind_of_name (option_map (λ n. n.now) name.entry) }
{
    match name {
        Some(name) => kind_in_text(name),
        None => Some(AnyCalendarKind::Iso),
    }
}

/// Returns the code of the calendar with a name, or of ISO without a name.
fn code_of_name(name: Option<&[u8]>) -> Option<u8>
    ensures { result ≡ code_of_name (option_map (λ n. n.now) name.entry) }
{
    code_of(kind_of_name(name)?)
}

/// Returns the code of the calendar that a text names.
fn calendar_in(text: &[u8]) -> Option<u8>
    ensures { IsCalendarIn text.now result }
{
    code_of_name(name_in(text))
}

/// Returns the day number that a text names, whatever its calendar. The Julian calendar has no name, so it accepts any.
fn day_in(text: &[u8]) -> Option<i64>
    ensures { IsDayIn text.now result }
{
    match Date::try_from_utf8(text, Julian) {
        Ok(date) => Some(date.to_rata_die().to_i64_date()),
        Err(_) => None,
    }
}

/// Stores the calendar and the day of a text, if there are both, and returns the code.
fn tell_text(found: Option<i64>, named: Option<u8>, calendar: &mut u8, day: &mut i64) -> u8
    ensures { IsTextTold found named result calendar.old calendar.new day.old day.new }
{
    let Some(found) = found else {
        return INVALID_TEXT;
    };
    let Some(named) = named else {
        return UNKNOWN_CALENDAR;
    };
    *calendar = named;
    *day = found;
    DONE
}

/// Reads the text of a date (RFC 9557), such as `2024-03-01` or `2024-03-01[u-ca=hebrew]`: its ISO date's day number, in
/// `day`, and the code of the calendar that it names, in `calendar`; without a name, ISO.
///
/// The year has four digits, or a sign and six digits. A name may be marked critical, as in `[!u-ca=hebrew]`. It is
/// CLDR's, such as `gregory`, or the program's, such as `julian`. Times, offsets and other annotations are rejected.
///
/// # Errors
///
/// The code is 0 if both are filled in. Otherwise both are unchanged, and the code is the first of:
///
/// - 21 if the text has another form, or its date doesn't exist.
/// - 1 if no calendar has the name.
pub fn day_of_text(text: &[u8], calendar: &mut u8, day: &mut i64) -> u8
    ensures { ReadsText text.now result calendar.old calendar.new day.old day.new }
{
    tell_text(day_in(text), calendar_in(text), calendar, day)
}
