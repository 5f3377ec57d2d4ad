//! The words of a record's fields.

ghost use Rattle.std.specs.Prelude.{◌≡◌, ◌&&◌, option_map, nat_le, int_le, pos, neg_ℤ, true, IfSome};
ghost use Rattle.std.specs.List.{list_all};
ghost use Rattle.cal_types.specs.YearNames.{is_code};
ghost use Rattle.cal_types.specs.MonthParts.{month_parts};
ghost use Rattle.cal_holidays.specs.KindMonths.{knows_month};
ghost use Rattle.cal_holidays.specs.RecordWords.{day_read, is_julian, is_name, leaping_named, month_of, nth_named, offset_read, rule_kind, week_named, weekday_named, weekday_word};
ghost use Rattle.cal_holidays.specs.Rules.{is_month_day, is_nth_number};

use crate::holiday_rule::SpanWeek;
use crate::kind_months::is_month_of;
use cal_kinds::AnyCalendarKind;
use cal_types::{Leaping, Month, Weekday};
use word_values::{read_int, read_month_code, read_number};

/// The kind of a rule.
#[derive(Clone, Copy)]
pub(crate) enum RuleKind {
    /// A month and a day.
    Fixed,
    /// A number of days from Easter.
    Easter,
    /// A weekday of a month.
    Nth,
    /// A weekday of the week from or up to a month and a day.
    Span,
    /// A recurrence rule.
    Recurring,
}

/// Returns whether a text is a word.
fn is_word(text: &[u8], word: &[u8]) -> bool
    ensures { result ≡ is_code text.now word.now }
{
    text == word
}

/// Returns the kind of rule that a word names.
pub(crate) fn rule_kind(text: &[u8]) -> Option<RuleKind>
    ensures { result ≡ rule_kind text.now }
{
    if is_word(text, b"fixed") {
        return Some(RuleKind::Fixed);
    }
    if is_word(text, b"easter") {
        return Some(RuleKind::Easter);
    }
    if is_word(text, b"weekday") {
        return Some(RuleKind::Nth);
    }
    if is_word(text, b"span") {
        return Some(RuleKind::Span);
    }
    if is_word(text, b"rule") {
        Some(RuleKind::Recurring)
    } else {
        None
    }
}

/// Returns whether a text is a name: 1 to 64 printable ASCII characters.
pub(crate) fn is_name(text: &[u8]) -> bool
    ensures { result ≡ is_name text.now }
{
    1 <= text.len() && text.len() <= 64 && is_printable(text)
}

/// Returns whether every byte is a printable ASCII character.
fn is_printable(text: &[u8]) -> bool
    ensures { result ≡ list_all (λ b. nat_le 32 b && nat_le b 126) text.now }
{
    text.iter().all(|byte| 32 <= *byte && *byte <= 126)
}

/// Returns the month of a month code if it occurs in some year of a kind of calendar.
pub(crate) fn month_of(calendar: AnyCalendarKind, text: &[u8]) -> Option<Month>
    ensures value { option_map month_parts result ≡ month_of calendar text.now }
    ensures known { IfSome result (λ m. knows_month calendar (month_parts m) ≡ true) }
{
    let month = read_month_code(text)?;
    if is_month_of(calendar, month) {
        Some(month)
    } else {
        None
    }
}

/// Reads a day of a month: 1 to 31, in one or two digits.
pub(crate) fn day(text: &[u8]) -> Option<u8>
    ensures value { result ≡ day_read text.now }
    ensures range { IfSome result (λ d. is_month_day d ≡ true) }
{
    let day = read_number(text, 2)?;
    if 1 <= day && day <= 31 {
        Some(day as u8)
    } else {
        None
    }
}

/// Reads a number of days: -400 to 400.
pub(crate) fn offset(text: &[u8]) -> Option<i32>
    ensures value { result ≡ offset_read text.now }
    ensures range { IfSome result (λ d. (int_le (neg_ℤ (pos 400)) d && int_le d (pos 400)) ≡ true) }
{
    let days = read_int(text)?;
    if -400 <= days && days <= 400 {
        Some(days)
    } else {
        None
    }
}

/// Returns whether a word names the Julian calendar or the Gregorian one. `None` if it names neither.
pub(crate) fn is_julian(text: &[u8]) -> Option<bool>
    ensures { result ≡ is_julian text.now }
{
    if is_word(text, b"gregorian") {
        return Some(false);
    }
    if is_word(text, b"julian") {
        Some(true)
    } else {
        None
    }
}

/// Returns the way to handle a day that doesn't exist in a year, from its word.
pub(crate) fn leaping(text: &[u8]) -> Option<Leaping>
    ensures { result ≡ leaping_named text.now }
{
    if is_word(text, b"exact") {
        return Some(Leaping::Exact);
    }
    if is_word(text, b"constrain") {
        Some(Leaping::Constrain)
    } else {
        None
    }
}

/// Reads which weekday of a month is meant: `1` to `5`, or `-1` for the last.
pub(crate) fn nth(text: &[u8]) -> Option<i8>
    ensures value { result ≡ nth_named text.now }
    ensures range { IfSome result (λ n. is_nth_number n ≡ true) }
{
    match text {
        [b'1'] => Some(1),
        [b'2'] => Some(2),
        [b'3'] => Some(3),
        [b'4'] => Some(4),
        [b'5'] => Some(5),
        [b'-', b'1'] => Some(-1),
        _ => None,
    }
}

/// The days of a week.
const WEEKDAYS: [Weekday; 7] = [
    Weekday::Monday,
    Weekday::Tuesday,
    Weekday::Wednesday,
    Weekday::Thursday,
    Weekday::Friday,
    Weekday::Saturday,
    Weekday::Sunday,
];

/// Returns the word for a weekday.
fn weekday_word(day: Weekday) -> &'static [u8]
    ensures { result.now ≡ weekday_word day }
{
    match day {
        Weekday::Monday => b"monday",
        Weekday::Tuesday => b"tuesday",
        Weekday::Wednesday => b"wednesday",
        Weekday::Thursday => b"thursday",
        Weekday::Friday => b"friday",
        Weekday::Saturday => b"saturday",
        Weekday::Sunday => b"sunday",
    }
}

/// Returns the weekday that a word names.
pub(crate) fn weekday(text: &[u8]) -> Option<Weekday>
    ensures { result ≡ weekday_named text.now }
{
    WEEKDAYS
        .iter()
        .copied()
        .find(|day| is_word(text, weekday_word(*day)))
}

/// Returns the week from a day on or, with a `-`, the week up to it, and the weekday that a word names.
pub(crate) fn week(text: &[u8]) -> Option<(SpanWeek, Weekday)>
    ensures { result ≡ week_named text.now }
{
    match text {
        [b'-', rest @ ..] => Some((SpanWeek::UpTo, weekday(rest)?)),
        _ => Some((SpanWeek::From, weekday(text)?)),
    }
}
