//! The fields of a record that say a recurrence rule and its start.

ghost use Rattle.std.specs.Prelude.{◌≡◌, ◌==◌, ◌&&◌, ◌<◌, length, get_or, option_map, pos, IfSome};
ghost use Rattle.cal_days.specs.Day.{IsValidDay};
ghost use Rattle.cal_rule.specs.RuleText.{IsRuleText};
ghost use Rattle.cal_holidays.specs.RecordStarts.{is_dashed, iso_day, recurrence_read, start_read};

use cal_base::{Calendar, Iso};
use cal_days::RataDie;
use cal_kinds::AnyCalendarKind;
use cal_rule::RecurrenceRule;
use cal_types::{DateFields, DateFromFieldsOptions, Month};
use word_values::read_number;

/// Reads a recurrence rule for a kind of calendar.
pub(crate) fn recurrence(calendar: AnyCalendarKind, text: &[u8]) -> Option<RecurrenceRule>
    ensures value { option_map (λ _. text.now) result ≡ recurrence_read calendar text.now }
    ensures spelled { IfSome result (λ rule. IsRuleText calendar text.now rule) }
{
    match RecurrenceRule::try_from_utf8(text, calendar) {
        Ok(rule) => Some(rule),
        Err(_) => None,
    }
}

/// Returns the day of a date of the ISO calendar, if the date exists.
fn iso_day(year: u32, month: u8, day: u8) -> Option<RataDie>
    requires { year < 10000 }
    ensures value { result ≡ iso_day year month day }
    ensures valid { IfSome result (λ n. IsValidDay n) }
{
    let fields = DateFields {
        era: None,
        era_year: None,
        extended_year: Some(year as i32),
        month: Some(Month::new(month)),
        month_code: None,
        ordinal_month: None,
        day: Some(day),
    };
    let options = DateFromFieldsOptions {
        overflow: None,
        missing_fields_strategy: None,
    };
    match Iso.from_fields(fields, options) {
        Ok(date) => Some(Iso.to_rata_die(&date)),
        Err(_) => None,
    }
}

/// Returns whether a text has ten bytes, of which the fifth and the eighth are hyphens.
fn is_dashed(text: &[u8]) -> bool
    ensures { result ≡ is_dashed text.now }
{
    text.len() == 10 && text[4] == b'-' && text[7] == b'-'
}

/// Reads the day of a date of the ISO calendar, such as 2024-02-29.
pub(crate) fn start(text: &[u8]) -> Option<RataDie>
    ensures value { result ≡ start_read text.now }
    ensures valid { IfSome result (λ n. IsValidDay n) }
{
    if !is_dashed(text) {
        return None;
    }
    let year = read_number(&text[..4], 4)?;
    let month = read_number(&text[5..7], 2)?;
    let day = read_number(&text[8..], 2)?;
    iso_day(year, month as u8, day as u8)
}
