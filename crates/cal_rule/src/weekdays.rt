//! The weekdays of a rule, by their two letters.

ghost use Rattle.std.specs.Prelude.{◌≡◌, ◌<◌};
ghost use Rattle.cal_types.specs.Weekday.{days_since_sunday};
ghost use Rattle.cal_rule.specs.RuleNames.{weekday_name, weekday_named};
ghost use Rattle.cal_rule.specs.Words.{weekday_read};

use crate::value_fault::ValueFault;
use crate::words::is_word;
use cal_types::Weekday;

/// All weekdays.
pub(crate) const WEEKDAYS: [Weekday; 7] = [
    Weekday::Sunday,
    Weekday::Monday,
    Weekday::Tuesday,
    Weekday::Wednesday,
    Weekday::Thursday,
    Weekday::Friday,
    Weekday::Saturday,
];

/// Returns the two letters of a weekday.
pub(crate) const fn weekday_name(day: Weekday) -> &'static str
    ensures { result.now ≡ weekday_name day }
{
    match day {
        Weekday::Sunday => "SU",
        Weekday::Monday => "MO",
        Weekday::Tuesday => "TU",
        Weekday::Wednesday => "WE",
        Weekday::Thursday => "TH",
        Weekday::Friday => "FR",
        Weekday::Saturday => "SA",
    }
}

/// Returns the weekday with these letters.
pub(crate) fn weekday_named(text: &[u8]) -> Option<Weekday>
    ensures { result ≡ weekday_named text.now }
{
    WEEKDAYS
        .iter()
        .copied()
        .find(|day| is_word(text, weekday_name(*day)))
}

/// Reads a weekday.
pub(crate) fn read_weekday(text: &[u8]) -> Result<Weekday, ValueFault>
    ensures { result ≡ weekday_read text.now }
{
    weekday_named(text).ok_or(ValueFault::Bad)
}

/// Returns how many days after Sunday a weekday is, from 0 to 6.
pub(crate) const fn days_since_sunday(day: Weekday) -> usize
    ensures value { result ≡ days_since_sunday day }
    ensures bound { result < 7 }
{
    match day {
        Weekday::Sunday => 0,
        Weekday::Monday => 1,
        Weekday::Tuesday => 2,
        Weekday::Wednesday => 3,
        Weekday::Thursday => 4,
        Weekday::Friday => 5,
        Weekday::Saturday => 6,
    }
}
