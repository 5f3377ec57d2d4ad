//! What the values of parts say if they are there.

ghost use Rattle.std.specs.Prelude.{◌≡◌, ◌<◌, option_map};
ghost use Rattle.std.specs.Option.{unwrap_or};
ghost use Rattle.std.specs.Result.{result_ok};
ghost use Rattle.cal_rule.specs.Lists.{HasValues, values_of};
ghost use Rattle.cal_rule.specs.Months.{month_read};
ghost use Rattle.cal_rule.specs.Numbers.{count_read};
ghost use Rattle.cal_rule.specs.RuleText.{said_with};
ghost use Rattle.cal_rule.specs.Sets.{has_month, has_place, has_weekday, is_month, is_place, is_weekday_place};
ghost use Rattle.cal_rule.specs.Until.{until_read};
ghost use Rattle.cal_rule.specs.Values.{month_day_read, week_read, weekday_in_kind, year_day_read};
ghost use Rattle.cal_rule.specs.Words.{frequency_read, skip_read, weekday_read};

use crate::frequency::{Frequency, read_frequency};
use crate::lists::read_months;
use crate::month_set::MonthSet;
use crate::numbers::read_count;
use crate::place_set::PlaceSet;
use crate::skip::{Skip, read_skip};
use crate::until::read_until;
use crate::values::{read_by_day, read_month_days, read_weeks, read_year_days};
use crate::weekday_places::WeekdayPlaces;
use crate::weekdays::read_weekday;
use cal_days::RataDie;
use cal_kinds::AnyCalendarKind;
use cal_types::Weekday;

/// Returns the frequency that a value says.
pub(crate) fn frequency_in(text: Option<&[u8]>) -> Option<Frequency>
    ensures { result ≡ said_with frequency_read (option_map (λ text. text.now) text.entry) }
{
    read_frequency(text?).ok()
}

/// Returns the number that a value says.
pub(crate) fn count_in(text: Option<&[u8]>) -> Option<u32>
    ensures { result ≡ said_with count_read (option_map (λ text. text.now) text.entry) }
{
    read_count(text?).ok()
}

/// Returns the number that a value spells, or 1 if it spells none.
fn count_or_one(text: &[u8]) -> u32
    ensures value { result ≡ unwrap_or (result_ok (count_read text.now)) 1 }
    ensures some { 0 < result }
{
    match read_count(text) {
        Ok(every) => every,
        Err(_) => 1,
    }
}

/// Returns the number that a value of INTERVAL says, or 1 if it says none.
pub(crate) fn interval_in(text: Option<&[u8]>) -> u32
    ensures value { result ≡ unwrap_or (said_with count_read (option_map (λ text. text.now) text.entry)) 1 }
    ensures some { 0 < result }
{
    match text {
        None => 1,
        Some(text) => count_or_one(text),
    }
}

/// Returns the day that a value says.
pub(crate) fn until_in(text: Option<&[u8]>) -> Option<RataDie>
    ensures { result ≡ said_with until_read (option_map (λ text. text.now) text.entry) }
{
    read_until(text?).ok()
}

/// Returns the weekday that a value says.
pub(crate) fn weekday_in(text: Option<&[u8]>) -> Option<Weekday>
    ensures { result ≡ said_with weekday_read (option_map (λ text. text.now) text.entry) }
{
    read_weekday(text?).ok()
}

/// Returns the way of handling missing days that a value says.
pub(crate) fn skip_in(text: Option<&[u8]>) -> Option<Skip>
    ensures { result ≡ said_with skip_read (option_map (λ text. text.now) text.entry) }
{
    read_skip(text?).ok()
}

/// Returns the months that a value lists.
pub(crate) fn months_in(text: Option<&[u8]>, kind: AnyCalendarKind) -> MonthSet
    ensures { HasValues has_month is_month result
        (values_of (month_read kind) (option_map (λ text. text.now) text.entry)) }
{
    match text {
        None => MonthSet::new(),
        Some(text) => read_months(text, kind).unwrap_or(MonthSet::new()),
    }
}

/// Returns the days of a month that a value lists.
pub(crate) fn month_days_in(text: Option<&[u8]>, kind: AnyCalendarKind) -> PlaceSet<1>
    ensures { HasValues has_place is_place result
        (values_of (month_day_read kind) (option_map (λ text. text.now) text.entry)) }
{
    match text {
        None => PlaceSet::new(),
        Some(text) => read_month_days(text, kind).unwrap_or(PlaceSet::new()),
    }
}

/// Returns the days of a year, or the places in a period, that a value lists.
pub(crate) fn year_days_in(text: Option<&[u8]>, kind: AnyCalendarKind) -> PlaceSet<7>
    ensures { HasValues has_place is_place result
        (values_of (year_day_read kind) (option_map (λ text. text.now) text.entry)) }
{
    match text {
        None => PlaceSet::new(),
        Some(text) => read_year_days(text, kind).unwrap_or(PlaceSet::new()),
    }
}

/// Returns the weeks that a value lists.
pub(crate) fn weeks_in(text: Option<&[u8]>, kind: AnyCalendarKind) -> PlaceSet<1>
    ensures { HasValues has_place is_place result
        (values_of (week_read kind) (option_map (λ text. text.now) text.entry)) }
{
    match text {
        None => PlaceSet::new(),
        Some(text) => read_weeks(text, kind).unwrap_or(PlaceSet::new()),
    }
}

/// Returns the weekdays that a value lists.
pub(crate) fn weekdays_in(text: Option<&[u8]>, kind: AnyCalendarKind) -> WeekdayPlaces
    ensures { HasValues has_weekday is_weekday_place result
        (values_of (weekday_in_kind kind) (option_map (λ text. text.now) text.entry)) }
{
    match text {
        None => WeekdayPlaces::new(),
        Some(text) => read_by_day(text, kind).unwrap_or(WeekdayPlaces::new()),
    }
}
