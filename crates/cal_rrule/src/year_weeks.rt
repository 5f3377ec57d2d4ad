//! The weeks of a year, and the days of those that BYWEEKNO has, as bits.

ghost use Rattle.std.specs.Prelude.{◌≡◌, ◌↔◌, ◌≤◌, ◌<◌, ◌+◌, ◌*◌, ℕ, neg_ℤ, pos, ◌+ℤ◌, ◌-ℤ◌, ◌≤ℤ◌, ◌<ℤ◌, IsTrue};
ghost use Rattle.cal_days.specs.Day.{IsBetween};
ghost use Rattle.cal_types.specs.CalendarList.{CalendarList};
ghost use Rattle.cal_rrule.specs.Looks.{IsYearLook};
ghost use Rattle.cal_rrule.specs.Masks.{Adds};
ghost use Rattle.cal_rrule.specs.YearWeeks.{AreWeeksOf, IsInNumbered, IsInWeekAt, IsNumbered};

use crate::intervals::days_ahead;
use crate::week_start::week_of;
use crate::year_look::YearLook;
use cal_days::RataDie;
use cal_rule::{Place, PlaceSet};
use cal_types::Weekday;
use recurrence_sets::PeriodDays;

/// Weeks in a row: the first day of the first one, and how many they are.
#[derive(Clone, Copy)]
pub(crate) struct WeekRow {
    pub first: i64,
    pub count: u16,
    ghost few: { count ≤ 58 },
    ghost near: { IsBetween (neg_ℤ (pos 1000000100)) (pos 1000000100) first },
}

/// Returns how many weeks in a row have their fourth day before a day.
fn weeks_until(first: RataDie, end: RataDie) -> u16
    requires first { IsBetween (neg_ℤ (pos 2000000000)) (pos 2000000000) first }
    requires end { IsBetween (neg_ℤ (pos 2000000000)) (pos 2000000000) end }
    requires few { end ≤ℤ (first +ℤ pos 406) }
    ensures exact { (i : ℕ) → i < result ↔ ((first +ℤ pos (7 * i + 3)) <ℤ end) }
    ensures few { result ≤ 58 }
{
    ((days_ahead(end, first) + 3) / 7) as u16
}

/// Returns the weeks that belong to a year.
pub(crate) fn weeks_of_year(week_start: Weekday, year: &YearLook) -> WeekRow
    ensures weeks { (c : CalendarList) → IsYearLook c year.now →
        AreWeeksOf c week_start year.now.year result.first result.count }
    ensures low { (year.now.first -ℤ pos 3) ≤ℤ result.first }
    ensures high { result.first ≤ℤ (year.now.first +ℤ pos 3) }
{
    let first = week_of(week_start, RataDie::new(year.first + 3));
    let count = weeks_until(RataDie::new(first), RataDie::new(year.end()));
    WeekRow { first, count }
}

/// Returns whether a week of so many in a row has a number in a set, counted from either end.
fn is_numbered(set: &PlaceSet<1>, count: u16, place: u16) -> bool
    requires few { count ≤ 58 }
    requires within { place < count }
    ensures { IsTrue result ↔ IsNumbered set.now count place }
{
    set.contains(Place::FromFront(place + 1)) | set.contains(Place::FromBack(count - place))
}

/// Adds the days of a week that lies so many weeks behind another, if a test holds.
fn add_week_if(days: &mut PeriodDays, first: i64, place: u16, holds: bool)
    requires near { IsBetween (neg_ℤ (pos 2000000000)) (pos 2000000000) first }
    ensures { Adds days.old days.new (λ n. IsTrue holds × IsInWeekAt first place n) }
{
    if holds {
        let week = first + 7 * i64::from(place);
        days.insert_days(RataDie::new(week), RataDie::new(week + 7));
    }
}

/// Adds the days of those weeks in a row that have a number in a set, counted from either end.
pub(crate) fn add_numbered(days: &mut PeriodDays, set: &PlaceSet<1>, weeks: &WeekRow)
    ensures { Adds days.old days.new (IsInNumbered set.now weeks.now.first weeks.now.count weeks.now.count) }
{
    let count = weeks.count;
    for place in 0..count {
        add_week_if(days, weeks.first, place, is_numbered(set, count, place));
    }
}
