//! The days that BYDAY keeps, as bits.

ghost use Rattle.std.specs.Prelude.{◌≡◌, ◌+◌, ◌*◌, ◌<◌, ◌↔◌, IsTrue, neg_ℤ, pos, ◌+ℤ◌};
ghost use Rattle.cal_days.specs.Day.{IsBetween};
ghost use Rattle.cal_rule.specs.Sets.{has_weekday};
ghost use Rattle.cal_rrule.specs.Masks.{Adds, IsStep, IsWeekdayAt, IsWeekdayFrom, IsWeekdayIn};
ghost use Rattle.cal_rrule.specs.NamedDays.{stretch};
ghost use Rattle.cal_rrule.specs.Weeks.{IsAmongWeekdays};

use cal_days::RataDie;
use cal_rule::{Place, WeekdayPlace, WeekdayPlaces};
use cal_types::Weekday;
use recurrence_sets::PeriodDays;

/// Adds every seventh day, so many of them, from a first one on.
pub(crate) fn add_weekly(days: &mut PeriodDays, from: RataDie, count: u16)
    requires { IsBetween (neg_ℤ (pos 4000000000)) (pos 4000000000) from }
    ensures { Adds days.old days.new (IsStep from 7 count) }
{
    for step in 0..count {
        days.insert_day(RataDie::new(from.to_i64_date() + 7 * i64::from(step)));
    }
}

/// Returns whether a set has a weekday with an ordinal, or without one.
fn has(set: &WeekdayPlaces, day: Weekday, ordinal: Option<Place>) -> bool
    ensures { result ≡ has_weekday set.now (record { day = day; ordinal = ordinal }) }
{
    set.contains(WeekdayPlace { day, ordinal })
}

/// Returns whether a set has a day of a stretch: the day that lies so many weeks and some days behind the first one.
fn is_among(set: &WeekdayPlaces, first: RataDie, length: u16, offset: u16, week: u16) -> bool
    requires first { IsBetween (neg_ℤ (pos 4000000000)) (pos 4000000000) first }
    requires offset { offset < 7 }
    requires within { offset + 7 * week < length }
    requires length { length < 60000 }
    ensures { IsTrue result
        ↔ IsAmongWeekdays set.now (stretch first length) (first +ℤ pos (offset + 7 * week)) }
{
    let weekday = Weekday::from(RataDie::new(first.to_i64_date() + i64::from(offset)));
    let behind = (length - offset + 6) / 7 - week;
    has(set, weekday, None)
        | has(set, weekday, Some(Place::FromFront(week + 1)))
        | has(set, weekday, Some(Place::FromBack(behind)))
}

/// Adds the day that lies so many weeks and some days behind the first one of a stretch, if a set has it.
fn add_if_among(
    days: &mut PeriodDays,
    set: &WeekdayPlaces,
    first: RataDie,
    length: u16,
    offset: u16,
    week: u16,
)
    requires first { IsBetween (neg_ℤ (pos 4000000000)) (pos 4000000000) first }
    requires offset { offset < 7 }
    requires within { offset + 7 * week < length }
    requires length { length < 60000 }
    ensures { Adds days.old days.new (IsWeekdayAt set.now (stretch first length) offset week) }
{
    if is_among(set, first, length, offset, week) {
        let ahead = i64::from(offset) + 7 * i64::from(week);
        days.insert_day(RataDie::new(first.to_i64_date() + ahead));
    }
}

/// Adds the days of a stretch that a set has and that lie whole weeks behind one of the first seven days.
fn add_weekday(days: &mut PeriodDays, set: &WeekdayPlaces, first: RataDie, length: u16, offset: u16)
    requires first { IsBetween (neg_ℤ (pos 4000000000)) (pos 4000000000) first }
    requires offset { offset < 7 }
    requires length { length < 60000 }
    ensures { Adds days.old days.new (IsWeekdayFrom set.now (stretch first length) offset) }
{
    for week in 0..(length + 6 - offset) / 7 {
        add_if_among(days, set, first, length, offset, week);
    }
}

/// Adds the days of a stretch that a set of weekdays has, by their place in the stretch.
pub(crate) fn add_weekdays(days: &mut PeriodDays, set: &WeekdayPlaces, first: RataDie, length: u16)
    requires first { IsBetween (neg_ℤ (pos 4000000000)) (pos 4000000000) first }
    requires length { length < 60000 }
    ensures { Adds days.old days.new (IsWeekdayIn set.now (stretch first length)) }
{
    for offset in 0..7 {
        add_weekday(days, set, first, length, offset);
    }
}
