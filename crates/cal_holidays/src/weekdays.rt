//! Weekdays beside days.

ghost use Rattle.std.specs.Prelude.{◌≡◌, ◌+ℤ◌, ◌-ℤ◌, pos, neg_ℤ};
ghost use Rattle.cal_days.specs.Day.{IsBetween};
ghost use Rattle.cal_days.specs.Division.{floor_mod};
ghost use Rattle.cal_types.specs.Weekday.{days_since_sunday};

use cal_types::Weekday;

/// Returns how many days a weekday lies after Sunday.
pub(crate) fn since_sunday(weekday: Weekday) -> i64
    ensures value { result ≡ pos (days_since_sunday weekday) }
    ensures bound { IsBetween (pos 0) (pos 6) result }
{
    match weekday {
        Weekday::Sunday => 0,
        Weekday::Monday => 1,
        Weekday::Tuesday => 2,
        Weekday::Wednesday => 3,
        Weekday::Thursday => 4,
        Weekday::Friday => 5,
        Weekday::Saturday => 6,
    }
}

/// Returns the first day on or after a day that lies `sunday` days after a Sunday.
pub(crate) fn on_or_after(sunday: i64, day: i64) -> i64
    requires sunday { IsBetween (pos 0) (pos 6) sunday }
    requires near { IsBetween (neg_ℤ (pos 1000000000500)) (pos 1000000000500) day }
    ensures { result ≡ day +ℤ pos (floor_mod (sunday -ℤ day) 7) }
{
    day + (sunday - day).rem_euclid(7)
}

/// Returns the last day on or before a day that lies `sunday` days after a Sunday.
pub(crate) fn on_or_before(sunday: i64, day: i64) -> i64
    requires sunday { IsBetween (pos 0) (pos 6) sunday }
    requires near { IsBetween (neg_ℤ (pos 1000000000500)) (pos 1000000000500) day }
    ensures { result ≡ day -ℤ pos (floor_mod (day -ℤ sunday) 7) }
{
    day - (day - sunday).rem_euclid(7)
}
