//! The days that places name in days in a row.

ghost use Rattle.std.specs.Prelude.{pos, neg_ℤ};
ghost use Rattle.cal_days.specs.Day.{IsBetween};
ghost use Rattle.cal_rule.specs.declared.place_set.Place.TheVariants.{FromFront, FromBack};
ghost use Rattle.cal_rrule.specs.Stretches.{NamesDay, ReplacesBefore, ReplacesBehind};
ghost use Rattle.cal_rrule.specs.NamedDays.{IsOnly, stretch};

use cal_days::RataDie;
use cal_rule::{Place, Skip};

/// Returns the day that replaces one behind some days in a row.
fn day_behind(skip: Skip, first: RataDie, days: u16) -> Option<RataDie>
    requires { IsBetween (neg_ℤ (pos 4000000000)) (pos 4000000000) first }
    ensures { IsOnly (ReplacesBehind skip (stretch first days)) result }
{
    let end = first.to_i64_date() + i64::from(days);
    match skip {
        Skip::Omit => None,
        Skip::Backward => Some(RataDie::new(end - 1)),
        Skip::Forward => Some(RataDie::new(end)),
    }
}

/// Returns the day that replaces one before some days in a row.
fn day_before(skip: Skip, first: RataDie, days: u16) -> Option<RataDie>
    requires { IsBetween (neg_ℤ (pos 4000000000)) (pos 4000000000) first }
    ensures { IsOnly (ReplacesBefore skip (stretch first days)) result }
{
    match skip {
        Skip::Omit => None,
        Skip::Backward => Some(RataDie::new(first.to_i64_date() - 1)),
        Skip::Forward => Some(first),
    }
}

/// Returns the day that a place names in some days in a row, or the one that replaces it.
pub(crate) fn named_day(skip: Skip, first: RataDie, days: u16, place: Place) -> Option<RataDie>
    requires { IsBetween (neg_ℤ (pos 4000000000)) (pos 4000000000) first }
    ensures { IsOnly (NamesDay skip (stretch first days) place) result }
{
    match place {
        Place::FromFront(number) => named_from_front(skip, first, days, number),
        Place::FromBack(number) => named_from_back(skip, first, days, number),
    }
}

/// The same for a place from the front.
fn named_from_front(skip: Skip, first: RataDie, days: u16, number: u16) -> Option<RataDie>
    requires { IsBetween (neg_ℤ (pos 4000000000)) (pos 4000000000) first }
    ensures { IsOnly (NamesDay skip (stretch first days) (FromFront number)) result }
{
    if number > days {
        return day_behind(skip, first, days);
    }
    if number == 0 {
        return None;
    }
    Some(RataDie::new(first.to_i64_date() + i64::from(number) - 1))
}

/// The same for a place from the back.
fn named_from_back(skip: Skip, first: RataDie, days: u16, number: u16) -> Option<RataDie>
    requires { IsBetween (neg_ℤ (pos 4000000000)) (pos 4000000000) first }
    ensures { IsOnly (NamesDay skip (stretch first days) (FromBack number)) result }
{
    if number > days {
        return day_before(skip, first, days);
    }
    if number == 0 {
        return None;
    }
    Some(RataDie::new(first.to_i64_date() + i64::from(days) - i64::from(number)))
}
