//! The days that places name in a stretch, as bits.

ghost use Rattle.std.specs.Prelude.{◌<◌, ◌*◌, IsTrue, neg_ℤ, pos};
ghost use Rattle.cal_days.specs.Day.{IsBetween};
ghost use Rattle.cal_rule.specs.Sets.{has_place, number_of};
ghost use Rattle.cal_rrule.specs.Masks.{Adds, IsNamedBy};
ghost use Rattle.cal_rrule.specs.NamedDays.{stretch};
ghost use Rattle.cal_rrule.specs.Stretches.{NamesDay};

use crate::named_days::named_day;
use cal_days::RataDie;
use cal_rule::{Place, PlaceSet, Skip};
use recurrence_sets::PeriodDays;

/// Adds the day that a place names in a stretch.
pub(crate) fn add_named(
    days: &mut PeriodDays,
    skip: Skip,
    first: RataDie,
    length: u16,
    place: Place,
)
    requires { IsBetween (neg_ℤ (pos 4000000000)) (pos 4000000000) first }
    ensures { Adds days.old days.new (NamesDay skip (stretch first length) place) }
{
    match named_day(skip, first, length, place) {
        Some(day) => days.insert_day(day),
        None => {}
    }
}

/// Adds the day that a place names in a stretch if a set has the place.
fn add_named_in<const WORDS: usize>(
    days: &mut PeriodDays,
    skip: Skip,
    first: RataDie,
    length: u16,
    set: &PlaceSet<WORDS>,
    place: Place,
)
    requires { IsBetween (neg_ℤ (pos 4000000000)) (pos 4000000000) first }
    ensures { Adds days.old days.new
        (λ n. IsTrue (has_place set.now place) × NamesDay skip (stretch first length) place n) }
{
    if set.contains(place) {
        add_named(days, skip, first, length, place);
    }
}

/// Adds the days that the places of a set name in a stretch. The numbers of the places are below `most`.
fn add_named_below<const WORDS: usize>(
    days: &mut PeriodDays,
    skip: Skip,
    first: RataDie,
    length: u16,
    set: &PlaceSet<WORDS>,
    most: u16,
)
    requires first { IsBetween (neg_ℤ (pos 4000000000)) (pos 4000000000) first }
    requires most { (d : Place) → IsTrue (has_place set.now d) → number_of d < most }
    ensures { Adds days.old days.new (IsNamedBy set.now skip (stretch first length)) }
{
    for number in 0..most {
        add_named_in(days, skip, first, length, set, Place::FromFront(number));
        add_named_in(days, skip, first, length, set, Place::FromBack(number));
    }
}

/// Adds the days that days of the month name.
pub(crate) fn add_month_days(
    days: &mut PeriodDays,
    skip: Skip,
    first: RataDie,
    length: u16,
    set: &PlaceSet<1>,
)
    requires { IsBetween (neg_ℤ (pos 4000000000)) (pos 4000000000) first }
    ensures { Adds days.old days.new (IsNamedBy set.now skip (stretch first length)) }
{
    let words = set.words();
    add_named_below(days, skip, first, length, set, 64 * words as u16);
}

/// Adds the days that days of the year name.
pub(crate) fn add_year_days(
    days: &mut PeriodDays,
    skip: Skip,
    first: RataDie,
    length: u16,
    set: &PlaceSet<7>,
)
    requires { IsBetween (neg_ℤ (pos 4000000000)) (pos 4000000000) first }
    ensures { Adds days.old days.new (IsNamedBy set.now skip (stretch first length)) }
{
    let words = set.words();
    add_named_below(days, skip, first, length, set, 64 * words as u16);
}
