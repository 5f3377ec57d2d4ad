//! Sets of weekdays, all of them or by their place.

ghost use Rattle.std.specs.Prelude.{◌≡◌, ◌↔◌, ◌<◌, ◌||◌, IsTrue, false, not, Some};
ghost use Rattle.std.specs.List.{list_all};
ghost use Rattle.std.specs.Option.{ForSome};
ghost use Rattle.cal_rule.specs.Sets.{has_weekday, is_weekday_place, number_of};

use crate::bits::{bit_of, have_no_bits, with_bit};
use crate::place_set::Place;
use crate::weekdays::days_since_sunday;
use cal_types::Weekday;

/// A weekday of BYDAY.
#[derive(Clone, Copy, Debug, PartialEq)]
pub struct WeekdayPlace {
    /// The weekday.
    pub day: Weekday,
    /// Which of these weekdays of the month or year is meant; `None` if all are.
    pub ordinal: Option<Place>,
}

/// A set of weekdays, all of them or by their place in a month or year.
#[derive(Clone, Copy, Debug, PartialEq)]
pub struct WeekdayPlaces {
    /// Whether all days of a weekday are meant, from Sunday on.
    every: [bool; 7],
    /// For each weekday a bit for each ordinal that is counted from the front.
    front: [u64; 7],
    /// For each weekday a bit for each ordinal that is counted from the back.
    back: [u64; 7],
}

/// Returns whether none of some answers is `true`.
fn has_none(answers: &[bool]) -> bool
    ensures { result ≡ list_all (λ answer. not answer) answers.now }
{
    answers.iter().all(|answer| !*answer)
}

impl WeekdayPlaces {
    /// Creates the empty set.
    pub const fn new() -> Self
        ensures { (w : WeekdayPlace) → has_weekday result w ≡ false }
    {
        WeekdayPlaces {
            every: [false; 7],
            front: [0; 7],
            back: [0; 7],
        }
    }

    /// Returns `true` if the weekday is in the set with this ordinal, or without one.
    pub const fn contains(&self, weekday: WeekdayPlace) -> bool
        ensures { result ≡ has_weekday self.now weekday }
    {
        let place = days_since_sunday(weekday.day);
        match weekday.ordinal {
            None => self.every[place],
            Some(Place::FromFront(number)) => bit_of(self.front[place], number),
            Some(Place::FromBack(number)) => bit_of(self.back[place], number),
        }
    }

    /// Returns `true` if the set has no weekday.
    pub fn is_empty(&self) -> bool
        ensures { IsTrue result ↔ ((w : WeekdayPlace) → has_weekday self.now w ≡ false) }
    {
        let every = has_none(&self.every);
        let front = have_no_bits(&self.front);
        let back = have_no_bits(&self.back);
        every & front & back
    }

    /// Returns `true` if no weekday of the set has an ordinal.
    pub fn is_plain(&self) -> bool
        ensures { IsTrue result ↔ ((day : Weekday) (place : Place) →
            has_weekday self.now (record { day = day; ordinal = Some place }) ≡ false) }
    {
        let front = have_no_bits(&self.front);
        let back = have_no_bits(&self.back);
        front & back
    }

    /// Adds a weekday with its ordinal.
    pub(crate) const fn insert(&mut self, weekday: WeekdayPlace)
        requires { ForSome weekday.ordinal (λ place. number_of place < 64) }
        ensures { (w : WeekdayPlace) →
            has_weekday self.new w ≡ (is_weekday_place w weekday || has_weekday self.old w) }
    {
        match weekday.ordinal {
            None => self.every[days_since_sunday(weekday.day)] = true,
            Some(place) => self.insert_place(weekday.day, place),
        }
    }

    /// Adds a weekday with an ordinal.
    const fn insert_place(&mut self, day: Weekday, place: Place)
        requires { number_of place < 64 }
        ensures { (w : WeekdayPlace) → has_weekday self.new w
            ≡ (is_weekday_place w (record { day = day; ordinal = Some place }) || has_weekday self.old w) }
    {
        let days = days_since_sunday(day);
        match place {
            Place::FromFront(number) => self.front[days] = with_bit(self.front[days], number),
            Place::FromBack(number) => self.back[days] = with_bit(self.back[days], number),
        }
    }
}
