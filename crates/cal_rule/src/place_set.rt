//! Sets of places that are counted from either end.

ghost use Rattle.std.specs.Prelude.{◌≡◌, ◌↔◌, IsTrue, ◌<◌, ◌*◌, ◌||◌, false};
ghost use Rattle.cal_rule.specs.Sets.{has_place, is_place, number_of};

use crate::bits::{add_number, has_no_number, number_in};

/// A place in a row, counted from 1.
#[derive(Clone, Copy, Debug, PartialEq, Eq)]
pub enum Place {
    /// Counted from the first on.
    FromFront(u16),
    /// Counted from the last back.
    FromBack(u16),
}

/// A set of places whose numbers are below 64 times `WORDS`.
#[derive(Clone, Copy, Debug, PartialEq)]
pub struct PlaceSet<const WORDS: usize> {
    /// A bit for each number that is counted from the front.
    front: [u64; WORDS],
    /// A bit for each number that is counted from the back.
    back: [u64; WORDS],
}

impl<const WORDS: usize> PlaceSet<WORDS> {
    /// Creates the empty set.
    pub const fn new() -> Self
        ensures { (place : Place) → has_place result place ≡ false }
    {
        PlaceSet {
            front: [0; WORDS],
            back: [0; WORDS],
        }
    }

    /// Returns `true` if the place is in the set.
    pub const fn contains(&self, place: Place) -> bool
        ensures { result ≡ has_place self.now place }
    {
        match place {
            Place::FromFront(number) => number_in(&self.front, number),
            Place::FromBack(number) => number_in(&self.back, number),
        }
    }

    /// Returns `true` if the set has no place.
    pub fn is_empty(&self) -> bool
        ensures { IsTrue result ↔ ((place : Place) → has_place self.now place ≡ false) }
    {
        let front = has_no_number(&self.front);
        let back = has_no_number(&self.back);
        front & back
    }

    /// Returns the number of words. The numbers of places are below 64 times as many.
    pub fn words(&self) -> usize
        ensures value { result ≡ WORDS }
        ensures bound { (place : Place) → IsTrue (has_place self.now place) → number_of place < 64 * WORDS }
    {
        let front: &[u64] = &self.front;
        let back: &[u64] = &self.back;
        if front.len() < back.len() {
            front.len()
        } else {
            back.len()
        }
    }

    /// Adds a place.
    pub(crate) const fn insert(&mut self, place: Place)
        requires { number_of place < 64 * WORDS }
        ensures { (other : Place) → has_place self.new other ≡ (is_place other place || has_place self.old other) }
    {
        match place {
            Place::FromFront(number) => add_number(&mut self.front, number),
            Place::FromBack(number) => add_number(&mut self.back, number),
        }
    }
}
