//! Places among the days of a period.

ghost use Rattle.std.specs.Prelude.{◌≡◌, ◌<◌, ◌+◌, ◌↔◌, ◌||◌, ◌&&◌, ◌==◌, ℕ, IsTrue, ℤ, false};
ghost use Rattle.cal_rule.specs.Sets.{has_number, has_place};
ghost use Rattle.cal_rule.specs.declared.place_set.Place.{Place};
ghost use Rattle.cal_rule.specs.declared.place_set.Place.TheVariants.{FromFront, FromBack};
ghost use Rattle.recurrence_sets.specs.Days.{HasPlaceAmong};
ghost use Rattle.recurrence_sets.specs.Numbers.{has_position};
ghost use Rattle.recurrence_sets.specs.PeriodBits.{has_day};

use crate::day_bits::{first_number, numbers_below};
use crate::period_days::PeriodDays;
use cal_rule::bits::add_number;
use cal_rule::{Place, PlaceSet};

/// Keeps the days whose place among the days of a set, from the front or from the back, is one of some places
/// (RFC 5545, BYSETPOS).
pub fn keep_places(days: &PeriodDays, positions: &PlaceSet<7>) -> PeriodDays
    ensures first { result.first ≡ days.now.first }
    ensures days { (n : ℤ) → IsTrue (has_day result n) ↔ (IsTrue (has_day days.now n)
        × (place : Place) × IsTrue (has_place positions.now place)
        × HasPlaceAmong (λ m. IsTrue (has_day days.now m)) n place) }
{
    let mut kept = PeriodDays::new(days.first);
    keep_numbers(&days.words, positions, &mut kept.words);
    kept
}

/// Adds the numbers to a set that has none, whose place among the numbers of another set is one of some places.
fn keep_numbers(numbers: &[u64; 7], positions: &PlaceSet<7>, kept: &mut [u64; 7])
    requires { (i : ℕ) → has_number kept.old i ≡ false }
    ensures { (i : ℕ) → has_number kept.new i
        ≡ (has_number numbers.now i && has_position positions.now (has_number numbers.now) 448 i) }
{
    let total = numbers_below(numbers, 448);
    let mut before = 0;
    let mut from = 0;
    'numbers: while let Some(number) = first_number(numbers, from) {
        add_if(kept, number, is_position(positions, before, total - before));
        before += 1;
        from = number + 1;
    }
}

/// Adds a number, if a test holds.
fn add_if(words: &mut [u64; 7], number: u32, holds: bool)
    requires { number < 448 }
    ensures { (i : ℕ) → has_number words.new i ≡ ((i == number && holds) || has_number words.old i) }
{
    if holds {
        add_number(words, number as u16);
    }
}

/// Returns whether a place is one of some places, given how many lie before it, and how many from it on.
fn is_position(positions: &PlaceSet<7>, before: u32, from: u32) -> bool
    requires before { before < 1000 }
    requires from { from < 1000 }
    ensures { result ≡ (has_place positions.now (FromFront (before + 1)) || has_place positions.now (FromBack from)) }
{
    let front = Place::FromFront(before as u16 + 1);
    let back = Place::FromBack(from as u16);
    positions.contains(front) || positions.contains(back)
}
