//! The days of a period, as bits.

ghost use Rattle.std.specs.Prelude.{◌≡◌, ◌||◌, ◌&&◌, false, int_le, int_lt, pos, ℕ, ◌<◌, ◌≤◌, IsTrue, ℤ, ◌+ℤ◌, ◌≤ℤ◌, ◌<ℤ◌};
ghost use Rattle.recurrence_sets.specs.Days.{HasCount, IsFirstBetween};
ghost use Rattle.recurrence_sets.specs.PeriodBits.{has_day};

use crate::day_bits::{add_run, first_number, keep_common, numbers_below};
use cal_days::RataDie;
use cal_rule::bits::number_in;

/// Some of 448 days in a row.
///
/// The longest period is a year of 385 days, with one day before it, and a month of 31 days and one day behind it.
#[derive(Clone, Copy, Debug, PartialEq)]
pub struct PeriodDays {
    /// The first of the days in a row.
    pub first: RataDie,
    /// A bit for each day, from the first on.
    pub words: [u64; 7],
}

/// How many days there are in a row.
const DAYS: i64 = 448;

impl PeriodDays {
    /// Creates the set of no day, of 448 days from a first one on.
    pub const fn new(first: RataDie) -> Self
        ensures first { result.first ≡ first }
        ensures none { (n : ℤ) → has_day result n ≡ false }
    {
        PeriodDays {
            first,
            words: [0; 7],
        }
    }

    /// Returns whether a day is in the set.
    pub fn contains(&self, day: RataDie) -> bool
        ensures { result ≡ has_day self.now day }
    {
        let offset = day.since(self.first);
        if offset < 0 || offset >= DAYS {
            return false;
        }
        number_in(&self.words, offset as u16)
    }

    /// Adds the days from one up to another, which isn't added itself. All of them are among the 448 days.
    pub fn insert_run(&mut self, from: RataDie, to: RataDie)
        requires first { self.old.first ≤ℤ from }
        requires order { from ≤ℤ to }
        requires last { to ≤ℤ (self.old.first +ℤ pos 448) }
        ensures first { self.new.first ≡ self.old.first }
        ensures days { (n : ℤ) → n <ℤ (self.old.first +ℤ pos 448) →
            has_day self.new n ≡ ((int_le from n && int_lt n to) || has_day self.old n) }
    {
        let begin = from.since(self.first) as u32;
        let end = to.since(self.first) as u32;
        add_run(&mut self.words, begin, end);
    }

    /// Keeps the days that are in another set of the same 448 days, too.
    pub fn keep_common(&mut self, other: &PeriodDays)
        requires { other.now.first ≡ self.old.first }
        ensures first { self.new.first ≡ self.old.first }
        ensures days { (n : ℤ) → n <ℤ (self.old.first +ℤ pos 448) →
            has_day self.new n ≡ (has_day self.old n && has_day other.now n) }
        ensures row { (n : ℤ) → IsTrue (has_day self.new n) →
            (self.old.first ≤ℤ n) × (n <ℤ (self.old.first +ℤ pos 448)) }
    {
        keep_common(&mut self.words, &other.words);
    }

    /// Returns the first day of the set from one day to another.
    pub fn first_between(&self, first: RataDie, last: RataDie) -> Option<RataDie>
        ensures { IsFirstBetween (λ n. IsTrue (has_day self.now n)) first last result }
    {
        let offset = first_number(&self.words, self.offset_of(first))?;
        let day = self.first.to_i64_date() + i64::from(offset);
        if day > last.to_i64_date() {
            return None;
        }
        Some(RataDie::new(day))
    }

    /// Returns how many days of the set are before a day.
    pub fn count_before(&self, day: RataDie) -> u32
        ensures { HasCount (λ n. IsTrue (has_day self.now n) × (n <ℤ day)) result }
    {
        numbers_below(&self.words, self.offset_of(day))
    }

    /// Returns how many of the 448 days are before a day.
    fn offset_of(&self, day: RataDie) -> u32
        ensures most { result ≤ 448 }
        ensures before { (i : ℕ) → i < result → (self.now.first +ℤ pos i) <ℤ day }
        ensures from { (i : ℕ) → i < 448 → result ≤ i → day ≤ℤ (self.now.first +ℤ pos i) }
    {
        let offset = day.since(self.first);
        if offset < 0 {
            return 0;
        }
        if offset > DAYS {
            return DAYS as u32;
        }
        offset as u32
    }
}
