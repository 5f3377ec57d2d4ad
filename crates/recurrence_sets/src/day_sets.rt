//! More calls on the days of a period: days that needn't be among the 448, and sets of days.

ghost use Rattle.std.specs.Prelude.{◌≡◌, ◌||◌, ◌&&◌, IsTrue, ◌*◌, ◌<◌, ◌≤◌, ℕ, nat_le, nat_lt, int_le, int_lt, length, pos, ℤ, ◌+ℤ◌, ◌≤ℤ◌, ◌<ℤ◌};
ghost use Rattle.std.specs.Ordering.{int_eq};
ghost use Rattle.cal_rule.specs.Sets.{has_number};
ghost use Rattle.recurrence_sets.specs.PeriodBits.{has_day};

use crate::day_bits::add_run;
use crate::period_days::PeriodDays;
use cal_days::RataDie;
use cal_rule::bits::add_number;

/// Returns how many of 448 days in a row, from a first one on, lie before a day.
fn days_before(first: RataDie, day: RataDie) -> u32
    ensures most { result ≤ 448 }
    ensures low { (i : ℕ) → i < 448 → nat_le result i ≡ int_le day (first +ℤ pos i) }
    ensures high { (i : ℕ) → i < 448 → nat_lt i result ≡ int_lt (first +ℤ pos i) day }
{
    let offset = day.since(first);
    if offset < 0 {
        return 0;
    }
    if offset > 448 {
        return 448;
    }
    offset as u32
}

/// Adds the numbers of other words.
fn add_all(words: &mut [u64], others: &[u64])
    requires { length others.now ≡ length words.old }
    ensures numbers { (i : ℕ) → i < 64 * length words.old →
        has_number words.new i ≡ (has_number others.now i || has_number words.old i) }
    ensures same_length { length words.new ≡ length words.old }
{
    for place in 0..words.len() {
        words[place] |= others[place];
    }
}

impl PeriodDays {
    /// Adds the days from one up to another, which isn't added itself. Days that aren't among the 448 are left out.
    pub fn insert_days(&mut self, from: RataDie, to: RataDie)
        ensures first { self.new.first ≡ self.old.first }
        ensures days { (n : ℤ) → self.old.first ≤ℤ n → n <ℤ (self.old.first +ℤ pos 448) →
            has_day self.new n ≡ ((int_le from n && int_lt n to) || has_day self.old n) }
    {
        let begin = days_before(self.first, from);
        let end = days_before(self.first, to);
        if begin < end {
            add_run(&mut self.words, begin, end);
        }
    }

    /// Adds a day if it is among the 448.
    pub fn insert_day(&mut self, day: RataDie)
        ensures first { self.new.first ≡ self.old.first }
        ensures days { (n : ℤ) → self.old.first ≤ℤ n → n <ℤ (self.old.first +ℤ pos 448) →
            has_day self.new n ≡ (int_eq n day || has_day self.old n) }
    {
        let offset = day.since(self.first);
        if 0 <= offset && offset < 448 {
            add_number(&mut self.words, offset as u16);
        }
    }

    /// Adds the days of another set of the same 448 days.
    pub fn insert_all(&mut self, other: &PeriodDays)
        requires { other.now.first ≡ self.old.first }
        ensures first { self.new.first ≡ self.old.first }
        ensures days { (n : ℤ) → n <ℤ (self.old.first +ℤ pos 448) →
            has_day self.new n ≡ (has_day other.now n || has_day self.old n) }
    {
        add_all(&mut self.words, &other.words);
    }

    /// Keeps the days from one up to another, which isn't kept itself.
    pub fn keep_days(&mut self, from: RataDie, to: RataDie)
        ensures first { self.new.first ≡ self.old.first }
        ensures days { (n : ℤ) → self.old.first ≤ℤ n → n <ℤ (self.old.first +ℤ pos 448) →
            has_day self.new n ≡ (has_day self.old n && (int_le from n && int_lt n to)) }
        ensures row { (n : ℤ) → IsTrue (has_day self.new n) →
            (self.old.first ≤ℤ n) × (n <ℤ (self.old.first +ℤ pos 448)) }
    {
        let mut run = PeriodDays::new(self.first);
        run.insert_days(from, to);
        self.keep_common(&run);
    }
}
