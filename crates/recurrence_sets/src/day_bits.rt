//! Days of a period as bits.

ghost use Rattle.std.specs.Prelude.{◌≡◌, ◌<◌, ◌≤◌, ◌*◌, ◌||◌, ◌&&◌, nat_le, nat_lt, min, ◌+◌, ◌-◌, ℕ, length, false, true, IfSome, MatchOption};
ghost use Rattle.cal_rule.specs.Sets.{has_bit, has_number};
ghost use Rattle.recurrence_sets.specs.Numbers.{IsFirstNumber, count_below};

/// Returns a word with the bits from one up to another, which isn't set itself.
const fn run_of_bits(from: u32, to: u32) -> u64
    requires order { from ≤ to }
    requires most { to ≤ 64 }
    ensures { (i : ℕ) → has_bit result i ≡ (nat_le from i && nat_lt i to) }
{
    if from == to {
        return 0;
    }
    (u64::MAX << from) & (u64::MAX >> (64 - to))
}

/// Returns where a word's bits begin and end that are those from one number up to another. The word's bits are the
/// numbers from `first` on.
const fn bounds_in_word(from: u32, to: u32, first: u32) -> (u32, u32)
    requires { from ≤ to }
    ensures order { result.0 ≤ result.1 }
    ensures most { result.1 ≤ 64 }
    ensures bits { (i : ℕ) → i < 64 →
        (nat_le result.0 i && nat_lt i result.1) ≡ (nat_le from (first + i) && nat_lt (first + i) to) }
{
    (
        least(from.saturating_sub(first), 64),
        least(to.saturating_sub(first), 64),
    )
}

/// Returns the lesser of two numbers.
const fn least(first: u32, second: u32) -> u32
    ensures { result ≡ min first second }
{
    if first < second { first } else { second }
}

/// Adds the numbers from one up to another, which isn't added itself.
pub(crate) fn add_run(words: &mut [u64], from: u32, to: u32)
    requires order { from ≤ to }
    requires few { length words.old ≤ 1000 }
    ensures numbers { (i : ℕ) → i < 64 * length words.old →
        has_number words.new i ≡ ((nat_le from i && nat_lt i to) || has_number words.old i) }
    ensures same_length { length words.new ≡ length words.old }
{
    for place in 0..words.len() {
        let (begin, end) = bounds_in_word(from, to, 64 * place as u32);
        words[place] |= run_of_bits(begin, end);
    }
}

/// Keeps the numbers that are in other words, too.
pub(crate) fn keep_common(words: &mut [u64], others: &[u64])
    requires { length others.now ≡ length words.old }
    ensures numbers { (i : ℕ) → i < 64 * length words.old →
        has_number words.new i ≡ (has_number words.old i && has_number others.now i) }
    ensures same_length { length words.new ≡ length words.old }
{
    for place in 0..words.len() {
        words[place] &= others[place];
    }
}

/// Returns the first bit of a word from a place on.
const fn first_bit(word: u64, from: u32) -> Option<u32>
    requires { from ≤ 64 }
    ensures { IsFirstNumber (has_bit word) from 64 result }
{
    if from == 64 {
        return None;
    }
    let rest = word & (u64::MAX << from);
    if rest == 0 {
        return None;
    }
    Some(rest.trailing_zeros())
}

/// Returns the first number of words from a number on.
pub(crate) fn first_number(words: &[u64], from: u32) -> Option<u32>
    requires { length words.now ≤ 1000 }
    ensures { IsFirstNumber (has_number words.now) from (64 * length words.now) result }
{
    for place in 0..words.len() {
        let first = 64 * place as u32;
        if let Some(bit) = first_bit(words[place], least(from.saturating_sub(first), 64)) {
            return Some(first + bit);
        }
    }
    None
}

/// Returns how many bits a word has below a place.
const fn bits_below(word: u64, to: u32) -> u32
    requires { to ≤ 64 }
    ensures count { result ≡ count_below (has_bit word) to }
    ensures few { result ≤ 64 }
{
    if to == 0 {
        return 0;
    }
    (word & (u64::MAX >> (64 - to))).count_ones()
}

/// Returns how many numbers words have below a number.
pub(crate) fn numbers_below(words: &[u64], to: u32) -> u32
    requires few { length words.now ≤ 1000 }
    requires within { to ≤ 64 * length words.now }
    ensures { result ≡ count_below (has_number words.now) to }
{
    let mut count = 0;
    for place in 0..words.len() {
        let first = 64 * place as u32;
        count += bits_below(words[place], least(to.saturating_sub(first), 64));
    }
    count
}
