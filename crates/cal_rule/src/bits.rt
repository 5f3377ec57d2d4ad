//! Sets of numbers as bits of words.

ghost use Rattle.std.specs.Prelude.{◌≡◌, ◌↔◌, ◌<◌, ◌*◌, ◌||◌, ◌==◌, IsTrue, false, ℕ, get_or, length};
ghost use Rattle.std.specs.List.{list_all};
ghost use Rattle.cal_rule.specs.Sets.{has_bit, has_number};

/// Returns a word with a bit set.
pub const fn with_bit(word: u64, bit: u16) -> u64
    requires { bit < 64 }
    ensures { (i : ℕ) → has_bit result i ≡ (i == bit || has_bit word i) }
{
    word | (1 << bit)
}

/// Returns whether a bit of a word is set.
pub const fn bit_of(word: u64, bit: u16) -> bool
    ensures { result ≡ has_bit word bit }
{
    bit < 64 && (word >> bit) & 1 == 1
}

/// Returns whether a number is in the words of a set.
pub const fn number_in(words: &[u64], number: u16) -> bool
    ensures { result ≡ has_number words.now number }
{
    let place = (number / 64) as usize;
    place < words.len() && bit_of(words[place], number % 64)
}

/// Adds a number to the words of a set.
pub const fn add_number(words: &mut [u64], number: u16)
    requires { number < 64 * length words.old }
    ensures numbers { (i : ℕ) → has_number words.new i ≡ (i == number || has_number words.old i) }
    ensures same_length { length words.new ≡ length words.old }
{
    let place = (number / 64) as usize;
    words[place] = with_bit(words[place], number % 64);
}

/// Returns whether a word has no bit.
pub const fn has_no_bit(word: u64) -> bool
    ensures { IsTrue result ↔ ((i : ℕ) → has_bit word i ≡ false) }
{
    word == 0
}

/// Returns whether all words are 0.
fn are_zero(words: &[u64]) -> bool
    ensures { result ≡ list_all (λ w. w == 0) words.now }
{
    words.iter().all(|word| *word == 0)
}

/// Returns whether the words of a set have no number.
pub fn has_no_number(words: &[u64]) -> bool
    ensures { IsTrue result ↔ ((i : ℕ) → has_number words.now i ≡ false) }
{
    are_zero(words)
}

/// Returns whether no word has a bit.
pub(crate) fn have_no_bits(words: &[u64]) -> bool
    ensures { IsTrue result ↔ ((p i : ℕ) → has_bit (get_or words.now p 0) i ≡ false) }
{
    are_zero(words)
}
