//! A cursor over the words of a line.
ghost use Rattle.std.specs.Prelude.{◌≡◌, ◌≤◌, ◌<◌, ◌==◌, IfSome, Some, position, length, take, ◌∷◌};
ghost use Rattle.request_lines.specs.WordsLeft.{words_from};
ghost use Rattle.word_values.specs.Numbers.{number_of};
ghost use Rattle.request_lines.specs.Words.{words_of};
ghost use Rattle.request_lines.specs.Reading.{next_word};

use crate::plain_words::{
    PlainMonth, four_digits, plain_day, plain_year, plain_year_and_month, two_digits,
};
use word_values::leading_digits;

fn first_space(text: &[u8]) -> Option<usize>
    ensures value { result ≡ position (λ b. b == 32) text.now }
    ensures within { IfSome result (λ i. i < length text.now) }
{
    text.iter().position(|b| *b == b' ')
}

/// Returns the first word, and the text of the other words if there are any.
fn cut(text: &[u8]) -> (&[u8], Option<&[u8]>)
    ensures { words_of text.now ≡ result.0.now ∷ words_from result.1 }
{
    match first_space(text) {
        Some(i) => (&text[..i], Some(&text[i + 1..])),
        None => (text, None),
    }
}

/// Returns the first `most` bytes of a text, or all of a shorter text.
fn first_bytes(text: &[u8], most: usize) -> &[u8]
    ensures { result.now ≡ take most text.now }
{
    if text.len() <= most {
        text
    } else {
        &text[..most]
    }
}

/// A cursor over the words of a line. One space separates two words, so there is an empty word between two spaces and
/// after a space at the line's end. An empty line is one empty word.
#[derive(Drop)]
pub struct Words<'a> {
    rest: Option<&'a [u8]>,
}

impl<'a> Words<'a> {
    ghost use Rattle.std.specs.Prelude.{[], MatchOption, IsTrue, ◌↔◌, true, false};
    ghost use Rattle.std.specs.List.{list_all};
    ghost use Rattle.request_lines.specs.WordsLeft.{words_left};
    ghost use Rattle.request_lines.specs.Reading.{IsReading};
    ghost use Rattle.request_lines.specs.Bags as bags;
    ghost use Rattle.request_lines.specs.Bags.{field_read};
    ghost use Rattle.request_lines.specs.PlainDates.{SaysMonth};
    ghost use Rattle.request_lines.specs.Taking.{is_no_space, after_key, after_word, IsTaken};

    /// Creates a cursor before the first word of a line.
    pub fn new(line: &'a [u8]) -> Self
        ensures { words_left result ≡ words_of line.now }
    {
        Words { rest: Some(line) }
    }

    /// Returns the next word. `None` exactly after the last.
    pub fn next(&mut self) -> Option<&'a [u8]>
        ensures { MatchOption result (words_left self.old ≡ [])
            (λ word. words_left self.old ≡ word.now ∷ words_left self.new) }
    {
        let (word, others) = cut(self.rest?);
        self.rest = others;
        Some(word)
    }

    /// Returns the number of the next word, one to `most` digits. `None` if it isn't of that form.
    pub fn next_number(&mut self, most: usize) -> Option<u32>
        requires { most ≤ 9 }
        ensures value { let reading = next_word (number_of most) (words_left self.old) in
            IsReading reading result (words_left self.new) }
        ensures small { IfSome result (λ n. n < 1000000000) }
    {
        let text = self.rest?;
        let (count, value) = leading_digits(first_bytes(text, most));
        if count == 0 {
            return None;
        }
        match text[count..].split_first() {
            None => {
                self.rest = None;
                Some(value)
            }
            Some((first, others)) => {
                if *first != b' ' {
                    return None;
                }
                self.rest = Some(others);
                Some(value)
            }
        }
    }

    /// Takes the next word if it is four digits, and others come behind it. Returns their number.
    #[inline(always)]
    pub(crate) fn take_four_digits(&mut self) -> Option<u32>
        ensures value { MatchOption result (words_left self.new ≡ words_left self.old)
            (λ n. next_word (number_of 9) (words_left self.old) ≡ Some (n, words_left self.new)) }
        ensures small { IfSome result (λ n. n < 10000) }
    {
        let (number, others) = four_digits(self.rest?)?;
        self.rest = Some(others);
        Some(number)
    }

    /// Takes the next word if it is two digits. Returns their number.
    #[inline(always)]
    pub(crate) fn take_two_digits(&mut self) -> Option<u32>
        ensures value { MatchOption result (words_left self.new ≡ words_left self.old)
            (λ n. next_word (number_of 3) (words_left self.old) ≡ Some (n, words_left self.new)) }
        ensures small { IfSome result (λ n. n < 100) }
    {
        let (number, others) = two_digits(self.rest?)?;
        self.rest = others;
        Some(number)
    }

    /// Takes the next word if it is `year=` with four digits, and others come behind it. Returns the year.
    #[inline(always)]
    pub(crate) fn take_plain_year(&mut self) -> Option<i32>
        ensures { MatchOption result (words_left self.new ≡ words_left self.old)
            (λ y. next_word field_read (words_left self.old) ≡ Some (bags.ExtendedYear y, words_left self.new)) }
    {
        let (year, others) = plain_year(self.rest?)?;
        self.rest = Some(others);
        Some(year)
    }

    /// Takes the next two words if they are `year=DDDD month=MDD`, each `D` a digit, and others come behind them.
    /// Returns the year and the month.
    #[inline(always)]
    pub(crate) fn take_plain_year_and_month(&mut self) -> Option<PlainMonth>
        ensures { MatchOption result (words_left self.new ≡ words_left self.old)
            (λ m. SaysMonth (words_left self.old) m (words_left self.new)) }
    {
        let (month, others) = plain_year_and_month(self.rest?)?;
        self.rest = Some(others);
        Some(month)
    }

    /// Takes the next word if it is `day=` with one or two digits. Returns the day.
    #[inline(always)]
    pub(crate) fn take_plain_day(&mut self) -> Option<u8>
        ensures { MatchOption result (words_left self.new ≡ words_left self.old)
            (λ d. next_word field_read (words_left self.old) ≡ Some (bags.Day d, words_left self.new)) }
    {
        let (day, rest) = plain_day(self.rest?)?;
        self.rest = rest;
        Some(day)
    }

    /// Returns whether no word is left.
    pub fn is_done(&self) -> bool
        ensures { IsTrue result ↔ (words_left self.now ≡ []) }
    {
        self.rest.is_none()
    }

    /// Takes `key`, which must not contain a space, off the start of the next word. Returns whether the word begins
    /// with it.
    pub fn take_key(&mut self, key: &[u8]) -> bool
        requires { list_all is_no_space key.now ≡ true }
        ensures { let old = words_left self.old in
            IsTaken result (after_key key.now old) old (words_left self.new) }
    {
        let Some(text) = self.rest else {
            return false;
        };
        match text.strip_prefix(key) {
            Some(value) => {
                self.rest = Some(value);
                true
            }
            None => false,
        }
    }

    /// Takes the next word if it is `word`, which must not contain a space. Returns whether it was taken.
    pub fn take(&mut self, word: &[u8]) -> bool
        requires { list_all is_no_space word.now ≡ true }
        ensures { let old = words_left self.old in
            IsTaken result (after_word word.now old) old (words_left self.new) }
    {
        let Some(text) = self.rest else {
            return false;
        };
        let Some(behind) = text.strip_prefix(word) else {
            return false;
        };
        match behind.split_first() {
            None => {
                self.rest = None;
                true
            }
            Some((first, others)) => {
                if *first != b' ' {
                    return false;
                }
                self.rest = Some(others);
                true
            }
        }
    }

    /// Takes the next word if it is `word`, as `take` does. Its length is known when the program is built, so that the
    /// comparison becomes a test or two.
    #[inline(always)]
    pub(crate) fn take_known<const N: usize>(&mut self, word: &[u8; N]) -> bool
        requires { list_all is_no_space word.now ≡ true }
        ensures { let old = words_left self.old in
            IsTaken result (after_word word.now old) old (words_left self.new) }
    {
        let Some(text) = self.rest else {
            return false;
        };
        let Some((first, behind)) = text.split_first_chunk::<N>() else {
            return false;
        };
        if *first != *word {
            return false;
        }
        match behind.split_first() {
            None => {
                self.rest = None;
                true
            }
            Some((next, others)) => {
                if *next != b' ' {
                    return false;
                }
                self.rest = Some(others);
                true
            }
        }
    }
}
