//! A cursor over the words of the command line.
ghost use Rattle.std.specs.Prelude.{◌≡◌, [], ◌∷◌, MatchOption, IsTrue, ◌↔◌, map, string_bytes};
ghost use Rattle.std.specs.Option.{option_map};
ghost use Rattle.cal_kinds.specs.KindNames.{kind_named};
ghost use Rattle.cal_types.specs.Month.{month_read};
ghost use Rattle.cal_types.specs.MonthParts.{month_parts};
ghost use Rattle.request_lines.specs.Reading.{IsReading, next_word};
ghost use Rattle.word_values.specs.Numbers.{byte_of, int_of};
ghost use Rattle.command_line.specs.SpacedWords.{words_in};

use cal_kinds::AnyCalendarKind;
use cal_types::Month;
use word_values::{read_byte, read_int, read_month_code};

/// A cursor over the words of the command line: a list of words, or one text with a single space between two words.
#[derive(Clone, Copy)]
pub(crate) enum CommandWords<'a> {
    /// The words of a list.
    Listed(&'a [String]),
    /// The words of a text; `None` after the last one.
    Spaced(Option<&'a str>),
}

ghost use Rattle.command_line.specs.CommandWordsLeft.{words_behind, words_left};

/// Returns the first word of a list and the words after it. `None` exactly if the list is empty.
fn first_listed<'a>(words: &'a [String]) -> Option<(&'a [u8], &'a [String])>
    ensures { MatchOption result (map string_bytes words.now ≡ [])
        (λ p. map string_bytes words.now ≡ p.0.now ∷ map string_bytes p.1.now) }
{
    let (word, rest) = words.split_first()?;
    Some((word.as_bytes(), rest))
}

/// Returns the first word of a text, and the text after the space that ends the word.
fn first_spaced<'a>(text: &'a str) -> (&'a [u8], Option<&'a str>)
    ensures { words_in text.now ≡ result.0.now ∷ words_behind (option_map (λ rest. rest.now) result.1) }
{
    match text.split_once(' ') {
        Some((word, rest)) => (word.as_bytes(), Some(rest)),
        None => (text.as_bytes(), None),
    }
}

/// Returns whether a text has no word left.
fn is_behind(text: Option<&str>) -> bool
    ensures { IsTrue result ↔ (words_behind (option_map (λ rest. rest.now) text.entry) ≡ []) }
{
    match text {
        Some(_) => false,
        None => true,
    }
}

impl<'a> CommandWords<'a> {
    /// Creates a cursor before the first word of a list.
    pub(crate) fn new(words: &'a [String]) -> CommandWords<'a>
        ensures { words_left result ≡ map string_bytes words.now }
    {
        CommandWords::Listed(words)
    }

    /// Creates a cursor before the first word of a text.
    pub(crate) fn of_text(text: &'a str) -> CommandWords<'a>
        ensures { words_left result ≡ words_in text.now }
    {
        CommandWords::Spaced(Some(text))
    }

    /// Returns the next word. `None` exactly after the last.
    pub(crate) fn next(&mut self) -> Option<&'a [u8]>
        ensures { MatchOption result (words_left self.old ≡ [])
            (λ word. words_left self.old ≡ word.now ∷ words_left self.new) }
    {
        match *self {
            CommandWords::Listed(words) => {
                let (word, rest) = first_listed(words)?;
                *self = CommandWords::Listed(rest);
                Some(word)
            }
            CommandWords::Spaced(text) => {
                let (word, rest) = first_spaced(text?);
                *self = CommandWords::Spaced(rest);
                Some(word)
            }
        }
    }

    /// Returns whether no word is left.
    pub(crate) fn is_done(&self) -> bool
        ensures { IsTrue result ↔ (words_left self.now ≡ []) }
    {
        match self {
            CommandWords::Listed(words) => words.is_empty(),
            CommandWords::Spaced(text) => is_behind(*text),
        }
    }
}

/// Returns the kind of calendar that the next word names.
pub(crate) fn next_kind(words: &mut CommandWords) -> Option<AnyCalendarKind>
    ensures { IsReading (next_word kind_named (words_left words.old)) result (words_left words.new) }
{
    AnyCalendarKind::from_program_name(words.next()?)
}

/// Returns the month of the next word, which is a month code.
pub(crate) fn next_month(words: &mut CommandWords) -> Option<Month>
    ensures { let reading = next_word month_read (words_left words.old) in
        IsReading reading (option_map month_parts result) (words_left words.new) }
{
    read_month_code(words.next()?)
}

/// Returns the number of the next word, up to 255.
pub(crate) fn next_byte(words: &mut CommandWords) -> Option<u8>
    ensures { IsReading (next_word byte_of (words_left words.old)) result (words_left words.new) }
{
    read_byte(words.next()?)
}

/// Returns the number of the next word: an optional `-` and one to nine digits.
pub(crate) fn next_int(words: &mut CommandWords) -> Option<i32>
    ensures { IsReading (next_word int_of (words_left words.old)) result (words_left words.new) }
{
    read_int(words.next()?)
}
