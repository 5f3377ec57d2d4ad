//! The words of `convert`.
ghost use Rattle.std.specs.Prelude.{◌≡◌};
ghost use Rattle.std.specs.Option.{option_map};
ghost use Rattle.request_lines.specs.Reading.{IsReading, next_word};
ghost use Rattle.command_line.specs.CommandWordsLeft.{words_left};
ghost use Rattle.command_line.specs.ConvertAsked.{convert_read, overflow_named};

use crate::command_words::{CommandWords, next_kind};
use cal_kinds::AnyCalendarKind;
use cal_types::Overflow;

/// The arguments of `convert`: `CALENDAR SHOWN constrain|reject`.
#[derive(Clone, Copy, Debug)]
pub struct ConvertWords {
    /// The calendar of the dates that are read.
    pub calendar: AnyCalendarKind,
    /// The calendar of the dates that are written.
    pub shown: AnyCalendarKind,
    /// How to handle a month or a day that doesn't exist.
    pub overflow: Overflow,
}

ghost use Rattle.command_line.specs.ConvertSaid.{convert_said};

/// Reads a word, `constrain` or `reject`. `None` if it is neither.
pub(crate) fn read_overflow(word: &[u8]) -> Option<Overflow>
    ensures { result ≡ overflow_named word.now }
{
    if word == b"constrain".as_slice() {
        return Some(Overflow::Constrain);
    }
    if word == b"reject".as_slice() {
        Some(Overflow::Reject)
    } else {
        None
    }
}

/// Reads the next word, `constrain` or `reject`.
fn next_overflow(words: &mut CommandWords) -> Option<Overflow>
    ensures { IsReading (next_word overflow_named (words_left words.old)) result (words_left words.new) }
{
    read_overflow(words.next()?)
}

/// Reads the arguments of `convert`. `None` exactly if the next words don't have their form.
#[tactic(auto, unfolding(crate::specs::ConvertAsked::convert_read))]
pub(crate) fn read_convert(words: &mut CommandWords) -> Option<ConvertWords>
    ensures { let reading = convert_read (words_left words.old) in
        IsReading reading (option_map convert_said result) (words_left words.new) }
{
    let calendar = next_kind(words)?;
    let shown = next_kind(words)?;
    let overflow = next_overflow(words)?;
    Some(ConvertWords {
        calendar,
        shown,
        overflow,
    })
}
